// The blocks of objects.

use block_mem::{Memory, Pointer, Scalar, Value};
use c_syntax::{Object, Spot};
use std::alloc::{AllocError as NoMemory, Global};
use std::marker::Model;

/// The memory of a program's objects: their blocks, the object of each block, and the block of each
/// object that lives, by the numbers of blocks and objects.
#[derive(Drop)]
pub struct ObjectMemory {
    pub(crate) blocks: Memory,
    owners: Vec<u64>,
    pub(crate) places: Vec<Option<u64>>,
}

impl Model for ObjectMemory {
    ghost use Rattle.std.specs.Prelude.{◌≡◌, ◌<◌, ℕ, length, Some};
    ghost use Rattle.c_values.specs.Places as spots;
    ghost use Rattle.c_objects.specs.Kept.{IsWellFormed};

    ghost Value = { spots.ObjectMemory };

    ghost view = { λ m. record { blocks = m.blocks; owners = m.owners.items; places = m.places.items } };

    ghost invariant = { λ m. IsWellFormed (record { blocks = m.blocks; owners = m.owners.items; places = m.places.items }) };
}

impl ObjectMemory {
    ghost use Rattle.std.specs.Prelude.{◌≡◌, ◌<◌, List, length, map, None, Some, IfOk, OnErr, OnOk};
    ghost use Rattle.block_mem.specs.Bytes.{IsOf};
    ghost use Rattle.block_mem.specs.Proper.{IsMade};
    ghost use Rattle.c_syntax.specs.Types.{object_tree};
    ghost use Rattle.c_values.specs.Places.{place_of, spot, spot_at};
    ghost use Rattle.c_values.specs.Typed.{IsNear};
    ghost use Rattle.c_objects.specs.Opening as opening;
    ghost use Rattle.c_objects.specs.Opening.{no_objects, opened};

    /// Memory of so many objects, of which none lives.
    pub fn new(alloc: Global, count: usize) -> Result<ObjectMemory, NoMemory>
        ensures { IfOk result (λ m. m ≡ no_objects count) }
    {
        let places = vec![in alloc; None; count]?;
        Ok(ObjectMemory {
            blocks: Memory::new(alloc),
            owners: Vec::new(alloc),
            places,
        })
    }

    /// The same memory once more.
    pub fn try_clone(&self) -> Result<ObjectMemory, NoMemory>
        ensures { IfOk result (λ m. m ≡ self.now) }
    {
        Ok(ObjectMemory {
            blocks: self.blocks.try_clone()?,
            owners: self.owners.clone()?,
            places: self.places.clone()?,
        })
    }

    /// Makes the block of an object, without values. After `NoMemory` the memory is as it was.
    pub fn open(&mut self, objects: &[Object], object: u64) -> Result<(), NoMemory>
        requires { object < length self.old.places }
        ensures opened { OnOk result (self.new ≡ opened (map object_tree objects.now) self.old object) }
        ensures no_memory { OnErr result (self.new ≡ self.old) }
    {
        let (size, read_only) = match objects.get(object as usize) {
            Some(object) => (object.size, object.read_only),
            None => (0, false),
        };
        self.owners.push(object)?;
        match self.blocks.alloc_block(size, read_only) {
            Ok(block) => {
                self.places[object as usize] = Some(block);
                Ok(())
            }
            Err(_) => {
                self.owners.pop();
                Err(NoMemory)
            }
        }
    }

    /// Ends an object: its block dies, if it has one.
    pub fn shut(&mut self, object: u64)
        requires { object < length self.old.places }
        ensures { self.new ≡ opening.shut self.old object }
    {
        if let Some(block) = self.places[object as usize] {
            self.blocks.free_block(block);
        }
        self.places[object as usize] = None;
    }

    /// How many blocks were made.
    pub fn count(&self) -> u64
        ensures { result ≡ length self.now.blocks }
    {
        self.blocks.count()
    }

    /// Where a pointer points.
    pub fn spot(&self, v: Value) -> Spot
        requires pointer { IsOf Scalar.Pointer v }
        requires made { IsMade (length self.now.blocks) v }
        ensures spot { spot self.now v ≡ Some result }
        ensures near { IsNear result }
    {
        match v {
            Value::Ptr(pointer) => self.spot_at(pointer),
            _ => Spot::Null,
        }
    }

    /// Where a pointer to a block points.
    pub fn spot_at(&self, at: Pointer) -> Spot
        requires { at.block < length self.now.blocks }
        ensures spot { result ≡ spot_at self.now at }
        ensures near { IsNear result }
    {
        if self.blocks.is_live(at.block) {
            Spot::At(self.owners[at.block as usize], i128::from(at.offset))
        } else {
            Spot::Dead
        }
    }
}
