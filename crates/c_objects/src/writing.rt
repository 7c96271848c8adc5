// Initialisers, copies, and objects that begin and end together.
ghost use Rattle.std.specs.Prelude.{◌≡◌, ◌<◌, ◌^◌, All, length, IfSome, IsSome, OnOk, Some, map};
ghost use Rattle.block_mem.specs.Bytes.{IsOf};
ghost use Rattle.block_mem.specs.Proper.{IsMade};
ghost use Rattle.c_syntax.specs.Types.{object_tree};
ghost use Rattle.c_values.specs.Places.{place_of};
ghost use Rattle.c_objects.specs.Opening as opening;
ghost use Rattle.c_objects.specs.Writing.{stored_at, copied_at};

use crate::memory::ObjectMemory;
use block_mem::{Pointer, Scalar, Value};
use c_syntax::Object;
use std::alloc::AllocError as NoMemory;

impl ObjectMemory {
    /// Makes the blocks of objects, in their order. After `NoMemory` some of them may live.
    pub fn open_all(&mut self, objects: &[Object], opened: &[u64]) -> Result<(), NoMemory>
        requires { All (λ object. object < length self.old.places) opened.now }
        ensures { OnOk result (self.new ≡ opening.open_all (map object_tree objects.now) self.old opened.now) }
    {
        for object in opened {
            self.open(objects, *object)?;
        }
        Ok(())
    }

    /// Ends objects, in their order.
    pub fn shut_all(&mut self, shut: &[u64])
        requires { All (λ object. object < length self.old.places) shut.now }
        ensures { self.new ≡ opening.shut_all self.old shut.now }
    {
        for object in shut {
            self.shut(*object);
        }
    }

    /// A pointer to an offset in an object that lives.
    pub fn address(&self, object: u64, offset: u64) -> Value
        requires lives { IsSome (place_of self.now object) }
        requires offset { offset < 2 ^ 63 }
        ensures address { opening.address self.now object offset ≡ Some result }
        ensures made { IsMade (length self.now.blocks) result }
    {
        match self.place(object) {
            Some(block) => Value::Ptr(Pointer {
                block,
                offset: offset as i64,
            }),
            None => Value::Null,
        }
    }

    /// The block of an object that lives.
    pub fn place(&self, object: u64) -> Option<u64>
        ensures place { result ≡ place_of self.now object }
        ensures made { IfSome result (λ block. block < length self.now.blocks) }
    {
        match self.places.get(object as usize) {
            Some(Some(block)) => Some(*block),
            _ => None,
        }
    }

    /// Takes the value of each byte of an object that lives away.
    pub fn undefine(&mut self, object: u64)
        requires { IsSome (place_of self.old object) }
        ensures { opening.undefined self.old object ≡ Some self.new }
    {
        if let Some(block) = self.place(object) {
            self.blocks.undefine(block);
        }
    }

    /// Puts in a value of a type where an object is initialised, in a read-only object too. The
    /// place is one that a load could read.
    pub fn initialise(&mut self, ty: Scalar, place: Value, v: Value)
        requires typed { IsOf ty v }
        requires place_made { IsMade (length self.old.blocks) place }
        requires made { IsMade (length self.old.blocks) v }
        requires inside { IsSome (stored_at self.old ty place v) }
        ensures { stored_at self.old ty place v ≡ Some self.new }
    {
        if let Value::Ptr(at) = place {
            self.blocks.put(at, ty, v);
        }
    }

    /// Copies so many bytes from one place to another, which may overlap.
    pub fn copy(&mut self, to: Value, from: Value, size: u64)
        requires target_made { IsMade (length self.old.blocks) to }
        requires source_made { IsMade (length self.old.blocks) from }
        requires inside { IsSome (copied_at self.old to from size) }
        ensures { copied_at self.old to from size ≡ Some self.new }
    {
        if let Value::Ptr(to) = to {
            if let Value::Ptr(from) = from {
                self.blocks.copy(to, from, size);
            }
        }
    }
}
