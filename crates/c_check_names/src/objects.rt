// Objects and their sizes, and the literals among them.

ghost use Rattle.std.specs.Prelude.{◌≡◌, IfOk};
ghost use Rattle.c_syntax.specs.Types.{ctype_tree, object_tree};
ghost use Rattle.c_typing.specs.Names as names;

use crate::error::NameError;
use crate::world::World;
use c_syntax::{CType, InitByte, InitBytes, Initial, IntType, Object, Target};
use c_syntax_written::{Name, Pos};
use std::alloc::{AllocError as NoMemory, Global};
use std::rc::Rc;

/// The greatest size of an object, in bytes.
pub const OBJECT_LIMIT: u64 = 4096;

/// The greatest size of all objects together, in bytes.
const TOTAL_LIMIT: u64 = 65536;

impl World {
    ghost use Rattle.std.specs.Prelude.{◌≡◌, ◌≤◌, ◌+◌, ◌<◌, ◌^◌, length, OnOk};
    ghost use Rattle.c_syntax.specs.Types.{object_tree};
    ghost use Rattle.c_typing.specs.Names as names;
    ghost use Rattle.c_typing.specs.World as typing;
    ghost use Rattle.c_check_names.specs.Worlds.{world_of, ComesTo};

    /// Whether the program may have one more object of so many bytes.
    pub fn check_size(&self, at: Pos, size: u64) -> Result<(), NameError>
        ensures limits { ComesTo (names.within_limits at size (world_of self.now) (typing.Typed tt (world_of self.now))) (world_of self.now) result }
        ensures fits { OnOk result ((size ≤ names.object_limit) × (self.now.total + size ≤ names.total_limit)) }
    {
        if size > OBJECT_LIMIT {
            return Err(NameError::ObjectTooLarge(at, size));
        }
        let total = self.total + size;
        if total > TOTAL_LIMIT {
            return Err(NameError::TotalTooLarge(at, total));
        }
        Ok(())
    }

    /// Adds an object, which counts among the sizes. Once out of memory the program is only dropped.
    pub fn add_object(&mut self, object: Object) -> Result<(), NoMemory>
        requires { self.old.total + object.size ≤ names.total_limit }
        ensures { OnOk result (world_of self.new ≡ names.with_object (world_of self.old) (object_tree object)) }
    {
        let size = object.size;
        self.objects.push(object)?;
        self.total += size;
        Ok(())
    }

    /// Gives an object its bytes at the start. Once out of memory the program is only dropped.
    pub fn add_initial(&mut self, object: u64, bytes: InitBytes) -> Result<(), NoMemory>
        ensures { OnOk result (world_of self.new ≡ names.with_initial (world_of self.old) object bytes) }
    {
        self.initial.push(Initial { object, bytes })?;
        Ok(())
    }

    /// Adds the object of a string literal of these bytes, to which a zero is added: its number. After
    /// out of memory the program is only dropped.
    pub fn add_literal(&mut self, at: Pos, bytes: &[u8]) -> Result<u64, NameError>
        ensures { ComesTo (names.within_limits at (length bytes.now + 1) (world_of self.old)
            (typing.Typed (length self.old.objects.items) (names.with_literal (world_of self.old) at bytes.now))) (world_of self.new) result }
    {
        let size = bytes.len() as u64 + 1;
        self.check_size(at, size)?;
        let number = self.objects.len() as u64;
        let object = literal_object(self.alloc, at, size)?;
        let bytes = literal_bytes(self.alloc, bytes)?;
        self.add_object(object)?;
        self.add_initial(number, bytes)?;
        Ok(number)
    }
}

// The object of a string literal of so many bytes, its closing zero among them.
fn literal_object(alloc: Global, at: Pos, size: u64) -> Result<Object, NoMemory>
    ensures { IfOk result (λ object. object_tree object ≡ names.literal_object at size) }
{
    let name = Name::from_vec(Vec::from_slice(alloc, b"string")?);
    let ty = literal_type(alloc, size)?;
    Ok(Object {
        name,
        pos: at,
        ty,
        size,
        read_only: true,
        is_static: true,
    })
}

/// The type of a string literal of so many bytes, its closing zero among them: an array of characters.
#[tactic(auto, using(c_syntax::proofs::Trees::the_trees))]
pub fn literal_type(alloc: Global, size: u64) -> Result<CType, NoMemory>
    ensures { IfOk result (λ ty. ctype_tree ty ≡ names.literal_type size) }
{
    let char = Target {
        ty: CType::Int(IntType::Char),
        is_const: false,
    };
    Ok(CType::Array(Rc::new(alloc, char)?, size))
}

// These bytes and a zero.
fn literal_bytes(alloc: Global, bytes: &[u8]) -> Result<InitBytes, NoMemory>
    ensures { IfOk result (λ initial. initial ≡ names.literal_bytes bytes.now) }
{
    let mut numbers = Vec::new(alloc);
    for byte in bytes {
        numbers.push(InitByte::Num(*byte))?;
    }
    numbers.push(InitByte::Num(0))?;
    Ok(InitBytes::from_vec(numbers))
}
