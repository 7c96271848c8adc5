// Rows of accesses to a memory of four objects.
ghost use Rattle.std.specs.Prelude.{◌<◌, ◌≡◌, IfSome, length};
ghost use Rattle.block_mem.specs.Bytes.{IsOf};
ghost use Rattle.block_mem.specs.Proper.{IsMade};

use super::{Told, told_of_check};
use crate::common::integer;
use block_mem::{Pointer, Scalar, Value};
use c_objects::ObjectMemory;
use c_syntax::{IntType, Object};
use c_values::{Given, check_end};
use std::alloc::{AllocError as NoMemory, Global};

/// The objects 0 to 3, each in the block of its number: the first holds a pointer to the second and
/// then no values, the second the int 7, the third is read-only, and the fourth has ended.
pub fn memory(alloc: Global, objects: &[Object]) -> Result<ObjectMemory, NoMemory> {
    let mut memory = ObjectMemory::new(alloc, 4)?;
    memory.open_all(objects, &[0, 1, 2, 3])?;
    memory.shut(3);
    put(
        &mut memory,
        Scalar::Int(IntType::Int),
        1,
        Value::Int(IntType::Int, 7),
    );
    point(&mut memory);
    Ok(memory)
}

// Stores a number in an object that lives.
fn put(memory: &mut ObjectMemory, ty: Scalar, object: u64, v: Value)
    requires typed { IsOf ty v }
    requires made { IsMade 0 v }
{
    if let Some(block) = memory.place(object) {
        let place = Value::Ptr(Pointer { block, offset: 0 });
        if memory.store(ty, place, v).is_err() {
            return;
        }
    }
}

// Stores the address of the second object in the first.
fn point(memory: &mut ObjectMemory) {
    if let Some(block) = memory.place(0) {
        if let Some(to) = memory.place(1) {
            let place = Value::Ptr(Pointer { block, offset: 0 });
            let target = Value::Ptr(Pointer {
                block: to,
                offset: 0,
            });
            if memory.store(Scalar::Pointer, place, target).is_err() {
                return;
            }
        }
    }
}

/// What an access is answered, or the end of a call, or an assertion.
pub fn answer(memory: &ObjectMemory, word: &str, row: &str) -> Told {
    let (first, second) = row.split_once(' ').unwrap_or((row, ""));
    match word {
        "load" => loaded(memory, first, second),
        "read" => checked(memory, false, first, second),
        "write" => checked(memory, true, first, second),
        "assert" => asserted(memory, first),
        "end" => told_of_check(check_end(Given::Nothing)),
        _ => Told::NoRow,
    }
}

fn loaded(memory: &ObjectMemory, ty: &str, at: &str) -> Told {
    let ty = match integer(ty) {
        Some(t) => Scalar::Int(t),
        None => Scalar::Pointer,
    };
    match place(memory, at) {
        Some(place) => match memory.load(ty, place) {
            Ok(v) => Told::Value(v),
            Err(wrong) => Told::Wrong(wrong),
        },
        None => Told::NoRow,
    }
}

// `0:4 8`: an access of 8 bytes, aligned to as many.
fn checked(memory: &ObjectMemory, write: bool, at: &str, size: &str) -> Told {
    match (place(memory, at), size.parse::<u64>()) {
        (Some(place), Ok(size)) => {
            if write {
                told_of_check(memory.check_write(place, size, size))
            } else {
                told_of_check(memory.check_read(place, size, size))
            }
        }
        _ => Told::NoRow,
    }
}

fn asserted(memory: &ObjectMemory, number: &str) -> Told {
    match number.parse::<u8>() {
        Ok(n) => {
            let v = Value::Int(IntType::UChar, i128::from(n));
            told_of_check(memory.check_assertion(Scalar::Int(IntType::UChar), v))
        }
        Err(_) => Told::NoRow,
    }
}

// `null`, or a block that was made and an offset.
fn place(memory: &ObjectMemory, word: &str) -> Option<Value>
    ensures pointer { IfSome result (λ v. IsOf Scalar.Pointer v) }
    ensures made { IfSome result (λ v. IsMade (length memory.now.blocks) v) }
{
    match super::pointers::pointer(word) {
        Some(Value::Ptr(at)) => {
            if at.block < memory.count() {
                Some(Value::Ptr(at))
            } else {
                None
            }
        }
        Some(Value::Null) => Some(Value::Null),
        _ => None,
    }
}
