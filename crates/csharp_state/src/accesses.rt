// What memory gives at a place.
ghost use Rattle.std.specs.Prelude.{◌≡◌, IfOk, Some, is_err};
ghost use Rattle.c_syntax.specs.Operand.{Mark};
ghost use Rattle.block_mem.specs.Bytes as bytes;
ghost use Rattle.c_values.specs.Accesses.{mark};
ghost use Rattle.csharp.specs.Actions.{loaded_at};
ghost use Rattle.csharp_state.specs.Answers.{mark_of};
ghost use Rattle.csharp_state.specs.Belongs.{HasObjects};
ghost use Rattle.csharp_state.specs.Reading.{can_read};
ghost use Rattle.csharp_state.specs.Unheld.{unheld_bytes};

use crate::error::Unheld;
use crate::sight::LoadMark;
use crate::state::State;
use block_mem::{Pointer, Scalar, Value};
use c_syntax::WrongKind;

/// How many bytes a value of a type has.
pub fn size_of(ty: Scalar) -> u64
    ensures { result ≡ bytes.size_of ty }
{
    match ty {
        Scalar::Int(t) => u64::from(t.bytes()),
        Scalar::Pointer => 8,
    }
}

impl State {
    // Whether so many bytes from a place on are those of an object that lives, at this alignment.
    pub(crate) fn is_readable(&self, place: Value, size: u64, align: u64) -> bool
        requires { HasObjects self.now.memory }
        ensures { result ≡ can_read self.now.memory place size align }
    {
        match place {
            Value::Ptr(at) => {
                if at.block >= self.memory.count() {
                    return false;
                }
                match self.memory.check_read(place, size, align) {
                    Ok(()) => true,
                    Err(_) => false,
                }
            }
            Value::Int(_, _) | Value::Null => false,
        }
    }

    // The value of a type that memory gives at a place.
    pub(crate) fn loaded(&self, ty: Scalar, place: Value) -> Option<Value>
        requires { HasObjects self.now.memory }
        ensures { result ≡ loaded_at self.now.memory ty place }
    {
        match place {
            Value::Ptr(at) => {
                if at.block >= self.memory.count() {
                    return None;
                }
                match self.memory.load(ty, place) {
                    Ok(v) => Some(v),
                    Err(_) => None,
                }
            }
            Value::Int(_, _) | Value::Null => None,
        }
    }

    // What a load of a type meets in the bytes at a place.
    pub(crate) fn mark(&self, ty: Scalar, at: Pointer) -> Result<LoadMark, Unheld>
        requires { HasObjects self.now.memory }
        ensures is { IfOk result (λ m. mark self.now.memory (Some ty) (Value.Ptr at) ≡ Some (Mark (mark_of m))) }
        ensures unheld { is_err result ≡ unheld_bytes self.now.memory ty (Value.Ptr at) }
    {
        let place = Value::Ptr(at);
        if !self.is_readable(place, size_of(ty), size_of(ty)) {
            return Err(Unheld);
        }
        match self.memory.load(ty, place) {
            Ok(_) => Ok(LoadMark::HasValue),
            Err(wrong) => match wrong.kind {
                WrongKind::Indeterminate => Ok(LoadMark::Undef),
                WrongKind::Fragment => Ok(LoadMark::Broken),
                _ => unreachable!(),
            },
        }
    }
}
