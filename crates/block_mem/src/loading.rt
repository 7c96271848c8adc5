// Values as bytes.
ghost use Rattle.std.specs.Prelude.{◌≡◌, ◌≤◌, ◌<◌, ℕ, take, length, IfOk, IfSome};
ghost use Rattle.block_mem.specs.Proper.{AreProperBytes, IsMade};
ghost use Rattle.block_mem.specs.Bytes.{size_of, IsOf, bytes_of, has_undef, null_of, pointer_of, value_of};
ghost use Rattle.block_mem.specs.Blocks.{loaded};

use crate::numbers::{bits_in, low_bytes, number_in, number_of, size_of};
use crate::pieces::{are_pieces, pieces_of};
use crate::types::{Byte, Scalar, Value};
use c_syntax::WrongKind;

/// A type's size in bytes, which is its alignment too.
pub fn scalar_size(ty: Scalar) -> usize
    ensures value { result ≡ size_of ty }
    ensures bound { result ≤ 8 }
{
    match ty {
        Scalar::Int(ty) => size_of(ty),
        Scalar::Pointer => 8,
    }
}

/// Eight bytes, of which a value of the type has the first ones.
pub fn value_bytes(ty: Scalar, v: Value) -> [Byte; 8]
    requires { IsOf ty v }
    ensures { take (size_of ty) result ≡ bytes_of v }
{
    match v {
        Value::Int(ty, number) => low_bytes(bits_in(ty, number)),
        Value::Ptr(pointer) => pieces_of(pointer),
        Value::Null => low_bytes(0),
    }
}

/// Whether a byte has no value.
fn has_undef(bytes: &[Byte]) -> bool
    ensures { result ≡ has_undef bytes.now }
{
    for byte in bytes {
        if let Byte::Undef = byte {
            return true;
        }
    }
    false
}

/// The pointer that eight bytes hold.
fn pointer_of(bytes: &[Byte]) -> Option<Value>
    requires { length bytes.now ≡ 8 }
    ensures value { result ≡ pointer_of bytes.now }
    ensures typed { IfSome result (λ v. IsOf Scalar.Pointer v) }
    ensures block { (made : ℕ) → AreProperBytes made bytes.now → IfSome result (λ v. IsMade made v) }
{
    match bytes[0] {
        Byte::Undef => None,
        Byte::Num(_) => match number_of(bytes) {
            Some(0) => Some(Value::Null),
            _ => None,
        },
        Byte::Frag(pointer, _) => {
            if are_pieces(pointer, bytes) {
                Some(Value::Ptr(pointer))
            } else {
                None
            }
        }
    }
}

/// The value of a type that its bytes hold.
fn value_of(ty: Scalar, bytes: &[Byte]) -> Option<Value>
    requires { length bytes.now ≡ size_of ty }
    ensures value { result ≡ value_of ty bytes.now }
    ensures typed { IfSome result (λ v. IsOf ty v) }
    ensures block { (made : ℕ) → AreProperBytes made bytes.now → IfSome result (λ v. IsMade made v) }
{
    match ty {
        Scalar::Int(ty) => match number_of(bytes) {
            Some(bits) => Some(Value::Int(ty, number_in(ty, bits))),
            None => None,
        },
        Scalar::Pointer => pointer_of(bytes),
    }
}

/// The value of a type that its bytes hold, or what is wrong with them.
pub fn loaded(ty: Scalar, bytes: &[Byte]) -> Result<Value, WrongKind>
    requires { length bytes.now ≡ size_of ty }
    ensures value { result ≡ loaded ty bytes.now }
    ensures typed { IfOk result (λ v. IsOf ty v) }
    ensures block { (made : ℕ) → AreProperBytes made bytes.now → IfOk result (λ v. IsMade made v) }
{
    if has_undef(bytes) {
        return Err(WrongKind::Indeterminate);
    }
    value_of(ty, bytes).ok_or(WrongKind::Fragment)
}
