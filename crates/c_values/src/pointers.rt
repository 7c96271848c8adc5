// What operators give on pointers, once their checks passed.
ghost use Rattle.std.specs.Prelude.{◌≡◌, ◌<◌, Some};
ghost use Rattle.block_mem.specs.Bytes.{IsOf};
ghost use Rattle.c_values.specs.Operators as operators;

use crate::numbers::compares;
use crate::values::bit;
use block_mem::{Pointer, Scalar, Value};
use c_layout::wrap;
use c_syntax::{Comparison, IntType};

/// A comparison of two pointers, as an int.
pub fn compare_pointers(comparison: Comparison, left: Value, right: Value) -> Value
    requires left { IsOf Scalar.Pointer left }
    requires right { IsOf Scalar.Pointer right }
    ensures { operators.compare_pointers comparison left right ≡ Some result }
{
    let (a, b) = match left {
        Value::Ptr(p) => match right {
            Value::Ptr(q) if p.block == q.block => (p.offset, q.offset),
            Value::Ptr(_) => (0, 1),
            _ => (1, 0),
        },
        _ => match right {
            Value::Ptr(_) => (0, 1),
            _ => (0, 0),
        },
    };
    bit(compares(comparison, i128::from(a), i128::from(b)))
}

/// How many elements of so many bytes lie from the second pointer to the first, as a long.
pub fn difference(element: u64, left: Pointer, right: Pointer) -> Value
    requires { 0 < element }
    ensures { result ≡ operators.difference element left right }
{
    let bytes = i128::from(left.offset) - i128::from(right.offset);
    let count = bytes / i128::from(element);
    Value::Int(IntType::Long, wrap(IntType::Long, count))
}
