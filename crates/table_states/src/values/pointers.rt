// Rows of pointers.
ghost use Rattle.std.specs.Prelude.{IfSome};
ghost use Rattle.block_mem.specs.Bytes.{IsOf};
ghost use Rattle.c_values.specs.Typed.{IsNear};

use super::{Told, comparison, told_of_check};
use block_mem::{Pointer, Scalar, Value};
use c_syntax::{Object, Spot};
use c_values::{
    check_equality, check_move, check_same_object, check_test, compare_pointers, difference,
};

/// What the checks of spots answer, or an operator on pointers.
pub fn answer(objects: &[Object], word: &str, row: &str) -> Told {
    let (first, second) = row.split_once(' ').unwrap_or((row, ""));
    match word {
        "difference" => elements(first, second),
        "pointers" => operated(first, second),
        "test" => match spot(first) {
            Some(at) => told_of_check(check_test(at)),
            None => Told::NoRow,
        },
        _ => match (spot(first), spot(second)) {
            (Some(left), Some(right)) => related(objects, word, left, right),
            _ => Told::NoRow,
        },
    }
}

fn related(objects: &[Object], word: &str, left: Spot, right: Spot) -> Told
    requires left { IsNear left }
    requires right { IsNear right }
{
    match word {
        "move" => told_of_check(check_move(objects, left, right)),
        "order" => told_of_check(check_same_object(1, left, right)),
        "equal" => told_of_check(check_equality(objects, left, right)),
        _ => Told::NoRow,
    }
}

fn elements(size: &str, spots: &str) -> Told {
    let (first, second) = spots.split_once(' ').unwrap_or((spots, ""));
    match (size.parse::<u64>(), spot(first), spot(second)) {
        (Ok(size), Some(left), Some(right)) if size > 0 => {
            told_of_check(check_same_object(size, left, right))
        }
        _ => Told::NoRow,
    }
}

// `null`, `dead`, or an object and an offset, as `0:-4`.
fn spot(word: &str) -> Option<Spot>
    ensures { IfSome result (λ s. IsNear s) }
{
    match word {
        "null" => Some(Spot::Null),
        "dead" => Some(Spot::Dead),
        _ => match place(word) {
            Some(place) => Some(Spot::At(place.block, i128::from(place.offset))),
            None => None,
        },
    }
}

fn place(word: &str) -> Option<Pointer> {
    let (block, offset) = word.split_once(':').unwrap_or((word, ""));
    match (block.parse::<u64>(), offset.parse::<i64>()) {
        (Ok(block), Ok(offset)) => Some(Pointer { block, offset }),
        _ => None,
    }
}

// `< 5:0 5:8`, or `- 4 5:8 5:0` with the size of an element.
fn operated(sign: &str, row: &str) -> Told {
    let (first, second) = row.split_once(' ').unwrap_or((row, ""));
    match comparison(sign) {
        Some(comparison) => match (pointer(first), pointer(second)) {
            (Some(left), Some(right)) => Told::Value(compare_pointers(comparison, left, right)),
            _ => Told::NoRow,
        },
        None => apart(first, second),
    }
}

fn apart(size: &str, pointers: &str) -> Told {
    let (first, second) = pointers.split_once(' ').unwrap_or((pointers, ""));
    match (size.parse::<u64>(), place(first), place(second)) {
        (Ok(size), Some(left), Some(right)) if size > 0 => {
            Told::Value(difference(size, left, right))
        }
        _ => Told::NoRow,
    }
}

/// `null`, or a block and an offset.
pub fn pointer(word: &str) -> Option<Value>
    ensures { IfSome result (λ v. IsOf Scalar.Pointer v) }
{
    match word {
        "null" => Some(Value::Null),
        _ => match place(word) {
            Some(place) => Some(Value::Ptr(place)),
            None => None,
        },
    }
}
