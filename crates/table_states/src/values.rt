//! Rows of values: operators on them, checks of spots, and accesses. What is answered was worked by hand or by a C compiler.
//!
//! | Row | The line |
//! |---|---|
//! | `int + 2147483647 1`, `int neg 5`, `uchar convert 256` | an operator at a type: its value, or what is wrong, with its operand |
//! | `move 0:0 0:16`, `equal null dead`, `order 0:0 1:0`, `test dead` | the checks of spots. The objects have 12, 4, 4 and 4 bytes |
//! | `difference 4 0:8 0:0` | the checks of a difference of elements of 4 bytes |
//! | `load int 1:0`, `read 1:0 4`, `write 2:0 4` | accesses to these objects, each in the block of its number |
//! | `assert 0`, `end` | an assertion, and the end of a call without a value |
//! | `pointers < 5:0 5:8`, `pointers - 4 5:8 5:0` | an operator on two pointers into blocks |

mod accesses;
mod numbers;
mod pointers;

use crate::common::{integer, no_such_row, object};
use block_mem::Value;
use c_objects::ObjectMemory;
use c_syntax::{Comparison, Object};
use c_values::Wrong;
use std::alloc::{AllocError, Global};

/// What a row is answered.
#[derive(Clone, Copy)]
pub enum Told {
    Value(Value),
    Wrong(Wrong),
    Passes,
    NoRow,
}

/// The line of a row: what it is answered.
pub fn line(alloc: Global, row: &str) -> Result<String, AllocError> {
    let objects = [
        object(alloc, 12, false, false),
        object(alloc, 4, false, false),
        object(alloc, 4, true, false),
        object(alloc, 4, false, false),
    ];
    let memory = accesses::memory(alloc, &objects)?;
    told_line(alloc, answer(&memory, &objects, row))
}

fn told_line(alloc: Global, told: Told) -> Result<String, AllocError> {
    match told {
        Told::Value(Value::Int(t, n)) => format!(in alloc; "{t:?} {n}"),
        Told::Value(value) => format!(in alloc; "{value:?}"),
        Told::Wrong(Wrong { kind, operand }) => format!(in alloc; "{kind:?} {operand:?}"),
        Told::Passes => format!(in alloc; "passes"),
        Told::NoRow => no_such_row(alloc),
    }
}

fn answer(memory: &ObjectMemory, objects: &[Object], row: &str) -> Told {
    let (word, rest) = row.split_once(' ').unwrap_or((row, ""));
    match integer(word) {
        Some(t) => numbers::answer(t, rest),
        None => match word {
            "load" | "read" | "write" | "assert" | "end" => accesses::answer(memory, word, rest),
            _ => pointers::answer(objects, word, rest),
        },
    }
}

/// What is told of a check.
pub fn told_of_check(answer: Result<(), Wrong>) -> Told {
    match answer {
        Ok(()) => Told::Passes,
        Err(wrong) => Told::Wrong(wrong),
    }
}

/// A comparison, from its sign.
pub fn comparison(word: &str) -> Option<Comparison> {
    match word {
        "<" => Some(Comparison::Less),
        ">" => Some(Comparison::Greater),
        "<=" => Some(Comparison::AtMost),
        ">=" => Some(Comparison::AtLeast),
        "==" => Some(Comparison::Equal),
        "!=" => Some(Comparison::Unequal),
        _ => None,
    }
}
