//! Rows of decisions: what `decide` answers.
//!
//! A row has parts, parted by `;`: the objects of the program, a check, and what is shown of it.
//!
//! | Part | What it gives |
//! |---|---|
//! | `objects 8 4r` | object 0 of 8 bytes, and object 1 of 4 that may not be written |
//! | `overflow -128 127`, `quotient ..`, `amount ..`, `shifted ..` | a check with the ends of the allowed numbers |
//! | `access 4 2`, `alignment 4 2` | a check with the bytes of the access and its alignment |
//! | `unrelated 4` | a check with the size of an element |
//! | `divide`, `undef`, `fragment`, `null`, `dangling`, `bounds`, `readonly`, `novalue`, `assert` | a check |
//! | `number -5 * 1 2` | numbers from -5 up that are 1 modulo 2; `*` is a missing end |
//! | `set 0,1,null 0 8 0 4` | pointers to these objects, or null, with offsets from 0 to 8 that are 0 modulo 4 |
//! | `marks undef,value`, `ends value,none` | marks of a load, ends of a call |
//! | `no-pointer`, `any-pointer`, `null-pointer`, `dead-pointer`, `pointer 0 4` | the set of none, of all, or of one pointer alone |
//! | `or` | between two parts of one form: what is shown is the hull of both |
//! | `and` | between two parts of one form: what is shown is what is in both, as the first shows it |
//!
//! Two sets are a pair. In a list `-` stands for nothing, and `any` for any pointer. Where no operand is shown the
//! line says so.

mod conditions;
mod row;
mod sets;
mod words;

use crate::common::no_such_row;
use c_syntax::{Example, Spot};
use mem_shown::Decision;
use std::alloc::{AllocError, Global};
use std::fmt;

/// A decision, as it is printed.
#[derive(Clone, Copy)]
struct Printed(Decision);

/// A pointer, as it is printed.
#[derive(Clone, Copy)]
struct PrintedSpot(Spot);

impl fmt::Display for PrintedSpot {
    fn fmt<W: fmt::Write>(&self, f: &mut fmt::Formatter<W>) -> fmt::Result {
        match self.0 {
            Spot::Null => write!(f, "null"),
            Spot::Dead => write!(f, "dead"),
            Spot::At(object, offset) => write!(f, "{object}@{offset}"),
        }
    }
}

impl fmt::Display for Printed {
    fn fmt<W: fmt::Write>(&self, f: &mut fmt::Formatter<W>) -> fmt::Result {
        match self.0 {
            Decision::Holds => write!(f, "holds"),
            Decision::May(Example::Number(n)) => write!(f, "may {n}"),
            Decision::May(Example::Point(s)) => write!(f, "may {}", PrintedSpot(s)),
            Decision::May(Example::Points(s, t)) => {
                write!(f, "may {} {}", PrintedSpot(s), PrintedSpot(t))
            }
            Decision::May(Example::Undef) => write!(f, "may undef"),
            Decision::May(Example::Broken) => write!(f, "may broken"),
            Decision::May(Example::Nothing) => write!(f, "may none"),
        }
    }
}

/// The line of a row: what is decided of it.
pub fn line(alloc: Global, parts: &str) -> Result<String, AllocError> {
    match row::answer(alloc, parts) {
        Ok(Some(answer)) if answer.shows_some => format!(in alloc; "{}", Printed(answer.decision)),
        Ok(Some(answer)) => format!(in alloc; "{}, nothing is shown", Printed(answer.decision)),
        Ok(None) => no_such_row(alloc),
        Err(_) => format!(in alloc; "out of memory"),
    }
}
