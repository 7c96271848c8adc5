// Rows of steps over what is known of variables.

use crate::words::Printed;
use num_api::{Live, Range, Residue};
use std::alloc::{AllocError, Global};

/// What a row or a step is answered.
pub enum Told {
    Shown(Range, Residue),
    Count(usize),
    Truth(bool),
    Dead,
    NoRow,
}

/// Where a row goes on.
pub enum Step {
    Next,
    Last(Told),
}

/// Where a row goes on behind a test or a message.
pub fn went(live: Live) -> Step {
    match live {
        Live::Live => Step::Next,
        Live::Dead => Step::Last(Told::Dead),
    }
}

/// The line of what a row is answered.
pub fn text(alloc: Global, told: Told) -> Result<String, AllocError> {
    match told {
        Told::Shown(Range { lo, hi }, Residue { rem, modulus }) => {
            format!(in alloc; "{} {}, {rem} mod {modulus}", Printed(lo), Printed(hi))
        }
        Told::Count(count) => format!(in alloc; "{count}"),
        Told::Truth(true) => String::from_str(alloc, "yes"),
        Told::Truth(false) => String::from_str(alloc, "no"),
        Told::Dead => String::from_str(alloc, "dead"),
        Told::NoRow => String::from_str(alloc, "no such row"),
    }
}
