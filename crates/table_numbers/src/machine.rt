// Steps over C's integers.

mod exprs;
mod steps;

use crate::rows::text;
use std::alloc::{AllocError, Global};

/// The line of a row of steps.
pub fn line(alloc: Global, row: &str) -> Result<String, AllocError> {
    text(alloc, steps::answer(alloc, row)?)
}
