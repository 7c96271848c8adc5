//! What an expression or a test says of at most two variables.
//!
//! An expression is read as a sum of at most two variables, each with its sign, and a number, where it
//! is one: `3 - (x + 1)` is `-x + 2`. A test is read as at most two such sums that are at most 0 where
//! it has its truth: `x + y == 5` gives `x + y - 5` and `-x - y + 5`. An expression that is no such sum is
//! left unread. `specs/Forms.antt` says what a sum is worth and what a test's limits say.
#![tactic(auto)]

mod forms;
mod limits;

pub use forms::{Linear, Signed, difference, linear_of, negation, turned};
pub use limits::{Limits, limits_of};
