//! Samples of the lowering: small programs, lowered and run by computing, come to what was worked out by hand.
//!
//! Each sample has its text, its typed tree with the columns of the text, and what the lowered program comes to: a failed
//! check with its chain of calls, its place, its kind and its operand; the number that main gives; or that an assumption
//! stops it.
//!
//! | What | Stated in `specs/` | Promised by |
//! |---|---|---|
//! | parts of typed programs | `Parts` | |
//! | each kind of failed check | `Failures` | `failures_are_lowered` |
//! | loops, switches, gotos and returns | `Jumps` | `jumps_are_lowered` |
//! | calls, in arguments and elsewhere | `Calls` | `calls_are_lowered` |
//! | initialisers of each form, and struct copies | `Initials` | `initialisers_are_lowered` |
//! | operators, tests and conversions | `Values` | `values_are_lowered` |
#![tactic(auto)]

mod laws;

pub use laws::{
    calls_are_lowered, failures_are_lowered, initialisers_are_lowered, jumps_are_lowered,
    values_are_lowered,
};
