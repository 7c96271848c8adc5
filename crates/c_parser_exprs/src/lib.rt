//! The parser of expressions, specs and declarators, which hold each other.
//!
//! An expression may hold a type, as in `sizeof(int[n])`, and a type an expression, so these readers are
//! one cycle. Each goes down as the grammar's productions do; how deep is bounded by the nesting of 200.
//! A list is read by a loop, and so is a run of operators of one level: `a - b - c` is `(a - b) - c`.
//!
//! `c_parser_steps` has the definitions: `joined_operands`, `assignment`, `conditional`, `specs` and `declarator`
//! promise that they go as the grammar's descent does (`Answers`).
#![tactic(auto)]

// The value that a call answered; its fault is returned as it is. `?` would convert it as well.
macro_rules! got {
    ($answer:expr) => {
        match $answer {
            Ok(got) => got,
            Err(fault) => return Err(fault),
        }
    };
}

mod declarators;
mod exprs;
mod types;

pub use declarators::declarator;
pub use exprs::{assignment, conditional, joined_operands};
pub use types::specs;
