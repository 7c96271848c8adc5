//! Programs, lowered in code.
#![tactic(auto)]

mod order;
mod program;

pub use program::lower;
