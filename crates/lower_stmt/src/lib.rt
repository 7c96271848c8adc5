//! Statements, functions and programs, lowered in code.
#![tactic(auto)]

mod codes;
mod context;
mod functions;
mod inits;
mod listed;
mod stmts;

pub use context::Context;
pub use functions::{Placed, lower_function};
pub use stmts::lower_stmt;
