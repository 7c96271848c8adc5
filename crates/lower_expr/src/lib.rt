//! Expressions and places of a typed program, lowered in code.
#![tactic(auto)]

mod exprs;
mod rows;
mod uses;
mod value;

pub use exprs::{lower_arguments, lower_expr, lower_place, lower_source, lower_test};
pub use rows::add_rows;
pub use value::{Lowered, lower_value};
