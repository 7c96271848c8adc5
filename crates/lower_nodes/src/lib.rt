//! What nodes are lowered to, in code, from what their parts are lowered to.
#![tactic(auto)]

mod changes;
mod forms;
mod gathered;
mod lists;
mod looked;
mod numbers;
mod operators;
mod part;
mod steps;
mod terms;
mod typed;

pub use changes::{Change, of_compound, of_step};
pub use forms::{
    at_once, behind, of_assert, of_assign, of_assign_struct, of_assume, of_binary, of_bit, of_call,
    of_cond, of_convert, of_input, of_load, of_member, of_source, of_test, of_unary,
};
pub use gathered::Gathered;
pub use numbers::{one_more, temp_at};
pub use operators::step_operator;
pub use part::{Arguments, Coded, Part};
pub use steps::{Leave, block, branch, in_turn, sequence};
pub use terms::{address_at, number};
pub use typed::{
    held_scalar, is_kept, is_main, place_scalar, scalar_or_int, tested_scalar, value_scalar,
};
