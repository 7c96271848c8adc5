//! The rows of the machine of C that take values off the stack and change memory.
//!
//! A row takes what it needs off the stack, asks the memory of objects, and puts what comes of it on the stack. Where
//! something is wrong it puts back what it took, so stack and memory are as they were. A row neither knows nor changes the
//! work that is left and the inputs, so what it comes to is promised for all of them.
//!
//! For example, the row of `+` takes 2 and 1 off the stack and puts 3 on it; with the greatest int and 1 it answers
//! Overflow, with the operator's place, and both stand on the stack as before.
//!
//! A row needs values of the right types on the stack, and objects that live (`specs/Needs`): what the states of a typed
//! run have (`c_steps_laws`). `stack_of` is the stack with the top first (`specs/Contents`), `Does` says what a row comes to
//! (`specs/Rows`). The rows themselves are those of `c_steps`.
//!
//! | What | Stated in `c_steps` | Promised by |
//! |---|---|---|
//! | the row of an item of the kinds that `Items` lists | `Steps` | `Values::row` |
//! | a test of a value, by which other rows go on | `Steps` | `Values::test` |
//! | a call's arguments become the values of its parameters | `Calls` | `Values::enter` |
#![tactic(auto)]

mod accesses;
mod arguments;
mod changes;
mod conditions;
mod initialisers;
mod operators;
mod row;
mod rows;
mod stack;
mod values;

pub use row::{Row, Tested};
pub use stack::{put_value, take_held, take_value};
pub use values::Values;
