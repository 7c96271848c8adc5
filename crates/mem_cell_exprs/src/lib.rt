//! Expressions of the language that is analysed as expressions of numbers, and as pointers with an offset.
//!
//! `number` is the integer expression over the variables of temporaries that has the value of an expression in every state
//! whose temporaries have their numbers in a valuation: each operator of C is one of `machine_nums`, at its type. `pointer`
//! is what an expression may point to, and its offset as such an expression where it cannot wrap: for `&a[i + 1]` with i
//! from 0 to 9 and elements of four bytes, the set {a} and `0 + 4 * (i + 1)`, of which the numbers know that it lies from
//! 4 to 40 and is a multiple of 4.
//!
//! | What | Stated in `specs/` | Promised by |
//! |---|---|---|
//! | the numbers of an expression | `Exprs` | `number` |
//! | what a set stands for by what it knows; what an expression points to, and its offset | `Known` | `pointer` |
#![tactic(auto)]

mod known;
mod numbers;
mod places;

pub use known::{Known, Types};
pub use numbers::{number, temp_variable};
pub use places::{Place, is_long, pointer};
