//! Ranges of expressions and of temporaries, where a range is known for each temporary and nothing of objects: exact results,
//! what is shown, what passes a check, and what a test cuts.
//!
//! In `x + 1` where `x` lies in [0, 4], the value lies in [1, 5]; where `x` is 4, it is the point 5. Behind a test that
//! `t < 10` holds, where `t` lies in [0, 100] it lies in [0, 9]; a side that is no temporary cuts the other one all the same.
//! Both sides are cut by what the other was before the test, and a conversion that keeps each number is looked through. Where
//! nothing is left of a side, no state goes on.
//!
//! `specs/Cuts.antt` states which numbers are kept, and that the rest is no wider than what a plain run leaves.
#![tactic(auto)]

mod checks;
mod exacts;
mod expressions;
mod numbers;
mod operators;
mod ranges;
mod shows;
mod sides;
mod truths;
mod types;

pub use checks::{passes_one, passes_two, shown_one, shown_two};
pub use exacts::exact_range;
pub use expressions::value_range;
pub use numbers::{allowed_range, nonzero_range};
pub use operators::{
    arithmetic_range, binary_value, comparison_range, complement_range, is_zero, shift_range,
    unary_value,
};
pub use ranges::{Ranges, holds_all};
pub use shows::{shown_ends, shown_number, shown_set};
pub use sides::side_temp;
pub use truths::{cut_by_test, cut_temp};
pub use types::Types;
