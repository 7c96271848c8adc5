//! The steps at which widening stops, made of the constants of a program.
//!
//! A bound that a program tests is most often a constant that stands in its text, or one beside it. So the constants ramp has,
//! beside the powers of two, each constant in the bodies of the functions, the numbers next to it, and their negations.
//!
//! For example, of `for (i = 0; i < 10; i++) a[i] = i;` the steps are 0, the powers of two and those less one, 9, 10 and 11, and
//! the negations of all these, so that `i` is widened to at most 10.
//!
//! | What | Stated in `specs/` | Promised by |
//! |---|---|---|
//! | the constants of a program | `Constants` | - |
//! | the steps of the constants ramp, and of a ramp of each kind | `ConstantSteps` | `constant_steps`, `ramp_steps` |
//! | the least step that is not below a number | `Steps` of num_api | `StepList::least` |
#![tactic(auto)]

mod exprs;
mod kind;
mod list;
mod powers;
mod steps;
mod stmts;

pub use kind::RampKind;
pub use list::StepList;
pub use steps::{constant_steps, ramp_steps};
