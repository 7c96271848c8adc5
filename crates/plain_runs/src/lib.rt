//! The plain interval run: what an analysis by one interval for each variable finds, with no widening.
//!
//! A plain state has an interval for each temporary and for each integer object that lives, and whether that
//! object's value may be indeterminate. Statements change it by the rules below, loops go turn by turn, and
//! hulls are taken where ways meet. A check is a suspect where its interval, or that mark, holds a failing
//! value. Where the rules say nothing, as for pointers, calls and gotos, and where a loop makes more turns
//! than a bound, the run is not there. What an abstract state keeps no wider than a plain one is promised by
//! the layers above.
//!
//! For example, behind `if (x > 100) y = 100; else y = x;` the object `y` is at most 100, since the test of
//! a copy of `x` cuts `x` too.
//!
//! | What | Stated in `specs/` |
//! |---|---|
//! | expressions as numeric domains take them | `Numbers` |
//! | plain states, the numbers of an expression, hulls | `States` |
//! | what statements and tests do to a plain state | `Changes` |
//! | suspects, and what passes a check | `Checks` |
//! | the run of a statement and of a program | `Runs` |
//! | small examples worked out by hand | `Samples` |
#![tactic(auto)]

mod laws;

pub use laws::samples_are_run;
