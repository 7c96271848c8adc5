//! Runs of the language that is analysed, in code.
//!
//! `exec` does a statement with a bound on fuel and, where one is asked for, on the turns behind the first
//! of each entry of a loop. Its answer is the outcome that the meaning tells at the same bounds, and the state is the one
//! behind it. `run` does the same for main from the first state. A call takes one unit of fuel, and so do
//! each turn of a loop behind the first and each goto.
//!
//! Beside out of memory it gives up exactly where the run comes to what the code does not hold, as a pointer
//! whose offset is no `i64`. Statements and calls nest in the code as they do in the
//! program, so a program whose calls come back to their own function may nest as deep as its fuel.
//!
//! For example, `exec` of a loop that does nothing tells NoFuel at any fuel without a bound on turns, and
//! Over with a bound of 2 and a fuel of 9.
//!
//! | What | Stated in | Promised by |
//! |---|---|---|
//! | the meaning | `bounded_exec`, `run` of csharp | `exec`, `run` |
//! | the first state | `first` of csharp | `first_state` |
//! | outcomes of the code | `Told` | `exec`, `run` |
//! | where a run gives up | `Meets`, `Beginning` | `exec`, `run`, `first_state` |
#![tactic(auto)]

mod actions;
mod first;
mod marks;
mod outcome;
mod runs;
mod start;

pub use first::first_state;
pub use outcome::{Failure, Limits, Outcome, Way};
pub use runs::exec;
pub use start::run;
