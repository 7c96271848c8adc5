//! The walk over the statements and functions of a formed program, with the set that it stands at and the sets that it keeps.
//!
//! A walk is made from a set of states. Each call goes through one statement, or the body of one function, from the set at
//! which the walk stands: its set is then that behind the statement, what leaves the statement by an exit, a goto or a return
//! is kept with its way, and an alarm is listed for each check that may fail. It is `Dead` where no state comes behind.
//!
//! For example, of `if (x) return 1; y = 2;` from all values of `x`, the set behind has the states in which `x` is 0, and one
//! set is kept for the return.
//!
//! What is promised is in the words of `walk_owes` and `alarm_claims`: each outcome of the meaning from each typed state of the
//! set is covered (`Sound`), nothing that was kept or listed is lost (`Grows`), and each alarm that is gained is admitted
//! (`Gains`). Chains of calls are counted from the statement or the function.
#![tactic(auto)]

mod walking;

pub use walking::{KeptStates, Walk};
