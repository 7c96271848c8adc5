//! What a walk over a program with a domain of memory owes: definitions, and how the walk of a statement follows from the
//! walks of its parts.
//!
//! A walk goes through a statement with a set of states. It owes that each outcome of the meaning, from each typed state of
//! the set, is covered: a normal end by the set behind, an exit, a goto or a return by the set that is kept for it, and a
//! failed check by an alarm. Nothing is asked of the other outcomes.
//!
//! For example, of `if (x) return 1; y = 2;` the set behind has the states in which `x` was 0 and `y` is 2, and the set that is
//! kept for the return those in which `x` was not 0, with 1 in the temporary that takes the value.
//!
//! | What | Stated in `specs/` | Lemmas in `proofs/` |
//! |---|---|---|
//! | what is owed to each outcome | `Owes` | `Steps` |
//! | loops: turns, and sets in which a turn stays | `Loops` | `Steps` |
//! | items of scopes and switches, with sets at their marks | `Items` | `Scopes`, `Closing` |
//! | how passes over items come to an end | `Heads` | `Heads` |
//! | which statements may be walked; formed programs may be | `Walkable` | `Walks`, `Fuel` |
//! | arguments that are put one by one | | `Passing` |
//! | lists of alarms and of kept sets | | `Lists` |
#![tactic(auto)]

mod marks;
mod way;

pub use marks::{Change, Head, Mark};
pub use way::{Kept, Target, Way};
