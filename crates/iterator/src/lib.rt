//! The walk over a program, for any lawful domain of memory.
//!
//! A walk goes through a statement with a set of states, keeps the sets that leave it by an exit, a goto or a return, and lists
//! an alarm for each check that may fail. A loop is walked some turns one by one; then it is widened until a turn stays in the
//! set, and narrowed some steps, and the walk from there is the one whose alarms are kept. A call is walked where it stands.
//! Items with labels are passed until no jump back brings a state that was not there.
//!
//! For example, `while (i < 10) i++;` from `i = 0`, with three turns one by one, has sets for `i` 1, 2 and 3, then one with `i`
//! from 3 to 10, and behind the loop that in which `i` is 10.
//!
//! What is promised is in the words of `walk_owes` and `alarm_claims`: each outcome of the meaning from each typed state of the
//! set is covered (`Sound`), nothing that was kept or listed is lost (`Grows`), and each alarm that is gained is admitted
//! (`Gains`). From a set that has one state alone, with nothing kept and nothing listed before, what the walk leaves is the one
//! outcome of the run, where no loop of it comes back more often than turns are walked one by one (`Exact`). The walk ends for every program whose calls lead down, and it has no fuel.
#![tactic(auto)]

mod heads;
mod passes;
mod switches;
mod walking;

pub use passes::Pass;
pub use walking::{Settings, walk};
