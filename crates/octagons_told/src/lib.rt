//! What an octagon tells: ranges of expressions, and messages of what it found.
//!
//! `range` answers the range of a sum of at most two variables by their bounds. `tell_changes` puts out the
//! range of each variable whose own bounds fell, and each bound of two variables that fell by closing;
//! `tell_all` puts out each bound of two variables.
#![tactic(auto)]

mod messages;
mod news;
mod ranges;
mod reading;
mod telling;

pub use ranges::range;
pub use telling::{tell_all, tell_changes};
