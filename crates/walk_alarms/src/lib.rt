//! The alarms that a walk lists.
//!
//! Where a check may fail on what a set shows, an alarm is listed, with an operand that is shown and fails as its example. The
//! alarms of a call's body are those of the call, with its place before their chains.
//!
//! For example, a set in which `x` lies from 0 to 5 shows `[0, 5]` at the division `10 / x`, and the alarm there has 0 as its
//! example. Where that stands in a function called at 3:5, its chain is `3:5` for the caller.
//!
//! That no failure is missed is said by `Listed`, and that each alarm is admitted by `Gains`, both of `alarm_claims`.
#![tactic(auto)]

mod alarms;

pub use alarms::{add_alarms, judge, prefix};
