//! Lists of alarms in order, with one alarm for each chain of calls, place and kind.
//!
//! A walk lists a check once for each time that it comes there. Two such alarms are made one: it shows the hull of what both
//! show, so the least range and class, all pointers, marks and ends, and of the facts those that both have. It keeps the check
//! and the example of the first. The list is sorted by place, then by the number of the kind, then by the chain, and
//! neighbours that are alike are made one.
//!
//! For example, of a division at 3:9 that shows [0, 2] at one visit and [0, 5] at another, one alarm is left, which shows
//! [0, 5].
//!
//! | What | Stated in `specs/` | Promised by |
//! |---|---|---|
//! | how two alarms stand to each other | `Lists` | `alarm_order` |
//! | one alarm in the place of two | `Lists` | `merge_alarms` |
//! | a list in order that serves for another | `Lists` | `in_order` |
//! | what stands at one place looks at the same, so that alarms can be made one | `Sites` | |
//!
//! Sorting and merging take n log n comparisons of chains for n alarms.
#![tactic(auto)]

mod facts;
mod lists;
mod merging;
mod order;

pub use lists::{in_order, made_one};
pub use merging::merge_alarms;
pub use order::alarm_order;
