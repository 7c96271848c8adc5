//! The analysis of a program: all alarms of main from the first states, in order, over any domain of memory.
//!
//! For example, of `int g(int x) { return 10 / x; }`, called as `g(2) + g(0)` in main, one alarm is given, at the division,
//! with the place of the second call in its chain.
//!
//! What is promised is `Analyzed` of `alarm_claims`: for all inputs, each check that fails is told of by an alarm with its
//! chain, place and kind, which shows the operand and whose facts hold there; each alarm is admitted; and the list is in strict
//! order. The analysis ends for every formed program, and has no fuel.
//!
//! Where the domain keeps the sharp laws of the program, gotos lead forwards, and no switch has two defaults, the list is that of
//! the one run without inputs, where that turns in no loop more often than turns are walked one by one (`IsExactFor`).
//!
//! The caller owes that what stands at one place of a function looks at the same (`Sites` of `alarm_lists`), so that one alarm can
//! tell of all failures of one chain, place and kind.
#![tactic(auto)]

mod analysis;
mod bits;

pub use analysis::analyze;
pub use bits::initials_have_eight_bits;
