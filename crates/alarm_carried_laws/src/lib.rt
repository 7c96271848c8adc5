//! What alarms on a lowered program say of the typed program from which it comes: laws.
//!
//! An analysis promises that its list misses no failing check of the analysed program, shows what fails, and lists only what
//! is admitted there. A lowering promises that each run of the machine of C that goes wrong fails that check, and that each
//! check is one that a node makes. Together the list is sound, admitted and in order for the typed program.
//!
//! | What | Stated in `specs/` | Promised by |
//! |---|---|---|
//! | the alarms of a lowered program are alarms of the program that was lowered | `Carried` | `analyses_carry_over` |
//! | one bounded run is told without a false alarm | `Exact` | `bounded_runs_are_told` |
#![tactic(auto)]

mod laws;

pub use laws::{analyses_carry_over, bounded_runs_are_told};
