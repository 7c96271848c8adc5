//! A lowering keeps every run: laws.
//!
//! A run of the machine of C that goes wrong at a chain of calls, a place and a kind fails that check in the lowered program,
//! with the same operand and the same memory, and no other run fails one. A run that ends, waits for an input or is stopped by
//! an assumption comes to the like outcome, and no loop turns more often than the machine's. Where gotos lead forwards and
//! loops turn within a bound, the run comes to a last state.
//!
//! Each outcome of the lowered program with some fuel tells what the machine does, and two last states of one run are one; so
//! the outcome with as much fuel as a run has steps says what its last state is.
//!
//! | What | Stated in `specs/` | Promised by |
//! |---|---|---|
//! | what a lowering keeps of each run | `Laws.LoweringKeepsRuns`, over `Keeps` of `lower_trees` | `lowering_keeps_runs` |
//! | what each outcome of a lowered run tells | `Laws.LoweredRunsTell` | `lowered_runs_tell` |
//! | what the code of an expression tells | `Values.LoweredValuesTell` | `lowered_values_tell` |
//! | bounded runs come to an end | `Laws.BoundedRunsFinish`, over `Finishes` | `bounded_runs_finish` |
//! | all that a lowering is to keep, of runs and of the program | `LoweringIsRight` of `lower_trees` | `lowering_is_right` |
#![tactic(auto)]

mod laws;

pub use laws::{
    bounded_runs_finish, lowered_runs_tell, lowered_values_tell, lowering_is_right,
    lowering_keeps_runs,
};
