//! Programs, lowered in code, and all that a lowering keeps.
//!
//! | What | Stated in | Promised by |
//! |---|---|---|
//! | how a program is lowered | `LowerProgram` of lower_trees | `lowered` |
//! | what a lowered program is and has | `Correct` of lower_trees | `lowered` |
//! | what it keeps of each run | `Correct` of lower_trees | `lowered` |
#![tactic(auto)]

mod program;

pub use program::lowered;
