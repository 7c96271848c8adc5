//! Laws of the meaning of `csharp` on types and shapes: that states stay typed, that the number of temporaries stays, and where
//! jumps of formed code lead.
//!
//! In a typed state there are as many temporaries as the program has, each integer temporary has a number of its type,
//! each pointer temporary is null or points to a block that was made, and memory keeps what every memory of the program's
//! objects keeps. In a formed program the first state is so, each action of a typed statement leaves it so, and so does
//! the meaning: behind normal ends, exits, gotos and returns the state is typed, a value that is returned fits the
//! temporary that takes it, and at a check that fails memory keeps what it keeps.
//!
//! For example, behind a load of an `int` through a pointer into the bytes of a `long` the temporary has a number of the
//! type `int`, whatever was stored there: the load has a value of its type, or the statement is stuck.
//!
//! | What | Stated in `specs/` | Promised by |
//! |---|---|---|
//! | what a typed state is, and typed code | `TypedStates` | - |
//! | the number of temporaries stays | `Counts.CountsStay` | `counts_stay` |
//! | the first state is typed | `Kept.FirstStatesAreTyped` | `first_states_are_typed` |
//! | values of expressions are of their types | `Kept.ValuesAreTyped` | `values_are_typed` |
//! | each action leaves states typed | `Kept`, a law for each | `actions_keep_states_typed` |
//! | the meaning leaves states typed, in runs too | `Kept.TypedStatesStayTyped`, `RunsAreTyped` | `typed_states_stay_typed` |
//! | where exits and gotos lead; bodies of functions are left by returns | `Jumps.JumpsLeadAround`, `BodiesReturn` | `jumps_lead_around` |
//! | pointers that are whole stay whole | `Kept.PointersStayWhole` | `pointers_stay_whole` |
#![tactic(auto)]

mod laws;

pub use laws::{
    actions_keep_states_typed, counts_stay, first_states_are_typed, jumps_lead_around,
    pointers_stay_whole, typed_states_stay_typed, values_are_typed,
};
