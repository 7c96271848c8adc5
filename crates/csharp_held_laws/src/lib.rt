//! Laws of runs in code: what `csharp_state` and `csharp_exec` do not hold never comes in a formed program, but for pointers
//! that are moved too far and for checks of bytes that cannot be read.
//!
//! The numbers of the code are i128, the offsets of its pointers i64, and its memory takes numbers of their types and
//! pointers to blocks that were made. Where the meaning comes to anything else, the code gives up as `Unheld`. In a formed
//! program states stay typed, so the values of operators are numbers of their types, what is stored is of its store's type,
//! and exact numbers of checks are those of signed operators.
//!
//! For example, `a * b` of two numbers of `unsigned long` is wrapped with no number beyond i128 that would have to be held;
//! `p + n` with the offset of `p` near 2 to the 63 is not held.
//!
//! | What | Stated in `specs/` | Promised by |
//! |---|---|---|
//! | pointers that are moved too far; bytes that cannot be read; a run that comes to one | `Far` | - |
//! | of values that alone is not held | `Held.ValuesAreHeld` | `values_are_held` |
//! | of single statements | `Held.ActionsAreHeld` | `actions_are_held` |
//! | the first state is held | `Held.StartsAreHeld` | `starts_are_held` |
//! | runs give up there alone | `Held.CodeIsHeld`, `RunsAreHeld` | `runs_are_held` |
#![tactic(auto)]

mod laws;

pub use laws::{actions_are_held, runs_are_held, starts_are_held, values_are_held};
