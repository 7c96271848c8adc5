//! What each state of a run of a well typed program keeps: that no such run comes to a state that no row of the machine fits,
//! and what the row of each work item finds.
//!
//! The work of a state takes values of certain types off the stack, in their order, and the stack has them. What stands around
//! an item, as the objects that live and the labels that a goto may name, is read off the items behind it. Exactly the static
//! objects live, and those that the work will end; what an item brings to life does not live behind it, and each function that
//! it calls has a body. Memory keeps what it always keeps. Each step keeps all of this, a lemma for each row of the machine.
//!
//! So a machine that does the next item finds what it asks for: so many values on the stack, each of its type and of a block
//! that was made; objects that live, and the bytes that an initialiser fills; a function that is entered has a body, and its
//! arguments fill its parameters; a jump finds where it leads. For example, behind the evaluation of `a + b` stands the
//! addition: it takes an int off the stack, and another int, and gives one.
//!
//! | What | Stated in `specs/` | Promised by |
//! |---|---|---|
//! | what is wanted, and operators of the types that they are given | `Wants` | |
//! | what stands around an item; which values the work takes; what it brings to life and calls | `Surroundings`, `Takes`, `Opens` | |
//! | what a state keeps; no run stands | `Fits` | `states_of_typed_runs_fit`, `typed_runs_never_stand` |
//! | what kinds of things stand on the stack | `Shapes` | `rows_find_shapes` |
//! | what holds of them, of memory and of the work | `Needs` | `rows_find_needs` |
//! | what is so of memory, and that work is left | `Laws` | `memories_are_sound`, `work_is_left` |
//! | that starts and steps keep states fitting | `Laws` | `starts_fit`, `steps_keep_fitting`, `fitting_states_step` |
//!
//! Lemmas that a caller cites are `proofs/Shaped`, `proofs/NeededRows`, `proofs/Sound`, `proofs/Modified` and
//! `proofs/NeededRuns`.
#![tactic(auto)]

mod laws;
mod needs;

pub use laws::{states_of_typed_runs_fit, typed_runs_never_stand};
pub use needs::{
    fitting_states_step, memories_are_sound, rows_find_needs, rows_find_shapes, starts_fit,
    steps_keep_fitting, work_is_left,
};
