//! The sets that a walk keeps for the ways out of a statement, and those that enter items at their marks.
//!
//! One set is kept for each exit, each label and the return; what leaves the same way again is joined into it. A block gives
//! its innermost exit to what comes behind, a call its returns, and a scope ends its objects in each set that leaves it. Among
//! items a jump forward is taken out of what is kept where its label stands, and joins what flows there. A jump back stays,
//! and widens the head of its label when the items are at their end.
//!
//! For example, of `{ if (x) goto out; y = 1; out: ; }` the set that leaves by the goto is taken at `out`, and joined with that
//! in which `y` is 1.
//!
//! What is kept, and what heads have, is said in the words of `walk_owes`: `Owes`, `Items` and `Heads`.
#![tactic(auto)]

mod kept;
mod leaving;
mod marks;
mod passes;

pub use kept::{keep, keep_all, leave, merge, merge_either, take_returns, take_way};
pub use leaving::{leave_objects, leave_scope};
pub use marks::{arrive, has_default, has_label};
pub use passes::{Stepped, add_labels, copy_flow, step_heads};
