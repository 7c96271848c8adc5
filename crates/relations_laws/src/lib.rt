//! Laws of two linked domains and of equalities, which tie their calls to each other.
//!
//! A state begins with at most 64 equalities, and of at most 64 each call leaves at most 64. What a live test of a link puts out
//! as ranges, the link answers behind it, where its first side keeps ranges: with x in [0, 9] and c = (x < 5) on the second side, a
//! test of c tells x in [0, 4], and asked for x the link then says no more than [0, 4].
//!
//! | What | Stated in `specs/` | Promised by |
//! |---|---|---|
//! | how many equalities stay | `Few` | `few_at_first`, `few_after_assign` and its like |
//! | a range that is told is answered | `IsHeard` of `channels` | `answers_what_it_told` |
#![tactic(auto)]

mod few;
mod told;

pub use few::{
    few_after_accept, few_after_assign, few_after_assume, few_after_forget, few_after_havoc,
    few_after_join, few_after_widen, few_at_first, few_in_copy,
};
pub use told::answers_what_it_told;
