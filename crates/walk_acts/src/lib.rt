//! The walk of statements that act at once, and what calls take and give.
//!
//! A set goes through a statement as each of its states does: what is stored, loaded or tested is done by the domain, and what
//! a check finds is listed as an alarm before the set goes on with the states that passed. A return puts what it gives into the
//! temporaries of its call, and is kept.
//!
//! For example, `assert(x != 0)` from a set in which `x` lies from 0 to 5 lists an alarm with the example 0, and goes on with
//! those in which it lies from 1 to 5.
//!
//! What is promised of each is `Sound` of `walk_owes`, over the states of the set that are typed.
#![tactic(auto)]

mod acts;
mod give;

pub use acts::{
    walk_assume, walk_check, walk_copy, walk_input, walk_load, walk_return, walk_set, walk_store,
    walk_undefine,
};
pub use give::{give_none, pass_args};
