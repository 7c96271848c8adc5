//! A domain of memory in a box.
//!
//! A set of the box has the states of the set inside, and each call is that set's own. So a walk that keeps many sets
//! by value in its frames keeps one word for each, however large the domain is.
//!
//! | What | Promised by |
//! |---|---|
//! | the laws of domains of memory, for any domain that keeps them | `Boxed`'s `MemDomain` |
//! | the exact laws of each program, where the domain inside keeps them | `Boxed`'s `Exact` |
#![tactic(auto)]

mod set_in_box;

pub use set_in_box::Boxed;
