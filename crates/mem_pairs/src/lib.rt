//! Two domains of memory side by side.
//!
//! A set of the pair has the states that both sides have. What it claims of one state, of plain runs and of named
//! places is what its first side claims; the second side only takes states away. So a domain that follows pointers or
//! relates variables stands beside one that keeps the exact laws, and need not keep them itself.
//!
//! A check is shown by both sides at once: what is in both, and nothing that the first does not show. A test or a check
//! behind which the first side has no state is not asked of the second.
//!
//! | What | Promised by |
//! |---|---|
//! | the laws of domains of memory, for any two that keep them | `Paired`'s `MemDomain` |
//! | the exact laws of each program, where the first side keeps them | `Paired`'s `Exact` |
#![tactic(auto)]

mod paired;

pub use paired::Paired;
