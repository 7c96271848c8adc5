//! What a domain of memory offers to the walk over a program, and its laws.
//!
//! A domain is a set of states of the language that is analysed. Each call that changes it does to the set
//! what a statement does to a state, in the words of `csharp`: where a state of the set comes to another by
//! that statement, the set has that one afterwards. `show` tells what holds the operand of a check, `pass` and
//! `assume` keep the states that go on, `join` and `widen` have the states of both sides, and the weight of a
//! set falls where widening changes it.
//!
//! Beside these laws a domain that is `Exact` keeps the one state of a run with no inputs (sharp), and is no
//! wider than a plain run (`plain_runs`).
//!
//! | What | Stated in `specs/` |
//! |---|---|
//! | what a call may be given | `Given` |
//! | the form of what is shown, and operands that are shown alone | `Showing` |
//! | addresses in one named object, and what is shown of them | `Named` |
//! | states that no domain tells apart | `Likeness` |
//! | facts that hold of a state | `FactsOf` |
//! | sets that are under a plain state | `Abstract` |
#![tactic(auto)]

mod domain;
mod fixpoint;

pub use domain::{Exact, MemDomain};
pub use fixpoint::settle;
