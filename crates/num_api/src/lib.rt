//! The interface of numeric domains, the ramps by which they widen, and ranges of whole numbers.
//!
//! A value domain describes sets of whole numbers, a numeric domain sets of valuations. Every law is a clause of the call
//! that it speaks of. A law that ties two calls goes through a ghost member, since a clause calls nothing. `settle_value`
//! widens a value until it holds what a step makes of it: from [0, 0] by the step "at most 9, and one more" over the powers
//! of two the intervals go to [0, 1], [0, 2], [0, 3], [0, 4], [0, 7], [0, 8], [0, 15]. The loop ends, and its value holds the
//! start and is closed under the step; where the step adds nothing it is the start.
//!
//! A ramp answers the least step that is not below a number: the powers ramp answers 63 for 33 and -32 for -33. There are
//! finitely many steps, so whoever moves an end from step to step comes to an end. The steps are a list of whole numbers that
//! only proofs see. It is a member of a type parameter `S: Steps`, since a ghost field cannot cite the contract of a closure.
//!
//! A comparison of a certain truth says how its sides stand to each other, and that cuts the range of each by the range of
//! the other: where x < y and y lies in [3, 5], the numbers of [0, 9] that x may be are [0, 4].
//!
//! | What | Stated in `specs/` | Promised by |
//! |---|---|---|
//! | what expressions mean, messages, the plain rule | `Value`, `Messages`, `Plain` | the traits' clauses |
//! | what a ramp keeps and answers, the powers steps | `Told`, `Powers` | `rise`, `fall`, `power_step` |
//! | widening to a fixpoint | `Loops` | `settle`, `settle_value` |
//! | how two numbers stand to each other | `Standings` | `compared`, `turned` |
//! | ranges cut by a comparison: no number is lost, and the rest is no wider than the plain rule | `Standings`, `Plain` | `cut_range` |
//!
//! `NExpr` is copied, compared and asked for the variables that it reads; `Unknowing` is whom a domain asks where there is no
//! other one. proofs/ has lemmas for crates above: on lists of messages (PutOut), assignments (Sets), expressions (Reading),
//! parts of expressions (Parts), multiples and remainders.
#![tactic(auto)]

mod domain;
mod expr;
mod fixpoint;
mod lists;
mod message;
mod ramp;
mod ranges;
mod standings;
mod unknowing;
mod value;

pub use domain::{Exact, NumDomain, Oracle};
pub use expr::{NExpr, NOp, Var};
pub use ext_int::Live;
pub use fixpoint::{settle, settle_value};
pub use lists::{Messages, NumFacts};
pub use message::{Message, Range, Residue};
pub use ramp::{Powers, Ramp, Steps, power_step};
pub use ranges::{cut_range, may_be, no_numbers, number};
pub use standings::{Standing, compared, turned};
pub use unknowing::Unknowing;
pub use value::{ExactValue, ValueDomain};
