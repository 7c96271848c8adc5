//! The rules by which a typed program is admitted, and its plan.
//!
//! A program is admitted where it has a main, each function that is called has a body, calls are not recursive, chains of
//! calls are short and all of main with what it calls is small, no goto leads into a block, and nothing depends on an
//! order of evaluation that C does not fix. The plan has the order in which functions are looked at, each after those
//! that it calls. The questions are asked in this order, and the first that has no for an answer refuses the program.
//!
//! For example, `int main(void){int i=0;i=i++ +1;return i;}` is refused at its second `=`, whose right side writes `i`,
//! and `int f(int n){return f(n);} int main(void){return f(1);}` for the call of `f` in `f`.
//!
//! | What | Stated in `specs/` | Promised by |
//! |---|---|---|
//! | what is admitted, and what else is refused for | `Rules` | `admit` |
//! | the order rule | `Sequenced`, over `Sides` of c_rules_order | `admit` |
//! | the plan | `Plans` of c_layout | `admit` |
//! | what two outcomes of one program have in common | `Outcomes` | `refusals_are_one`, `admitted_is_not_refused` |
#![tactic(auto)]

mod clashes;
mod error;
mod laws;
mod questions;
mod start;
mod strays;

pub use error::RuleError;
pub use laws::{admitted_is_not_refused, refusals_are_one};
pub use questions::admit;
