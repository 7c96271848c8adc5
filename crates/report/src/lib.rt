//! The line that says why a file is refused.
//!
//! A refusal is told at its place, in one line. A type is told from the outside in, by C's words and the tags of its structs:
//! `int *a[3]` has the type `array of 3 pointer to int`, and the refusal of `s + 1`, where `s` is a `struct S`, is told by
//! `no rule for + on struct S and int`. Calls that lead back to where they began are told one after the other, each by the
//! function that it calls and its own place: `int f(int n){return f(n);}` with a `main` that calls it is told by
//! `recursion f@1:21`, at 1:21. A program without `main`, and one that is too large, is refused as a whole, so it has no place.
//!
//! | What | Stated in `specs/` | Promised by |
//! |---|---|---|
//! | refusals as trees without pointers; the line of one | `Refusal`, `RefusalText` | `refusal_line` |
//! | operators, integer types and constructs as words; types as words | `Words`, `TypeText` | `op_name`, `construct_name`, `type_text` |
//! | what is told of a refusal of typing, and where it stands | `TypeRefusals` | `refusal_text`, `refusal_pos` |
//! | refusals by the rules without what no text tells | `RuleRefusals` | |
//! | what is told of one, where it stands, and the names of the functions | `RuleText` | `rule_text`, `rule_pos`, `names_of` |
//!
//! A text is a list of bytes, as the tag of a struct is. A type may be a chain of any length, so it is told by a loop.
#![tactic(auto)]

mod function_names;
mod refusal;
mod rule_calls;
mod rule_refusals;
mod type_refusals;
mod type_words;
mod types;

pub use function_names::names_of;
pub use refusal::{Refusal, refusal_line};
pub use rule_refusals::{rule_pos, rule_text};
pub use type_refusals::{refusal_pos, refusal_text};
pub use type_words::{construct_name, op_name};
pub use types::type_text;
