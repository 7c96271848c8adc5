//! The work of the machine of C, and what stands on its stack.
//!
//! A machine does one work item at a time: it takes the first off the work, and puts others in front, or takes values off
//! the stack and puts one on it. Here are the items with the shares that they have of a program, both lists, and what
//! expressions and statements put in front of the work, none of which needs memory or changes it.
//!
//! For example, `a + 1` puts three items in front: the evaluation of `a`, that of 1, and the operator. The items of a block
//! stand in front of its end, each by itself; labels and cases are marks among them, which a jump finds.
//!
//! Of both lists the code's end is the front, and a loop counts its turns by a number of 64 bits. The definition of the
//! machine, `c_steps`, is what each call is held to: `item_of` and `held_of` are its items and what it holds
//! (`specs/Views`), `work_of` is its work (`specs/Works`), `mark_of` its marks.
//!
//! | What | Stated in `c_steps` | Promised by |
//! |---|---|---|
//! | parts of expressions, from left to right | `Expressions`, `Calls` | `put_parts`, `value_scalar`, `place_scalar`, `end_of_call` |
//! | items of blocks, and marks among them | `Marks` | `put_items`, `Mark::find` |
//! | parts of statements and initialisers | `Statements` | `put_block`, `put_for`, `put_branches`, `put_inits`, `Loop::of_condition`, `Loop::of_for` |
#![tactic(auto)]

mod ends;
mod evaluations;
mod items;
mod marks;
mod scalars;
mod stack;
mod statements;
mod work;

pub use ends::end_of_call;
pub use items::{AtEnd, Item, Loop};
pub use marks::Mark;
pub use scalars::{place_pos, place_scalar, value_scalar};
pub use stack::{Held, Stack};
pub use work::Work;
