//! The text of a list of alarms, of every kind and in every form that an alarm may show.
//!
//! Each alarm has a line with its place, its kind and the calls that lead to it from main, a line of what the check may
//! meet, and a line with an example that fails it; then the facts that hold there, where these are asked for. A list
//! without an alarm is told by `no alarm`, each other list ends with its number.
//!
//! For example, `int main(void){int x=2147483647;x=x+1;return 0;}` is told so:
//!
//! ```text
//! a.c:1:36: Overflow in main
//!   shown: value in [2147483648,2147483648]; allowed [-2147483648,2147483647]
//!   example: 2147483648
//! alarms 1
//! ```
//!
//! | What | Stated in `specs/` | Promised by |
//! |---|---|---|
//! | the text of a list of alarms | `ReportText` | `alarms_text` |
//! | what a text asks of a program | `Told` | `alarms_text` |
//!
//! The text is written from its front into one buffer. A set of pointers costs with its names and not with the objects of
//! the program; the callee at a place of a chain is looked up by hash.
#![tactic(auto)]

mod alarms;
mod callees;
mod facts;
mod operands;
mod sets;
mod shown;
#[cfg(test)]
mod tests;
mod text;

pub use alarms::alarms_text;
