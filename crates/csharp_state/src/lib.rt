//! What statements of the language that is analysed do to a state, in code.
//!
//! A state is the values of the temporaries, the memory of the program's objects and the inputs that are
//! left. Each action of the language is a call that changes the state as the pure action does, or tells
//! that there is no state behind it: the statement is stuck, or waits. A check is judged on the operand
//! of its kind, which for a check of a result is an exact number.
//!
//! Beside out of memory a call gives up, as `Unheld`, exactly where what comes next is nothing that the
//! code holds: a number that is no `i128`, a pointer whose offset is no `i64`, a stored value that memory
//! does not take at its store's type, or bytes that are looked at where none can be loaded. The state is
//! then as it was.
//!
//! For example, `set` of a temporary to `2147483647 + 1` at int makes it -2147483648, and a check of
//! Overflow on the same expression fails with 2147483648.
//!
//! | What | Stated in | Promised by |
//! |---|---|---|
//! | values of expressions | `value_of` of csharp | `value` |
//! | actions | `Actions` of csharp | `set`, `load`, `store`, `copy_bytes`, `undefine`, `input`, `enter`, `leave`, `are_free`, `pass`, `give`, `put`, `put_into` |
//! | checks | `operand_of` and `look_of` of csharp, `judge` of c_values | `operand`, `judge` |
//! | memory of a program's objects | `Belongs` | each call that changes memory |
//! | what the code does not hold | `Unheld` | each call that gives up |
//! | what answers of the code say | `Answers` | each call |
#![tactic(auto)]

mod accesses;
mod actions;
mod calls;
mod checks;
mod error;
mod failing;
mod numbers;
mod operators;
mod sight;
mod state;
mod values;

pub use error::{Unanswered, Unheld};
pub use sight::{CallEnd, Judgement, LoadMark, Operand};
pub use state::{State, Step};
