//! The words of the command line, and what they ask for.
//!
//! A command is `verac analyze FILE`, with options before or behind the file, each at most once: `--unroll N` for the turns of a
//! loop that are walked one by one, `--narrow N` for the most steps of narrowing, `--ramp powers` or `--ramp constants` for the
//! numbers at which widening stops, and `--state` for facts beside each alarm. A value stands in the next word or behind `=`.
//! Behind `--` no word is an option.
//!
//! For example, `verac analyze --unroll=10 a.c` asks for ten turns.
//!
//! | What | Stated in `specs/` | Promised by |
//! |---|---|---|
//! | which words are a command, and what it asks for | `Command` | `command` |
#![tactic(auto)]

mod numbers;
mod ramps;
mod words;

pub use words::{Asked, NARROWED, RAMP, UNROLLED, WordsError, command};
