//! The top call: what may go wrong in a C file, from its bytes to the report.
//!
//! `run` reads the words of the command, reads the file, has it cut, parsed, typed and asked for the rules, has the alarms of
//! its program found, and writes the report or the line of the refusal, whole. For example, on the words `verac analyze a.c` and
//! `int main(void) { return 1 / 0; }` it writes one alarm, `DivideByZero`, and answers `Alarms`, whose exit status is 1.
//!
//! | What | Stated in `specs/` | Promised by |
//! |---|---|---|
//! | what an answer is | `Headline` | `run` |
//! | which program bytes are, and for what they are refused | `Program`, `Verdict` | `program_of`, `one_program`, `one_verdict`, `program_nor_refused` |
//! | exit statuses | `Status` | `code` |
//!
//! Which words are a command, and what it asks for, is that of `headline_words`. The text of a report is that of `report_alarms`, the line of a refusal that of `report`, and what is promised of the alarms is
//! stated in `alarm_carried_laws`.
#![tactic(auto)]

mod program;
mod runs;
mod status;
mod verdict;

pub use program::{Read, program_of};
pub use runs::run;
pub use status::Status;
pub use verdict::{one_program, one_verdict, program_nor_refused};
