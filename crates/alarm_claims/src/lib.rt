//! What an analysis owes of an analysed program: its alarms miss no failing check, show what fails, are admitted, and stand in order.
//!
//! A list of alarms is whole where some alarm of it tells of each check that fails on some inputs, each alarm is admitted, and
//! the list is in strict order: by place, then by the number of the kind, then by the chain of calls. So there is one alarm for
//! each chain, place and kind, and it shows each operand that fails there. An alarm is admitted where calls lead from main to
//! its check, its example is shown and fails the check, and what it shows and tells names objects of the program.
//!
//! For example, of `int g(int x) { return 10 / x; }`, called as `g(2) + g(0)`, one alarm is owed, at the division, with the
//! place of the second call in its chain. It shows 0, and 0 is its example.
//!
//! | What | Stated in `specs/` | Promised by |
//! |---|---|---|
//! | when an alarm tells of a failure; what is owed | `Analyzed` | `analyses_are_whole` |
//! | which alarms are admitted, and when one holds another | `Admitted` | |
//! | an alarm made wider serves for both, and stays admitted | `Wider` | `serving_alarms_tell`, `holding_alarms_are_admitted`, `gains_are_admitted` |
//! | checks of one place and kind that look at as many operands | `Forms` | `forms_are_apart` |
//! | what an analysis owes of the one run without inputs, where it is exact of that run | `ExactFor` | |
//!
//! The order of alarms is that of `c_steps`.
#![tactic(auto)]

mod laws;

pub use laws::{
    analyses_are_whole, forms_are_apart, gains_are_admitted, holding_alarms_are_admitted,
    serving_alarms_tell,
};
