//! What may go wrong in a program: it is lowered, and the lowered program is analysed.
//!
//! The list misses no run that goes wrong, whatever its inputs; each alarm shows what fails there, is admitted, and names
//! objects of the program; and the list is in strict order by place, kind and chain of calls. A program is asked to be well
//! typed, with a plan, and to have sites that agree, as each program of a text has that the rules admit.
//!
//! For example, of `int g(int x) { return 10 / x; }`, called as `g(2) + g(0)` in main, there is one alarm, at the division,
//! with the place of the second call in its chain.
//!
//! | What | Stated in | Promised by |
//! |---|---|---|
//! | what is asked of a program | `Ready` | - |
//! | what is promised of its alarms | `AlarmsOf` of alarm_carried_laws | `alarms_of` |
#![tactic(auto)]

mod alarms;
mod states;

pub use alarms::alarms_of;
