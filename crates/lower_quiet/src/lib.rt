//! What lowered code leaves alone: laws.
//!
//! Code at a depth sets temporaries of the rows from there on, as many as it uses, and reads those of its own function
//! alone. A function's rows lie behind those of all that it calls. So a value stays while code of a later depth runs, calls
//! in it or not.
//!
//! | What | Stated in `specs/` | Promised by |
//! |---|---|---|
//! | what code sets and calls, and what values read | `Quiet` | - |
//! | what a call of a function may set lies below the function's last row | `Laws.CallsSetBelow` | `calls_set_below` |
#![tactic(auto)]

mod laws;

pub use laws::calls_set_below;
