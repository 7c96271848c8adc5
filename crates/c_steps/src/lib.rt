//! What a C program does when it runs, and what a list of alarms promises of its runs: a machine that does one work item at a
//! time.
//!
//! A state has the work that is left, a stack of values, the memory of the program's objects, and the inputs that are left. A
//! step takes the first item off the work and does its row, a line for each kind of item: it puts the parts of an expression or
//! a statement in front of the work, or takes values off the stack and gives one. Whatever can go wrong is a list of looks of
//! `c_values`, in their order; the first check that fails ends the run, with its operand. Jumps drop work, and do what they
//! drop of the ends of blocks.
//!
//! For example `int main(void) { return 7; }` makes five steps: main is entered, its body is opened, the `return` is taken
//! apart, 7 is evaluated, and the function is left, which ends the objects of the body and the parameters. The next step is the
//! end, with 7.
//!
//! | What | Stated in `specs/` | Promised by |
//! |---|---|---|
//! | work items, states, what a step gives | `Work`, `States` | |
//! | labels, cases and defaults; jumps | `Marks`, `Jumps` | |
//! | stores, copies, `op=`, `++`, what fills objects | `Changes` | |
//! | calls | `Calls` | |
//! | rows of expressions and of statements; Step | `Expressions`, `Statements`, `Steps` | |
//! | After, Going wrong | `Runs` | |
//! | inputs, gotos that lead forwards, turns of loops | `Bounds` | |
//! | alarms miss no run, and show no more than runs reach | `Sound` | the call that finds the alarms |
//! | which alarms a program admits, and their order | `Admission`, `Order` | the call that finds the alarms |
//! | a state which is a run's last one stays; a run has one at most; where small programs end | `Laws`, `Samples` | `last_states_stay`, `runs_end_once`, `samples_run` |
#![tactic(auto)]

mod laws;

pub use laws::{last_states_stay, runs_end_once, samples_run};
