//! The machine of C: a program is run step by step, on a list of inputs.
//!
//! A machine has the work that is left, a stack of values, the memory of the program's objects, and the inputs that were not
//! read yet. A step takes one item off the work and does its row. It answers that it went, or that the run has ended, waits
//! for an input, was stopped by an assumption, or is wrong, at a place and of a kind; then the machine is as it was, and
//! answers the same again. Once it wanted memory it answers that for good.
//!
//! For example, a run of `int main(void) { return 1 / 0; }` goes on until both operands stand on the stack; the next step
//! answers DivideByZero at the place of `/`, and so does each one behind it. The chain of calls is empty there, as main
//! has no call.
//!
//! A machine is made of a well typed program and a plan for it, and steps on that program alone (`IsFor`). Its state is the one
//! that `c_steps` speaks of (`state_of`), each step is its Step, and the state is one that the run of the plan's main on the
//! inputs reaches; so it never stands, and each row finds on the stack and in memory what it needs (`c_steps_laws`).
//!
//! What a step costs: function bodies are shared once, when the machine is made; from then on an item of the work has a share
//! of the part of the program that it names, so a loop's turn copies nothing. A step takes as long as its row: a call as long
//! as its arguments, a block as its items, a jump as the work that it drops, a copy or an initialiser as its bytes. The work and the
//! stack grow and shrink with nesting and calls. Memory alone only grows: each object that begins takes a block, which
//! is kept when the object has ended, so that pointers to it are told to be dead. A loop whose body declares nothing runs in
//! constant memory.
//!
//! | What | Stated in `c_steps` | Promised by |
//! |---|---|---|
//! | the start of a run | `Runs` | `Machine::new` |
//! | Step | `Steps` | `Machine::step` |
//! | the calls that lead to a state | `Runs` | `Machine::chain` |
#![tactic(auto)]

mod branches;
mod calls;
mod evaluations;
mod functions;
mod inputs;
mod jumps;
mod machine;
mod marks;
mod rows;
mod run;
mod shares;
mod statements;
mod step;

pub use inputs::Inputs;
pub use machine::Machine;
pub use step::Step;
