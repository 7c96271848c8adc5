//! How the machine of C follows the code that a node is lowered to: laws.
//!
//! What the machine does from a state, where lowered code has an outcome, is one relation: behind a normal end a state is
//! reached that a goal tells; a failed check is a step that goes wrong there, with that operand and that memory; code that
//! leaves has a way; and code that is out of fuel is followed by as many steps. Each node has a row: loads, stores,
//! copies, operators, tests, initialisers, and jumps.
//!
//! | What | Stated in |
//! |---|---|
//! | what following is, and its steps | `proofs/Steps` |
//! | the rows of nodes | `proofs/Rows`, `Operators`, `Tests`, `Copies`, `Initials`, `ZeroCells`, `Jumps` |
//! | loads, sums and stores of variables and of what pointers point to | `proofs/Sim` |
#![tactic(auto)]
