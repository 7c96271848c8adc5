//! The machine of C follows the code of each statement, and of the body of each function: laws.
//!
//! Behind a statement's code the machine has what comes behind the statement still to do. Where the code leaves, the machine
//! comes to what its own jump over the rest of the work comes to: an exit to a break or a continue, a goto to the label in
//! the nearest block that has it, a return behind the call. A turn of a loop, a goto and a call take one unit of fuel, which
//! a step of the machine pays for.
//!
//! | What | Stated in |
//! |---|---|
//! | where code leaves to; ends of blocks and switches, and branches | `proofs/Ways` |
//! | labels, cases and defaults among lowered items | `proofs/Marks` |
//! | items of a block, from its start or from a mark on, and gotos back into it | `proofs/Items` |
//! | loops, turn by turn | `proofs/Loops` |
//! | declarations and initialisers | `proofs/Inits` |
//! | all typed statements, where calls are followed | `proofs/Stmts` |
//! | all bodies, by the fuel (`bodies`) | `proofs/Bodies` |
#![tactic(auto)]
