//! The machine of C follows the code of each typed expression, in all its uses, where it follows calls: laws.
//!
//! Behind the code of an expression its value is on the machine's stack, and the expression that the code leaves has that
//! value: for a struct, the address of its bytes. A test goes on to what the machine goes on to, or leaves by its exit to what
//! the machine comes to else. The source of a copy is on the stack, and the looks at it have passed. What goes wrong on the
//! machine fails the code's check, at that place, with that operand and that memory.
//!
//! | What | Stated in |
//! |---|---|
//! | what is held on the stack; branches | `proofs/Held` |
//! | operators and conversions; conjunctions and disjunctions; `op=`, `++` and `--` | `proofs/Operations`, `proofs/Ands`, `proofs/Modified` |
//! | an expression in its uses, from its parts | `proofs/Simple`, `proofs/Composed`, `proofs/Chosen` |
//! | all typed expressions, places and arguments | `proofs/Sims` |
#![tactic(auto)]
