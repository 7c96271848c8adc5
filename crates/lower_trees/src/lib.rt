//! How a typed program is lowered to the language that is analysed: definitions.
//!
//! Each expression is lowered in its uses: for its value, as a test that leaves by an exit where it is false or where it
//! is true, and as a struct that is copied from. What is done before the value is a statement; the checks of a node are
//! the node's own list of c_layout, in its order, each at its place, behind the loads that they look at. What has checks
//! is put into a temporary directly behind them; only an index of an array stays in its address, so that the address of a
//! named place is its object's, moved by steps.
//!
//! Temporaries stand in rows, one for each scalar type, so that a depth and a type name one. A full expression begins at
//! the first row of its function, and a function's rows begin behind those of all that it calls.
//!
//! For example, `return 10 / x;` becomes the checks of a load of `x`, the load into a temporary, a check of the divisor, a
//! check of the quotient, the quotient in a temporary, and a return of it.
//!
//! | What | Stated in `specs/` | Promised by |
//! |---|---|---|
//! | rows of temporaries; the checks of a node | `Temps`, `Checking` | |
//! | expressions and places; statements; functions and programs | `LowerExpr`, `LowerStmt`, `LowerProgram` | |
//! | what an initialiser leaves becomes 0, scalar by scalar | `Zeros` | |
//! | a store of 0 makes the memory that its bytes make | `ZeroStores` | `zeros_are_bytes` |
//! | what a lowering is to keep of each run, and of the program | `Correct` | `lowering_is_right` of `lower_keeps` |
//! | the address of a named place is its object's, moved by steps | `Named` | `named_places_stay` |
//! | small programs come to what the machine of C comes to | `Samples` | `samples_are_lowered` |
#![tactic(auto)]

mod laws;

pub use laws::{named_places_stay, samples_are_lowered, zeros_are_bytes};
