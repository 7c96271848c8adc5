//! What is known of integer objects, and of temporaries that are copies of them.
//!
//! Of an integer object that lives a cell has its type, a range of its number, whether it may have no value, and
//! whether it is read-only. An assignment to an object by its name gives it another range, and a store through any other address takes all
//! that is known away. In `t = x; if (t < 10) ..` the temporary `t` is a copy of `x`, and the test cuts `x` with it.
//!
//! | What | Stated in `specs/` |
//! |---|---|
//! | lists of cells and copies, and what statements make of them | `Cells`, `Copies` |
//! | accesses to objects by their names | `Accesses` |
//! | when they hold in a state | `Known` |
//! | when they are no wider than a plain state | `Under` |
//!
//! That statements keep both is proved of these lists in `proofs/`: `Knowing` and `Cutting` for states, `Beneath`, `CutUnder`,
//! `Hulls` and `Beginning` for plain states.
#![tactic(auto)]

mod accesses;
mod cells;
mod copies;
mod cuts;

pub use accesses::{KnownObject, accessed};
pub use cells::{Cells, KnownCell};
pub use copies::Copies;
pub use cuts::{are_left, cut_cells};
