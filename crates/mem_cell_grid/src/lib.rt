//! What a set of states knows of pointers and of the bytes of objects, as lists that are joined place by place.
//!
//! A `Grid` has a place for each object of a program, and `Pointers` one for each temporary. What is known of one object
//! is in order of its offsets and shared by copies of the grid until it is changed, so a copy costs one count for each
//! object, a store changes what is known of one object, and two grids are joined in one pass over both. Cells that agree
//! on offset and type are joined as they are, with no number moved.
//!
//! For example, where one side knows bytes 0 to 7 of an object as two integers and the other only the first, the join
//! knows that first integer; and where 16 bytes 0 meet 8 bytes 0, the join has those 8.
//!
//! | What | Stated in `specs/` | Promised by |
//! |---|---|---|
//! | what is left beside bytes that are stored, and the cell that is stored | `Lefts` | `left`, `stored` |
//! | what both of two sides say, whether the first loses nothing, and how much less it weighs | `Meetings` | `Grid::meet`, `Pointers::meet` |
//! | what is left when objects end | `Endings` | `Grid::ended`, `Pointers::ended` |
#![tactic(auto)]

mod cells_met;
mod ended;
mod flags;
mod grid;
mod lefts;
mod pointers;
mod stretches_met;

pub use grid::{Grid, GridMeeting, blank};
pub use lefts::{left, stored};
pub use pointers::{PointerMeeting, Pointers};
