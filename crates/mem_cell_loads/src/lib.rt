//! What a load finds in the cells and stretches of a set of states.
//!
//! A load through a pointer whose place is known reads a cell or a stretch, and the number that it gives is an expression
//! over the cell's variable, so that the domain of numbers keeps how both stand to each other. Where a pointer may lead to
//! several places, of one object or of several, each place is read, and a load gives what one of them may hold: a range and
//! a set. Of a part of a cell, or of a cell of another type, the number is any of the type. Each reading tells too whether
//! the bytes may be without a value, a value of the type, or neither, as checks of loads ask it.
//!
//! For example, with `int a[2]` of which both elements are known, 3 and 5, `a[i]` with i from 0 to 1 loads a number from 3
//! to 5; where nothing is known of the second element it loads any `int`, and its bytes may be without a value.
//!
//! | What | Stated in `specs/` | Promised by |
//! |---|---|---|
//! | what is known of bytes of an object, and what may be loaded from them | `Found` | `reading_at` |
//! | where a pointer may lead, and what may be read there | `Places` | `reach_of`, `read_all` |
//! | what a load finds, and the set behind it | `Reads` | `load` |
#![tactic(auto)]

mod along;
mod content;
mod found;
mod loads;
mod numbers;
mod reach;
mod reading;

pub use along::read_all;
pub use content::{Content, anything, put_number};
pub use found::{Found, cell_variable, find, scalar_size};
pub use loads::load;
pub use numbers::number_range;
pub use reach::{Reach, place_at, reach_of};
pub use reading::{Marks, Reading, reading_at};
