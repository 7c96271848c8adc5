//! What two domains of memory show at once.
//!
//! Where two domains stand side by side, an operand of a check is shown by both. `narrowed` keeps what is in both, and
//! nothing that the first does not show: of numbers and offsets the inner ends and the class of both, of pointers the
//! common names and marks, of loads the common marks and of calls the common ends. For example, of the numbers from 0 to
//! 9 and of the multiples of 4 from 3 to 20 it shows those multiples of 4 from 3 to 9; of any pointer, and of null or
//! `&a[1]`, the latter two.
//!
//! What the first side shows of one pointer by its form stays: an offset that is known, and a common divisor of the
//! modulus and the remainder of its offsets.
//!
//! | What | Stated in `specs/` | Promised by |
//! |---|---|---|
//! | what is in both of two shown values | `Narrowed` | `narrowed`, `pointers_narrowed` |
#![tactic(auto)]

mod bounds;
mod sets;
mod shown;

pub use sets::pointers_narrowed;
pub use shown::narrowed;
