//! What a set of states knows of the bytes of objects, and what it stands for.
//!
//! Of an object that lives, a set knows cells, the bytes of a scalar, whole, that are nothing, a number or a pointer, and
//! stretches, bytes that are all one byte. Of a temporary it knows what it may point to. The numbers of cells and of
//! temporaries are those of a valuation of a numeric domain, in which each has a variable of its own: a temporary by its
//! number, a cell by its object, offset and size. So two sets agree on variables whatever they know, and none is ever
//! renumbered. What is not known may be anything.
//!
//! For example, of `int x` behind `x = 3` there is a cell at offset 0 with the variable of x, which a valuation maps to
//! 3; of `static char a[4096];` there is one stretch of 4,096 bytes 0 at the start; and behind `p = &x` the temporary p has
//! the set {x}, and its variable is 0, the offset.
//!
//! | What | Stated in `specs/` |
//! |---|---|
//! | cells, stretches and pointers, and when bytes of memory meet them | `Cells` |
//! | when a set stands for a state of the language that is analysed | `Stands` |
//! | what is left of what a set knows when bytes are stored, or objects begin, end or lose their values | `Stores`, `Ends` |
//! | when one set says no more than another, and how much a set can still forget | `Joins`, `Weights` |
//! | stretches as cells | `Fills` |
#![tactic(auto)]

mod entry;
mod held;
mod shared_set;

pub use entry::{Entry, FillByte, Stretch, size_in};
pub use held::Held;
pub use shared_set::SharedSet;
