//! What a set of states knows behind a store.
//!
//! A store at a place that is known puts a cell there, with the number of the value, and keeps what was known beside it.
//! Where the place is one of several, a cell of the value's type that the store hits whole or not at all may have its number
//! or that of the value; what else the bytes may meet is forgotten, and the rest stays. Where nothing is known of the place,
//! nothing of any object stays known. A copy of bytes forgets what it may write. Pointers that temporaries hold stay known.
//!
//! For example, behind `a[1] = x + 1` with `int a[4]` of zeros there is a cell of four bytes at offset 4, whose number is
//! one more than that of x, and a stretch of zeros on each side of it. Behind `a[i] = 5` with i from 0 to 1 that cell has its
//! number or 5, and of the four bytes before it nothing is known; the stretch of bytes 8 to 15 stays.
//!
//! | What | Stated in `specs/` | Promised by |
//! |---|---|---|
//! | what is known of objects behind a store, and of the value; the steps | `Changes` | `store`, `copy_bytes`, `undefine` |
//! | what is known of cells that a store may hit | `Hits` | - |
#![tactic(auto)]

mod copies;
mod forgotten;
mod grids;
mod spots;
mod stores;
mod undefined;
mod values;
mod weakened;
mod weakly;

pub use copies::copy_bytes;
pub use stores::store;
pub use undefined::undefine;
