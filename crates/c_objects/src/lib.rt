//! The memory of a program's objects, the operators and accesses of its values over it, and the lifetimes of objects.
//!
//! Each object that lives has a block of `block_mem`, made when the object begins and ended when it ends. Beside the blocks the
//! memory has the object of each block, live or dead, and the block of each object that lives. So where a pointer points is
//! computed: into a dead block it is dead, and else it is at an offset in an object.
//!
//! For example, once an object of 12 bytes was opened, a pointer to its offset 4 that is moved by 8 bytes is one past the end,
//! which is allowed; moved by 9 it is refused: Bounds, with the object and 13. After the object was shut, any move of it is
//! refused: Dangling.
//!
//! A scope makes its objects live at its start and ends them at its end, in C and in the language that is analysed. Where a
//! scope of the objects 4 and 5 is entered while neither lives, and object 2 lives in block 7 until it ends, then behind it 4
//! and 5 do not live, and 2 lives in block 7.
//!
//! | What | Stated in `specs/` | Promised by |
//! |---|---|---|
//! | blocks of objects | `Opening` | `new`, `open`, `shut`, `open_all`, `shut_all`, `address`, `undefine` |
//! | operators | `c_values`, `Operators` | `binary`, `unary`, `member`, `check_test`, `check_assertion` |
//! | accesses | `c_values`, `Accesses`; `Writing` | `check_read`, `check_write`, `load`, `store`, `copy` |
//! | initialisers | `Writing` | `initialise`, `fill_rest` |
//! | the start of a run | `Statics` | `start` |
//! | what every memory keeps | `Kept` | `memory_keeps`, `objects_keep`, `start_keeps` |
//! | what facts say of cells | `Cells` | `cells_are_read_at_their_types` |
//! | when a fact holds in memory | `FactsIn` | the crates above that list facts |
//! | a list in which each number stands once | `Lifetimes` | `counts_tell_distinct` |
//! | behind a scope each object is where it was; at the start static objects live alone | `Lifetimes` | `scopes_leave_places`, `only_statics_start` |
#![tactic(auto)]

mod accesses;
mod initial;
mod laws;
mod lifetimes;
mod memory;
mod operators;
mod statics;
mod writing;

pub use initial::NamedBytes;
pub use laws::{cells_are_read_at_their_types, memory_keeps, objects_keep, start_keeps};
pub use lifetimes::{counts_tell_distinct, only_statics_start, scopes_leave_places};
pub use memory::ObjectMemory;
