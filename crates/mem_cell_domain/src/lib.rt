//! A domain of memory of cells and pointers over any domain of numbers.
//!
//! A set of states knows the numbers of temporaries and of cells by a numeric domain, what temporaries may point to, and
//! what the bytes of objects are, as the crates below say; here each call of `MemDomain` is one of theirs, with what the
//! program says of its objects. So a set follows pointers into structs, arrays and locals, and relations of the numbers
//! with them.
//!
//! For example, of `static int a[2]; int *p = a; p[1] = 3;` a set knows behind the store that the bytes 0 to 3 of `a` are 0,
//! that the bytes 4 to 7 are an int with the number 3, and that p points to `a`, at offset 0.
//!
//! It claims nothing exact: beside a domain that does, in a pair, it only takes states away.
//!
//! | What | Stated in `specs/` | Promised by |
//! |---|---|---|
//! | the laws of domains of memory | `mem_api` | `CellStates`' `MemDomain` |
//! | what is known once objects begin and end | `Lives` | `enter`, `leave` |
//! | how far widening can still go | `Heavy` | `widen` |
#![tactic(auto)]

mod bits;
mod changes;
mod declared;
mod initial;
mod joins;
mod lives;
mod start;
mod states;
mod values;

pub use states::CellStates;
