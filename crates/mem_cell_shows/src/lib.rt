//! What a set of cells shows of a check, and what a condition or a check that passes leaves of it.
//!
//! A set knows numbers of temporaries and of cells by a numeric domain, what temporaries may point to, and what bytes of
//! objects are. `show` tells what a check may look at in its states, `assume` keeps the states in which a condition has a
//! truth, and `pass` those in which a check passes. For example, where p points to `a` or is null, `show` of the check of
//! null shows both; behind `assume` of `p != 0`, or behind `pass` of that check, p points to `a` alone; and where p and q
//! point into `a`, behind `p < q` the numbers know that the offset of p is less.
//!
//! Of a load of an integer the bytes are looked up in the one object that the pointer may point to, from its least offset
//! to its greatest: where each of them is known and none may be without a value, the load meets none.
//!
//! | What | Stated in `specs/` | Promised by |
//! |---|---|---|
//! | what holds the operand of each kind of check | `Checks`, with `Ends`, `Exacts`, `Shows`, `Marked`, `Reaches` | `show` |
//! | which states are kept, and what no call changes | `Changes`, with `Addresses`, `Compares` | `assume`, `pass` |
//!
//! Of sets no clause says that they are cut: a call may know less than it could.
#![tactic(auto)]

mod addresses;
mod assumes;
mod betweens;
mod compares;
mod cuts;
mod ends;
mod exacts;
mod insides;
mod keeps;
mod marks;
mod nodes;
mod passes;
mod reaches;
mod sets;
mod shows;
mod truths;
mod values;
mod widens;

pub use assumes::assume;
pub use passes::pass;
pub use shows::show;
