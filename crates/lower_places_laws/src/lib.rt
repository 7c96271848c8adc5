//! Addresses of named places in lowered programs: laws.
//!
//! The address of a named place is lowered to the address of its object, moved by constants and by products with constants.
//! In a well typed program each of these is a multiple of the alignment of what stands there; and where no index stands in
//! the place, the address is the object's at one constant offset.
//!
//! For example, in `struct { char c; int a[3]; } s;` the place `s.a[i]` is at the address of `s`, moved by 4 and by 4 times
//! the value of `i`, both multiples of the alignment of an int.
//!
//! | What | Stated in `specs/` | Promised by |
//! |---|---|---|
//! | steps are multiples of the alignment | `Laws` | `named_places_are_aligned` |
//! | a place without an index is at one offset | `Laws` | `named_places_are_fixed` |
#![tactic(auto)]

mod laws;

pub use laws::{named_places_are_aligned, named_places_are_fixed};
