//! Effects of whole calls, and operands that may disturb one another.
//!
//! # What calls of each function of a program read and write
//!
//! A call does what the function's body does, and what the functions do that it calls. Its automatic objects are its own,
//! so of these a caller sees nothing. The functions are gone through in an order in which each stands after those that
//! it calls, so each is looked at once. A touch stands once in what a function does.
//!
//! For example, where `f` has `int x = g; *p = x;`, calls of `f` read `g` and `p` and write Mem. So do calls of a
//! function that calls `f`.
//!
//! | What | Stated in `specs/` | Promised by |
//! |---|---|---|
//! | what calls of a function read and write | `Closed` | `closed_effects` |
//!
//! # The first two sides of a node whose order nothing fixes, and of which one writes what the other touches
//!
//! The walk hands up what each part of an expression does: the places that it reads and writes itself, and the calls
//! that it makes. Where a node has sides without an order, these are compared. What functions do is known before, by
//! number, and is looked into only where two sides are compared.
//!
//! For example, of `a[i] = i++` the place `a[i]` reads `i` and the right side writes it, so the two sides of `=` clash.
//! Of `f(a) + g(b)` the sides are `f(a)` and `g(b)`, which clash where `f` writes what `g` touches.
//!
//! | What | Stated in `specs/` | Promised by |
//! |---|---|---|
//! | the sides of the nodes of a statement | `Sides` | `first_clash` |
//! | when two sides clash, and the first of them | `Firsts` | `first_clash` |
//! | what a side does, with what it calls | `Firsts` | `effects_of_side` |
#![tactic(auto)]

mod clash;
mod closed;
mod compare;
mod earlier;
mod exprs;
mod gather;
mod known;
mod side;
mod stmts;

pub use clash::effects_of_side;
pub use closed::closed_effects;
pub use known::Known;
pub use side::{Comparison, Side};
pub use stmts::first_clash;
