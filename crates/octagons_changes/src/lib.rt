//! What an octagon knows, shared by its copies until it is changed, and the changes.
//!
//! `Relations` is a pack of at most 24 variables and the bounds of their sums and differences. A variable is
//! brought in, set and forgotten by one drawing of a new matrix from the old one, so that no bounds are closed
//! again where they were closed. A bound that a test or a message tells lowers one entry.
//!
//! The octagon domain is made of these calls. `specs/States.antt` says which valuations are admitted.
#![tactic(auto)]

mod assigning;
mod lattice;
mod lowering;
mod meeting;
mod related;
mod relations;
mod sums;

pub use relations::Relations;
