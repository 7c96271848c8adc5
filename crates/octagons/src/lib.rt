//! `Octagon`: a numeric domain of bounds of the sums and differences of two variables (Miné).
//!
//! Contracts see an octagon as the variables of its pack, at most 24, and a matrix of bounds. The pack grows by
//! use: a variable that an assignment `x = y + c` or `x = c - y`, a test of two variables or a message relates
//! comes in, and where the pack is full the one that was used longest ago goes, with its bounds.
//!
//! Two states are compared, joined and widened by looking bounds up by variable: one that a state lacks has no
//! bounds there.
#![tactic(auto)]

mod domain;

pub use domain::Octagon;
