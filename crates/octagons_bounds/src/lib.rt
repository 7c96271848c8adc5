//! Bounds of the sums and differences of the variables at some places, with a flag that says whether they
//! are tightly closed.
//!
//! One bound more is closed by `close_one` where the flag is set, and else by `close`. Joining raises each
//! bound to that of another matrix, widening to a step of a ramp; both see the other one by where its
//! variables stand, and a variable that it lacks has no bound there. Widening takes the left bounds as they
//! are and never closes them first: `widen` promises that what can still rise falls, and closing would let it
//! rise again.
#![tactic(auto)]

mod bounds;
mod lattice;
mod sizes;
mod widening;

pub use bounds::Bounds;
