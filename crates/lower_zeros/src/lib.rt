//! What an initialiser leaves of an object becomes 0, in code.
#![tactic(auto)]

mod named;
mod scalars;
mod zeros;

pub use scalars::scalar_from;
pub use zeros::zero_rest;
