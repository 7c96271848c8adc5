//! Tests of what loads find and stores leave in cells and stretches, over ranges and classes of all variables.
//!
//! They stand here, and not in the crates that they call, since a crate with tests is proved twice.
#![tactic(auto)]

#[cfg(test)]
mod memory;
