//! Tests of `machine_nums` over two numeric domains: each call of `Machine` over ranges and classes of all
//! variables, and over `OneNumber`, which knows the number of one variable at most.
//!
//! They stand here, and not in the crate that they call, since a crate with tests is proved twice.
//!
//! `OneNumber` keeps the laws of numeric domains and claims nothing of how much is known. For example, after x
//! is given 3 and then y is given x + 1 it knows that y is 4, and of x nothing.
#![tactic(auto)]

#[cfg(test)]
mod machines;
mod one_number;

pub use one_number::OneNumber;
