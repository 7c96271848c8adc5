//! A small domain of memory that shows that the laws of domains of memory can be met together, also where a program
//! has objects.
//!
//! A set knows a range for each temporary and each integer object, whether an object may have no value, which
//! temporaries are copies of objects, the range of an expression whose check has just passed, and, where it is known,
//! the one state of a run without inputs. It has the states in which all of this holds.
//!
//! It claims the exact laws of each program whose integer objects have as many bytes as their types. Of such a program
//! it is sharp at the start, and stays so: behind `x = 3; t = x` it has the one state in which `t` is 3, shows 3 alone
//! for a check of `t`, and is `Dead` behind a test that fails. And it is no wider than a plain run: behind
//! `t = x` and a test that `t < 10` holds, it has a range of `t` and of `x` that ends at 9, and behind a check of
//! `t + 1` for overflow, until the next change, `t + 1` has the numbers that passed.
//!
//! Of an address in one named object, of any program, it shows that object alone, with its alignment and with its
//! offset where all steps are constants.
//!
//! It is no domain for use: of pointers, structs and arrays it knows what the one state has, and nothing else; a store
//! at any address but an object's own takes away all that it knows of objects but in the one state; widening forgets
//! all at once. What the sets have is stated in `specs/Sets.antt`, when one is under a plain state too.
#![tactic(auto)]

mod alone;
mod declared;
mod membership;
mod passed;
mod shows;
mod states;
mod temps;
#[cfg(test)]
mod tests;

pub use states::IntervalStates;
