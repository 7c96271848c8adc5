//! `Env<V>`: a numeric domain that keeps a value of any lawful domain for each variable by itself.
//!
//! An absent variable may be anything. With intervals, `assume(x + 1 < y)` over x in [0, 9] and y in [3, 5] leaves x in
//! [0, 3]: a comparison gives each side the range in which it has to lie, and the range of a side goes down through sums,
//! differences, negations and products by a number to the variables. `eval` answers a value that admits each number which an
//! expression has, or None where it has none: over x in [2, 3] and y in [0, 4] the interval of `x / y` is [0, 3], and there is
//! none of `x / z` where z is known to be 0. It looks up the variables that the expression reads, and no other.
//!
//! A state is a map, a list of entries by rising variable. A variable is looked up, set and taken out by halving: log n steps
//! of n entries, and the move of those behind it. `merge` and `all_met` go over two maps once, side by side: of {1: a, 3: b}
//! and {2: c, 3: d}, `merge` with a function f makes {3: f(b, d)}, and `all_met` is false since only one has 1.
//!
//! The laws are those of `Oracle` and `NumDomain` of `num_api`. Contracts see a state as the list of its entries.
//!
//! | What | Stated in `specs/` | Promised by |
//! |---|---|---|
//! | a look-up, and what two maps have to do with each other | `Entries`, `Passes` | `VarMap` |
//! | what a state admits and knows; the value of an expression | `States`, `Evaluation` | `eval` |
//! | what a cut is, and weight | `Changes`, `Laws` | `Env` |
#![tactic(auto)]

mod changes;
mod cuts;
mod entries;
mod evaluation;
mod inverses;
mod map;
mod merges;
mod rounds;
mod state;
mod told;

pub use entries::Entry;
pub use evaluation::eval;
pub use map::VarMap;
pub use state::Env;
