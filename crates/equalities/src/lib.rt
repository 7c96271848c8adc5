//! `Equalities`: a numeric domain that keeps which expression a variable equals.
//!
//! An assignment x = e keeps the pair of x and e, where e does not read x, and drops what speaks of the x that
//! was. A test `x == e` and a message that says so keep the pair too. At most 64 pairs are kept, and the oldest
//! goes; copies of a state share the expressions.
//!
//! What it knows is of use to the domain beside it, which it tells by messages. Behind x = y + 1 a test of x or y
//! tells x = y + 1 and y = x - 1, and so on to all variables that equalities tie to these. A variable that equals
//! a comparison passes its truth on: behind c = (x < 10) a test of c tells that x is at most 9.
//!
//! Contracts see a state as the list of its pairs, the newest first. specs/Pairs.antt says what each call makes
//! of the list.
#![tactic(auto)]

mod changes;
mod following;
mod laws;
mod pairs;
mod solving;
mod state;
mod telling;
mod ties;

pub use laws::answers_assigned;
pub use state::Equalities;
