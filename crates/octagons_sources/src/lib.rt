//! Bounds of variables that are taken from those of other variables.
//!
//! A source says of a variable where its bounds come from: from the variable at a place of a matrix,
//! from the negation of that, or from 0, with some number of a range added. For example, with the
//! source "place 3, from 1 to 2" a variable has the bounds of `v(3) + 1` up to `v(3) + 2`. One pass,
//! `draw`, makes a matrix by a list of sources: so variables are set, forgotten, taken in, let go and
//! put in another order. A matrix that was tightly closed gives a tightly closed one, with no closing.
//!
//! `specs/Sources.antt` says what a source makes of a valuation, `specs/Drawn.antt` which bounds follow.
#![tactic(auto)]

mod between;
mod drawing;
mod seeing;
mod source;

pub use between::drawn_bound;
pub use drawing::{Drawing, draw};
pub use seeing::seen_bound;
pub use source::Source;
