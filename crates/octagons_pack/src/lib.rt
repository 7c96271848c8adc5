//! Packs of at most 24 variables, kept in the order of their use: the one that was used latest stands
//! first, so that the last one is let go where there is no room.
//!
//! A place of a variable is that in this list. `sources` says where the variables of a new pack have
//! their bounds from: each from its place in the old pack, one that was not there from nowhere, and one
//! that is set from what it is set to.
#![tactic(auto)]

mod changes;
mod pack;

pub use changes::{Change, sources};
pub use pack::{PLACES, brought, common, place_of, places_in, without};
