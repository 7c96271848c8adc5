// What turns and passes come to.
#![tactic(auto)]

use c_syntax::Alarm;
use walk_owes::{Head, Kept};

/// What items come to: the set behind them, what leaves them, and the alarms in them.
#[derive(Drop)]
pub struct Pass<M> {
    pub after: Option<M>,
    pub kept: Vec<Kept<M>>,
    pub out: Vec<Alarm>,
}

/// A set from which a turn was walked, and what the turn came to.
#[derive(Drop)]
pub struct Turned<M> {
    pub head: M,
    pub pass: Pass<M>,
}

/// Passes end with one that is closed, or where a label got its first head.
#[derive(Drop)]
pub enum Settled<M> {
    Closed(Pass<M>),
    More(Vec<Head<M>>),
}
