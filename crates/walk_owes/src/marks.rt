// Where items are entered.

/// A place among items where they are entered.
#[derive(Clone, Copy, PartialEq, Eq)]
pub enum Mark {
    Label(u64),
    Case(i128),
    Default,
}

/// The set that enters items at a mark, where there is one.
#[derive(Drop)]
pub struct Head<M> {
    pub mark: Mark,
    pub state: Option<M>,
}

/// What a head does as jumps come back to it.
#[derive(Clone, Copy, PartialEq, Eq)]
pub enum Change {
    /// All that came was there.
    Same,
    /// It was widened.
    Wider,
    /// It had no set before.
    New,
}
