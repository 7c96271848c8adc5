// How a statement is left.

/// How a state leaves a statement.
#[derive(Clone, Copy, PartialEq, Eq)]
pub enum Way {
    /// By an exit, with so many blocks to leave beside the innermost.
    Exit(u64),
    /// By a goto to this label.
    Goto(u64),
    /// By a return; what it gives stands in the temporaries of the call already.
    Return,
}

/// The temporaries that take what a call gives, as those of its call.
#[derive(Clone, Copy)]
pub struct Target {
    pub value: Option<u64>,
    pub flag: Option<u64>,
}

/// A set of states that leaves a statement, and how.
#[derive(Drop)]
pub struct Kept<M> {
    pub way: Way,
    pub state: M,
}
