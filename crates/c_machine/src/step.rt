// What a step comes to.

use c_syntax::{Pos, WrongKind};

/// What a step comes to.
#[derive(Clone, Copy, PartialEq, Eq)]
pub enum Step {
    /// The machine went on.
    Went,
    /// The run has ended, with main's value.
    Ended(i32),
    /// The next input is not there.
    Waiting,
    /// An assumption does not hold.
    Stopped,
    /// Something is wrong, of this kind, at this place of the text.
    Wrong(Pos, WrongKind),
    /// There was not enough memory, in this step or an earlier one.
    NoMemory,
}
