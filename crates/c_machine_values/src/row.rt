// What a row comes to.

use block_mem::Value;
use c_syntax::{Pos, WrongKind};

/// What a row comes to.
#[derive(Clone, Copy)]
pub enum Row {
    /// It is done.
    Went,
    /// Something is wrong, of this kind, at this place of the text; stack and memory are as they were.
    Wrong(Pos, WrongKind),
}

/// What a test of a value comes to.
#[derive(Clone, Copy)]
pub enum Tested {
    /// The value may be tested, and was taken off the stack.
    Passes(Value),
    /// The value may not be tested; it still stands on the stack.
    Wrong(WrongKind),
}
