// Places in a file.

/// A place: the number of the file among those that the command names, from 0, and the physical
/// line and the byte column, each from 1.
#[derive(Clone, Copy, Debug, PartialEq, Eq)]
pub struct Pos {
    pub file: u32,
    pub line: u32,
    pub col: u32,
}
