// What declarators declare.

use c_syntax::{CType, Pos};

/// An object that a declarator declares.
#[derive(Drop)]
pub struct ObjectNow {
    pub number: u64,
    /// The place of its name.
    pub pos: Pos,
    pub ty: CType,
    pub is_static: bool,
    pub in_block: bool,
    /// Whether it is an array that gets its size by its initialiser.
    pub measured: bool,
}

/// What a declarator declares.
#[derive(Drop)]
pub enum Declares {
    /// An object, whose initialiser may follow.
    AnObject(ObjectNow),
    /// What takes no initialiser.
    NoObject,
}

/// How an object of the file is declared: with an initialiser; as its definition; as one that the file defines
/// somewhere; in a block.
#[derive(Clone, Copy)]
pub(crate) struct FileObject {
    pub(crate) has_init: bool,
    pub(crate) defines: bool,
    pub(crate) is_there: bool,
    pub(crate) in_block: bool,
}
