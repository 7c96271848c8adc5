// What names and tags stand for.

use crate::table::Named;
use c_syntax::CType;
use c_syntax_written::{Name, Pos};

/// A type as a declaration gives it.
#[derive(Drop)]
pub enum Form {
    /// One of objects, or void, and whether it is const.
    Plain(CType, bool),
    /// An array of such elements whose size is not told.
    Unsized(CType, bool),
    /// That of a function with these parameters and this result.
    Callable(Vec<CType>, CType),
}

/// What an ordinary name stands for. Objects and functions go by their numbers.
#[derive(Drop)]
pub enum Meaning {
    /// An object.
    Object(u64),
    /// An object of the file that the file does not define, its type, and whether it is const.
    Missing(CType, bool),
    /// A parameter of a prototype: its place in the list, its type, and whether it is const.
    Parameter(u64, CType, bool),
    /// A function.
    Function(u64),
    /// A typedef name.
    TypeName(Form),
    /// An enumeration constant, and its value.
    Enumeration(i128),
}

/// A name, the place of its declaration, and what it stands for.
#[derive(Drop)]
pub struct Binding {
    pub name: Name,
    pub pos: Pos,
    pub meaning: Meaning,
}

impl Named for Binding {
    ghost name_of = { λ b. b.name };

    fn name(&self) -> &[u8] {
        self.name.as_slice()
    }
}

/// What a tag stands for. A struct goes by its number.
#[derive(Clone, Copy, PartialEq, Eq)]
pub enum TagMeaning {
    /// A struct.
    Struct(u64),
    /// An enumeration.
    Enum,
    /// An enumeration that still stands between its braces.
    OpenEnum,
}

/// A tag, the place where its scope names it first, and that of the word that defines it, if one does.
#[derive(Drop)]
pub struct TagBinding {
    pub tag: Name,
    pub pos: Pos,
    pub defined: Option<Pos>,
    pub meaning: TagMeaning,
}

impl Named for TagBinding {
    ghost name_of = { λ b. b.tag };

    fn name(&self) -> &[u8] {
        self.tag.as_slice()
    }
}

/// An object or a function of the file by its name, and whether the file has defined it.
#[derive(Drop)]
pub struct Linked {
    pub name: Name,
    pub pos: Pos,
    pub meaning: Meaning,
    pub defined: bool,
}

impl Named for Linked {
    ghost name_of = { λ l. l.name };

    fn name(&self) -> &[u8] {
        self.name.as_slice()
    }
}

/// A label of a function, and its place.
#[derive(Drop)]
pub struct Labelled {
    pub label: Name,
    pub pos: Pos,
}

impl Named for Labelled {
    ghost name_of = { λ l. l.label };

    fn name(&self) -> &[u8] {
        self.label.as_slice()
    }
}

/// A value of a case, and the place of its word.
#[derive(Clone, Copy, PartialEq, Eq)]
pub struct CaseAt {
    pub value: i128,
    pub pos: Pos,
}
