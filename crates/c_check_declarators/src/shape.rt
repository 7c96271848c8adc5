// Names and steps of declarators.

use c_check_names::{Binding, TagBinding};
use c_syntax::{CType, Name, Pos};

/// A name that a declarator has, and its place.
#[derive(Drop)]
pub struct DeclaredName {
    pub name: Name,
    pub pos: Pos,
}

/// A parameter, whose name is empty where it has none, with its type as an object.
#[derive(Drop)]
pub struct Parameter {
    pub name: Name,
    pub pos: Pos,
    pub ty: CType,
    pub is_const: bool,
}

/// What a declarator says of its name.
#[derive(Drop)]
pub enum Step {
    /// That it is a pointer, which is const or not.
    PointerTo(bool),
    /// That it is an array of so many elements, by the expression at this place.
    ArrayOf(Pos, u64),
    /// That it is an array without size.
    OpenArray,
    /// That it is a function with these parameters, whose list declares these names and tags.
    FunctionOf(Vec<Parameter>, Vec<Binding>, Vec<TagBinding>),
}

/// The name of a declarator, if there is one, and the steps from it outward.
#[derive(Drop)]
pub struct Shape {
    pub name: Option<DeclaredName>,
    pub steps: Vec<Step>,
}
