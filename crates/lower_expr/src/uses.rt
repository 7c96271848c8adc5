// What an expression is lowered for.

use c_syntax::Extent;

/// What is wanted of an expression.
#[derive(Clone, Copy)]
pub enum Wanted {
    /// Its value.
    Value,
    /// A struct of this extent, which is copied from.
    Source(Extent),
}
