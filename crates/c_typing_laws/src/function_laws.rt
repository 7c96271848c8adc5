// What functions take and give: scalars, by objects of their own, and one scalar or nothing.

ghost use Rattle.c_typing_laws.specs.FunctionLaws.{FunctionsTakeScalars, BodiesAreBlocks};

/// Each function takes scalars, by objects of its own, and gives one or nothing.
pub fn functions_take_scalars()
    ensures { FunctionsTakeScalars }
{}

/// The body of each function is a block.
pub fn bodies_are_blocks()
    ensures { BodiesAreBlocks }
{}
