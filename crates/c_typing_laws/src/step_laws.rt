// How what is typed comes from its typed parts: each way in which a declaration or a statement is typed, one by one.

ghost use Rattle.c_typing_laws.specs.StepLaws.{DeclarationsAreMade, ItemsAreMade, StatementsAreMade};

/// A declaration that is typed has typed specs, and typed declarators from left to right, each with its initialiser.
pub fn declarations_are_made()
    ensures { DeclarationsAreMade }
{}

/// A statement that is typed has typed parts, each in the scope where it stands (C11 6.8).
pub fn statements_are_made()
    ensures { StatementsAreMade }
{}

/// The items of a block that are typed are declarations and statements, each typed behind those before it (C11 6.8.2).
pub fn items_are_made()
    ensures { ItemsAreMade }
{}
