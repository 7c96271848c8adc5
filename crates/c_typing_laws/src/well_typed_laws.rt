// The program of a typed file is well typed.

ghost use Rattle.c_typing_laws.specs.WellTypedLaws.{TypedIsWellTyped};

/// What is typed is well typed.
pub fn typed_is_well_typed()
    ensures { TypedIsWellTyped }
{}
