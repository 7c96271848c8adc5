// The bodies of a typed file's functions are typed, as they stand at the end of the file.

ghost use Rattle.c_typing_laws.specs.BodyLaws.{BodiesAreTyped, InitialsHaveSizes};

/// Each statement in the body of a function has the types that C asks for, and stands where it may (C11 6.8, 6.9.1).
pub fn bodies_are_typed()
    ensures { BodiesAreTyped }
{}

/// An initial value has as many bytes as its object (C11 6.7.9).
pub fn initials_have_sizes()
    ensures { InitialsHaveSizes }
{}
