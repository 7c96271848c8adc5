// Pointers in initial values point to objects of static duration.

ghost use Rattle.c_typing_laws.specs.PieceLaws.{PiecesAreStatic};

/// Each piece of a pointer in an initial value is one of eight, and points to a static object.
pub fn pieces_are_static()
    ensures { PiecesAreStatic }
{}
