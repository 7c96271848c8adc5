// Objects of typed files: each has a type that the program has, and its size.

ghost use Rattle.c_typing_laws.specs.ObjectLaws.{ObjectsAreTyped};

/// Each object has a type of the program and its size, and is as const as its elements, or is an array without size.
pub fn file_objects_are_typed()
    ensures { ObjectsAreTyped }
{}
