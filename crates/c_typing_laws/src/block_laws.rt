// Labels, gotos and objects of typed functions: each has its place in the program, once.

ghost use Rattle.c_typing_laws.specs.JumpLaws.{LabelsAreThere};
ghost use Rattle.c_typing_laws.specs.ListLaws.{ObjectsAreListed};

/// No two labels of a function are one, and each goto leads to one of them (C11 6.8.1, 6.8.6.1).
pub fn labels_are_there()
    ensures { LabelsAreThere }
{}

/// Each automatic object stands in the list of one block or parameter list, once (C11 6.2.4).
pub fn objects_are_listed()
    ensures { ObjectsAreListed }
{}
