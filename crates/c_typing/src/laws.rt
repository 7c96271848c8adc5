// The laws of typing.
#![tactic(auto)]

ghost use Rattle.c_typing.specs.Laws.{FilesHaveOne, FilesHaveSome, StructsAreTyped, TypingAdds};
ghost use Rattle.c_typing.specs.Samples.{SamplesAreTyped};

/// A file has one outcome at most: a typed program, or its first refusal.
pub fn files_have_one()
    ensures { FilesHaveOne }
{}

/// A file has an outcome, whichever tree it is.
pub fn files_have_some()
    ensures { FilesHaveSome }
{}

/// Typing only adds: what is declared later leaves each struct, each object and each function its number;
/// an object its name, its place, its type once it is complete, whether it may be written and how long it
/// lives; a function its name, its result and the types of its parameters; and a struct its tag, and its
/// members once it has them.
pub fn typing_adds()
    ensures { TypingAdds }
{}

/// In each program that declarations leave, the structs are a table that a well typed program may have: a
/// struct has the size, the alignment and the offsets that its members give, its members are of complete
/// types, no struct holds itself, and none takes more than 2^40 bytes.
pub fn structs_are_typed()
    ensures { StructsAreTyped }
{}

/// Small files whose typed programs, or refusals, were worked out by hand.
pub fn samples_are_typed()
    ensures { SamplesAreTyped }
{}
