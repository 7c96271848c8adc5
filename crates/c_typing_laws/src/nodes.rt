// The laws of the nodes of expressions.
#![tactic(auto)]

ghost use Rattle.c_typing_laws.specs.NodeLaws.{ArrowsAreTyped, AssignmentsAreTyped, BinariesAreTyped, CallsAreTyped, CastsAreTyped, CharactersAreTyped, CommasAreTyped, CompoundsAreTyped, ConditionalsAreTyped, IndexesAreTyped, MembersAreTyped, NumbersAreTyped, ObjectsAreTyped, PrefixesAreTyped, ReadsAreTyped, SizesAreTyped, SteppedAreTyped};

/// What is read in a typed place is a typed value (C11 6.3.2.1).
pub fn reads_are_typed()
    ensures { ReadsAreTyped }
{}

/// `&`, `*`, `+`, `-`, `~` and `!` of a typed operand (C11 6.5.3.2, 6.5.3.3).
pub fn prefixes_are_typed()
    ensures { PrefixesAreTyped }
{}

/// An operator between two typed values (C11 6.5.5 to 6.5.14).
pub fn binaries_are_typed()
    ensures { BinariesAreTyped }
{}

/// `a[b]` of typed values (C11 6.5.2.1).
pub fn indexes_are_typed()
    ensures { IndexesAreTyped }
{}

/// `.` of a typed operand, in a program whose structs are laid out (C11 6.5.2.3).
pub fn members_are_typed()
    ensures { MembersAreTyped }
{}

/// `->` of a typed value, in a program whose structs are laid out (C11 6.5.2.3).
pub fn arrows_are_typed()
    ensures { ArrowsAreTyped }
{}

/// `=` between a typed operand and a typed value, a struct's too (C11 6.5.16.1).
pub fn assignments_are_typed()
    ensures { AssignmentsAreTyped }
{}

/// `op=` between a typed operand and a typed value (C11 6.5.16.2).
pub fn compounds_are_typed()
    ensures { CompoundsAreTyped }
{}

/// `++` and `--` of a typed operand (C11 6.5.2.4, 6.5.3.1).
pub fn stepped_are_typed()
    ensures { SteppedAreTyped }
{}

/// `?:` of typed values (C11 6.5.15).
pub fn conditionals_are_typed()
    ensures { ConditionalsAreTyped }
{}

/// `,` between typed values (C11 6.5.17).
pub fn commas_are_typed()
    ensures { CommasAreTyped }
{}

/// The size of a type (C11 6.5.3.4).
pub fn sizes_are_typed()
    ensures { SizesAreTyped }
{}

/// A cast of a typed value to a type of the program (C11 6.5.4).
pub fn casts_are_typed()
    ensures { CastsAreTyped }
{}

/// A call of a function of the program with typed arguments; an input, `__assume` or `__assert` (C11 6.5.2.2).
pub fn calls_are_typed()
    ensures { CallsAreTyped }
{}

/// An integer constant (C11 6.4.4.1).
pub fn numbers_are_typed()
    ensures { NumbersAreTyped }
{}

/// A character constant (C11 6.4.4.4).
pub fn characters_are_typed()
    ensures { CharactersAreTyped }
{}

/// An object of the program that is static or lives here, by its name or as a literal (C11 6.5.1).
pub fn objects_are_typed()
    ensures { ObjectsAreTyped }
{}
