// The laws of whole programs.
#![tactic(auto)]

ghost use Rattle.c_typing_laws.specs.ProgramLaws.{InitialsAreGiven, NamesAreDistinct, TablesAreTyped};

/// The structs of a program are laid out, with members that are complete and not too large (C11 6.7.2.1).
pub fn tables_are_typed()
    ensures { TablesAreTyped }
{}

/// Each object of static duration has one initial value, and nothing else has one (C11 6.7.9p10).
pub fn initials_are_given()
    ensures { InitialsAreGiven }
{}

/// No two functions of a program have one name (C11 6.2.2p2).
pub fn names_are_distinct()
    ensures { NamesAreDistinct }
{}
