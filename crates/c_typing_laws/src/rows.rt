// The laws of the rows.
#![tactic(auto)]

ghost use Rattle.c_typing_laws.specs.RowLaws.{ChangesAreTyped, OperatorsAreTyped, StepsAreTyped, ValuesArePut, ValuesAreStored};

/// An operator between two typed values, where its row is there, is a typed value (C11 6.5.5 to 6.5.14).
pub fn operators_are_typed()
    ensures { OperatorsAreTyped }
{}

/// A typed value that is stored as a scalar's type is typed, and has the row of `=` (C11 6.5.16.1p1).
pub fn values_are_stored()
    ensures { ValuesAreStored }
{}

/// The same of a scalar, or of a struct that is copied whole with its size and alignment.
pub fn values_are_put()
    ensures { ValuesArePut }
{}

/// What `op=` does to what stands in a place has its row, and its value is typed (C11 6.5.16.2).
pub fn changes_are_typed()
    ensures { ChangesAreTyped }
{}

/// What `++` and `--` do has its row (C11 6.5.2.4, 6.5.3.1).
pub fn steps_are_typed()
    ensures { StepsAreTyped }
{}
