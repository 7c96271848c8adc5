// What the code holds in formed programs.
#![tactic(auto)]

ghost use Rattle.csharp_held_laws.specs.Held.{ActionsAreHeld, CodeIsHeld, RunsAreHeld, StartsAreHeld, ValuesAreHeld};

/// Of the values of typed expressions the code does not hold pointers that are moved too far, and nothing else.
pub fn values_are_held()
    ensures { ValuesAreHeld }
{}

/// In a typed statement whose check is formed the code does not hold pointers that are moved too far, and of a check of
/// bytes those that cannot be read. What is stored is held.
pub fn actions_are_held()
    ensures { ActionsAreHeld }
{}

/// The first state of a formed program is held.
pub fn starts_are_held()
    ensures { StartsAreHeld }
{}

/// A run of a formed program comes to what the code does not hold exactly where it comes to a pointer that is moved too
/// far, or to a check of bytes that cannot be read.
pub fn runs_are_held()
    ensures code { CodeIsHeld }
    ensures main { RunsAreHeld }
{}
