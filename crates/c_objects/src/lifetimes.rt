// Laws of scopes.
#![tactic(auto)]

ghost use Rattle.c_objects.specs.Lifetimes.{CountsTellDistinct, OnlyStaticsStart, ScopesLeavePlaces};

/// A list in which each number is counted once at most has no two that are one.
pub fn counts_tell_distinct()
    ensures { CountsTellDistinct }
{}

/// Behind a scope that was entered where none of its objects lived, each object is where it was.
pub fn scopes_leave_places()
    ensures { ScopesLeavePlaces }
{}

/// At the start of a run no object lives but those of static duration.
pub fn only_statics_start()
    ensures { OnlyStaticsStart }
{}
