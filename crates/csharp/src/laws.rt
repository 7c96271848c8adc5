// Laws of the meaning.
#![tactic(auto)]

ghost use Rattle.csharp.specs.Laws.{BoundIsSame, MoreFuelIsSame};
ghost use Rattle.csharp.specs.Samples.{SamplesEnd};

/// A statement that comes to an outcome with some fuel comes to the same one with more, unless the
/// outcome was that fuel ran out.
pub fn more_fuel_changes_nothing()
    ensures { MoreFuelIsSame }
{}

/// A bound on the turns of loops changes an outcome only to the one that says that turns were too
/// many.
pub fn bounds_change_nothing()
    ensures { BoundIsSame }
{}

/// Small programs end as was worked out by hand: ways through loops, switches, gotos and scopes,
/// calls, each kind of failure with its operand, and the other outcomes.
pub fn samples_end()
    ensures { SamplesEnd }
{}
