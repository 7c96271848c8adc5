// Laws of exact analyses of lowered programs.
#![tactic(auto)]

ghost use Rattle.lower_exact_laws.specs.Laws.{ExactAnalysesCarryOver, LoweredHasOneDefault, LoweredHasOwnSizes};

use alarm_carried_laws::bounded_runs_are_told;

/// Each switch of a lowered program has at most one default.
pub fn lowered_has_one_default()
    ensures { LoweredHasOneDefault }
{}

/// Each integer object of a lowered program has as many bytes as its type.
pub fn lowered_has_own_sizes()
    ensures { LoweredHasOwnSizes }
{}

/// What an exact analysis lists of a lowered program is exact on the program that was lowered.
pub fn exact_analyses_carry_over()
    ensures { ExactAnalysesCarryOver }
{
    lowered_has_one_default();
    lowered_has_own_sizes();
    bounded_runs_are_told();
}
