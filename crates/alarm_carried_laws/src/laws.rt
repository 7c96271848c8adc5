// Laws of alarms on lowered programs.
#![tactic(auto)]

ghost use Rattle.alarm_carried_laws.specs.Carried.{AnalysesCarryOver};
ghost use Rattle.alarm_carried_laws.specs.Exact.{BoundedRunsAreTold};

use c_steps_laws::typed_runs_never_stand;
use csharp::bounds_change_nothing;
use csharp_laws::input_free_runs_never_wait;

/// The alarms of a lowered program miss no run of the typed one, show what fails there, and are admitted by it.
pub fn analyses_carry_over()
    ensures { AnalysesCarryOver }
{}

/// A program that reads no input, jumps forwards alone and turns within the bound has no alarm where its run does not go wrong, and
/// else the one alarm of it.
pub fn bounded_runs_are_told()
    ensures { BoundedRunsAreTold }
{
    typed_runs_never_stand();
    bounds_change_nothing();
    input_free_runs_never_wait();
}
