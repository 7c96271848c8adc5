// The laws of runs.
#![tactic(auto)]

ghost use Rattle.c_steps.specs.Laws.{LastStatesStay, RunsEndOnce};
ghost use Rattle.c_steps.specs.Samples.{RunsEnd};

/// A state whose step gives no new one stays as it is, whatever number of steps is made: an end, a wrong
/// step, one that waits for an input and one that was stopped are a run's last.
pub fn last_states_stay()
    ensures { LastStatesStay }
{}

/// A run has one last state at most, so it goes wrong once at most.
pub fn runs_end_once()
    ensures { RunsEndOnce }
{}

/// Small programs, and where their runs end, which was worked out by hand.
pub fn samples_run()
    ensures { RunsEnd }
{}
