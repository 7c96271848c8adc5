// The laws of runs of well typed programs.
#![tactic(auto)]

ghost use Rattle.c_steps_laws.specs.Fits.{RunsFit, RunsNeverStand};

/// Each state of a run of a well typed program with its plan keeps what such states keep, and its pointers are
/// whole where those of the initial values are. The initial bytes have eight bits, as each byte in the code has.
pub fn states_of_typed_runs_fit()
    ensures { RunsFit }
{}

/// No run of a well typed program with its plan, on any inputs and after any number of steps, comes to a state
/// that no row fits: it goes on, has ended, waits for an input, was stopped, or something is wrong.
pub fn typed_runs_never_stand()
    ensures { RunsNeverStand }
{}
