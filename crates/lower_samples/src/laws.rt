// What samples come to.
#![tactic(auto)]

ghost use Rattle.lower_samples.specs.Calls.{CallsComeTo};
ghost use Rattle.lower_samples.specs.Failures.{FailuresComeTo};
ghost use Rattle.lower_samples.specs.Initials.{InitialsComeTo};
ghost use Rattle.lower_samples.specs.Jumps.{JumpsComeTo};
ghost use Rattle.lower_samples.specs.Values.{ValuesComeTo};

/// Programs that fail a check of each kind, lowered, fail it at its place and with its operand.
pub fn failures_are_lowered()
    ensures { FailuresComeTo }
{}

/// Programs with loops, switches, gotos and returns, lowered, give what they give.
pub fn jumps_are_lowered()
    ensures { JumpsComeTo }
{}

/// Programs with calls, lowered, give what they give.
pub fn calls_are_lowered()
    ensures { CallsComeTo }
{}

/// Programs with initialisers and struct copies, lowered, give what they give.
pub fn initialisers_are_lowered()
    ensures { InitialsComeTo }
{}

/// Programs with operators, tests and conversions, lowered, give what they give.
pub fn values_are_lowered()
    ensures { ValuesComeTo }
{}
