// Laws of what lowered functions set.
#![tactic(auto)]

ghost use Rattle.lower_quiet.specs.Laws.{CallsSetBelow};

/// What a call of a lowered function may set, itself or by what it calls in turn, lies below its last row.
pub fn calls_set_below()
    ensures { CallsSetBelow }
{}
