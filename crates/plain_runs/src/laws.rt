// What the definitions come to on closed terms.
#![tactic(auto)]

ghost use Rattle.plain_runs.specs.Samples.{SamplesAre};

/// The plain rules come to what was worked out by hand: each operator, cut and test, checks, and small
/// runs within and beyond their bound.
pub fn samples_are_run()
    ensures { SamplesAre }
{}
