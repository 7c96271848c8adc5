// What code leaves alone.
#![tactic(auto)]

ghost use Rattle.csharp_laws.specs.Enough.{FuelIsEnough};
ghost use Rattle.csharp_laws.specs.Inputs.{NeverWaits};
ghost use Rattle.csharp_laws.specs.LeftAlone.{PlacesStay, TempsStay};
ghost use Rattle.csharp_laws.specs.Ranks.{FormedRanksAreSmall};
ghost use Rattle.csharp_laws.specs.Runs.{BoundedRunIsSame, RunsHaveEnough};
ghost use Rattle.csharp_laws.specs.Separate.{FormedIsSeparate, FormedRunsNeverClash, NoClash};

/// A temporary that a statement may not set has its value still, where the statement ends normally or leaves.
pub fn other_temps_stay()
    ensures { TempsStay }
{}

/// Behind a statement that ends normally or leaves, each object that lived lives in its block, and no other lives.
pub fn objects_stay()
    ensures { PlacesStay }
{}

/// Where scopes are separate, a statement that begins where nothing lives that it may open comes to no clash, whatever
/// the fuel and the bound on turns.
pub fn separate_scopes_never_clash()
    ensures { NoClash }
{}

/// The scopes of a formed program are separate: each object stands in one scope, and no call leads back.
pub fn formed_scopes_are_separate()
    ensures { FormedIsSeparate }
{}

/// No run of a formed program enters a scope that is open.
pub fn formed_runs_never_clash()
    ensures { FormedRunsNeverClash }
{}

/// Where calls lead down, gotos lead forwards, and no entry of a loop has more turns than a bound, a body comes to
/// an outcome other than out of fuel with the fuel that `need` tells, or more.
pub fn fuel_is_enough()
    ensures { FuelIsEnough }
{}

/// A run of main within a bound on turns is the run without one.
pub fn bounded_runs_are_runs()
    ensures { BoundedRunIsSame }
{}

/// A bounded run of main comes to an outcome other than out of fuel with the fuel that main needs, or more.
pub fn runs_have_enough_fuel()
    ensures { RunsHaveEnough }
{}

/// Functions of a formed program have ranks below their number, by which calls lead down.
pub fn formed_ranks_are_small()
    ensures { FormedRanksAreSmall }
{}

/// A run of a program without an input statement never waits for an input.
pub fn input_free_runs_never_wait()
    ensures { NeverWaits }
{}
