//! Laws of the meaning of `csharp`: what code leaves alone, that separate scopes do not clash, how much fuel is enough,
//! and what bounds on turns and inputs change.
//!
//! A statement sets its own temporaries, those of its parts, and those of the functions that it calls, directly or
//! through others. Whatever it comes to, normally or by an exit, a goto or a return, all other temporaries have their
//! values still. Its scopes end where they are left, so the objects that live behind it are those that lived before, in
//! the same blocks.
//!
//! For example, behind `t = 1; f(2)` only `t`, the parameter of `f`, what the body of `f` sets, and what the call sets
//! may have changed.
//!
//! | What | Stated in `specs/` | Promised by |
//! |---|---|---|
//! | which temporaries a statement may set; the state behind it | `LeftAlone` | - |
//! | other temporaries stay | `LeftAlone.TempsStay` | `other_temps_stay` |
//! | objects live on where they are | `LeftAlone.PlacesStay` | `objects_stay` |
//! | no scope is entered while it is open | `Separate.NoClash` | `separate_scopes_never_clash` |
//! | the scopes of a formed program are separate | `Separate.FormedIsSeparate` | `formed_scopes_are_separate` |
//! | a run of one never clashes | `Separate.FormedRunsNeverClash` | `formed_runs_never_clash` |
//! | how much fuel is enough, for a body and for a run of main | `Enough.FuelIsEnough`, `Runs.RunsHaveEnough` | `fuel_is_enough`, `runs_have_enough_fuel` |
//! | a run within a bound on turns is the run without one | `Runs.BoundedRunIsSame` | `bounded_runs_are_runs` |
//! | ranks of the functions of a formed program are below their number | `Ranks.FormedRanksAreSmall` | `formed_ranks_are_small` |
//! | a program without an input statement never waits | `Inputs.NeverWaits` | `input_free_runs_never_wait` |
#![tactic(auto)]

mod laws;

pub use laws::{
    bounded_runs_are_runs, formed_ranks_are_small, formed_runs_never_clash,
    formed_scopes_are_separate, fuel_is_enough, input_free_runs_never_wait, objects_stay,
    other_temps_stay, runs_have_enough_fuel, separate_scopes_never_clash,
};
