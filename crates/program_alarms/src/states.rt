// The analysis over the states that the command has.
#![tactic(auto)]

ghost use Rattle.std.specs.Prelude.{◌≡◌, IfOk, map, neg_ℤ, reverse, All};
ghost use Rattle.num_api.specs.Steps.{IsRising, IsSmall, least};
ghost use Rattle.csharp.specs.Trees.{csprogram_tree};
ghost use Rattle.csharp.specs.Formed.{IsFormed};
ghost use Rattle.alarm_claims.specs.Analyzed.{Analyzed};
ghost use Rattle.alarm_lists.specs.Sites.{SitesAgree};
ghost use Rattle.lower_exact_laws.specs.Laws.{IsExactAnalysis};

use analyzer::analyze;
use c_syntax::Alarms;
use channels::Linked;
use csharp::CsProgram;
use env_lift::Env;
use equalities::Equalities;
use intervals::Interval;
use mem_boxed::Boxed;
use mem_cell_domain::CellStates;
use mem_intervals::IntervalStates;
use mem_pairs::Paired;
use num_api::{Ramp, Steps};
use ramp_constants::StepList;
use residues::{Class, Pair};
use std::alloc::{AllocError as NoMemory, Global};

/// A range and a class for each number, and which numbers are equal.
type Numbers = Linked<Env<Pair<Interval, Class>>, Equalities>;

/// What is known of a memory: the interval states, which are exact, beside cells. A set is one word in the frames of the walk.
type States = Boxed<Paired<IntervalStates, CellStates<Numbers>>>;

/// The alarms of a lowered program, with a ramp of these steps.
pub fn analyzed<S: Steps>(
    alloc: Global,
    lowered: &CsProgram,
    unroll: u32,
    narrow: u32,
    steps: &StepList,
) -> Result<Alarms, NoMemory>
    requires formed { IsFormed (csprogram_tree lowered.now) }
    requires sites { SitesAgree (csprogram_tree lowered.now) }
    requires steps { steps.now ≡ S.list }
    requires rising { IsRising S.list }
    requires mirrored { reverse (map neg_ℤ S.list) ≡ S.list }
    requires small { All IsSmall S.list }
    ensures whole { IfOk result (Analyzed (csprogram_tree lowered.now)) }
    ensures exact { IfOk result (IsExactAnalysis (csprogram_tree lowered.now) unroll) }
{
    let ramp = Ramp::<_>::new::<S>(
        steps.count(),
        |n: i128| -> Option<i128>
            requires { IsRising steps.now }
            ensures { result ≡ least steps.entry.now n }
        { steps.least(n) },
    );
    analyze::<States, _, S>(alloc, lowered, unroll, narrow, &ramp)
}
