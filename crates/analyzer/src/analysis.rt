// The analysis.
#![tactic(auto, using(csharp::proofs::CodeTrees::the_code_trees))]

ghost use Rattle.std.specs.Prelude.{IfOk, IsTrue};
ghost use Rattle.num_api.specs.Told.{Keeps};
ghost use Rattle.csharp.specs.Trees.{csprogram_tree};
ghost use Rattle.csharp.specs.Formed.{IsFormed};
ghost use Rattle.csharp_laws.specs.Enough.{IsForwardOnly};
ghost use Rattle.alarm_claims.specs.Analyzed.{Analyzed};
ghost use Rattle.alarm_claims.specs.ExactFor.{IsExactFor};
ghost use Rattle.alarm_lists.specs.Sites.{SitesAgree};
ghost use Rattle.analyzer.specs.Straight.{AreDefaultsOnce};

use crate::bits::initials_have_eight_bits;
use alarm_lists::in_order;
use c_syntax::Alarms;
use csharp::CsProgram;
use csharp_typed_laws::first_states_are_typed;
use mem_api::MemDomain;
use num_api::{Ramp, Steps};
use std::alloc::{AllocError as NoMemory, Global};
use walk::Walk;

/// All alarms of a formed program, in order. Each loop is walked so many turns one by one, then widened along the ramp, then
/// narrowed so many steps.
pub fn analyze<M: MemDomain, U: Fn(i128) -> Option<i128>, S: Steps>(
    alloc: Global,
    program: &CsProgram,
    unroll: u32,
    narrow: u32,
    ramp: &Ramp<U>,
) -> Result<Alarms, NoMemory>
    requires ramp { Keeps U.pre U.post ramp.now S.list }
    requires formed { IsFormed (csprogram_tree program.now) }
    requires sites { SitesAgree (csprogram_tree program.now) }
    ensures whole { IfOk result (Analyzed (csprogram_tree program.now)) }
    ensures exact { IfOk result (λ alarms. IsTrue (M.exact (csprogram_tree program.now)) → IsForwardOnly (csprogram_tree program.now)
        → AreDefaultsOnce (csprogram_tree program.now) → IsExactFor (csprogram_tree program.now) unroll alarms) }
{
    first_states_are_typed();
    initials_have_eight_bits(program.initial.as_slice());
    let state = M::start(alloc, program)?;
    let mut walk = Walk::<M, U, S>::new(alloc, state, unroll, narrow, ramp);
    let mut found = Alarms::new(alloc);
    walk.function(program, program.main, &mut found)?;
    let alarms = in_order(alloc, found.into_vec())?;
    Ok(alarms)
}
