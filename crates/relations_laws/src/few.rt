// How many equalities are kept behind each call.
#![tactic(auto, using(num_api::proofs::Trees::nexpr_trees))]

ghost use Rattle.std.specs.Prelude.{IsTrue, IfOk, OnOk};
ghost use Rattle.num_api.specs.Messages.{IsProper};
ghost use Rattle.num_api.specs.Ranges.{holds_some};
ghost use Rattle.num_api.specs.Told.{Keeps};
ghost use Rattle.relations_laws.specs.Few.{AreFew, StayFew};

use equalities::Equalities;
use num_api::{Live, Message, Messages, NExpr, NumDomain, Oracle, Ramp, Range, Steps, Var};
use std::alloc::{AllocError as NoMemory, Global};

/// The state of all valuations has at most 64 equalities.
pub fn few_at_first(alloc: Global) -> Equalities
    ensures { AreFew result }
{
    Equalities::top(alloc)
}

/// Of at most 64 equalities at most 64 are left by an assignment.
pub fn few_after_assign<O: Oracle>(
    state: &mut Equalities,
    x: Var,
    e: &NExpr,
    ask: &O,
    out: &mut Messages,
) -> Result<(), NoMemory>
    ensures { OnOk result (StayFew state.old state.new) }
{
    state.assign(x, e, ask, out)?;
    Ok(())
}

/// And by a variable that is given any number of a range.
pub fn few_after_havoc(state: &mut Equalities, x: Var, r: Range) -> Result<(), NoMemory>
    requires { IsTrue (holds_some r) }
    ensures { OnOk result (StayFew state.old state.new) }
{
    state.havoc(x, r)?;
    Ok(())
}

/// And by a variable that is forgotten.
pub fn few_after_forget(state: &mut Equalities, x: Var) -> Result<(), NoMemory>
    ensures { OnOk result (StayFew state.old state.new) }
{
    state.forget(x)?;
    Ok(())
}

/// And by a test.
pub fn few_after_assume<O: Oracle>(
    state: &mut Equalities,
    e: &NExpr,
    truth: bool,
    ask: &O,
    out: &mut Messages,
) -> Result<Live, NoMemory>
    ensures { OnOk result (StayFew state.old state.new) }
{
    let live = state.assume(e, truth, ask, out)?;
    Ok(live)
}

/// And by a message.
pub fn few_after_accept(state: &mut Equalities, m: &Message) -> Result<Live, NoMemory>
    requires { IsProper m.now }
    ensures { OnOk result (StayFew state.old state.new) }
{
    let live = state.accept(m)?;
    Ok(live)
}

/// And by a join, however many the other state has.
pub fn few_after_join(state: &mut Equalities, other: &Equalities) -> Result<(), NoMemory>
    ensures { OnOk result (StayFew state.old state.new) }
{
    state.join(other)?;
    Ok(())
}

/// And by a widening.
pub fn few_after_widen<U: Fn(i128) -> Option<i128>, S: Steps>(
    state: &mut Equalities,
    next: &Equalities,
    ramp: &Ramp<U>,
) -> Result<(), NoMemory>
    requires { Keeps U.pre U.post ramp.now S.list }
    ensures { OnOk result (StayFew state.old state.new) }
{
    state.widen::<U, S>(next, ramp)
}

/// And a copy has as many.
pub fn few_in_copy(state: &Equalities) -> Result<Equalities, NoMemory>
    ensures { IfOk result (StayFew state.now) }
{
    state.copy()
}
