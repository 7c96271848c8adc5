// Objects of a scope end where it ends and where it is left.
#![tactic(auto, using(csharp::proofs::CodeTrees::the_code_trees))]

ghost use Rattle.std.specs.Prelude.{◌≡◌, [], ◌∷◌, IfOk, OnOk, Option, Some, None};
ghost use Rattle.csharp.specs.Trees.{CsProgramTree, none};
ghost use Rattle.csharp.specs.Trees as code;
ghost use Rattle.csharp.specs.States.{State};
ghost use Rattle.csharp.specs.Actions as acts;
ghost use Rattle.mem_api.specs.Given.{IsOf};
ghost use Rattle.walk_owes.specs.declared.way.Way.{Way as Ways};
ghost use Rattle.walk_owes.specs.Owes.{AllFor, InSome, KeepsState, SomeFor};
ghost use Rattle.walk_owes.specs.Exactly.{KeptAlone};

use crate::kept::keep;
use mem_api::MemDomain;
use std::alloc::AllocError as NoMemory;
use walk_owes::Kept;

/// The set behind a scope.
pub fn leave_objects<M: MemDomain>(names: &[u64], mid: Option<M>) -> Result<Option<M>, NoMemory>
    requires one { (q : CsProgramTree) × SomeFor M.is_for q mid × IsOf q (code.Scope names.now none) }
    ensures is_for { IfOk result (λ m. (q : CsProgramTree) → SomeFor M.is_for q mid → SomeFor M.is_for q m) }
    ensures after { IfOk result (λ m. (s : State) → InSome M.stands mid s → InSome M.stands m (acts.leave names.now s)) }
    ensures sharp { IfOk result (λ m. (s : State) → InSome M.sharp mid s → InSome M.sharp m (acts.leave names.now s)) }
    ensures none { IfOk result (λ m. mid ≡ None → m ≡ None) }
{
    match mid {
        None => Ok(None),
        Some(mut state) => {
            state.leave(names)?;
            Ok(Some(state))
        }
    }
}

/// What leaves a scope.
pub fn leave_scope<M: MemDomain>(
    names: &[u64],
    mut inner: Vec<Kept<M>>,
    kept: &mut Vec<Kept<M>>,
) -> Result<(), NoMemory>
    requires one { (q : CsProgramTree) × AllFor M.is_for q inner.items × IsOf q (code.Scope names.now none) × AllFor M.is_for q kept.old.items }
    ensures kept_for { OnOk result ((q : CsProgramTree) → AllFor M.is_for q inner.items → AllFor M.is_for q kept.old.items → AllFor M.is_for q kept.new.items) }
    ensures old { OnOk result ((w : Ways) (s : State) → KeepsState M.stands kept.old.items w s → KeepsState M.stands kept.new.items w s) }
    ensures left { OnOk result ((w : Ways) (s : State) → KeepsState M.stands inner.items w s → KeepsState M.stands kept.new.items w (acts.leave names.now s)) }
    ensures none { OnOk result (inner.items ≡ [] → kept.new.items ≡ kept.old.items) }
    ensures one { OnOk result ((x : Kept M) (s : State) → inner.items ≡ x ∷ [] → kept.old.items ≡ [] → M.sharp x.state s
        → KeptAlone M.sharp kept.new.items x.way (acts.leave names.now s)) }
{
    while let Some(Kept { way, mut state }) = inner.pop() {
        state.leave(names)?;
        keep(kept, way, state)?;
    }
    Ok(())
}
