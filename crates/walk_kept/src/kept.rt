// The states that a walk keeps for the ways out of a statement.
#![tactic(auto, using(csharp::proofs::CodeTrees::the_code_trees))]

ghost use Rattle.std.specs.Prelude.{◌≡◌, ◌≢◌, ◌⊎◌, [], ◌∷◌, IfOk, OnOk, Option, Some, None};
ghost use Rattle.csharp.specs.Trees.{CsProgramTree};
ghost use Rattle.csharp.specs.States.{State};
ghost use Rattle.walk_owes.specs.declared.way.Way.{Way as Ways};
ghost use Rattle.walk_owes.specs.Owes.{AllFor, GoesOut, HasWay, InSome, KeepsState, LeavesBlock, SomeFor};
ghost use Rattle.walk_owes.specs.Exactly.{OutOf};

use mem_api::MemDomain;
use std::alloc::AllocError as NoMemory;
use walk_owes::{Kept, Way};

/// Joins a set into one that may be there.
pub fn merge<M: MemDomain>(before: Option<M>, state: M) -> Result<M, NoMemory>
    requires one { (q : CsProgramTree) × SomeFor M.is_for q before × M.is_for state q }
    ensures is_for { IfOk result (λ m. (q : CsProgramTree) → SomeFor M.is_for q before → M.is_for state q → M.is_for m q) }
    ensures before { IfOk result (λ m. (s : State) → InSome M.stands before s → M.stands m s) }
    ensures state { IfOk result (λ m. (s : State) → M.stands state s → M.stands m s) }
    ensures alone { IfOk result (λ m. before ≡ None → m ≡ state) }
{
    match before {
        None => Ok(state),
        Some(mut m) => {
            m.join(&state)?;
            Ok(m)
        }
    }
}

/// Both of two sets that may be there.
pub fn merge_either<M: MemDomain>(
    first: Option<M>,
    second: Option<M>,
) -> Result<Option<M>, NoMemory>
    requires one { (q : CsProgramTree) × SomeFor M.is_for q first × SomeFor M.is_for q second }
    ensures is_for { IfOk result (λ m. (q : CsProgramTree) → SomeFor M.is_for q first → SomeFor M.is_for q second → SomeFor M.is_for q m) }
    ensures first { IfOk result (λ m. (s : State) → InSome M.stands first s → InSome M.stands m s) }
    ensures second { IfOk result (λ m. (s : State) → InSome M.stands second s → InSome M.stands m s) }
    ensures first_alone { IfOk result (λ m. second ≡ None → m ≡ first) }
    ensures second_alone { IfOk result (λ m. first ≡ None → m ≡ second) }
{
    match second {
        None => Ok(first),
        Some(state) => {
            let both = merge(first, state)?;
            Ok(Some(both))
        }
    }
}

/// Keeps a set for a way out; it is joined into the one that is kept for that way, where there is one.
pub fn keep<M: MemDomain>(kept: &mut Vec<Kept<M>>, way: Way, state: M) -> Result<(), NoMemory>
    requires one { (q : CsProgramTree) × AllFor M.is_for q kept.old.items × M.is_for state q }
    ensures is_for { OnOk result ((q : CsProgramTree) → AllFor M.is_for q kept.old.items → M.is_for state q → AllFor M.is_for q kept.new.items) }
    ensures old { OnOk result ((w : Ways) (s : State) → KeepsState M.stands kept.old.items w s → KeepsState M.stands kept.new.items w s) }
    ensures new { OnOk result ((s : State) → M.stands state s → KeepsState M.stands kept.new.items way s) }
    ensures only { OnOk result ((w : Ways) → HasWay kept.new.items w → HasWay kept.old.items w ⊎ (way ≡ w)) }
    ensures alone { OnOk result (kept.old.items ≡ [] → kept.new.items ≡ record { way = way; state = state } ∷ []) }
{
    let before = take_way(way, kept)?;
    let both = merge(before, state)?;
    kept.push(Kept { way, state: both })?;
    Ok(())
}

/// Takes what is kept for a way. Nothing is kept for it then.
pub fn take_way<M: MemDomain>(way: Way, kept: &mut Vec<Kept<M>>) -> Result<Option<M>, NoMemory>
    requires one { (q : CsProgramTree) × AllFor M.is_for q kept.old.items }
    ensures is_for { IfOk result (λ m. (q : CsProgramTree) → AllFor M.is_for q kept.old.items → SomeFor M.is_for q m) }
    ensures kept_for { OnOk result ((q : CsProgramTree) → AllFor M.is_for q kept.old.items → AllFor M.is_for q kept.new.items) }
    ensures taken { IfOk result (λ m. (w : Ways) (s : State) → KeepsState M.stands kept.old.items w s
        → ((w ≡ way) × InSome M.stands m s) ⊎ KeepsState M.stands kept.new.items w s) }
    ensures gone { OnOk result (HasWay kept.new.items way → ⊥) }
    ensures only { OnOk result ((w : Ways) → HasWay kept.new.items w → HasWay kept.old.items w) }
    ensures none { IfOk result (λ m. kept.old.items ≡ [] → (m ≡ None) × (kept.new.items ≡ [])) }
    ensures hit { IfOk result (λ m. (x : Kept M) → kept.old.items ≡ x ∷ [] → x.way ≡ way → (m ≡ Some x.state) × (kept.new.items ≡ [])) }
    ensures miss { IfOk result (λ m. (x : Kept M) → kept.old.items ≡ x ∷ [] → x.way ≢ way → (m ≡ None) × (kept.new.items ≡ x ∷ [])) }
{
    let mut rest = Vec::new(*kept.allocator());
    let mut found = None;
    while let Some(Kept { way: own, state }) = kept.pop() {
        found = take_one(way, own, state, found, &mut rest)?;
    }
    *kept = rest;
    Ok(found)
}

// A set that is of the way is taken, and another one stays.
fn take_one<M: MemDomain>(
    way: Way,
    own: Way,
    state: M,
    found: Option<M>,
    rest: &mut Vec<Kept<M>>,
) -> Result<Option<M>, NoMemory>
    requires one { (q : CsProgramTree) × M.is_for state q × SomeFor M.is_for q found }
    ensures is_for { IfOk result (λ m. (q : CsProgramTree) → M.is_for state q → SomeFor M.is_for q found → SomeFor M.is_for q m) }
    ensures rest_for { OnOk result ((q : CsProgramTree) → M.is_for state q → AllFor M.is_for q rest.old.items → AllFor M.is_for q rest.new.items) }
    ensures found { IfOk result (λ m. (s : State) → InSome M.stands found s → InSome M.stands m s) }
    ensures old { OnOk result ((w : Ways) (s : State) → KeepsState M.stands rest.old.items w s → KeepsState M.stands rest.new.items w s) }
    ensures taken { IfOk result (λ m. (s : State) → M.stands state s → ((own ≡ way) × InSome M.stands m s) ⊎ KeepsState M.stands rest.new.items own s) }
    ensures gone { OnOk result ((HasWay rest.old.items way → ⊥) → HasWay rest.new.items way → ⊥) }
    ensures only { OnOk result ((w : Ways) → HasWay rest.new.items w → HasWay rest.old.items w ⊎ (own ≡ w)) }
    ensures hit { IfOk result (λ m. own ≡ way → found ≡ None → (m ≡ Some state) × (rest.new.items ≡ rest.old.items)) }
    ensures miss { IfOk result (λ m. own ≢ way → rest.old.items ≡ [] → (m ≡ found) × (rest.new.items ≡ record { way = own; state = state } ∷ [])) }
{
    if own == way {
        let both = merge(found, state)?;
        Ok(Some(both))
    } else {
        rest.push(Kept { way: own, state })?;
        Ok(found)
    }
}

/// Leaves a block: its innermost exit joins what comes behind, and the others are kept.
pub fn leave<M: MemDomain>(
    mut inner: Vec<Kept<M>>,
    after: Option<M>,
    kept: &mut Vec<Kept<M>>,
) -> Result<Option<M>, NoMemory>
    requires one { (q : CsProgramTree) × AllFor M.is_for q inner.items × SomeFor M.is_for q after × AllFor M.is_for q kept.old.items }
    ensures is_for { IfOk result (λ m. (q : CsProgramTree) → AllFor M.is_for q inner.items → SomeFor M.is_for q after → SomeFor M.is_for q m) }
    ensures kept_for { OnOk result ((q : CsProgramTree) → AllFor M.is_for q inner.items → AllFor M.is_for q kept.old.items → AllFor M.is_for q kept.new.items) }
    ensures old { OnOk result ((w : Way) (s : State) → KeepsState M.stands kept.old.items w s → KeepsState M.stands kept.new.items w s) }
    ensures after { IfOk result (λ m. (s : State) → InSome M.stands after s → InSome M.stands m s) }
    ensures exits { IfOk result (λ m. LeavesBlock M.stands inner.items kept.new.items m) }
    ensures none { IfOk result (λ m. inner.items ≡ [] → (m ≡ after) × (kept.new.items ≡ kept.old.items)) }
    ensures one { IfOk result (λ m. (x : Kept M) → inner.items ≡ x ∷ [] → after ≡ None → kept.old.items ≡ [] → OutOf x.way x.state kept.new.items m) }
{
    let mut all = after;
    while let Some(Kept { way, state }) = inner.pop() {
        all = leave_one(way, state, all, kept)?;
    }
    Ok(all)
}

fn leave_one<M: MemDomain>(
    way: Way,
    state: M,
    after: Option<M>,
    kept: &mut Vec<Kept<M>>,
) -> Result<Option<M>, NoMemory>
    requires one { (q : CsProgramTree) × M.is_for state q × SomeFor M.is_for q after × AllFor M.is_for q kept.old.items }
    ensures is_for { IfOk result (λ m. (q : CsProgramTree) → M.is_for state q → SomeFor M.is_for q after → SomeFor M.is_for q m) }
    ensures kept_for { OnOk result ((q : CsProgramTree) → M.is_for state q → AllFor M.is_for q kept.old.items → AllFor M.is_for q kept.new.items) }
    ensures old { OnOk result ((w : Way) (s : State) → KeepsState M.stands kept.old.items w s → KeepsState M.stands kept.new.items w s) }
    ensures after { IfOk result (λ m. (s : State) → InSome M.stands after s → InSome M.stands m s) }
    ensures exits { IfOk result (λ m. (s : State) → M.stands state s → GoesOut M.stands kept.new.items m way s) }
    ensures one { IfOk result (λ m. after ≡ None → kept.old.items ≡ [] → OutOf way state kept.new.items m) }
{
    match way {
        Way::Return => {
            keep(kept, Way::Return, state)?;
            Ok(after)
        }
        Way::Goto(label) => {
            keep(kept, Way::Goto(label), state)?;
            Ok(after)
        }
        Way::Exit(level) => {
            if level == 0 {
                let both = merge(after, state)?;
                Ok(Some(both))
            } else {
                keep(kept, Way::Exit(level - 1), state)?;
                Ok(after)
            }
        }
    }
}

/// Keeps what leaves a statement that was walked with a list of its own.
pub fn keep_all<M: MemDomain>(
    mut inner: Vec<Kept<M>>,
    kept: &mut Vec<Kept<M>>,
) -> Result<(), NoMemory>
    requires one { (q : CsProgramTree) × AllFor M.is_for q inner.items × AllFor M.is_for q kept.old.items }
    ensures is_for { OnOk result ((q : CsProgramTree) → AllFor M.is_for q inner.items → AllFor M.is_for q kept.old.items → AllFor M.is_for q kept.new.items) }
    ensures old { OnOk result ((w : Ways) (s : State) → KeepsState M.stands kept.old.items w s → KeepsState M.stands kept.new.items w s) }
    ensures new { OnOk result ((w : Ways) (s : State) → KeepsState M.stands inner.items w s → KeepsState M.stands kept.new.items w s) }
    ensures none { OnOk result (inner.items ≡ [] → kept.new.items ≡ kept.old.items) }
    ensures one { OnOk result ((x : Kept M) → inner.items ≡ x ∷ [] → kept.old.items ≡ [] → kept.new.items ≡ x ∷ []) }
{
    while let Some(Kept { way, state }) = inner.pop() {
        keep(kept, way, state)?;
    }
    Ok(())
}

/// What is kept for a return.
pub fn take_returns<M: MemDomain>(mut inner: Vec<Kept<M>>) -> Result<Option<M>, NoMemory>
    requires one { (q : CsProgramTree) × AllFor M.is_for q inner.items }
    ensures is_for { IfOk result (λ m. (q : CsProgramTree) → AllFor M.is_for q inner.items → SomeFor M.is_for q m) }
    ensures taken { IfOk result (λ m. (s : State) → KeepsState M.stands inner.items Way.Return s → InSome M.stands m s) }
    ensures none { IfOk result (λ m. inner.items ≡ [] → m ≡ None) }
    ensures one { IfOk result (λ m. (x : Kept M) → inner.items ≡ x ∷ [] → x.way ≡ Way.Return → m ≡ Some x.state) }
{
    let found = take_way(Way::Return, &mut inner)?;
    Ok(found)
}
