// Passes over items: heads that are widened until a pass is closed.
#![tactic(auto, using(csharp::proofs::CodeTrees::the_code_trees))]

ghost use Rattle.std.specs.Prelude.{◌≡◌, ◌≢◌, ◌⊎◌, ◌<◌, ◌≤◌, ℕ, true, false, [], ◌∷◌, IfOk, OnOk, Option, Some, None};
ghost use Rattle.num_api.specs.Told.{Keeps};
ghost use Rattle.csharp.specs.Trees.{CsProgramTree, csstmt_tree, csstmts_from};
ghost use Rattle.csharp.specs.States.{State};
ghost use Rattle.csharp.specs.Meaning as meaning;
ghost use Rattle.walk_owes.specs.declared.way.Way.{Way as Ways};
ghost use Rattle.walk_owes.specs.Owes.{AllFor, InSome, KeepsState, SomeFor};
ghost use Rattle.walk_owes.specs.Items.{HasHead, HeadsFor};
ghost use Rattle.walk_owes.specs.Heads.{IsHead, IsStep, missing, weigh};
ghost use Rattle.walk_owes.specs.Exactly.{HeadAlone, IsBare};

use crate::kept::take_way;
use csharp::CsStmt;
use mem_api::MemDomain;
use num_api::{Ramp, Steps};
use std::alloc::{AllocError as NoMemory, Global};
use walk_owes::{Change, Head, Kept, Mark, Way};

/// Heads, and what is kept beside the jumps to them.
#[derive(Drop)]
pub struct Stepped<M> {
    pub heads: Vec<Head<M>>,
    pub kept: Vec<Kept<M>>,
    pub change: Change,
}

// A set that may be there, and what changed.
#[derive(Drop)]
struct Widened<M> {
    state: Option<M>,
    change: Change,
}

/// Heads for the labels among items, with no set yet.
pub fn add_labels<M: MemDomain>(items: &[CsStmt], heads: &mut Vec<Head<M>>) -> Result<(), NoMemory>
    ensures is_for { OnOk result ((q : CsProgramTree) → HeadsFor M.is_for q heads.old.items → HeadsFor M.is_for q heads.new.items) }
    ensures old { OnOk result ((mark : _) (s : State) → HasHead M.stands heads.old.items mark s → HasHead M.stands heads.new.items mark s) }
    ensures labels { OnOk result ((l : ℕ) → meaning.has (meaning.AtLabel l) (csstmts_from items.now) ≡ true → IsHead heads.new.items l) }
    ensures only { OnOk result ((l : ℕ) → IsHead heads.new.items l → IsHead heads.old.items l ⊎ (meaning.has (meaning.AtLabel l) (csstmts_from items.now) ≡ true)) }
    ensures bare { OnOk result ((mark : _) → IsBare heads.old.items mark → IsBare heads.new.items mark) }
    ensures alone { OnOk result ((mark : _) (s : State) → HeadAlone M.sharp heads.old.items mark s → HeadAlone M.sharp heads.new.items mark s) }
{
    let mut rest = items;
    while let Some((item, more)) = rest.split_first() {
        add_label(item, heads)?;
        rest = more;
    }
    Ok(())
}

fn add_label<M: MemDomain>(item: &CsStmt, heads: &mut Vec<Head<M>>) -> Result<(), NoMemory>
    ensures is_for { OnOk result ((q : CsProgramTree) → HeadsFor M.is_for q heads.old.items → HeadsFor M.is_for q heads.new.items) }
    ensures old { OnOk result ((mark : _) (s : State) → HasHead M.stands heads.old.items mark s → HasHead M.stands heads.new.items mark s) }
    ensures there { OnOk result ((l : ℕ) → IsHead heads.old.items l → IsHead heads.new.items l) }
    ensures only { OnOk result ((l : ℕ) → IsHead heads.new.items l → IsHead heads.old.items l ⊎ (meaning.is_mark (meaning.AtLabel l) (csstmt_tree item.now) ≡ true)) }
    ensures label { OnOk result ((l : ℕ) → meaning.is_mark (meaning.AtLabel l) (csstmt_tree item.now) ≡ true → IsHead heads.new.items l) }
    ensures bare { OnOk result ((mark : _) → IsBare heads.old.items mark → IsBare heads.new.items mark) }
    ensures alone { OnOk result ((mark : _) (s : State) → HeadAlone M.sharp heads.old.items mark s → HeadAlone M.sharp heads.new.items mark s) }
{
    match item {
        CsStmt::Label { label, .. } => {
            heads.push(Head {
                mark: Mark::Label(*label),
                state: None,
            })?;
            Ok(())
        }
        _ => Ok(()),
    }
}

/// One step of all heads: the jumps to each are taken out of what is kept, and joined into it by widening.
pub fn step_heads<M: MemDomain, U: Fn(i128) -> Option<i128>, S: Steps>(
    alloc: Global,
    ramp: &Ramp<U>,
    mut heads: Vec<Head<M>>,
    mut kept: Vec<Kept<M>>,
) -> Result<Stepped<M>, NoMemory>
    requires told { Keeps U.pre U.post ramp.now S.list }
    requires one { (q : CsProgramTree) × HeadsFor M.is_for q heads.items × AllFor M.is_for q kept.items }
    ensures heads_for { IfOk result (λ r. (q : CsProgramTree) → HeadsFor M.is_for q heads.items → AllFor M.is_for q kept.items → HeadsFor M.is_for q r.heads.items) }
    ensures kept_for { IfOk result (λ r. (q : CsProgramTree) → AllFor M.is_for q kept.items → AllFor M.is_for q r.kept.items) }
    ensures old { IfOk result (λ r. (mark : _) (s : State) → HasHead M.stands heads.items mark s → HasHead M.stands r.heads.items mark s) }
    ensures there { IfOk result (λ r. (l : ℕ) → IsHead heads.items l → IsHead r.heads.items l) }
    ensures fewer { IfOk result (λ r. missing r.heads.items ≤ missing heads.items) }
    ensures new { IfOk result (λ r. r.change ≡ Change.New → missing r.heads.items < missing heads.items) }
    ensures wider { IfOk result (λ r. r.change ≡ Change.Wider → weigh (M.weight S.list) r.heads.items < weigh (M.weight S.list) heads.items) }
    ensures same { IfOk result (λ r. r.change ≡ Change.Same → weigh (M.weight S.list) r.heads.items ≡ weigh (M.weight S.list) heads.items) }
    ensures closed { IfOk result (λ r. r.change ≡ Change.Same → (l : ℕ) (s : State) → IsHead heads.items l → KeepsState M.stands kept.items (Way.Goto l) s
        → HasHead M.stands heads.items (Mark.Label l) s) }
    ensures left { IfOk result (λ r. (w : Ways) (s : State) → KeepsState M.stands kept.items w s
        → KeepsState M.stands r.kept.items w s ⊎ ((l : ℕ) × (w ≡ Way.Goto l) × IsHead heads.items l)) }
    ensures only { IfOk result (λ r. (l : ℕ) → IsHead r.heads.items l → IsHead heads.items l) }
    ensures none { IfOk result (λ r. kept.items ≡ [] → (r.change ≡ Change.Same) × (r.kept.items ≡ [])) }
    ensures one { IfOk result (λ r. (x : Kept M) → kept.items ≡ x ∷ [] → ((l : ℕ) → IsHead heads.items l → x.way ≢ Way.Goto l)
        → (r.change ≡ Change.Same) × (r.kept.items ≡ x ∷ [])) }
{
    let mut done = Vec::new(alloc);
    let mut change = Change::Same;
    while let Some(Head { mark, state }) = heads.pop() {
        let Widened {
            state: wide,
            change: own,
        } = step_head::<M, U, S>(ramp, mark, state, &mut kept)?;
        change = both(own, change);
        done.push(Head { mark, state: wide })?;
    }
    Ok(Stepped {
        heads: done,
        kept,
        change,
    })
}

fn both(first: Change, second: Change) -> Change
    ensures same { result ≡ Change.Same → (first ≡ Change.Same) × (second ≡ Change.Same) }
    ensures new { result ≡ Change.New → (first ≡ Change.New) ⊎ (second ≡ Change.New) }
    ensures wider { result ≡ Change.Wider → ((first ≡ Change.Wider) × ((second ≡ Change.Wider) ⊎ (second ≡ Change.Same)))
        ⊎ ((first ≡ Change.Same) × (second ≡ Change.Wider)) }
    ensures still { first ≡ Change.Same → second ≡ Change.Same → result ≡ Change.Same }
{
    match first {
        Change::New => Change::New,
        Change::Same => second,
        Change::Wider => match second {
            Change::New => Change::New,
            Change::Same | Change::Wider => Change::Wider,
        },
    }
}

// One step of a head.
fn step_head<M: MemDomain, U: Fn(i128) -> Option<i128>, S: Steps>(
    ramp: &Ramp<U>,
    mark: Mark,
    state: Option<M>,
    kept: &mut Vec<Kept<M>>,
) -> Result<Widened<M>, NoMemory>
    requires told { Keeps U.pre U.post ramp.now S.list }
    requires one { (q : CsProgramTree) × SomeFor M.is_for q state × AllFor M.is_for q kept.old.items }
    ensures is_for { IfOk result (λ r. (q : CsProgramTree) → SomeFor M.is_for q state → AllFor M.is_for q kept.old.items → SomeFor M.is_for q r.state) }
    ensures kept_for { OnOk result ((q : CsProgramTree) → AllFor M.is_for q kept.old.items → AllFor M.is_for q kept.new.items) }
    ensures old { IfOk result (λ r. (s : State) → InSome M.stands state s → InSome M.stands r.state s) }
    ensures weight { IfOk result (λ r. IsStep (M.weight S.list) state r.state r.change) }
    ensures closed { IfOk result (λ r. r.change ≡ Change.Same → (l : ℕ) (s : State) → mark ≡ Mark.Label l → KeepsState M.stands kept.old.items (Way.Goto l) s
        → InSome M.stands state s) }
    ensures left { OnOk result ((w : Ways) (s : State) → KeepsState M.stands kept.old.items w s
        → KeepsState M.stands kept.new.items w s ⊎ ((l : ℕ) × (w ≡ Way.Goto l) × (mark ≡ Mark.Label l))) }
    ensures none { IfOk result (λ r. kept.old.items ≡ [] → (r.change ≡ Change.Same) × (kept.new.items ≡ [])) }
    ensures one { IfOk result (λ r. (x : Kept M) → kept.old.items ≡ x ∷ [] → ((l : ℕ) → mark ≡ Mark.Label l → x.way ≢ Way.Goto l)
        → (r.change ≡ Change.Same) × (kept.new.items ≡ x ∷ [])) }
{
    match mark {
        Mark::Label(label) => {
            let taken = take_way(Way::Goto(label), kept)?;
            let step = widen_by::<M, U, S>(ramp, state, taken)?;
            Ok(step)
        }
        Mark::Case(_) | Mark::Default => Ok(Widened {
            state,
            change: Change::Same,
        }),
    }
}

fn widen_by<M: MemDomain, U: Fn(i128) -> Option<i128>, S: Steps>(
    ramp: &Ramp<U>,
    state: Option<M>,
    taken: Option<M>,
) -> Result<Widened<M>, NoMemory>
    requires told { Keeps U.pre U.post ramp.now S.list }
    requires one { (q : CsProgramTree) × SomeFor M.is_for q state × SomeFor M.is_for q taken }
    ensures is_for { IfOk result (λ r. (q : CsProgramTree) → SomeFor M.is_for q state → SomeFor M.is_for q taken → SomeFor M.is_for q r.state) }
    ensures old { IfOk result (λ r. (s : State) → InSome M.stands state s → InSome M.stands r.state s) }
    ensures weight { IfOk result (λ r. IsStep (M.weight S.list) state r.state r.change) }
    ensures closed { IfOk result (λ r. r.change ≡ Change.Same → (s : State) → InSome M.stands taken s → InSome M.stands state s) }
    ensures none { IfOk result (λ r. taken ≡ None → r.change ≡ Change.Same) }
{
    let Some(next) = taken else {
        return Ok(Widened {
            state,
            change: Change::Same,
        });
    };
    match state {
        None => Ok(Widened {
            state: Some(next),
            change: Change::New,
        }),
        Some(mut head) => {
            if head.widen::<U, S>(&next, ramp)? {
                Ok(Widened {
                    state: Some(head),
                    change: Change::Wider,
                })
            } else {
                Ok(Widened {
                    state: Some(head),
                    change: Change::Same,
                })
            }
        }
    }
}

/// A copy of a set that may be there.
pub fn copy_flow<M: MemDomain>(flow: &Option<M>) -> Result<Option<M>, NoMemory>
    ensures { IfOk result (λ m. m ≡ flow.now) }
{
    match flow {
        None => Ok(None),
        Some(state) => {
            let once = state.copy()?;
            Ok(Some(once))
        }
    }
}
