// Sets that enter items at a mark: at a label, a case or the default.
#![tactic(auto, using(csharp::proofs::CodeTrees::the_code_trees))]

ghost use Rattle.std.specs.Prelude.{◌≡◌, ◌≢◌, ◌⊎◌, ℕ, true, false, [], ◌∷◌, IfOk, OnOk, Option, Some, None};
ghost use Rattle.csharp.specs.Trees.{CsProgramTree, csstmt_tree, csstmts_from};
ghost use Rattle.csharp.specs.States.{State};
ghost use Rattle.csharp.specs.Meaning as meaning;
ghost use Rattle.walk_owes.specs.declared.way.Way.{Way as Ways};
ghost use Rattle.walk_owes.specs.Owes.{AllFor, InSome, KeepsState, SomeFor};
ghost use Rattle.walk_owes.specs.Items.{HasHead, HeadsFor, Stays, mark_of};
ghost use Rattle.walk_owes.specs.Exactly.{HeadAlone, IsBare};

use crate::kept::{merge, take_way};
use csharp::CsStmt;
use mem_api::MemDomain;
use std::alloc::AllocError as NoMemory;
use walk_owes::{Head, Kept, Mark, Way};

/// Whether a label stands among items.
pub fn has_label(items: &[CsStmt]) -> bool
    ensures { result ≡ false → (l : ℕ) → meaning.has (meaning.AtLabel l) (csstmts_from items.now) ≡ false }
{
    let mut rest = items;
    while let Some((item, more)) = rest.split_first() {
        if is_label(item) {
            return true;
        }
        rest = more;
    }
    false
}

fn is_label(item: &CsStmt) -> bool
    ensures { result ≡ false → (l : ℕ) → meaning.is_mark (meaning.AtLabel l) (csstmt_tree item.now) ≡ false }
{
    match item {
        CsStmt::Label { .. } => true,
        _ => false,
    }
}

/// Whether the default stands among items.
pub fn has_default(items: &[CsStmt]) -> bool
    ensures { result ≡ meaning.has meaning.AtDefault (csstmts_from items.now) }
{
    let mut rest = items;
    while let Some((item, more)) = rest.split_first() {
        if is_default(item) {
            return true;
        }
        rest = more;
    }
    false
}

fn is_default(item: &CsStmt) -> bool
    ensures { result ≡ meaning.is_mark meaning.AtDefault (csstmt_tree item.now) }
{
    match item {
        CsStmt::Default => true,
        _ => false,
    }
}

/// What flows into an item: at a mark, its heads and the jumps to it that were kept so far as well.
pub fn arrive<M: MemDomain>(
    item: &CsStmt,
    heads: &[Head<M>],
    flow: Option<M>,
    gone: &mut Vec<Kept<M>>,
    kept: &mut Vec<Kept<M>>,
) -> Result<Option<M>, NoMemory>
    requires one { (q : CsProgramTree) × SomeFor M.is_for q flow × HeadsFor M.is_for q heads.now × AllFor M.is_for q kept.old.items }
    ensures is_for { IfOk result (λ m. (q : CsProgramTree) → SomeFor M.is_for q flow → HeadsFor M.is_for q heads.now → AllFor M.is_for q kept.old.items → SomeFor M.is_for q m) }
    ensures kept_for { OnOk result ((q : CsProgramTree) → AllFor M.is_for q kept.old.items → AllFor M.is_for q kept.new.items) }
    ensures flow { IfOk result (λ m. (s : State) → InSome M.stands flow s → InSome M.stands m s) }
    ensures heads { IfOk result (λ m. (mark : _) (s : State) → HasHead M.stands heads.now mark s → meaning.is_mark (mark_of mark) (csstmt_tree item.now) ≡ true
        → InSome M.stands m s) }
    ensures gone { OnOk result ((w : Ways) (s : State) → KeepsState M.stands gone.old.items w s → KeepsState M.stands gone.new.items w s) }
    ensures came { IfOk result (λ m. (l : ℕ) (s : State) → KeepsState M.stands gone.new.items (Way.Goto l) s
        → KeepsState M.stands gone.old.items (Way.Goto l) s ⊎ ((meaning.is_mark (meaning.AtLabel l) (csstmt_tree item.now) ≡ true) × InSome M.stands m s)) }
    ensures stays { OnOk result ((w : Ways) (s : State) → KeepsState M.stands kept.old.items w s → Stays M.stands gone.new.items kept.new.items w s) }
    ensures flows { IfOk result (λ m. ((mark : _) → meaning.is_mark (mark_of mark) (csstmt_tree item.now) ≡ true → IsBare heads.now mark) → kept.old.items ≡ []
        → (m ≡ flow) × (kept.new.items ≡ [])) }
    ensures enters { IfOk result (λ m. (mark : _) (s : State) → meaning.is_mark (mark_of mark) (csstmt_tree item.now) ≡ true → HeadAlone M.sharp heads.now mark s
        → flow ≡ None → kept.old.items ≡ [] → InSome M.sharp m s × (kept.new.items ≡ [])) }
    ensures jumps { IfOk result (λ m. ((mark : _) → meaning.is_mark (mark_of mark) (csstmt_tree item.now) ≡ true → IsBare heads.now mark) → (l : ℕ) (x : Kept M)
        → kept.old.items ≡ x ∷ [] → x.way ≡ Way.Goto l → meaning.is_mark (meaning.AtLabel l) (csstmt_tree item.now) ≡ true → flow ≡ None
        → (m ≡ Some x.state) × (kept.new.items ≡ [])) }
    ensures passes { IfOk result (λ m. ((mark : _) → meaning.is_mark (mark_of mark) (csstmt_tree item.now) ≡ true → IsBare heads.now mark) → (x : Kept M)
        → kept.old.items ≡ x ∷ [] → ((l : ℕ) → meaning.is_mark (meaning.AtLabel l) (csstmt_tree item.now) ≡ true → x.way ≢ Way.Goto l)
        → (m ≡ flow) × (kept.new.items ≡ x ∷ [])) }
{
    match item {
        CsStmt::Label { label, .. } => {
            let begun = join_heads(Mark::Label(*label), heads, flow)?;
            let taken = take_way(Way::Goto(*label), kept)?;
            let after = join_jumps(*label, begun, taken, gone)?;
            Ok(after)
        }
        CsStmt::Case { value } => {
            let after = join_heads(Mark::Case(*value), heads, flow)?;
            Ok(after)
        }
        CsStmt::Default => {
            let after = join_heads(Mark::Default, heads, flow)?;
            Ok(after)
        }
        _ => Ok(flow),
    }
}

// A set with all heads of a mark.
fn join_heads<M: MemDomain>(
    mark: Mark,
    heads: &[Head<M>],
    flow: Option<M>,
) -> Result<Option<M>, NoMemory>
    requires one { (q : CsProgramTree) × SomeFor M.is_for q flow × HeadsFor M.is_for q heads.now }
    ensures is_for { IfOk result (λ m. (q : CsProgramTree) → SomeFor M.is_for q flow → HeadsFor M.is_for q heads.now → SomeFor M.is_for q m) }
    ensures flow { IfOk result (λ m. (s : State) → InSome M.stands flow s → InSome M.stands m s) }
    ensures heads { IfOk result (λ m. (s : State) → HasHead M.stands heads.now mark s → InSome M.stands m s) }
    ensures bare { IfOk result (λ m. IsBare heads.now mark → m ≡ flow) }
    ensures alone { IfOk result (λ m. (s : State) → HeadAlone M.sharp heads.now mark s → flow ≡ None → InSome M.sharp m s) }
{
    let mut all = flow;
    let mut rest = heads;
    while let Some((head, more)) = rest.split_first() {
        all = join_head(mark, head, all)?;
        rest = more;
    }
    Ok(all)
}

fn join_head<M: MemDomain>(
    mark: Mark,
    head: &Head<M>,
    flow: Option<M>,
) -> Result<Option<M>, NoMemory>
    requires one { (q : CsProgramTree) × SomeFor M.is_for q flow × SomeFor M.is_for q head.now.state }
    ensures is_for { IfOk result (λ m. (q : CsProgramTree) → SomeFor M.is_for q flow → SomeFor M.is_for q head.now.state → SomeFor M.is_for q m) }
    ensures flow { IfOk result (λ m. (s : State) → InSome M.stands flow s → InSome M.stands m s) }
    ensures head { IfOk result (λ m. (s : State) → head.now.mark ≡ mark → InSome M.stands head.now.state s → InSome M.stands m s) }
    ensures bare { IfOk result (λ m. (head.now.mark ≡ mark → head.now.state ≡ None) → m ≡ flow) }
    ensures alone { IfOk result (λ m. head.now.mark ≡ mark → flow ≡ None → m ≡ head.now.state) }
{
    if head.mark != mark {
        return Ok(flow);
    }
    match &head.state {
        None => Ok(flow),
        Some(state) => {
            let both = join_into(flow, state)?;
            Ok(Some(both))
        }
    }
}

fn join_into<M: MemDomain>(flow: Option<M>, state: &M) -> Result<M, NoMemory>
    requires one { (q : CsProgramTree) × SomeFor M.is_for q flow × M.is_for state.now q }
    ensures is_for { IfOk result (λ m. (q : CsProgramTree) → SomeFor M.is_for q flow → M.is_for state.now q → M.is_for m q) }
    ensures flow { IfOk result (λ m. (s : State) → InSome M.stands flow s → M.stands m s) }
    ensures state { IfOk result (λ m. (s : State) → M.stands state.now s → M.stands m s) }
    ensures alone { IfOk result (λ m. flow ≡ None → m ≡ state.now) }
{
    match flow {
        None => {
            let m = state.copy()?;
            Ok(m)
        }
        Some(mut m) => {
            m.join(state)?;
            Ok(m)
        }
    }
}

// Jumps that were taken flow on; what they were is kept, for the proof alone.
fn join_jumps<M: MemDomain>(
    label: u64,
    flow: Option<M>,
    taken: Option<M>,
    gone: &mut Vec<Kept<M>>,
) -> Result<Option<M>, NoMemory>
    requires one { (q : CsProgramTree) × SomeFor M.is_for q flow × SomeFor M.is_for q taken }
    ensures is_for { IfOk result (λ m. (q : CsProgramTree) → SomeFor M.is_for q flow → SomeFor M.is_for q taken → SomeFor M.is_for q m) }
    ensures flow { IfOk result (λ m. (s : State) → InSome M.stands flow s → InSome M.stands m s) }
    ensures gone { OnOk result ((w : Ways) (s : State) → KeepsState M.stands gone.old.items w s → KeepsState M.stands gone.new.items w s) }
    ensures taken { OnOk result ((s : State) → InSome M.stands taken s → KeepsState M.stands gone.new.items (Way.Goto label) s) }
    ensures came { IfOk result (λ m. (w : Ways) (s : State) → KeepsState M.stands gone.new.items w s
        → KeepsState M.stands gone.old.items w s ⊎ ((w ≡ Way.Goto label) × InSome M.stands m s)) }
    ensures none { IfOk result (λ m. taken ≡ None → m ≡ flow) }
    ensures alone { IfOk result (λ m. flow ≡ None → m ≡ taken) }
{
    match taken {
        None => Ok(flow),
        Some(state) => {
            let once = state.copy()?;
            gone.push(Kept {
                way: Way::Goto(label),
                state: once,
            })?;
            let both = merge(flow, state)?;
            Ok(Some(both))
        }
    }
}
