// The sets from which turns of a loop are walked.
#![tactic(auto)]

ghost use Rattle.std.specs.Prelude.{◌≡◌, ◌<◌, false, IfOk, IsTrue, OnOk, None};
ghost use Rattle.num_api.specs.Told.{Keeps};
ghost use Rattle.csharp.specs.Trees.{CsProgramTree};
ghost use Rattle.csharp.specs.States.{State};
ghost use Rattle.walk_owes.specs.Owes.{InSome, SomeFor};

use mem_api::MemDomain;
use num_api::{Ramp, Steps};
use std::alloc::AllocError as NoMemory;

// Widens a set by what a turn from it came to, and tells whether it fell.
pub fn widen_by<M: MemDomain, U: Fn(i128) -> Option<i128>, S: Steps>(
    head: &mut M,
    next: &Option<M>,
    ramp: &Ramp<U>,
) -> Result<bool, NoMemory>
    requires told { Keeps U.pre U.post ramp.now S.list }
    requires one { (q : CsProgramTree) × M.is_for head.old q × SomeFor M.is_for q next.now }
    ensures is_for { OnOk result ((q : CsProgramTree) → M.is_for head.old q → M.is_for head.new q) }
    ensures left { OnOk result ((s : State) → M.stands head.old s → M.stands head.new s) }
    ensures right { OnOk result ((s : State) → InSome M.stands next.now s → M.stands head.new s) }
    ensures fell { IfOk result (λ falls. IsTrue falls → M.weight S.list head.new < M.weight S.list head.old) }
    ensures same { IfOk result (λ falls. falls ≡ false → head.new ≡ head.old) }
    ensures none { IfOk result (λ falls. next.now ≡ None → falls ≡ false) }
{
    match next {
        None => Ok(false),
        Some(state) => {
            let falls = head.widen::<U, S>(state, ramp)?;
            Ok(falls)
        }
    }
}

// What the first turn begins with, and what a turn leads to.
pub fn next_head<M: MemDomain>(entry: &M, next: &Option<M>) -> Result<M, NoMemory>
    requires one { (q : CsProgramTree) × M.is_for entry.now q × SomeFor M.is_for q next.now }
    ensures is_for { IfOk result (λ m. (q : CsProgramTree) → M.is_for entry.now q → SomeFor M.is_for q next.now → M.is_for m q) }
    ensures entry { IfOk result (λ m. (s : State) → M.stands entry.now s → M.stands m s) }
    ensures next { IfOk result (λ m. (s : State) → InSome M.stands next.now s → M.stands m s) }
    ensures alone { IfOk result (λ m. next.now ≡ None → m ≡ entry.now) }
{
    match next {
        None => {
            let first = entry.copy()?;
            Ok(first)
        }
        Some(state) => {
            let mut first = entry.copy()?;
            first.join(state)?;
            Ok(first)
        }
    }
}
