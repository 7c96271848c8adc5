// Loops that widen until nothing is added.

ghost use Rattle.std.specs.Prelude.{◌≡◌, ℤ, List, IfOk, Ok};
ghost use Rattle.std.specs.Fn.{FnReturnsAt};
ghost use Rattle.num_api.specs.Told.{Keeps};
ghost use Rattle.csharp.specs.Trees.{CsProgramTree};
ghost use Rattle.csharp.specs.States.{State};

use crate::MemDomain;
use num_api::{Ramp, Steps};
use std::alloc::AllocError as NoMemory;

/// Widens a set until it holds what a step makes of it. The set holds the start. The step keeps the
/// program.
pub fn settle<
    M: MemDomain,
    U: Fn(i128) -> Option<i128>,
    S: Steps,
    F: Fn(&M) -> Result<M, NoMemory>,
>(start: M, step: F, ramp: &Ramp<U>) -> Result<M, NoMemory>
    requires step { F.IsAlwaysCallable step }
    requires told { Keeps U.pre U.post ramp.now S.list }
    requires one { (q : CsProgramTree) × M.is_for start q × ((m next : M) → M.is_for m q → FnReturnsAt F.Fn step m (Ok next) → M.is_for next q) }
    ensures is_for { IfOk result (λ m. (q : CsProgramTree) → M.is_for start q → M.is_for m q) }
    ensures holds_start { IfOk result (λ m. (s : State) → M.stands start s → M.stands m s) }
    ensures closed { IfOk result (λ m. (next : M) × FnReturnsAt F.Fn step m (Ok next) × ((s : State) → M.stands next s → M.stands m s)) }
{
    let mut state = start;
    loop {
        let next = step(&state)?;
        if !state.widen::<U, S>(&next, ramp)? {
            return Ok(state);
        }
    }
}
