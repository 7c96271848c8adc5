// Loops that widen until nothing is added.

ghost use Rattle.std.specs.Prelude.{◌≡◌, ℤ, List, true, IfOk, Ok};
ghost use Rattle.std.specs.Fn.{FnReturnsAt};
ghost use Rattle.num_api.specs.Told.{Keeps};

use crate::{NumDomain, Ramp, Steps, ValueDomain};
use std::alloc::AllocError as NoMemory;

/// Widens a value until it holds what a step makes of it. The value holds the start, and is the start
/// where a step adds nothing to that.
pub fn settle_value<V: ValueDomain, U: Fn(i128) -> Option<i128>, S: Steps, F: Fn(V) -> V>(
    start: V,
    step: F,
    ramp: &Ramp<U>,
) -> V
    requires step { F.IsAlwaysCallable step }
    requires told { Keeps U.pre U.post ramp.now S.list }
    ensures holds_start { (n : ℤ) → V.admits start n → V.admits result n }
    ensures closed { (next : V) × F.post step result next × ((n : ℤ) → V.admits next n → V.admits result n) }
    ensures stays { ((next : V) → F.post step start next → V.holds start next ≡ true) → result ≡ start }
{
    let mut state = start;
    loop {
        let next = step(state);
        if state.covers(&next) {
            return state;
        }
        state = state.widen::<U, S>(&next, ramp);
    }
}

/// Widens a state until it holds what a step makes of it. The state holds the start, and is the start
/// where a step adds nothing to that.
pub fn settle<
    D: NumDomain,
    U: Fn(i128) -> Option<i128>,
    S: Steps,
    F: Fn(&D) -> Result<D, NoMemory>,
>(start: D, step: F, ramp: &Ramp<U>) -> Result<D, NoMemory>
    requires step { F.IsAlwaysCallable step }
    requires told { Keeps U.pre U.post ramp.now S.list }
    ensures holds_start { IfOk result (λ s. (v : List ℤ) → D.admits start v → D.admits s v) }
    ensures closed { IfOk result (λ s. (next : D) × FnReturnsAt F.Fn step s (Ok next) × ((v : List ℤ) → D.admits next v → D.admits s v)) }
    ensures stays { IfOk result (λ s. ((next : D) → FnReturnsAt F.Fn step start (Ok next) → D.holds start next ≡ true) → s ≡ start) }
{
    let mut state = start;
    loop {
        let next = step(&state)?;
        if state.covers(&next) {
            return Ok(state);
        }
        state.widen::<U, S>(&next, ramp)?;
    }
}
