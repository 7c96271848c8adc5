//! Where ends go when an interval is widened.

ghost use Rattle.std.specs.Prelude.{◌≡◌};
ghost use Rattle.num_api.specs.Told.{Keeps};
ghost use Rattle.num_api.specs.Steps.{least, greatest};
ghost use Rattle.intervals.specs.Widening.{step_or, raised, lowered};

use crate::operators::at_most;
use ext_int::Ext;
use num_api::{Ramp, Steps};

// The greatest size of a step.
const LIMIT: i128 = 1 << 100;

// The upper end; where the next one is above it, the step above that one.
pub fn raise<U: Fn(i128) -> Option<i128>, S: Steps>(old: Ext, next: Ext, ramp: &Ramp<U>) -> Ext
    requires { Keeps U.pre U.post ramp.now S.list }
    ensures { result ≡ raised S.list old next }
{
    if at_most(next, old) {
        return old;
    }
    match next {
        Ext::Fin(n) => step_above::<U, S>(n, ramp),
        _ => Ext::High,
    }
}

// The lower end; where the next one is below it, the step below that one.
pub fn lower<U: Fn(i128) -> Option<i128>, S: Steps>(old: Ext, next: Ext, ramp: &Ramp<U>) -> Ext
    requires { Keeps U.pre U.post ramp.now S.list }
    ensures { result ≡ lowered S.list old next }
{
    if at_most(old, next) {
        return old;
    }
    match next {
        Ext::Fin(n) => step_below::<U, S>(n, ramp),
        _ => Ext::Low,
    }
}

// The least step that is not below `n`, or `High` where there is none.
fn step_above<U: Fn(i128) -> Option<i128>, S: Steps>(n: i128, ramp: &Ramp<U>) -> Ext
    requires { Keeps U.pre U.post ramp.now S.list }
    ensures { result ≡ step_or Ext.High (least S.list n) }
{
    if n > LIMIT {
        return Ext::High;
    }
    match ramp.rise::<S>(n.max(-LIMIT)) {
        Some(step) => Ext::Fin(step),
        None => Ext::High,
    }
}

// The greatest step that is not above `n`, or `Low` where there is none.
fn step_below<U: Fn(i128) -> Option<i128>, S: Steps>(n: i128, ramp: &Ramp<U>) -> Ext
    requires { Keeps U.pre U.post ramp.now S.list }
    ensures { result ≡ step_or Ext.Low (greatest S.list n) }
{
    if n < -LIMIT {
        return Ext::Low;
    }
    match ramp.fall::<S>(n.min(LIMIT)) {
        Some(step) => Ext::Fin(step),
        None => Ext::Low,
    }
}
