// Where bounds go when they are widened.

ghost use Rattle.std.specs.Prelude.{◌≡◌, ℕ, ◌<◌, ◌≤◌, ◌*◌, false};
ghost use Rattle.ext_int.specs.Ext.{AtMost};
ghost use Rattle.bound_matrix.specs.Bound.{bound_at, InRange, AllInRange};
ghost use Rattle.octagons_bounds.specs.Passes.{step_above, IsRaised, all_weight, all_cover};
ghost use Rattle.num_api.specs.Told.{Keeps};
ghost use Rattle.octagons_sources.specs.Seen.{seen};

use crate::lattice::at_most;
use bound_matrix::Matrix;
use ext_int::Ext;
use num_api::{Ramp, Steps};
use octagons_sources::seen_bound;

// The least step that is not below the bound, or `High` where there is none.
fn step_end<U: Fn(i128) -> Option<i128>, S: Steps>(next: Ext, ramp: &Ramp<U>) -> Ext
    requires told { Keeps U.pre U.post ramp.now S.list }
    requires range { InRange next }
    ensures value { result ≡ step_above S.list next }
    ensures range { InRange result }
{
    match next {
        Ext::Fin(n) => match ramp.rise::<S>(n) {
            Some(step) => Ext::Fin(step),
            None => Ext::High,
        },
        _ => Ext::High,
    }
}

// Widens one bound and its mirror image.
fn widen_at<U: Fn(i128) -> Option<i128>, S: Steps>(
    m: &mut Matrix,
    places: &[Option<u8>],
    o: &Matrix,
    i: u32,
    j: u32,
    ramp: &Ramp<U>,
)
    requires told { Keeps U.pre U.post ramp.now S.list }
    requires row { i < 2 * m.old.vars }
    requires column { j < 2 * m.old.vars }
    ensures vars { m.new.vars ≡ m.old.vars }
    ensures each { IsRaised S.list (bound_at m.old) (seen places.now (bound_at o.now)) (bound_at m.new) }
    ensures over { AtMost (seen places.now (bound_at o.now) i j) (bound_at m.new i j) }
{
    let next = seen_bound(places, o, i, j);
    if !at_most(next, m.get(i, j)) {
        m.raise(i, j, step_end::<U, S>(next, ramp));
    }
}

// Widens the bounds of a row.
fn widen_row<U: Fn(i128) -> Option<i128>, S: Steps>(
    m: &mut Matrix,
    places: &[Option<u8>],
    o: &Matrix,
    i: u32,
    ramp: &Ramp<U>,
)
    requires told { Keeps U.pre U.post ramp.now S.list }
    requires row { i < 2 * m.old.vars }
    ensures vars { m.new.vars ≡ m.old.vars }
    ensures each { IsRaised S.list (bound_at m.old) (seen places.now (bound_at o.now)) (bound_at m.new) }
    ensures over { (q : ℕ) → q < 2 * m.old.vars → AtMost (seen places.now (bound_at o.now) i q) (bound_at m.new i q) }
{
    for j in 0..2 * m.vars() {
        widen_at::<U, S>(m, places, o, i, j, ramp);
    }
}

// Widens all bounds of a matrix by those that are seen in another one; it is not closed before.
pub fn widen_all<U: Fn(i128) -> Option<i128>, S: Steps>(
    m: &mut Matrix,
    places: &[Option<u8>],
    o: &Matrix,
    ramp: &Ramp<U>,
)
    requires told { Keeps U.pre U.post ramp.now S.list }
    ensures vars { m.new.vars ≡ m.old.vars }
    ensures each { IsRaised S.list (bound_at m.old) (seen places.now (bound_at o.now)) (bound_at m.new) }
    ensures over { (p q : ℕ) → AtMost (seen places.now (bound_at o.now) p q) (bound_at m.new p q) }
    ensures range { AllInRange (bound_at m.old) }
    ensures up { (p q : ℕ) → AtMost (bound_at m.old p q) (bound_at m.new p q) }
    ensures no_rise { all_weight S.list (2 * m.new.vars) (2 * m.new.vars) (bound_at m.new) ≤ all_weight S.list (2 * m.old.vars) (2 * m.old.vars) (bound_at m.old) }
    ensures falls { all_cover (2 * m.old.vars) (2 * m.old.vars) (bound_at m.old) (seen places.now (bound_at o.now)) ≡ false → all_weight S.list (2 * m.new.vars) (2 * m.new.vars) (bound_at m.new) < all_weight S.list (2 * m.old.vars) (2 * m.old.vars) (bound_at m.old) }
{
    for i in 0..2 * m.vars() {
        widen_row::<U, S>(m, places, o, i, ramp);
    }
}
