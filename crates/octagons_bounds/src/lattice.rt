// Raising the bounds of a matrix to those of another one, and comparing them.

ghost use Rattle.std.specs.Prelude.{◌≡◌, ℕ, ℤ, List, ◌<◌, ◌≤◌, ◌+◌, ◌*◌, ◌⊎◌, Bool};
ghost use Rattle.ext_int.specs.Ext.{AtMost};
ghost use Rattle.bound_matrix.specs.Bound.{bound_at, InRange};
ghost use Rattle.octagons_bounds.specs.Passes.{is_at_most, row_covers, all_cover};
ghost use Rattle.octagons_sources.specs.Seen.{seen};

use bound_matrix::Matrix;
use ext_int::{Ext, cmp};
use octagons_sources::seen_bound;
use std::cmp::Ordering;

// Whether the first end is at or below the second.
pub fn at_most(a: Ext, b: Ext) -> bool
    ensures { result ≡ is_at_most a b }
{
    cmp(a, b) != Ordering::Greater
}

// Raises the bounds of a row to those of the other matrix.
fn raise_row(m: &mut Matrix, places: &[Option<u8>], o: &Matrix, i: u32)
    requires row { i < 2 * m.old.vars }
    ensures vars { m.new.vars ≡ m.old.vars }
    ensures up { (p q : ℕ) → AtMost (bound_at m.old p q) (bound_at m.new p q) }
    ensures over { (q : ℕ) → q < 2 * m.old.vars → AtMost (seen places.now (bound_at o.now) i q) (bound_at m.new i q) }
{
    for j in 0..2 * m.vars() {
        m.raise(i, j, seen_bound(places, o, i, j));
    }
}

// Raises all bounds to those that are seen in the other matrix.
pub fn raise_all(m: &mut Matrix, places: &[Option<u8>], o: &Matrix)
    ensures vars { m.new.vars ≡ m.old.vars }
    ensures up { (p q : ℕ) → AtMost (bound_at m.old p q) (bound_at m.new p q) }
    ensures over { (p q : ℕ) → AtMost (seen places.now (bound_at o.now) p q) (bound_at m.new p q) }
{
    for i in 0..2 * m.vars() {
        raise_row(m, places, o, i);
    }
}

// Whether the bounds of a row are at or above those of the other matrix.
fn covers_row(m: &Matrix, places: &[Option<u8>], o: &Matrix, i: u32) -> bool
    requires row { i < 2 * m.now.vars }
    ensures { result ≡ row_covers (2 * m.now.vars) (bound_at m.now i) (seen places.now (bound_at o.now) i) }
{
    let mut all = true;
    for j in 0..2 * m.vars() {
        all = all && at_most(seen_bound(places, o, i, j), m.get(i, j));
    }
    all
}

// Whether all bounds are at or above those of the other matrix.
pub fn covers_all(m: &Matrix, places: &[Option<u8>], o: &Matrix) -> bool
    ensures { result ≡ all_cover (2 * m.now.vars) (2 * m.now.vars) (bound_at m.now) (seen places.now (bound_at o.now)) }
{
    let mut all = true;
    for i in 0..2 * m.vars() {
        all = all && covers_row(m, places, o, i);
    }
    all
}
