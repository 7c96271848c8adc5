// Whether bounds are small enough that closing them leaves them tightly closed.

ghost use Rattle.std.specs.Prelude.{◌≡◌, ℕ, ◌<◌, ◌≤◌, ◌*◌, IsTrue};
ghost use Rattle.bound_matrix.specs.Bound.{bound_at};
ghost use Rattle.bound_matrix.specs.Points.{IsSmall};
ghost use Rattle.octagons_bounds.specs.Flags.{IsSmallBound};

use bound_matrix::Matrix;
use ext_int::Ext;

// The size up to which closing is exact: 2^90.
const SMALL: i128 = 1 << 90;

// Whether a bound that is a number is small.
fn is_small(bound: Ext) -> bool
    ensures { IsTrue result → IsSmallBound bound }
{
    match bound {
        Ext::Fin(n) => -SMALL <= n && n <= SMALL,
        _ => true,
    }
}

// Whether the bounds of a row are small.
fn row_small(m: &Matrix, i: u32) -> bool
    requires { i < 2 * m.now.vars }
    ensures { IsTrue result → (q : ℕ) → q < 2 * m.now.vars → IsSmallBound (bound_at m.now i q) }
{
    for j in 0..2 * m.vars() {
        if !is_small(m.get(i, j)) {
            return false;
        }
    }
    true
}

// Whether all bounds are small.
pub fn all_small(m: &Matrix) -> bool
    ensures { IsTrue result → IsSmall (bound_at m.now) }
{
    for i in 0..2 * m.vars() {
        if !row_small(m, i) {
            return false;
        }
    }
    true
}
