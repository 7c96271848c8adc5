//! Half of a coherent matrix in a list: row by row, of two mirrored bounds one.
ghost use Rattle.std.specs.Prelude.{◌≡◌, ◌<◌, ◌+◌};
ghost use Rattle.bound_matrix.specs.Bound.{bar, reach, row_start, place, entry, cut, InRange, IsKept, LowersTo, RaisesTo};

use ext_int::{Ext, max, min};

/// The greatest size of a bound, 2^100.
const LIMIT: i128 = 1 << 100;

/// The index that stands for the same variable with the other sign.
pub fn partner(i: usize) -> usize
    requires { i < 48 }
    ensures { result ≡ bar i }
{
    if i % 2 == 0 { i + 1 } else { i - 1 }
}

/// How many columns of the row of `i` are kept.
pub fn columns(i: usize) -> usize
    requires { i < 48 }
    ensures { result ≡ reach i }
{
    if i % 2 == 0 { i + 2 } else { i }
}

/// Where the bound of `i` and `j` is kept.
fn place_of(i: usize, j: usize) -> usize
    requires row { i < 48 }
    requires column { j < 48 }
    ensures { result ≡ place i j }
{
    if j < columns(i) {
        place_in_row(i, j)
    } else {
        place_in_row(partner(j), partner(i))
    }
}

/// The place of a column in a row that keeps it.
fn place_in_row(row: usize, column: usize) -> usize
    requires row { row < 48 }
    requires column { column < 48 }
    ensures { result ≡ row_start row + column }
{
    (row + 1) * (row + 1) / 2 + column
}

/// The bound as a matrix takes it.
pub fn cut_bound(bound: Ext) -> Ext
    ensures value { result ≡ cut bound }
    ensures range { InRange result }
{
    match bound {
        Ext::Fin(x) if x > LIMIT => Ext::High,
        Ext::High => Ext::High,
        _ => max(bound, Ext::Fin(-LIMIT)),
    }
}

/// The bound of `i` and `j`.
pub fn read_kept(kept: &[Ext], vars: usize, i: usize, j: usize) -> Ext
    requires kept { IsKept vars kept.now }
    requires row { i < vars + vars }
    requires column { j < vars + vars }
    ensures value { result ≡ entry vars kept.now i j }
    ensures range { InRange result }
{
    kept[place_of(i, j)]
}

/// Lowers the bound of `i` and `j` and its mirror image.
pub fn lower_kept(kept: &mut [Ext], vars: usize, i: usize, j: usize, bound: Ext)
    requires kept { IsKept vars kept.old }
    requires row { i < vars + vars }
    requires column { j < vars + vars }
    ensures kept { IsKept vars kept.new }
    ensures lowered { LowersTo i j bound (entry vars kept.old) (entry vars kept.new) }
{
    let place = place_of(i, j);
    kept[place] = min(kept[place], cut_bound(bound));
}

/// Raises the bound of `i` and `j` and its mirror image.
pub fn raise_kept(kept: &mut [Ext], vars: usize, i: usize, j: usize, bound: Ext)
    requires kept { IsKept vars kept.old }
    requires row { i < vars + vars }
    requires column { j < vars + vars }
    ensures kept { IsKept vars kept.new }
    ensures raised { RaisesTo i j bound (entry vars kept.old) (entry vars kept.new) }
{
    let place = place_of(i, j);
    kept[place] = max(kept[place], cut_bound(bound));
}
