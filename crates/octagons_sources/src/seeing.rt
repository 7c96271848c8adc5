// Bounds of the variables at some places, as another matrix has them.

ghost use Rattle.std.specs.Prelude.{◌≡◌};
ghost use Rattle.bound_matrix.specs.Bound.{bound_at, InRange};
ghost use Rattle.octagons_sources.specs.Seen.{place_at, seen, seen_index};

use crate::between::bound_or_none;
use bound_matrix::Matrix;
use ext_int::Ext;

// Where the variable at a place is.
fn place_at(places: &[Option<u8>], k: u32) -> Option<u8>
    ensures { result ≡ place_at places.now k }
{
    match places.get(k as usize) {
        Some(place) => *place,
        None => None,
    }
}

// The index that stands for the same variable.
fn seen_index(places: &[Option<u8>], p: u32) -> Option<u32>
    ensures { result ≡ seen_index places.now p }
{
    match place_at(places, p / 2) {
        Some(k) => Some(2 * u32::from(k) + p % 2),
        None => None,
    }
}

/// The bound of two indices as a matrix has it in which the variable at each place stands at another
/// one, or not at all: `High` where one does not, and 0 between an index and itself.
pub fn seen_bound(places: &[Option<u8>], m: &Matrix, p: u32, q: u32) -> Ext
    ensures value { result ≡ seen places.now (bound_at m.now) p q }
    ensures range { InRange result }
{
    if p == q {
        return Ext::Fin(0);
    }
    match (seen_index(places, p), seen_index(places, q)) {
        (Some(i), Some(j)) => bound_or_none(m, i, j),
        _ => Ext::High,
    }
}
