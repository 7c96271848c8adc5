// Bounds that follow from those of sources.

ghost use Rattle.std.specs.Prelude.{◌≡◌, ℕ, ℤ, ◌<◌, ◌+ℤ◌, neg_ℤ, List, IsTrue, Bool};
ghost use Rattle.ext_int.specs.Ext.{Above, sum_high};
ghost use Rattle.ext_int.specs.Valuation.{value_at};
ghost use Rattle.bound_matrix.specs.Bound.{bound_at, bar, InRange};
ghost use Rattle.bound_matrix.specs.Points.{IsPoint, signed};
ghost use Rattle.octagons_sources.specs.Sources.{source_at, AllDrawn};
ghost use Rattle.octagons_sources.specs.Drawn.{between, drawn, drawn_whole, whole_sum};

use crate::source::{Source, index_from, most_of, source_at};
use bound_matrix::Matrix;
use ext_int::{Ext, add_high, half_floor};

// The index that stands for the same variable with the other sign.
fn partner(i: u32) -> u32
    ensures { result ≡ bar i }
{
    if i % 2 == 0 { i + 1 } else { i - 1 }
}

// The bound of two indices; none outside of the matrix.
pub(crate) fn bound_or_none(m: &Matrix, i: u32, j: u32) -> Ext
    ensures value { result ≡ bound_at m.now i j }
    ensures range { InRange result }
{
    let indices = 2 * m.vars();
    if i < indices && j < indices {
        m.get(i, j)
    } else {
        Ext::High
    }
}

// The bound of the difference of two indices, where a missing one stands for 0.
fn between(m: &Matrix, from: Option<u32>, to: Option<u32>) -> Ext
    ensures { result ≡ between (bound_at m.now) from to }
{
    match (from, to) {
        (None, None) => Ext::Fin(0),
        (None, Some(j)) => half_floor(bound_or_none(m, partner(j), j)),
        (Some(i), None) => half_floor(bound_or_none(m, i, partner(i))),
        (Some(i), Some(j)) => bound_or_none(m, i, j),
    }
}

// The size of a bound that a matrix keeps as it is: 2^100.
const SIZE: i128 = 1 << 100;

/// A bound that was found.
#[derive(Clone, Copy)]
pub(crate) struct Found {
    pub bound: Ext,
    /// Whether no part of it was rounded away, and a matrix keeps it as it is.
    pub is_exact: bool,
}

// Whether the bound is no number.
fn is_missing(bound: Ext) -> bool
    ensures { IsTrue result → (n : ℤ) → bound ≡ Ext.Fin n → ⊥ }
{
    match bound {
        Ext::Fin(_) => false,
        _ => true,
    }
}

// The sum of three bounds.
fn sum_of(a: Ext, b: Ext, c: Ext) -> Found
    ensures value { result.bound ≡ sum_high (sum_high a b) c }
    ensures exact { IsTrue result.is_exact → (result.bound ≡ whole_sum a b c) × InRange result.bound }
{
    let bound = add_high(add_high(a, b), c);
    let is_exact = match bound {
        Ext::Fin(n) => -SIZE <= n && n <= SIZE,
        _ => is_missing(a) || is_missing(b) || is_missing(c),
    };
    Found { bound, is_exact }
}

// The bound of two indices that follows from those of their sources.
pub(crate) fn find(from: &[Source], m: &Matrix, p: u32, q: u32) -> Found
    ensures value { result.bound ≡ drawn from.now (bound_at m.now) p q }
    ensures exact { IsTrue result.is_exact → (result.bound ≡ drawn_whole from.now (bound_at m.now) p q) × InRange result.bound }
{
    if p == q {
        return Found {
            bound: Ext::Fin(0),
            is_exact: true,
        };
    }
    let first = source_at(from, p / 2);
    let second = source_at(from, q / 2);
    let bound = between(m, index_from(&first, p), index_from(&second, q));
    sum_of(bound, most_of(&second, q), most_of(&first, partner(p)))
}

/// The bound of two indices that follows from those of their sources; `High` also where it is no `i128`.
pub fn drawn_bound(from: &[Source], m: &Matrix, p: u32, q: u32) -> Ext
    ensures { result ≡ drawn from.now (bound_at m.now) p q }
{
    find(from, m, p, q).bound
}
