// Ranges of expressions.
#![tactic(auto, using(num_api::proofs::Trees::nexpr_trees))]

ghost use Rattle.std.specs.Prelude.{◌≡◌, ℕ, ℤ, List, ◌+ℤ◌, neg_ℤ, Some};
ghost use Rattle.num_api.specs.Exprs.{Read, nexpr_tree};
ghost use Rattle.num_api.specs.Ranges.{InRange};
ghost use Rattle.num_api.specs.Value.{value_of};
ghost use Rattle.octagons_linear.specs.Forms.{signed_value, linear_value};
ghost use Rattle.octagons_changes.specs.States.{Admits};
ghost use Rattle.octagons_told.specs.Ranges as ranges;

use crate::reading::{plus, read_two};
use ext_int::{Ext, add_high, add_low, half_floor, neg_low};
use num_api::{NExpr, Range};
use octagons_changes::Relations;
use octagons_linear::{Linear, Signed, linear_of};

// The variable with the other sign.
fn opposite(s: Signed) -> Signed
    ensures value { (v : List ℤ) → signed_value v result ≡ neg_ℤ (signed_value v s) }
    ensures parts { result ≡ ranges.opposite s }
{
    Signed {
        var: s.var,
        negated: !s.negated,
    }
}

// The range of the sum of two variables, each with its sign.
fn sum_range(known: &Relations, s: Signed, t: Signed) -> Range
    ensures value { result ≡ ranges.sum_range known.now s t }
    ensures holds { (v : List ℤ) → Admits known.now v → InRange result (signed_value v s +ℤ signed_value v t) }
{
    Range {
        lo: neg_low(known.sum_bound(opposite(s), opposite(t))),
        hi: known.sum_bound(s, t),
    }
}

// The range of a variable, with its sign.
pub(crate) fn own_range(known: &Relations, s: Signed) -> Range
    ensures value { result ≡ ranges.own_range known.now s }
    ensures holds { (v : List ℤ) → Admits known.now v → InRange result (signed_value v s) }
{
    let other = opposite(s);
    Range {
        lo: neg_low(half_floor(known.sum_bound(other, other))),
        hi: half_floor(known.sum_bound(s, s)),
    }
}

// The range with a number added.
fn moved(r: Range, n: i128) -> Range
    ensures { (x : ℤ) → InRange r x → InRange result (x +ℤ n) }
{
    Range {
        lo: add_low(r.lo, Ext::Fin(n)),
        hi: add_high(r.hi, Ext::Fin(n)),
    }
}

// The range of a sum.
fn linear_range(known: &Relations, l: Linear) -> Range
    ensures { (v : List ℤ) → Admits known.now v → InRange result (linear_value v l) }
{
    match l {
        Linear::Number(n) => Range::point(n),
        Linear::One(s, n) => moved(own_range(known, s), n),
        Linear::Two(s, t, n) => moved(sum_range(known, s, t), n),
    }
}

// The range of an expression that is read as a sum, if it is one.
fn read_range(known: &Relations, e: &NExpr) -> Range
    ensures { (v : List ℤ) (n : ℤ) → Admits known.now v → value_of v (nexpr_tree e.now) ≡ Some n → InRange result n }
{
    match linear_of(e) {
        Some(sum) => linear_range(known, sum),
        None => Range::all(),
    }
}

// The range of an expression that is no sum or difference of two variables.
fn other_range(known: &Relations, e: &NExpr) -> Range
    ensures holds { (v : List ℤ) (n : ℤ) → Admits known.now v → value_of v (nexpr_tree e.now) ≡ Some n → InRange result n }
    ensures own { (x : ℕ) → nexpr_tree e.now ≡ Read x → result ≡ ranges.own_range known.now (ranges.plus x) }
{
    match e {
        NExpr::Read(x) => own_range(known, plus(*x)),
        NExpr::Const(_) => read_range(known, e),
        NExpr::Unary(_, _) => read_range(known, e),
        NExpr::Binary(_, _, _) => read_range(known, e),
    }
}

/// The range of an expression: of a sum of at most two variables by their bounds, of others all numbers.
pub fn range(known: &Relations, e: &NExpr) -> Range
    ensures holds { (v : List ℤ) (n : ℤ) → Admits known.now v → value_of v (nexpr_tree e.now) ≡ Some n → InRange result n }
    ensures read { ranges.IsRead known.now (nexpr_tree e.now) result }
{
    match read_two(e) {
        Some(two) => sum_range(known, two.first, two.second),
        None => other_range(known, e),
    }
}
