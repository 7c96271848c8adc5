//! The operators on bits of two intervals, by the signs of their numbers.
//!
//! The number -1 - m has the bits that m has not. So a number is a size m from 0 up and a sign, and
//! an operator on two numbers is one on their sizes.

ghost use Rattle.std.specs.Prelude.{◌≡◌, ℕ, ℤ, pos, negsuc, ◌<ℤ◌, Some, IfSome, IfNone, IsTrue, bit_and, bit_or, bit_xor};
ghost use Rattle.ext_int.specs.Ext.{Below, Above, holds_number};
ghost use Rattle.num_api.specs.Value.{binary_value, bits_without, bits_of_both, bits_of_either, bits_of_one};
ghost use Rattle.intervals.specs.Interval.{Admits, ends_of, least_end, greatest_end};
ghost use Rattle.intervals.specs.Bits.{flipped, of_sign, IsMaskAbove, IsLogical};
ghost use Rattle.intervals.specs.Bounds.{IsNatural, BitBounds, AndSizes, WithoutSizes, OrSizes, XorSizes, IsFlipped, IsSizes, signed};

use crate::Interval;
use crate::ends::is_range;
use crate::operators::all_numbers;
use ext_int::{Ext, max, min};
use num_api::NOp;

// The interval between two ends, or all numbers where they hold none.
pub fn between(lo: Ext, hi: Ext) -> Interval
    ensures holds { (n : ℤ) → Below lo n → Above hi n → Admits result n }
    ensures ends { IsTrue (holds_number lo hi) → (least_end result ≡ lo) × (greatest_end result ≡ hi) }
{
    if is_range(lo, hi) {
        Interval { lo, hi }
    } else {
        all_numbers()
    }
}

// The end of the numbers -1 - n.
fn flip(end: Ext) -> Ext
    ensures { result ≡ flipped end }
{
    match end {
        Ext::Low => Ext::High,
        Ext::Fin(n) => Ext::Fin(-1 - n),
        Ext::High => Ext::Low,
    }
}

// The numbers -1 - n.
fn complement(i: Interval) -> Interval
    ensures holds { (m : ℕ) → Admits i (pos m) → Admits result (negsuc m) }
    ensures back { (m : ℕ) → Admits i (negsuc m) → Admits result (pos m) }
    ensures flips { IsFlipped i result }
{
    between(flip(i.hi), flip(i.lo))
}

// The least number 2^k - 1 that is not below a number above 0.
fn mask(n: i128) -> i128
    requires { pos 0 <ℤ n }
    ensures { IsMaskAbove (Ext.Fin n) (Ext.Fin result) }
{
    ((2u128 << n.ilog2()) - 1) as i128
}

// The least end 2^k - 1 that is not below the end.
fn mask_above(end: Ext) -> Ext
    ensures { IsMaskAbove end result }
{
    match end {
        Ext::Fin(n) if n > 0 => Ext::Fin(mask(n)),
        Ext::High => Ext::High,
        _ => Ext::Fin(0),
    }
}

// ---- sizes

// The bits that both have.
fn and_sizes(a: Interval, b: Interval) -> Interval
    ensures holds { (x y : ℕ) → Admits a (pos x) → Admits b (pos y) → Admits result (pos (bit_and x y)) }
    ensures bounds { IsNatural (ends_of a) → IsNatural (ends_of b) → AndSizes a b result }
{
    between(Ext::Fin(0), min(a.hi, b.hi))
}

// The bits that one of them has.
fn or_sizes(a: Interval, b: Interval) -> Interval
    ensures holds { (x y : ℕ) → Admits a (pos x) → Admits b (pos y) → Admits result (pos (bit_or x y)) }
    ensures bounds { IsNatural (ends_of a) → IsNatural (ends_of b) → OrSizes a b result }
{
    between(max(a.lo, b.lo), mask_above(max(a.hi, b.hi)))
}

// The bits that exactly one of them has.
fn xor_sizes(a: Interval, b: Interval) -> Interval
    ensures holds { (x y : ℕ) → Admits a (pos x) → Admits b (pos y) → Admits result (pos (bit_xor x y)) }
    ensures bounds { IsNatural (ends_of a) → IsNatural (ends_of b) → XorSizes a b result }
{
    between(Ext::Fin(0), mask_above(max(a.hi, b.hi)))
}

// The bits of the first that the second has not.
fn without_sizes(a: Interval, b: Interval) -> Interval
    ensures holds { (x y : ℕ) → Admits a (pos x) → Admits b (pos y) → Admits result (pos (bits_without x y)) }
    ensures bounds { IsNatural (ends_of a) → IsNatural (ends_of b) → WithoutSizes a result }
{
    between(Ext::Fin(0), a.hi)
}

// ---- sizes with signs

// The bits that both numbers have.
fn both(minus_a: bool, a: Interval, minus_b: bool, b: Interval) -> Interval
    ensures holds { (x y : ℕ) → Admits a (pos x) → Admits b (pos y) → Admits result (bits_of_both (of_sign minus_a x) (of_sign minus_b y)) }
    ensures bounds { IsNatural (ends_of a) → IsNatural (ends_of b) → BitBounds NOp.And (signed minus_a (ends_of a)) (signed minus_b (ends_of b))
        (ends_of result) }
{
    match (minus_a, minus_b) {
        (false, false) => and_sizes(a, b),
        (false, true) => without_sizes(a, b),
        (true, false) => without_sizes(b, a),
        (true, true) => complement(or_sizes(a, b)),
    }
}

// The bits that one of the numbers has.
fn either(minus_a: bool, a: Interval, minus_b: bool, b: Interval) -> Interval
    ensures holds { (x y : ℕ) → Admits a (pos x) → Admits b (pos y) → Admits result (bits_of_either (of_sign minus_a x) (of_sign minus_b y)) }
    ensures bounds { IsNatural (ends_of a) → IsNatural (ends_of b) → BitBounds NOp.Or (signed minus_a (ends_of a)) (signed minus_b (ends_of b))
        (ends_of result) }
{
    match (minus_a, minus_b) {
        (false, false) => or_sizes(a, b),
        (false, true) => complement(without_sizes(b, a)),
        (true, false) => complement(without_sizes(a, b)),
        (true, true) => complement(and_sizes(a, b)),
    }
}

// The bits that exactly one of the numbers has.
fn one(minus_a: bool, a: Interval, minus_b: bool, b: Interval) -> Interval
    ensures holds { (x y : ℕ) → Admits a (pos x) → Admits b (pos y) → Admits result (bits_of_one (of_sign minus_a x) (of_sign minus_b y)) }
    ensures bounds { IsNatural (ends_of a) → IsNatural (ends_of b) → BitBounds NOp.Xor (signed minus_a (ends_of a)) (signed minus_b (ends_of b))
        (ends_of result) }
{
    let sizes = xor_sizes(a, b);
    if minus_a == minus_b {
        sizes
    } else {
        complement(sizes)
    }
}

// What an operator makes of a number of the one sign and one of the other.
fn of_signs(op: NOp, minus_a: bool, a: Interval, minus_b: bool, b: Interval) -> Interval
    ensures holds { (x y : ℕ) (n : ℤ) → IsLogical op → Admits a (pos x) → Admits b (pos y) → binary_value op (of_sign minus_a x) (of_sign minus_b y) ≡ Some n
        → Admits result n }
    ensures bounds { IsLogical op → IsNatural (ends_of a) → IsNatural (ends_of b) → BitBounds op (signed minus_a (ends_of a)) (signed minus_b (ends_of b))
        (ends_of result) }
{
    match op {
        NOp::And => both(minus_a, a, minus_b, b),
        NOp::Or => either(minus_a, a, minus_b, b),
        NOp::Xor => one(minus_a, a, minus_b, b),
        _ => all_numbers(),
    }
}

// The sizes of the numbers of this sign, or None where there is none.
fn sizes(minus: bool, a: &Interval) -> Option<Interval>
    ensures some { IfSome result (λ i. (x : ℕ) → Admits a.now (of_sign minus x) → Admits i (pos x)) }
    ensures none { IfNone result ((x : ℕ) → Admits a.now (of_sign minus x) → ⊥) }
    ensures bounds { IfSome result (λ i. IsSizes minus a.now i) }
{
    if minus {
        match a.part(Ext::Low, Ext::Fin(-1)) {
            Some(below) => Some(complement(below)),
            None => None,
        }
    } else {
        a.part(Ext::Fin(0), Ext::High)
    }
}

// What an operator makes of the numbers of one sign and the interval.
fn of_sizes(op: NOp, minus: bool, a: Interval, b: &Interval) -> Interval
    ensures holds { (x : ℕ) (y n : ℤ) → IsLogical op → Admits a (pos x) → Admits b.now y → binary_value op (of_sign minus x) y ≡ Some n → Admits result n }
    ensures bounds { IsLogical op → IsNatural (ends_of a) → BitBounds op (signed minus (ends_of a)) (ends_of b.now) (ends_of result) }
{
    match (sizes(true, b), sizes(false, b)) {
        (Some(below), Some(above)) => of_signs(op, minus, a, true, below).hull(of_signs(
            op, minus, a, false, above,
        )),
        (Some(below), None) => of_signs(op, minus, a, true, below),
        (None, Some(above)) => of_signs(op, minus, a, false, above),
        (None, None) => all_numbers(),
    }
}

// What an operator on bits makes of the intervals.
pub fn logical(op: NOp, a: &Interval, b: &Interval) -> Interval
    requires { IsLogical op }
    ensures holds { (x y n : ℤ) → Admits a.now x → Admits b.now y → binary_value op x y ≡ Some n → Admits result n }
    ensures bounds { BitBounds op (ends_of a.now) (ends_of b.now) (ends_of result) }
{
    match (sizes(true, a), sizes(false, a)) {
        (Some(below), Some(above)) => of_sizes(op, true, below, b).hull(of_sizes(
            op, false, above, b,
        )),
        (Some(below), None) => of_sizes(op, true, below, b),
        (None, Some(above)) => of_sizes(op, false, above, b),
        (None, None) => all_numbers(),
    }
}
