//! What each operator makes of intervals.

ghost use Rattle.std.specs.Prelude.{◌≡◌, ◌≢◌, false, ℤ, pos, neg_ℤ, ◌≤ℤ◌, ◌<ℤ◌, ◌||◌, ◌⊎◌, int_rem, Some, IsTrue, IfSome, IfNone};
ghost use Rattle.num_api.specs.Value.{binary_value};
ghost use Rattle.ext_int.specs.Ext.{Above};
ghost use Rattle.intervals.specs.Interval.{Admits, IsPoint, IsFinite};
ghost use Rattle.intervals.specs.Bounds.{IsBounded, RemBounds, SideBounds, AreSmaller};
ghost use Rattle.intervals.specs.Order.{is_at_most, is_before, may_equal, may_differ, may_be_less, may_be_at_most};
ghost use Rattle.intervals.specs.Operations.{CarriesOne, Carries, Decides, DecidesOne, IsBitwise, IsTests, HoldsRemainders, size_less_one, greatest_remainder};

use crate::Interval;
use crate::bit_ranges::logical;
use crate::bits::bitwise;
use crate::shift_ranges::{shifted_left, shifted_right};
use ext_int::{Ext, cmp, max, min, neg_low};
use num_api::NOp;
use std::cmp::Ordering;

// All whole numbers.
pub fn all_numbers() -> Interval
    ensures { (n : ℤ) → Admits result n }
{
    Interval {
        lo: Ext::Low,
        hi: Ext::High,
    }
}

// What an operator of one operand makes of the interval.
pub fn unary(op: NOp, a: &Interval) -> Interval
    ensures carries { CarriesOne op a.now result }
    ensures decides { DecidesOne op a.now result }
{
    match op {
        NOp::Neg => a.neg(),
        NOp::Not => {
            let zero = Interval::point(0);
            tests(may_equal(a, &zero), may_differ(a, &zero))
        }
        _ => all_numbers(),
    }
}

// What an operator of two operands makes of the intervals.
pub fn binary(op: NOp, a: &Interval, b: &Interval) -> Interval
    ensures carries { Carries op a.now b.now result }
    ensures decides { Decides op a.now b.now result }
    ensures bounds { IsBounded op a.now b.now result }
{
    match op {
        NOp::Neg | NOp::Not => all_numbers(),
        NOp::Add => a.add(b),
        NOp::Sub => a.sub(b),
        NOp::Mul => a.mul(b),
        NOp::Quot => a.quot(b),
        NOp::Rem => remainder(a, b),
        NOp::Shl | NOp::Shr | NOp::And | NOp::Or | NOp::Xor => of_bits(op, a, b),
        NOp::Eq => tests(may_equal(a, b), may_differ(a, b)),
        NOp::Ne => tests(may_differ(a, b), may_equal(a, b)),
        NOp::Lt => tests(may_be_less(a, b), may_be_at_most(b, a)),
        NOp::Le => tests(may_be_at_most(a, b), may_be_less(b, a)),
    }
}

// The interval's number, where it holds no other.
pub fn number(a: &Interval) -> Option<i128>
    ensures some { IfSome result (IsPoint a.now) }
    ensures none { IfNone result ((n : ℤ) → IsPoint a.now n → ⊥) }
{
    match (a.lo, a.hi) {
        (Ext::Fin(lo), Ext::Fin(hi)) if lo == hi => Some(lo),
        _ => None,
    }
}

// The value of an operator on bits where both are points, and else the range of its values.
fn of_bits(op: NOp, a: &Interval, b: &Interval) -> Interval
    requires { IsBitwise op }
    ensures carries { Carries op a.now b.now result }
    ensures bounds { IsBounded op a.now b.now result }
{
    match (number(a), number(b)) {
        (Some(x), Some(y)) => match bitwise(op, x, y) {
            Some(n) => Interval::point(n),
            None => range_of_bits(op, a, b),
        },
        _ => range_of_bits(op, a, b),
    }
}

// A range of an operator's values on bits, by the ends of the operands.
fn range_of_bits(op: NOp, a: &Interval, b: &Interval) -> Interval
    requires { IsBitwise op }
    ensures holds { (x y n : ℤ) → Admits a.now x → Admits b.now y → binary_value op x y ≡ Some n → Admits result n }
    ensures bounds { IsBounded op a.now b.now result }
{
    match op {
        NOp::And | NOp::Or | NOp::Xor => logical(op, a, b),
        NOp::Shl => shifted_left(a, b),
        NOp::Shr => shifted_right(a, b),
        _ => all_numbers(),
    }
}

// ---- remainders

// The remainders by the divisors other than 0. Where 0 is the only one it may be any interval, and is 0.
fn remainder(a: &Interval, b: &Interval) -> Interval
    ensures carries { Carries NOp.Rem a.now b.now result }
    ensures bounds { RemBounds a.now b.now result }
{
    match (number(a), number(b)) {
        (Some(x), Some(y)) if y != 0 => Interval::point(x.wrapping_rem(y)),
        _ => narrowed_remainders(a, b),
    }
}

// The dividends themselves where each is of less size than each divisor, and else the numbers that `remainders`
// leaves.
fn narrowed_remainders(a: &Interval, b: &Interval) -> Interval
    ensures holds { HoldsRemainders a.now b.now result }
    ensures bounds { RemBounds a.now b.now result }
{
    let loose = remainders(a, b);
    if !is_smaller(a, b) {
        return loose;
    }
    match loose.part(a.lo, a.hi) {
        Some(whole) => whole,
        None => loose,
    }
}

// Whether each number of the first is of less size than each of the second.
fn is_smaller(a: &Interval, b: &Interval) -> bool
    ensures same { IsTrue result → (x y : ℤ) → Admits a.now x → Admits b.now y → int_rem x y ≡ x }
    ensures other { result ≡ false → IsFinite a.now → AreSmaller a.now b.now → ⊥ }
{
    match (a.lo, a.hi, least_size(b)) {
        (Ext::Fin(lo), Ext::Fin(hi), Some(size)) => size < minus_size(lo) && size < minus_size(hi),
        _ => false,
    }
}

// The least size of a divisor, below 0, where 0 is none.
fn least_size(b: &Interval) -> Option<i128>
    ensures far { IfSome result (λ s. (s <ℤ pos 0) × ((y : ℤ) → Admits b.now y → (y ≤ℤ s) ⊎ (neg_ℤ s ≤ℤ y))) }
    ensures reached { IfSome result (λ s. Admits b.now s ⊎ Admits b.now (neg_ℤ s)) }
    ensures none { IfNone result (Admits b.now (pos 0)) }
{
    match b.lo {
        Ext::Fin(lo) if lo > 0 => Some(-lo),
        _ => size_from(b.hi),
    }
}

// The number of an upper end below 0.
fn size_from(hi: Ext) -> Option<i128>
    ensures far { IfSome result (λ s. (s <ℤ pos 0) × ((y : ℤ) → Above hi y → y ≤ℤ s)) }
    ensures reached { IfSome result (λ s. hi ≡ Ext.Fin s) }
    ensures none { IfNone result (hi ≢ Ext.Low → Above hi (pos 0)) }
{
    match hi {
        Ext::Fin(n) if n < 0 => Some(n),
        _ => None,
    }
}

// The size of a number, below 0.
fn minus_size(n: i128) -> i128
    ensures low { result ≤ℤ n }
    ensures high { n ≤ℤ neg_ℤ result }
    ensures reached { (result ≡ n) ⊎ (result ≡ neg_ℤ n) }
{
    if n > 0 { -n } else { n }
}

// The numbers on the dividend's side of 0 that are no further from it than the dividend, nor than one less
// than the greatest size of a divisor.
fn remainders(a: &Interval, b: &Interval) -> Interval
    ensures holds { HoldsRemainders a.now b.now result }
    ensures bounds { SideBounds a.now b.now result }
{
    let most = most_remainder(b);
    Interval {
        lo: max(neg_low(most), min(a.lo, Ext::Fin(0))),
        hi: min(most, max(a.hi, Ext::Fin(0))),
    }
}

// One less than the greatest size of a divisor, and at least 0.
fn most_remainder(b: &Interval) -> Ext
    ensures { result ≡ greatest_remainder b.now }
{
    max(Ext::Fin(0), max(one_below_size(b.lo), one_below_size(b.hi)))
}

// One less than the size of a number.
fn one_below_size(end: Ext) -> Ext
    ensures { result ≡ size_less_one end }
{
    match end {
        Ext::Fin(n) if n > 0 => Ext::Fin(n - 1),
        Ext::Fin(n) => Ext::Fin(-1 - n),
        _ => Ext::High,
    }
}

// ---- tests

// 0, 1 or both, as the test may fail or hold.
fn tests(may_hold: bool, may_fail: bool) -> Interval
    requires { IsTrue (may_hold || may_fail) }
    ensures { IsTests may_hold may_fail result }
{
    Interval {
        lo: Ext::Fin(if may_fail { 0 } else { 1 }),
        hi: Ext::Fin(if may_hold { 1 } else { 0 }),
    }
}

// Whether some number is in both.
fn may_equal(a: &Interval, b: &Interval) -> bool
    ensures { result ≡ may_equal a.now b.now }
{
    at_most(a.lo, b.hi) && at_most(b.lo, a.hi)
}

// Whether some number of the first is another one than some number of the second.
fn may_differ(a: &Interval, b: &Interval) -> bool
    ensures { result ≡ may_differ a.now b.now }
{
    before(a.lo, b.hi) || before(b.lo, a.hi)
}

// Whether some number of the first is below some number of the second.
fn may_be_less(a: &Interval, b: &Interval) -> bool
    ensures { result ≡ may_be_less a.now b.now }
{
    before(a.lo, b.hi)
}

// Whether some number of the first is not above some number of the second.
fn may_be_at_most(a: &Interval, b: &Interval) -> bool
    ensures { result ≡ may_be_at_most a.now b.now }
{
    at_most(a.lo, b.hi)
}

// Whether the first end is at or below the second.
pub fn at_most(a: Ext, b: Ext) -> bool
    ensures { result ≡ is_at_most a b }
{
    cmp(a, b) != Ordering::Greater
}

// Whether the first end is below the second.
fn before(a: Ext, b: Ext) -> bool
    ensures { result ≡ is_before a b }
{
    cmp(a, b) == Ordering::Less
}
