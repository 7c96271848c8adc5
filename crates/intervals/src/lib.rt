//! Intervals of whole numbers: a value domain.
//!
//! An interval is never empty, and each of its ends is a number or infinite. An operator answers an
//! interval that holds each result of numbers of its operands; on points it is exact. For example, `&` of
//! any interval and [7, 7] lies in [0, 7], and [5, 7] % [10, 10] is [5, 7].
//!
//! What an interval admits stands in `specs/Interval.antt`, what operators leave in `specs/Operations.antt`,
//! `specs/Bits.antt` and `specs/Corners.antt`, how much they may leave open in `specs/Bounds.antt`, and the
//! laws in `specs/Laws.antt`. The calls of `Interval` promise them, and those of `ValueDomain`, whose laws
//! `num_api` has.
#![tactic(auto)]

ghost use Rattle.std.specs.Prelude.{IsTrue};
ghost use Rattle.ext_int.specs.Ext.{holds_number};

use ext_int::{Ext, add_high, add_low, max, min, neg_high, neg_low};

mod bit_ranges;
mod bits;
mod domain;
mod ends;
mod operators;
mod shift_ranges;
mod widening;

pub use bits::bitwise;
use ends::{
    greatest_product, greatest_quotient, is_range, least_product, least_quotient, sub_high, sub_low,
};

/// All whole numbers from a least end to a greatest: at least one number.
#[derive(Clone, Copy, PartialEq, Eq)]
pub struct Interval {
    lo: Ext,
    hi: Ext,
    ghost holds: { IsTrue (holds_number lo hi) },
}

impl Interval {
    ghost use Rattle.std.specs.Prelude.{◌≡◌, ◌≢◌, ℤ, pos, ◌+ℤ◌, ◌-ℤ◌, ◌*ℤ◌, neg_ℤ, int_div, FitsSigned, ◌↔◌, IsNone, IfSome, IsSomeAnd};
    ghost use Rattle.std.specs.Int.{w128};
    ghost use Rattle.ext_int.specs.Ext.{Below, Above, lesser, greater};
    ghost use Rattle.intervals.specs.Interval.{least_end, greatest_end, Admits, IsPoint, IsFinite, IsBetween, LiesBetween, IsOneSided};

    /// The interval that holds `n` alone.
    pub fn point(n: i128) -> Interval
        ensures { IsPoint result n }
    {
        Interval {
            lo: Ext::Fin(n),
            hi: Ext::Fin(n),
        }
    }

    /// The least end: the least number of the interval, or `Low` where there is none.
    pub fn lo(&self) -> Ext
        ensures value { result ≡ least_end self.now }
        ensures bound { (n : ℤ) → Admits self.now n → Below result n }
        ensures reached { (n : ℤ) → result ≡ Ext.Fin n → Admits self.now n }
        ensures not_high { result ≢ Ext.High }
    {
        self.lo
    }

    /// The greatest end: the greatest number of the interval, or `High` where there is none.
    pub fn hi(&self) -> Ext
        ensures value { result ≡ greatest_end self.now }
        ensures bound { (n : ℤ) → Admits self.now n → Above result n }
        ensures reached { (n : ℤ) → result ≡ Ext.Fin n → Admits self.now n }
        ensures not_low { result ≢ Ext.Low }
    {
        self.hi
    }

    /// The sums of the numbers of both. Where both are finite and all sums lie between two `i128`s,
    /// it is the least such interval; so it is for the other operations. An end is also the least by
    /// itself, where the ends that it is the sum of are numbers; so it is of differences and negations.
    pub fn add(&self, other: &Interval) -> Interval
        ensures keeps { (x y : ℤ) → Admits self.now x → Admits other.now y → Admits result (x +ℤ y) }
        ensures point { (x y : ℤ) → IsPoint self.now x → IsPoint other.now y → FitsSigned w128 (x +ℤ y) → IsPoint result (x +ℤ y) }
        ensures least { (l h : ℤ) → FitsSigned w128 l → FitsSigned w128 h → IsFinite self.now → IsFinite other.now
            → ((x y : ℤ) → Admits self.now x → Admits other.now y → IsBetween l h (x +ℤ y)) → LiesBetween l h result }
        ensures low { (p q : ℤ) → least_end self.now ≡ Ext.Fin p → least_end other.now ≡ Ext.Fin q → FitsSigned w128 (p +ℤ q)
            → least_end result ≡ Ext.Fin (p +ℤ q) }
        ensures high { (p q : ℤ) → greatest_end self.now ≡ Ext.Fin p → greatest_end other.now ≡ Ext.Fin q → FitsSigned w128 (p +ℤ q) → greatest_end result
            ≡ Ext.Fin (p +ℤ q) }
    {
        Interval {
            lo: add_low(self.lo, other.lo),
            hi: add_high(self.hi, other.hi),
        }
    }

    /// The differences of the numbers of both.
    pub fn sub(&self, other: &Interval) -> Interval
        ensures keeps { (x y : ℤ) → Admits self.now x → Admits other.now y → Admits result (x -ℤ y) }
        ensures point { (x y : ℤ) → IsPoint self.now x → IsPoint other.now y → FitsSigned w128 (x -ℤ y) → IsPoint result (x -ℤ y) }
        ensures least { (l h : ℤ) → FitsSigned w128 l → FitsSigned w128 h → IsFinite self.now → IsFinite other.now
            → ((x y : ℤ) → Admits self.now x → Admits other.now y → IsBetween l h (x -ℤ y)) → LiesBetween l h result }
        ensures low { (p q : ℤ) → least_end self.now ≡ Ext.Fin p → greatest_end other.now ≡ Ext.Fin q → FitsSigned w128 (p -ℤ q)
            → least_end result ≡ Ext.Fin (p -ℤ q) }
        ensures high { (p q : ℤ) → greatest_end self.now ≡ Ext.Fin p → least_end other.now ≡ Ext.Fin q → FitsSigned w128 (p -ℤ q) → greatest_end result
            ≡ Ext.Fin (p -ℤ q) }
    {
        Interval {
            lo: sub_low(self.lo, other.hi),
            hi: sub_high(self.hi, other.lo),
        }
    }

    /// The products of the numbers of both.
    pub fn mul(&self, other: &Interval) -> Interval
        ensures keeps { (x y : ℤ) → Admits self.now x → Admits other.now y → Admits result (x *ℤ y) }
        ensures point { (x y : ℤ) → IsPoint self.now x → IsPoint other.now y → FitsSigned w128 (x *ℤ y) → IsPoint result (x *ℤ y) }
        ensures least { (l h : ℤ) → FitsSigned w128 l → FitsSigned w128 h → IsFinite self.now → IsFinite other.now
            → ((x y : ℤ) → Admits self.now x → Admits other.now y → IsBetween l h (x *ℤ y)) → LiesBetween l h result }
    {
        let (a, b, c, d) = (self.lo, self.hi, other.lo, other.hi);
        Interval {
            lo: least_product(a, b, c, d),
            hi: greatest_product(a, b, c, d),
        }
    }

    /// The quotients of its numbers by those of `other` that are not 0, rounded toward 0. Where `other`
    /// holds 0 alone it may be any interval.
    pub fn quot(&self, other: &Interval) -> Interval
        ensures keeps { (x y : ℤ) → Admits self.now x → Admits other.now y → y ≢ pos 0 → Admits result (int_div x y) }
        ensures point { (x y : ℤ) → IsPoint self.now x → IsPoint other.now y → y ≢ pos 0 → FitsSigned w128 (int_div x y) → IsPoint result (int_div x y) }
        ensures least { (l h d : ℤ) → FitsSigned w128 l → FitsSigned w128 h → IsFinite self.now → IsFinite other.now → Admits other.now d → d ≢ pos 0
            → ((x y : ℤ) → Admits self.now x → Admits other.now y → y ≢ pos 0 → IsBetween l h (int_div x y)) → LiesBetween l h result }
    {
        let negative = other.part(Ext::Low, Ext::Fin(-1));
        let positive = other.part(Ext::Fin(1), Ext::High);
        match (negative, positive) {
            (Some(below), Some(above)) => self.quot_by(below).hull(self.quot_by(above)),
            (Some(below), None) => self.quot_by(below),
            (None, Some(above)) => self.quot_by(above),
            (None, None) => Interval {
                lo: Ext::Low,
                hi: Ext::High,
            },
        }
    }

    /// The negations of its numbers.
    pub fn neg(&self) -> Interval
        ensures keeps { (x : ℤ) → Admits self.now x → Admits result (neg_ℤ x) }
        ensures point { (x : ℤ) → IsPoint self.now x → FitsSigned w128 (neg_ℤ x) → IsPoint result (neg_ℤ x) }
        ensures least { (l h : ℤ) → FitsSigned w128 l → FitsSigned w128 h → IsFinite self.now → ((x : ℤ) → Admits self.now x → IsBetween l h (neg_ℤ x))
            → LiesBetween l h result }
        ensures low { (p : ℤ) → greatest_end self.now ≡ Ext.Fin p → FitsSigned w128 (neg_ℤ p) → least_end result ≡ Ext.Fin (neg_ℤ p) }
        ensures high { (p : ℤ) → least_end self.now ≡ Ext.Fin p → FitsSigned w128 (neg_ℤ p) → greatest_end result ≡ Ext.Fin (neg_ℤ p) }
    {
        Interval {
            lo: neg_low(self.hi),
            hi: neg_high(self.lo),
        }
    }

    /// The numbers that lie from `lo` to `hi`, or None where there is none.
    pub fn cut(&self, lo: i128, hi: i128) -> Option<Interval>
        ensures none { IsNone result ↔ ((n : ℤ) → Admits self.now n → IsBetween lo hi n → ⊥) }
        ensures some { IfSome result (λ i. (n : ℤ) → Admits i n ↔ (Admits self.now n × IsBetween lo hi n)) }
        ensures point { (n : ℤ) → IsPoint self.now n → IsBetween lo hi n → IsSomeAnd result (λ i. IsPoint i n) }
    {
        self.part(Ext::Fin(lo), Ext::Fin(hi))
    }

    // The numbers that lie between these ends, or None where there is none.
    fn part(&self, lo: Ext, hi: Ext) -> Option<Interval>
        ensures none { IsNone result ↔ ((n : ℤ) → Admits self.now n → Below lo n → Above hi n → ⊥) }
        ensures some { IfSome result (λ i. (n : ℤ) → Admits i n ↔ (Admits self.now n × Below lo n × Above hi n)) }
        ensures ends { IfSome result (λ i. (least_end i ≡ greater (least_end self.now) lo) × (greatest_end i ≡ lesser (greatest_end self.now) hi)) }
    {
        let lo = max(self.lo, lo);
        let hi = min(self.hi, hi);
        if is_range(lo, hi) {
            Some(Interval { lo, hi })
        } else {
            None
        }
    }

    // The quotients by divisors on one side of 0.
    fn quot_by(self, divisors: Interval) -> Interval
        requires { IsOneSided divisors }
        ensures keeps { (x y : ℤ) → Admits self x → Admits divisors y → Admits result (int_div x y) }
        ensures least { (l h : ℤ) → FitsSigned w128 l → FitsSigned w128 h → IsFinite self → IsFinite divisors
            → ((x y : ℤ) → Admits self x → Admits divisors y → IsBetween l h (int_div x y)) → LiesBetween l h result }
    {
        let (a, b, c, d) = (self.lo, self.hi, divisors.lo, divisors.hi);
        Interval {
            lo: least_quotient(a, b, c, d),
            hi: greatest_quotient(a, b, c, d),
        }
    }

    // The least interval that holds both.
    fn hull(self, other: Interval) -> Interval
        ensures left { (n : ℤ) → Admits self n → Admits result n }
        ensures right { (n : ℤ) → Admits other n → Admits result n }
        ensures least { (l h : ℤ) → LiesBetween l h self → LiesBetween l h other → LiesBetween l h result }
        ensures ends { (least_end result ≡ lesser (least_end self) (least_end other))
            × (greatest_end result ≡ greater (greatest_end self) (greatest_end other)) }
    {
        Interval {
            lo: min(self.lo, other.lo),
            hi: max(self.hi, other.hi),
        }
    }
}
