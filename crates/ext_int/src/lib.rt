//! Ends of ranges of whole numbers: an `i128`, or an infinite end below or above all numbers.
//!
//! A `_low` form answers a lower bound of the exact result and a `_high` form an upper bound. Where
//! the exact result of finite operands is an `i128` both answer it; where it is none, a `_low` form
//! answers `Low` and a `_high` form `High`. Nothing is refused, and nothing allocates. For example,
//! `mul_high(Fin(2), High)` is `High`, and `mul_high(Fin(0), High)` is `Fin(0)`.
//!
//! `specs/Ext.antt` states each call, on ends with any whole number; each promises what stands there.
//! `specs/Valuation.antt` has what a list of numbers gives a variable, for the domains above.
#![tactic(auto)]

ghost use Rattle.std.specs.Prelude.{◌≡◌, ℤ, ◌+ℤ◌, neg_ℤ, ◌↔◌, ◌⊎◌, unwrap_or};
ghost use Rattle.std.specs.Ordering.{MatchOrdering};
ghost use Rattle.ext_int.specs.Ext.{Below, Above, AtMost, Before, end_cmp, lesser, greater, rounded_low, rounded_high, sum_low, sum_high, side, infinite_product, product, negation, half};

use std::cmp::Ordering;

/// An end of a range: a number, or an infinite end.
#[derive(Clone, Copy, Debug, PartialEq, Eq)]
pub enum Ext {
    /// Below every number.
    Low,
    /// The number itself.
    Fin(i128),
    /// Above every number.
    High,
}

/// Whether anything can still be so.
#[derive(Clone, Copy, Debug, PartialEq, Eq)]
pub enum Live {
    /// Something may be.
    Live,
    /// Nothing can.
    Dead,
}

/// The sum as a lower bound; `Low` where an operand is infinite.
pub fn add_low(a: Ext, b: Ext) -> Ext
    ensures value { result ≡ sum_low a b }
    ensures bound { (x y : ℤ) → Below a x → Below b y → Below result (x +ℤ y) }
{
    exact_sum(a, b).unwrap_or(Ext::Low)
}

/// The sum as an upper bound; `High` where an operand is infinite.
pub fn add_high(a: Ext, b: Ext) -> Ext
    ensures value { result ≡ sum_high a b }
    ensures bound { (x y : ℤ) → Above a x → Above b y → Above result (x +ℤ y) }
{
    exact_sum(a, b).unwrap_or(Ext::High)
}

/// The product as a lower bound. With an infinite operand it is 0 where the other is 0, and else
/// the infinite end of the product's sign.
pub fn mul_low(a: Ext, b: Ext) -> Ext
    ensures value { result ≡ rounded_low (product a b) }
    ensures bound { AtMost result (product a b) }
{
    exact_product(a, b).unwrap_or(Ext::Low)
}

/// The product as an upper bound. With an infinite operand it is 0 where the other is 0, and else
/// the infinite end of the product's sign.
pub fn mul_high(a: Ext, b: Ext) -> Ext
    ensures value { result ≡ rounded_high (product a b) }
    ensures bound { AtMost (product a b) result }
{
    exact_product(a, b).unwrap_or(Ext::High)
}

/// The negation as a lower bound.
pub fn neg_low(a: Ext) -> Ext
    ensures value { result ≡ rounded_low (negation a) }
    ensures bound { (x : ℤ) → Above a x → Below result (neg_ℤ x) }
{
    exact_negation(a).unwrap_or(Ext::Low)
}

/// The negation as an upper bound.
pub fn neg_high(a: Ext) -> Ext
    ensures value { result ≡ rounded_high (negation a) }
    ensures bound { (x : ℤ) → Below a x → Above result (neg_ℤ x) }
{
    exact_negation(a).unwrap_or(Ext::High)
}

/// Half of an end, rounded down; an infinite end stays. It bounds `x` wherever `a` bounds `2 * x`.
pub fn half_floor(a: Ext) -> Ext
    ensures value { result ≡ half a }
    ensures below { (x : ℤ) → Below a (x +ℤ x) → Below result x }
    ensures above { (x : ℤ) → Above result x ↔ Above a (x +ℤ x) }
{
    match a {
        Ext::Fin(x) => Ext::Fin(x.div_euclid(2)),
        infinite => infinite,
    }
}

/// The lesser of two ends.
pub fn min(a: Ext, b: Ext) -> Ext
    ensures value { result ≡ lesser a b }
    ensures first { AtMost result a }
    ensures second { AtMost result b }
    ensures below { (x : ℤ) → Below result x ↔ (Below a x ⊎ Below b x) }
    ensures above { (x : ℤ) → Above result x ↔ (Above a x × Above b x) }
{
    match cmp(a, b) {
        Ordering::Greater => b,
        _ => a,
    }
}

/// The greater of two ends.
pub fn max(a: Ext, b: Ext) -> Ext
    ensures value { result ≡ greater a b }
    ensures first { AtMost a result }
    ensures second { AtMost b result }
    ensures below { (x : ℤ) → Below result x ↔ (Below a x × Below b x) }
    ensures above { (x : ℤ) → Above result x ↔ (Above a x ⊎ Above b x) }
{
    match cmp(a, b) {
        Ordering::Less => b,
        _ => a,
    }
}

/// How `a` stands to `b`: `Low` is below every number, and `High` above.
pub fn cmp(a: Ext, b: Ext) -> Ordering
    ensures value { result ≡ end_cmp a b }
    ensures ranks { MatchOrdering result (Before a b) (a ≡ b) (Before b a) }
{
    match (a, b) {
        (Ext::Fin(x), Ext::Fin(y)) => x.cmp(&y),
        (Ext::Low, Ext::Low) | (Ext::High, Ext::High) => Ordering::Equal,
        (Ext::Low, _) | (_, Ext::High) => Ordering::Less,
        _ => Ordering::Greater,
    }
}

// The sum, where it is one number that is an `i128`.
fn exact_sum(a: Ext, b: Ext) -> Option<Ext>
    ensures low { sum_low a b ≡ unwrap_or result Ext.Low }
    ensures high { sum_high a b ≡ unwrap_or result Ext.High }
{
    match (a, b) {
        (Ext::Fin(x), Ext::Fin(y)) => x.checked_add(y).map(Ext::Fin),
        _ => None,
    }
}

// The product, where it is infinite or an `i128`.
fn exact_product(a: Ext, b: Ext) -> Option<Ext>
    ensures low { rounded_low (product a b) ≡ unwrap_or result Ext.Low }
    ensures high { rounded_high (product a b) ≡ unwrap_or result Ext.High }
{
    match (a, b) {
        (Ext::Fin(x), Ext::Fin(y)) => x.checked_mul(y).map(Ext::Fin),
        _ => Some(product_by_sides(side_of(a), side_of(b))),
    }
}

// The negation, where it is infinite or an `i128`.
fn exact_negation(a: Ext) -> Option<Ext>
    ensures low { rounded_low (negation a) ≡ unwrap_or result Ext.Low }
    ensures high { rounded_high (negation a) ≡ unwrap_or result Ext.High }
{
    match a {
        Ext::Low => Some(Ext::High),
        Ext::Fin(x) => x.checked_neg().map(Ext::Fin),
        Ext::High => Some(Ext::Low),
    }
}

// Which side of 0 the end is on.
fn side_of(a: Ext) -> Ordering
    ensures { result ≡ side a }
{
    match a {
        Ext::Low => Ordering::Less,
        Ext::Fin(x) => x.cmp(&0),
        Ext::High => Ordering::Greater,
    }
}

// The product of two ends on these sides, one of them infinite.
fn product_by_sides(a: Ordering, b: Ordering) -> Ext
    ensures { result ≡ infinite_product a b }
{
    match (a, b) {
        (Ordering::Equal, _) | (_, Ordering::Equal) => Ext::Fin(0),
        (Ordering::Less, Ordering::Less) | (Ordering::Greater, Ordering::Greater) => Ext::High,
        _ => Ext::Low,
    }
}
