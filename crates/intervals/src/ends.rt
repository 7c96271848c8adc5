//! What intervals need of ends beside `ext_int`.

ghost use Rattle.std.specs.Prelude.{◌≡◌, ◌≢◌, ◌-◌, ◌^◌, pos, unwrap_or};
ghost use Rattle.ext_int.specs.Ext.{holds_number, sum_low, sum_high, negation, quotient, least_of, greatest_of, product};
ghost use Rattle.intervals.specs.Corners.{floored, ceiled, least_corner, greatest_corner};

use ext_int::{Ext, cmp, max, min, mul_high, mul_low};
use std::cmp::Ordering;

// The difference as a lower bound; `Low` where an operand is infinite.
pub fn sub_low(a: Ext, b: Ext) -> Ext
    ensures { result ≡ sum_low a (negation b) }
{
    exact_difference(a, b).unwrap_or(Ext::Low)
}

// The difference as an upper bound; `High` where an operand is infinite.
pub fn sub_high(a: Ext, b: Ext) -> Ext
    ensures { result ≡ sum_high a (negation b) }
{
    exact_difference(a, b).unwrap_or(Ext::High)
}

// The difference, where it is one number that is an `i128`.
fn exact_difference(a: Ext, b: Ext) -> Option<Ext>
    ensures low { sum_low a (negation b) ≡ unwrap_or result Ext.Low }
    ensures high { sum_high a (negation b) ≡ unwrap_or result Ext.High }
{
    match (a, b) {
        (Ext::Fin(x), Ext::Fin(y)) => x.checked_sub(y).map(Ext::Fin),
        _ => None,
    }
}

// The product as a lower bound: where it is no `i128`, the greatest one below it, or `Low`.
fn product_floor(a: Ext, b: Ext) -> Ext
    ensures { result ≡ floored (product a b) }
{
    match (a, b) {
        (Ext::Fin(x), Ext::Fin(y)) => match x.checked_mul(y) {
            Some(z) => Ext::Fin(z),
            None if (x < 0) == (y < 0) => Ext::Fin(i128::MAX),
            None => Ext::Low,
        },
        _ => mul_low(a, b),
    }
}

// The product as an upper bound: where it is no `i128`, the least one above it, or `High`.
fn product_ceiling(a: Ext, b: Ext) -> Ext
    ensures { result ≡ ceiled (product a b) }
{
    match (a, b) {
        (Ext::Fin(x), Ext::Fin(y)) => match x.checked_mul(y) {
            Some(z) => Ext::Fin(z),
            None if (x < 0) == (y < 0) => Ext::High,
            None => Ext::Fin(i128::MIN),
        },
        _ => mul_high(a, b),
    }
}

// The quotient by an end that is not 0, as a lower bound. One that is no `i128` lies above them all.
fn quot_floor(a: Ext, b: Ext) -> Ext
    requires { b ≢ Ext.Fin (pos 0) }
    ensures { result ≡ floored (quotient a b) }
{
    exact_quotient(a, b).unwrap_or(Ext::Fin(i128::MAX))
}

// The quotient by an end that is not 0, as an upper bound.
fn quot_ceiling(a: Ext, b: Ext) -> Ext
    requires { b ≢ Ext.Fin (pos 0) }
    ensures { result ≡ ceiled (quotient a b) }
{
    exact_quotient(a, b).unwrap_or(Ext::High)
}

// The quotient by an end that is not 0, where it is infinite or an `i128`.
fn exact_quotient(a: Ext, b: Ext) -> Option<Ext>
    requires { b ≢ Ext.Fin (pos 0) }
    ensures low { floored (quotient a b) ≡ unwrap_or result (Ext.Fin (pos (2 ^ 127 - 1))) }
    ensures high { ceiled (quotient a b) ≡ unwrap_or result Ext.High }
{
    match (a, b) {
        (_, Ext::Low) | (_, Ext::High) => Some(Ext::Fin(0)),
        (Ext::Fin(x), Ext::Fin(y)) => x.checked_div(y).map(Ext::Fin),
        (infinite, divisor) => Some(mul_low(infinite, divisor)),
    }
}

// The least product of an end of one range and an end of another, as a lower bound.
pub fn least_product(a: Ext, b: Ext, c: Ext, d: Ext) -> Ext
    ensures { result ≡ least_corner product a b c d }
{
    least(
        product_floor(a, c),
        product_floor(a, d),
        product_floor(b, c),
        product_floor(b, d),
    )
}

// The greatest of those products, as an upper bound.
pub fn greatest_product(a: Ext, b: Ext, c: Ext, d: Ext) -> Ext
    ensures { result ≡ greatest_corner product a b c d }
{
    greatest(
        product_ceiling(a, c),
        product_ceiling(a, d),
        product_ceiling(b, c),
        product_ceiling(b, d),
    )
}

// The least quotient of an end of one range by an end of another, as a lower bound.
pub fn least_quotient(a: Ext, b: Ext, c: Ext, d: Ext) -> Ext
    requires c_is_not_zero { c ≢ Ext.Fin (pos 0) }
    requires d_is_not_zero { d ≢ Ext.Fin (pos 0) }
    ensures { result ≡ least_corner quotient a b c d }
{
    least(
        quot_floor(a, c),
        quot_floor(a, d),
        quot_floor(b, c),
        quot_floor(b, d),
    )
}

// The greatest of those quotients, as an upper bound.
pub fn greatest_quotient(a: Ext, b: Ext, c: Ext, d: Ext) -> Ext
    requires c_is_not_zero { c ≢ Ext.Fin (pos 0) }
    requires d_is_not_zero { d ≢ Ext.Fin (pos 0) }
    ensures { result ≡ greatest_corner quotient a b c d }
{
    greatest(
        quot_ceiling(a, c),
        quot_ceiling(a, d),
        quot_ceiling(b, c),
        quot_ceiling(b, d),
    )
}

// The least of four ends.
fn least(p: Ext, q: Ext, r: Ext, s: Ext) -> Ext
    ensures { result ≡ least_of p q r s }
{
    min(min(p, q), min(r, s))
}

// The greatest of four ends.
fn greatest(p: Ext, q: Ext, r: Ext, s: Ext) -> Ext
    ensures { result ≡ greatest_of p q r s }
{
    max(max(p, q), max(r, s))
}

// Whether some number lies between the two ends.
pub fn is_range(lo: Ext, hi: Ext) -> bool
    ensures { result ≡ holds_number lo hi }
{
    match (lo, hi) {
        (Ext::High, _) | (_, Ext::Low) => false,
        _ => cmp(lo, hi) != Ordering::Greater,
    }
}
