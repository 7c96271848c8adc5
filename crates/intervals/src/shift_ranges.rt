//! Shifts of an interval by another.

ghost use Rattle.std.specs.Prelude.{◌≡◌, ℕ, ℤ, pos, ◌^◌, ◌≤◌, ◌⊎◌, ◌*ℤ◌, IfSome, IfNone};
ghost use Rattle.std.specs.Int.Signed.{shr_z};
ghost use Rattle.std.specs.Int.{int_div_euclid};
ghost use Rattle.std.specs.Int.RustNames.{FitsSigned};
ghost use mir.Syntax.{w128};
ghost use Rattle.ext_int.specs.Ext.{Below, Above, AtMost};
ghost use Rattle.intervals.specs.Interval.{Admits};
ghost use Rattle.intervals.specs.Shifts.{IsShifted, IsShiftedAway, IsAmount, AreProductsBetween, AreQuotientsFrom, AreQuotientsUpTo};
ghost use Rattle.intervals.specs.Bounds.{ShlBounds, ShrBounds};
ghost use Rattle.intervals.specs.Widening.{step_or};

use crate::Interval;
use crate::bit_ranges::between;
use crate::bits::shift_left;
use ext_int::Ext;

// ---- to the left

// The product of the number by the power of two of an amount, where it is an `i128`. An amount below 0 stands
// for 0; by amounts with no end only 0 has one.
fn product(n: i128, amount: Ext) -> Option<i128>
    ensures some { IfSome result (IsShifted n amount) }
    ensures none { IfNone result (IsShiftedAway n amount) }
{
    match amount {
        Ext::Low => Some(n),
        Ext::Fin(k) => { if k > 0 { shift_left(n, k) } else { Some(n) } }
        Ext::High => { if n == 0 { Some(n) } else { None } }
    }
}

// The product as an end, or the one past every `i128` that it would lie beyond.
fn end_or(past: Ext, product: Option<i128>) -> Ext
    ensures { result ≡ step_or past product }
{
    match product {
        Some(n) => Ext::Fin(n),
        None => past,
    }
}

// The least product by a power of two of a number from the end up: by the greatest amount where the number is
// below 0, and else by the least.
fn least_product(lo: Ext, b: &Interval) -> Ext
    ensures holds { (x : ℤ) (k : ℕ) → Below lo x → Admits b.now (pos k) → Below result (x *ℤ pos (2 ^ k)) }
    ensures least { (p l h : ℤ) → lo ≡ Ext.Fin p → FitsSigned w128 l → FitsSigned w128 h → AreProductsBetween l h p b.now → AtMost (Ext.Fin l) result }
{
    match lo {
        Ext::Low => Ext::Low,
        Ext::Fin(n) => {
            if n < 0 {
                end_or(Ext::Low, product(n, b.hi))
            } else {
                end_or(Ext::Fin(i128::MAX), product(n, b.lo))
            }
        }
        Ext::High => Ext::High,
    }
}

// The greatest product by a power of two of a number up to the end.
fn greatest_product(hi: Ext, b: &Interval) -> Ext
    ensures holds { (x : ℤ) (k : ℕ) → Above hi x → Admits b.now (pos k) → Above result (x *ℤ pos (2 ^ k)) }
    ensures least { (p l h : ℤ) → hi ≡ Ext.Fin p → FitsSigned w128 l → FitsSigned w128 h → AreProductsBetween l h p b.now → AtMost result (Ext.Fin h) }
{
    match hi {
        Ext::Low => Ext::Low,
        Ext::Fin(n) => {
            if n < 0 {
                end_or(Ext::Fin(i128::MIN), product(n, b.lo))
            } else {
                end_or(Ext::High, product(n, b.hi))
            }
        }
        Ext::High => Ext::High,
    }
}

// The products by the powers of two of the amounts that are not negative.
pub fn shifted_left(a: &Interval, b: &Interval) -> Interval
    ensures holds { (x : ℤ) (k : ℕ) → Admits a.now x → Admits b.now (pos k) → Admits result (x *ℤ pos (2 ^ k)) }
    ensures bounds { ShlBounds a.now b.now result }
{
    between(least_product(a.lo, b), greatest_product(a.hi, b))
}

// ---- to the right

// The end as an amount from 0 to 127.
fn amount(end: Ext) -> u32
    ensures small { result ≤ 127 }
    ensures least { (k : ℕ) → Below end (pos k) → result ≤ k }
    ensures most { (k : ℕ) → Above end (pos k) → (k ≤ result) ⊎ (result ≡ 127) }
    ensures value { IsAmount end result }
{
    match end {
        Ext::Low => 0,
        Ext::Fin(n) if n < 0 => 0,
        Ext::Fin(n) => n.min(127) as u32,
        Ext::High => 127,
    }
}

fn quotient(n: i128, amount: u32) -> i128
    requires { amount ≤ 127 }
    ensures { result ≡ shr_z n (2 ^ amount) }
{
    n >> amount
}

// The least quotient by a power of two of a number from the end up: by the least amount where the number
// is below 0, and else by the greatest.
fn least_quotient(lo: Ext, b: &Interval) -> Ext
    ensures holds { (x : ℤ) (k : ℕ) → Below lo x → Admits b.now (pos k) → Below result (int_div_euclid x (pos (2 ^ k))) }
    ensures least { (p l : ℤ) (k : ℕ) → lo ≡ Ext.Fin p → Admits b.now (pos k) → AreQuotientsFrom l p b.now → AtMost (Ext.Fin l) result }
{
    match lo {
        Ext::Fin(n) if n < 0 => Ext::Fin(quotient(n, amount(b.lo))),
        Ext::Fin(n) => Ext::Fin(quotient(n, amount(b.hi))),
        other => other,
    }
}

// The greatest quotient by a power of two of a number up to the end.
fn greatest_quotient(hi: Ext, b: &Interval) -> Ext
    ensures holds { (x : ℤ) (k : ℕ) → Above hi x → Admits b.now (pos k) → Above result (int_div_euclid x (pos (2 ^ k))) }
    ensures least { (p h : ℤ) (k : ℕ) → hi ≡ Ext.Fin p → Admits b.now (pos k) → AreQuotientsUpTo h p b.now → AtMost result (Ext.Fin h) }
{
    match hi {
        Ext::Fin(n) if n < 0 => Ext::Fin(quotient(n, amount(b.hi))),
        Ext::Fin(n) => Ext::Fin(quotient(n, amount(b.lo))),
        other => other,
    }
}

// The quotients by the powers of two of the amounts that are not negative, rounded down.
pub fn shifted_right(a: &Interval, b: &Interval) -> Interval
    ensures holds { (x : ℤ) (k : ℕ) → Admits a.now x → Admits b.now (pos k) → Admits result (int_div_euclid x (pos (2 ^ k))) }
    ensures bounds { ShrBounds a.now b.now result }
{
    between(least_quotient(a.lo, b), greatest_quotient(a.hi, b))
}
