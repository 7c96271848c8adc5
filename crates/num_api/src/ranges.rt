// Ranges cut by how their numbers have to stand to those of another one.

ghost use Rattle.std.specs.Prelude.{◌≡◌, ℤ, pos, ◌-ℤ◌, ◌+ℤ◌, ◌<ℤ◌, false, IsTrue, ◌↔◌, IfSome, IfNone, if◌then◌else◌};
ghost use Rattle.std.specs.Int.{int_min, int_max};
ghost use Rattle.std.specs.Ordering.{int_eq};
ghost use Rattle.ext_int.specs.Ext.{Below, Above, AtMost};
ghost use Rattle.ext_int.specs.declared.Ext.TheVariants.{Fin, Low, High};
ghost use Rattle.num_api.specs.Ranges.{InRange, IsPoint, NoWider, holds_some};
ghost use Rattle.num_api.specs.Spans.{Span, span, range_of};
ghost use Rattle.num_api.specs.Plain.{cut, without, excludes, other};
ghost use Rattle.num_api.specs.Value.{has_truth};
ghost use Rattle.num_api.specs.Standings.{standing_of, Stands};

use crate::Range;
use crate::standings::Standing;
use ext_int::{Ext, max, min};

/// The range that holds no number.
pub fn no_numbers() -> Range
    ensures { result ≡ record { lo = High; hi = Low } }
{
    Range {
        lo: Ext::High,
        hi: Ext::Low,
    }
}

// The numbers of the range that lie below n.
fn below_number(s: Range, n: i128) -> Range
    ensures holds { (x : ℤ) → InRange s x → x <ℤ n → InRange result x }
    ensures plain { (p : Span) → NoWider s (range_of p) → NoWider result (range_of (span p.lo (int_min p.hi (n -ℤ pos 1)))) }
{
    match n.checked_sub(1) {
        Some(last) => Range {
            lo: s.lo,
            hi: min(s.hi, Ext::Fin(last)),
        },
        None => match s.lo {
            Ext::Low => s,
            Ext::Fin(_) => no_numbers(),
            Ext::High => no_numbers(),
        },
    }
}

// The numbers of the range that lie above n.
fn above_number(s: Range, n: i128) -> Range
    ensures holds { (x : ℤ) → InRange s x → n <ℤ x → InRange result x }
    ensures plain { (p : Span) → NoWider s (range_of p) → NoWider result (range_of (span (int_max p.lo (n +ℤ pos 1)) p.hi)) }
{
    match n.checked_add(1) {
        Some(first) => Range {
            lo: max(s.lo, Ext::Fin(first)),
            hi: s.hi,
        },
        None => match s.hi {
            Ext::High => s,
            Ext::Fin(_) => no_numbers(),
            Ext::Low => no_numbers(),
        },
    }
}

// The numbers of the range that lie below some number at or below the end.
fn below(s: Range, end: Ext) -> Range
    ensures holds { (x y : ℤ) → InRange s x → Above end y → x <ℤ y → InRange result x }
    ensures plain { (p : Span) (h : ℤ) → NoWider s (range_of p) → AtMost end (Fin h) → NoWider result (range_of (span p.lo (int_min p.hi (h -ℤ pos 1)))) }
{
    match end {
        Ext::Low => no_numbers(),
        Ext::Fin(n) => below_number(s, n),
        Ext::High => s,
    }
}

// The numbers of the range that lie above some number at or above the end.
fn above(s: Range, end: Ext) -> Range
    ensures holds { (x y : ℤ) → InRange s x → Below end y → y <ℤ x → InRange result x }
    ensures plain { (p : Span) (h : ℤ) → NoWider s (range_of p) → AtMost (Fin h) end → NoWider result (range_of (span (int_max p.lo (h +ℤ pos 1)) p.hi)) }
{
    match end {
        Ext::Low => s,
        Ext::Fin(n) => above_number(s, n),
        Ext::High => no_numbers(),
    }
}

/// The number that is the whole range.
pub fn number(r: Range) -> Option<i128>
    ensures some { IfSome result (λ n. IsPoint r n) }
    ensures none { IfNone result ((n : ℤ) → IsPoint r n → ⊥) }
{
    match (r.lo, r.hi) {
        (Ext::Fin(lo), Ext::Fin(hi)) if lo == hi => Some(lo),
        _ => None,
    }
}

// The numbers of the range other than n, where n is its least.
fn past_low(s: Range, n: i128) -> Range
    ensures holds { (x : ℤ) → InRange s x → (x ≡ n → ⊥) → InRange result x }
    ensures plain { (p : Span) → NoWider s (range_of p) → NoWider result (range_of (span (if int_eq p.lo n then p.lo +ℤ pos 1 else p.lo) p.hi)) }
    ensures inside { (p : Span) → NoWider s (range_of p) → NoWider result (range_of p) }
{
    if s.lo == Ext::Fin(n) {
        above_number(s, n)
    } else {
        s
    }
}

// The numbers of the range other than n, where n is its greatest.
fn past_high(s: Range, n: i128) -> Range
    ensures holds { (x : ℤ) → InRange s x → (x ≡ n → ⊥) → InRange result x }
    ensures plain { (p : Span) → NoWider s (range_of p) → NoWider result (range_of (span p.lo (if int_eq p.hi n then p.hi -ℤ pos 1 else p.hi))) }
    ensures inside { (p : Span) → NoWider s (range_of p) → NoWider result (range_of p) }
{
    if s.hi == Ext::Fin(n) {
        below_number(s, n)
    } else {
        s
    }
}

// The numbers of the range other than n, where n is an end.
fn apart_from(s: Range, n: i128) -> Range
    ensures holds { (x : ℤ) → InRange s x → (x ≡ n → ⊥) → InRange result x }
    ensures plain { (p : Span) → NoWider s (range_of p) → NoWider result (range_of (without n p)) }
    ensures inside { (p : Span) → NoWider s (range_of p) → NoWider result (range_of p) }
{
    past_high(past_low(s, n), n)
}

// The numbers of the first range that are not the number of the second, where that holds one alone.
fn apart(s: Range, t: Range) -> Range
    ensures holds { (x y : ℤ) → InRange s x → InRange t y → (x ≡ y → ⊥) → InRange result x }
    ensures plain { (p q : Span) → IsTrue (holds_some t) → NoWider s (range_of p) → NoWider t (range_of q) → NoWider result (range_of (cut other p q)) }
{
    match number(t) {
        Some(n) => apart_from(s, n),
        None => s,
    }
}

/// A range that holds the numbers of the first which stand so to some number of the second.
pub fn cut_range(how: Standing, s: Range, t: Range) -> Range
    ensures holds { (x y : ℤ) → InRange s x → InRange t y → Stands (standing_of how) x y → InRange result x }
    ensures plain { (p q : Span) → IsTrue (holds_some t) → NoWider s (range_of p) → NoWider t (range_of q)
        → NoWider result (range_of (cut (standing_of how) p q)) }
{
    match how {
        Standing::Less => below(s, t.hi),
        Standing::AtMost => Range {
            lo: s.lo,
            hi: min(s.hi, t.hi),
        },
        Standing::Greater => above(s, t.lo),
        Standing::AtLeast => Range {
            lo: max(s.lo, t.lo),
            hi: s.hi,
        },
        Standing::Same => Range {
            lo: max(s.lo, t.lo),
            hi: min(s.hi, t.hi),
        },
        Standing::Other => apart(s, t),
    }
}

// Whether the end is at or below 0.
fn at_most_zero(end: Ext) -> bool
    ensures { IsTrue result ↔ AtMost end (Fin (pos 0)) }
{
    match end {
        Ext::Low => true,
        Ext::Fin(n) => n <= 0,
        Ext::High => false,
    }
}

// Whether the end is at or above 0.
fn at_least_zero(end: Ext) -> bool
    ensures { IsTrue result ↔ AtMost (Fin (pos 0)) end }
{
    match end {
        Ext::Low => false,
        Ext::Fin(n) => n >= 0,
        Ext::High => true,
    }
}

/// Whether some number of the range may have this truth.
pub fn may_be(r: Range, truth: bool) -> bool
    ensures holds { (n : ℤ) → InRange r n → IsTrue (has_truth truth n) → IsTrue result }
    ensures point { (n : ℤ) → IsPoint r n → has_truth truth n ≡ false → result ≡ false }
    ensures plain { (s : Span) → NoWider r (range_of s) → IsTrue (excludes truth s) → result ≡ false }
{
    if truth {
        !at_least_zero(r.lo) || !at_most_zero(r.hi)
    } else {
        at_most_zero(r.lo) && at_least_zero(r.hi)
    }
}
