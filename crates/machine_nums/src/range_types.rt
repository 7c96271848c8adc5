// The numbers of C's integer types as ranges.

ghost use Rattle.std.specs.Prelude.{◌≡◌, ◌^◌, ◌-◌, ◌≤ℤ◌, ◌<ℤ◌, ℤ, pos, true, false, IsTrue, ◌↔◌};
ghost use Rattle.std.specs.Int.RustNames.{FitsSigned};
ghost use mir.Syntax.{w128};
ghost use Rattle.ext_int.specs.Ext.{AtMost};
ghost use Rattle.c_syntax_written.specs.Integer.{width, greatest};
ghost use Rattle.num_api.specs.Ranges.{InRange, NoWider, holds_some};
ghost use Rattle.num_api.specs.Spans.{Span, range_of};
ghost use Rattle.machine_nums.specs.Rule.{type_span};

use c_syntax_written::IntType;
use ext_int::{Ext, max, min};
use num_api::Range;

/// The numbers of the type.
pub fn type_range(t: IntType) -> Range
    ensures value { result ≡ range_of (type_span t) }
    ensures some { IsTrue (holds_some result) }
{
    Range {
        lo: Ext::Fin(t.least()),
        hi: Ext::Fin(i128::from(t.greatest())),
    }
}

/// The number whose bits are the low ones, as many as the type has.
pub fn mask(t: IntType) -> i128
    ensures { result ≡ pos (2 ^ width t - 1) }
{
    match t {
        IntType::Char | IntType::SChar | IntType::UChar => 0xff,
        IntType::Short | IntType::UShort => 0xffff,
        IntType::Int | IntType::UInt => 0xffff_ffff,
        IntType::Long | IntType::ULong | IntType::LLong | IntType::ULLong => 0xffff_ffff_ffff_ffff,
    }
}

// Whether the number is above all numbers of the type.
pub fn is_above(n: i128, t: IntType) -> bool
    ensures above { result ≡ true → pos (greatest t) <ℤ n }
    ensures not { result ≡ false → n ≤ℤ pos (greatest t) }
{
    n > i128::from(t.greatest())
}

// Whether the first end is at or below the second.
fn at_most(a: Ext, b: Ext) -> bool
    ensures { IsTrue result ↔ AtMost a b }
{
    match (a, b) {
        (Ext::Low, _) | (_, Ext::High) => true,
        (Ext::Fin(x), Ext::Fin(y)) => x <= y,
        _ => false,
    }
}

/// Whether both ends lie between the least and the greatest number of the type.
pub fn lies_in(r: Range, t: IntType) -> bool
    ensures { IsTrue result ↔ NoWider r (range_of (type_span t)) }
{
    at_most(Ext::Fin(t.least()), r.lo) && at_most(r.hi, Ext::Fin(i128::from(t.greatest())))
}

/// The numbers of both ranges.
pub fn meet(r: Range, s: Range) -> Range
    ensures holds { (n : ℤ) → InRange r n → InRange s n → InRange result n }
    ensures first { NoWider result r }
    ensures second { NoWider result s }
{
    Range {
        lo: max(r.lo, s.lo),
        hi: min(r.hi, s.hi),
    }
}

// Whether the range has no end that is missing, so that all its numbers are `i128`s.
pub fn is_bounded(r: Range) -> bool
    ensures fits { result ≡ true → (n : ℤ) → InRange r n → FitsSigned w128 n }
    ensures not { result ≡ false → (s : Span) → NoWider r (range_of s) → ⊥ }
{
    match (r.lo, r.hi) {
        (Ext::Low, _) | (_, Ext::High) => false,
        (Ext::Fin(_), Ext::Fin(_)) => true,
        _ => true,
    }
}
