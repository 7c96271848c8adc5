// Ranges of what operators give.

ghost use Rattle.std.specs.Prelude.{◌≡◌, ℤ, pos, true, false, Some};
ghost use Rattle.std.specs.Int.RustNames.{FitsSigned};
ghost use mir.Syntax.{w128};
ghost use Rattle.num_api.specs.Ranges.{InRange, IsPoint, NoWider};
ghost use Rattle.num_api.specs.Spans.{Span, FitsSpan, IsNotByZero, range_of, unary_span, binary_span};
ghost use Rattle.num_api.specs.Value.{unary_value, binary_value};
ghost use Rattle.num_api.specs.declared.expr.NOp.TheVariants.{Quot, Shr};
ghost use Rattle.c_syntax_written.specs.declared.int_type.IntType.{IntType as CType};
ghost use Rattle.intervals.specs.Bits.{IsLogical};
ghost use Rattle.intervals.specs.Interval.{Admits, ends_of};
ghost use Rattle.machine_nums.specs.Rule.{type_span, typed_span};

use crate::range_types::{lies_in, meet, type_range};
use c_syntax_written::IntType;
use ext_int::Ext;
use intervals::Interval;
use num_api::{NOp, Range, ValueDomain, no_numbers};

/// What an operator of one operand makes of the numbers of the range. On points it is exact.
pub fn unary_range(op: NOp, r: Range) -> Range
    ensures holds { (x n : ℤ) → InRange r x → unary_value op x ≡ Some n → InRange result n }
    ensures point { (x n : ℤ) → IsPoint r x → unary_value op x ≡ Some n → FitsSigned w128 n → IsPoint result n }
    ensures plain { (s u : Span) → NoWider r (range_of s) → FitsSpan s → unary_span op s ≡ Some u → FitsSpan u → NoWider result (range_of u) }
{
    match Interval::within(r) {
        Some(a) => Interval::unary(op, &a).range(),
        None => no_numbers(),
    }
}

// Whether the operator is a quotient, and its divisor is 0.
fn divides_by_zero(op: NOp, divisor: Range) -> bool
    ensures yes { result ≡ true → (op ≡ Quot) × IsPoint divisor (pos 0) }
    ensures no { result ≡ false → IsNotByZero op divisor }
{
    match op {
        NOp::Quot => divisor.lo == Ext::Fin(0) && divisor.hi == Ext::Fin(0),
        _ => false,
    }
}

// What an operator makes of two intervals; of a quotient by 0 alone, nothing.
fn of_intervals(op: NOp, a: &Interval, b: &Interval) -> Range
    ensures holds { (x y n : ℤ) → Admits a.now x → Admits b.now y → binary_value op x y ≡ Some n → InRange result n }
    ensures point { (x y n : ℤ) → IsPoint (ends_of a.now) x → IsPoint (ends_of b.now) y → binary_value op x y ≡ Some n → FitsSigned w128 n → IsPoint result n }
    ensures plain { (p q u : Span) → NoWider (ends_of a.now) (range_of p) → FitsSpan p → NoWider (ends_of b.now) (range_of q) → FitsSpan q
        → binary_span op p q ≡ Some u → FitsSpan u → NoWider result (range_of u) }
    ensures bits { (t : CType) → IsLogical op → NoWider (ends_of a.now) (range_of (type_span t)) → NoWider (ends_of b.now) (range_of (type_span t))
        → NoWider result (range_of (type_span t)) }
{
    let divisor = b.range();
    if divides_by_zero(op, divisor) {
        no_numbers()
    } else {
        Interval::binary(op, a, b).range()
    }
}

/// What an operator of two operands makes of the numbers of both ranges; of a quotient by 0 alone, nothing.
/// On points it is exact.
pub fn binary_range(op: NOp, r: Range, s: Range) -> Range
    ensures holds { (x y n : ℤ) → InRange r x → InRange s y → binary_value op x y ≡ Some n → InRange result n }
    ensures point { (x y n : ℤ) → IsPoint r x → IsPoint s y → binary_value op x y ≡ Some n → FitsSigned w128 n → IsPoint result n }
    ensures plain { (p q u : Span) → NoWider r (range_of p) → FitsSpan p → NoWider s (range_of q) → FitsSpan q → binary_span op p q ≡ Some u
        → FitsSpan u → NoWider result (range_of u) }
    ensures bits { (t : CType) → IsLogical op → NoWider r (range_of (type_span t)) → NoWider s (range_of (type_span t))
        → NoWider result (range_of (type_span t)) }
{
    let Some(a) = Interval::within(r) else {
        return no_numbers();
    };
    let Some(b) = Interval::within(s) else {
        return no_numbers();
    };
    of_intervals(op, &a, &b)
}

// The same of a shift to the right, which leaves numbers of the type there.
fn shifted_range(t: IntType, r: Range, s: Range) -> Range
    ensures holds { (x y n : ℤ) → InRange r x → InRange s y → binary_value Shr x y ≡ Some n → InRange result n }
    ensures point { (x y n : ℤ) → IsPoint r x → IsPoint s y → binary_value Shr x y ≡ Some n → FitsSigned w128 n → IsPoint result n }
    ensures plain { (p q u : Span) → NoWider r (range_of p) → FitsSpan p → NoWider s (range_of q) → FitsSpan q → binary_span Shr p q ≡ Some u
        → FitsSpan u → NoWider result (range_of u) }
    ensures stays { NoWider r (range_of (type_span t)) → NoWider result (range_of (type_span t)) }
{
    let found = binary_range(NOp::Shr, r, s);
    if lies_in(r, t) {
        meet(found, type_range(t))
    } else {
        found
    }
}

/// The same at a type: a shift of a number of the type to the right is one too.
pub fn typed_range(op: NOp, t: IntType, r: Range, s: Range) -> Range
    ensures holds { (x y n : ℤ) → InRange r x → InRange s y → binary_value op x y ≡ Some n → InRange result n }
    ensures point { (x y n : ℤ) → IsPoint r x → IsPoint s y → binary_value op x y ≡ Some n → FitsSigned w128 n → IsPoint result n }
    ensures plain { (p q u : Span) → NoWider r (range_of p) → FitsSpan p → NoWider s (range_of q) → FitsSpan q → typed_span op t p q ≡ Some u → FitsSpan u
        → NoWider result (range_of u) }
{
    match op {
        NOp::Shr => shifted_range(t, r, s),
        _ => binary_range(op, r, s),
    }
}
