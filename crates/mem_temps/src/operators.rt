// Ranges of what C's operators give on values.

ghost use Rattle.std.specs.Prelude.{◌≡◌, ◌≢◌, ◌-ℤ◌, ◌*ℤ◌, ℤ, pos, IsTrue, ◌↔◌};
ghost use Rattle.c_syntax_written.specs.Integer.{width};
ghost use Rattle.c_syntax.specs.declared.operator.Arithmetic.TheVariants.{Multiply};
ghost use Rattle.c_syntax.specs.declared.operator.TBinaryOp.TheVariants.{ComparePointers};
ghost use Rattle.num_api.specs.Ranges.{InRange, IsPoint};
ghost use Rattle.num_api.specs.Spans.{span, range_of};
ghost use Rattle.plain_runs.specs.Numbers.{number_op, shift_op};
ghost use Rattle.mem_temps.specs.Products.{HoldsLike, IsPointLike};
ghost use Rattle.mem_temps.specs.Operators.{LiesIn, IsArithmetic, IsShifted, IsComplement, IsTest, IsTestRange, IsCompared, IsUnary, IsBinary};

use c_layout::wrap;
use c_syntax::{Arithmetic, Comparison, IntType, Shift, TBinaryOp, TUnaryOp};
use ext_int::Ext;
use machine_nums::{lies_in, meet, type_range, typed_range, unary_range, wrap_range};
use num_api::{NOp, Range};

// The operator on whole numbers whose wrapped results are those of C's.
fn number_operator(op: Arithmetic) -> NOp
    ensures { result ≡ number_op op }
{
    match op {
        Arithmetic::Multiply => NOp::Mul,
        Arithmetic::Divide => NOp::Quot,
        Arithmetic::Remainder => NOp::Rem,
        Arithmetic::Add => NOp::Add,
        Arithmetic::Subtract => NOp::Sub,
        Arithmetic::BitAnd => NOp::And,
        Arithmetic::BitXor => NOp::Xor,
        Arithmetic::BitOr => NOp::Or,
    }
}

fn shift_operator(way: Shift) -> NOp
    ensures { result ≡ shift_op way }
{
    match way {
        Shift::Left => NOp::Shl,
        Shift::Right => NOp::Shr,
    }
}

// Products at a type. Where not all exact ones are of the type, they are taken up to multiples of 2^64.
fn product_range(t: IntType, r: Range, s: Range) -> Range
    ensures { IsArithmetic Multiply t r s result }
{
    let exact = typed_range(NOp::Mul, t, r, s);
    if lies_in(exact, t) {
        return exact;
    }
    wrap_range(like_product(r, s), t).range
}

// A range that holds the products up to multiples of 2^64, by the numbers of long long that the factors are
// up to such multiples.
fn like_product(r: Range, s: Range) -> Range
    ensures holds { (x y : ℤ) → InRange r x → InRange s y → HoldsLike result (x *ℤ y) }
    ensures point { (x y : ℤ) → IsPoint r x → IsPoint s y → IsPointLike result (x *ℤ y) }
{
    let a = wrap_range(r, IntType::LLong).range;
    let b = wrap_range(s, IntType::LLong).range;
    typed_range(NOp::Mul, IntType::LLong, a, b)
}

// What the other operators make of numbers of the type.
fn result_range(op: Arithmetic, t: IntType, r: Range, s: Range) -> Range
    requires left { LiesIn t r }
    requires right { LiesIn t s }
    requires other { op ≢ Multiply }
    ensures { IsArithmetic op t r s result }
{
    wrap_range(typed_range(number_operator(op), t, r, s), t).range
}

/// What an arithmetic operator makes of two ranges at a type.
pub fn arithmetic_range(op: Arithmetic, t: IntType, r: Range, s: Range) -> Range
    ensures { IsArithmetic op t r s result }
{
    if op == Arithmetic::Multiply {
        return product_range(t, r, s);
    }
    if !lies_in(r, t) {
        return type_range(t);
    }
    if !lies_in(s, t) {
        return type_range(t);
    }
    result_range(op, t, r, s)
}

// The numbers that a shift at the type takes for its amount.
pub fn amounts(t: IntType) -> Range
    ensures { result ≡ range_of (span (pos 0) (pos (width t) -ℤ pos 1)) }
{
    let greatest = match t {
        IntType::Char | IntType::SChar | IntType::UChar => 7,
        IntType::Short | IntType::UShort => 15,
        IntType::Int | IntType::UInt => 31,
        IntType::Long | IntType::ULong | IntType::LLong | IntType::ULLong => 63,
    };
    Range {
        lo: Ext::Fin(0),
        hi: Ext::Fin(greatest),
    }
}

/// What a shift makes of two ranges at a type, of amounts from 0 to below the width.
pub fn shift_range(way: Shift, t: IntType, r: Range, s: Range) -> Range
    ensures { IsShifted way t r s result }
{
    if !lies_in(r, t) {
        return Range::all();
    }
    let amounts = meet(s, amounts(t));
    wrap_range(typed_range(shift_operator(way), t, r, amounts), t).range
}

/// The numbers of the range at a type with each bit turned.
pub fn complement_range(t: IntType, r: Range) -> Range
    ensures { IsComplement t r result }
{
    if !lies_in(r, t) {
        return type_range(t);
    }
    let ones = Range::point(wrap(t, -1));
    wrap_range(typed_range(NOp::Xor, t, r, ones), t).range
}

// 1 where the test of two numbers holds, and else 0.
fn test_range(op: NOp, r: Range, s: Range) -> Range
    requires { IsTest op }
    ensures { IsTestRange op r s result }
{
    wrap_range(typed_range(op, IntType::Int, r, s), IntType::Int).range
}

/// 1 where the comparison of two numbers of the ranges holds, and else 0.
pub fn comparison_range(c: Comparison, r: Range, s: Range) -> Range
    ensures { IsCompared c r s result }
{
    match c {
        Comparison::Less => test_range(NOp::Lt, r, s),
        Comparison::Greater => test_range(NOp::Lt, s, r),
        Comparison::AtMost => test_range(NOp::Le, r, s),
        Comparison::AtLeast => test_range(NOp::Le, s, r),
        Comparison::Equal => test_range(NOp::Eq, r, s),
        Comparison::Unequal => test_range(NOp::Ne, r, s),
    }
}

/// Whether the range is 0 alone.
pub fn is_zero(r: Range) -> bool
    ensures { IsTrue result ↔ IsPoint r (pos 0) }
{
    r.lo == Ext::Fin(0) && r.hi == Ext::Fin(0)
}

// 0 and 1.
fn either() -> Range
    ensures { result ≡ range_of (span (pos 0) (pos 1)) }
{
    Range {
        lo: Ext::Fin(0),
        hi: Ext::Fin(1),
    }
}

// A comparison of pointers of which it is known at most whether they are null.
fn pointer_range(c: Comparison, r: Range, s: Range) -> Range
    ensures { IsBinary (ComparePointers c) r s result }
{
    if !is_zero(r) {
        return either();
    }
    if !is_zero(s) {
        return either();
    }
    comparison_range(c, r, s)
}

/// The value of an operator of one operand, whose value is in the range.
pub fn unary_value(op: TUnaryOp, r: Range) -> Range
    ensures { IsUnary op r result }
{
    match op {
        TUnaryOp::Plus(_) => r,
        TUnaryOp::Minus(t) => wrap_range(unary_range(NOp::Neg, r), t).range,
        TUnaryOp::Complement(t) => complement_range(t, r),
        TUnaryOp::Not => wrap_range(unary_range(NOp::Not, r), IntType::Int).range,
    }
}

/// The value of an operator of two operands, whose values are in the ranges. A pointer that is moved stays
/// null, or stays what is not null.
pub fn binary_value(op: TBinaryOp, r: Range, s: Range) -> Range
    ensures { IsBinary op r s result }
{
    match op {
        TBinaryOp::Arithmetic(op, t) => arithmetic_range(op, t, r, s),
        TBinaryOp::Shift(way, t) => shift_range(way, t, r, s),
        TBinaryOp::CompareInts(c, _) => comparison_range(c, r, s),
        TBinaryOp::ComparePointers(c) => pointer_range(c, r, s),
        TBinaryOp::PointerPlusInt { .. } | TBinaryOp::PointerMinusInt { .. } => r,
        TBinaryOp::IntPlusPointer { .. } => s,
        TBinaryOp::PointerMinusPointer { .. } => type_range(IntType::Long),
    }
}
