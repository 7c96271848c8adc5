// Types and operators that are one.

ghost use Rattle.std.specs.Prelude.{◌≡◌};
ghost use Rattle.std.specs.Ordering.{int_eq};
ghost use Rattle.csharp.specs.SameExprs.{is_same_arithmetic, is_same_binary, is_same_comparison, is_same_shift, is_same_type, is_same_unary};
ghost use Rattle.c_syntax.specs.declared.operator.TBinaryOp.TheVariants.{Arithmetic as ArithmeticOp, Shift as ShiftOp, CompareInts, ComparePointers};

use c_syntax::{Arithmetic, Comparison, IntType, Shift, TBinaryOp, TUnaryOp};

// Whether two types are one.
pub fn same_type(a: IntType, b: IntType) -> bool
    ensures { result ≡ is_same_type a b }
{
    a == b
}

fn same_arithmetic(a: Arithmetic, b: Arithmetic) -> bool
    ensures { result ≡ is_same_arithmetic a b }
{
    a == b
}

fn same_shift(a: Shift, b: Shift) -> bool
    ensures { result ≡ is_same_shift a b }
{
    a == b
}

fn same_comparison(a: Comparison, b: Comparison) -> bool
    ensures { result ≡ is_same_comparison a b }
{
    a == b
}

// Whether two operators of one operand are one.
pub fn same_unary(a: TUnaryOp, b: TUnaryOp) -> bool
    ensures { result ≡ is_same_unary a b }
{
    match (a, b) {
        (TUnaryOp::Plus(t), TUnaryOp::Plus(u)) => same_type(t, u),
        (TUnaryOp::Minus(t), TUnaryOp::Minus(u)) => same_type(t, u),
        (TUnaryOp::Complement(t), TUnaryOp::Complement(u)) => same_type(t, u),
        (TUnaryOp::Not, TUnaryOp::Not) => true,
        (TUnaryOp::Plus(_), TUnaryOp::Minus(_) | TUnaryOp::Complement(_) | TUnaryOp::Not) => false,
        (TUnaryOp::Minus(_), TUnaryOp::Plus(_) | TUnaryOp::Complement(_) | TUnaryOp::Not) => false,
        (TUnaryOp::Complement(_), TUnaryOp::Plus(_) | TUnaryOp::Minus(_) | TUnaryOp::Not) => false,
        (TUnaryOp::Not, TUnaryOp::Plus(_) | TUnaryOp::Minus(_) | TUnaryOp::Complement(_)) => false,
    }
}

// Whether two operators of two operands are one.
pub fn same_binary(a: TBinaryOp, b: TBinaryOp) -> bool
    ensures { result ≡ is_same_binary a b }
{
    match a {
        TBinaryOp::Arithmetic(op, t) => is_arithmetic(b, op, t),
        TBinaryOp::Shift(way, t) => is_shift(b, way, t),
        TBinaryOp::CompareInts(op, t) => compares_ints(b, op, t),
        TBinaryOp::ComparePointers(op) => compares_pointers(b, op),
        TBinaryOp::PointerPlusInt { element } => match b {
            TBinaryOp::PointerPlusInt { element: other } => element == other,
            TBinaryOp::Arithmetic(_, _)
            | TBinaryOp::Shift(_, _)
            | TBinaryOp::CompareInts(_, _)
            | TBinaryOp::ComparePointers(_)
            | TBinaryOp::IntPlusPointer { .. }
            | TBinaryOp::PointerMinusInt { .. }
            | TBinaryOp::PointerMinusPointer { .. } => false,
        },
        TBinaryOp::IntPlusPointer { element } => match b {
            TBinaryOp::IntPlusPointer { element: other } => element == other,
            TBinaryOp::Arithmetic(_, _)
            | TBinaryOp::Shift(_, _)
            | TBinaryOp::CompareInts(_, _)
            | TBinaryOp::ComparePointers(_)
            | TBinaryOp::PointerPlusInt { .. }
            | TBinaryOp::PointerMinusInt { .. }
            | TBinaryOp::PointerMinusPointer { .. } => false,
        },
        TBinaryOp::PointerMinusInt { element } => match b {
            TBinaryOp::PointerMinusInt { element: other } => element == other,
            TBinaryOp::Arithmetic(_, _)
            | TBinaryOp::Shift(_, _)
            | TBinaryOp::CompareInts(_, _)
            | TBinaryOp::ComparePointers(_)
            | TBinaryOp::PointerPlusInt { .. }
            | TBinaryOp::IntPlusPointer { .. }
            | TBinaryOp::PointerMinusPointer { .. } => false,
        },
        TBinaryOp::PointerMinusPointer { element } => match b {
            TBinaryOp::PointerMinusPointer { element: other } => element == other,
            TBinaryOp::Arithmetic(_, _)
            | TBinaryOp::Shift(_, _)
            | TBinaryOp::CompareInts(_, _)
            | TBinaryOp::ComparePointers(_)
            | TBinaryOp::PointerPlusInt { .. }
            | TBinaryOp::IntPlusPointer { .. }
            | TBinaryOp::PointerMinusInt { .. } => false,
        },
    }
}

// Whether the operator is this one at this type.
fn is_arithmetic(b: TBinaryOp, op: Arithmetic, t: IntType) -> bool
    ensures { result ≡ is_same_binary (ArithmeticOp op t) b }
{
    match b {
        TBinaryOp::Arithmetic(other, u) => { same_arithmetic(op, other) && same_type(t, u) }
        TBinaryOp::Shift(_, _)
        | TBinaryOp::CompareInts(_, _)
        | TBinaryOp::ComparePointers(_)
        | TBinaryOp::PointerPlusInt { .. }
        | TBinaryOp::IntPlusPointer { .. }
        | TBinaryOp::PointerMinusInt { .. }
        | TBinaryOp::PointerMinusPointer { .. } => false,
    }
}

// Whether the operator is this shift at this type.
fn is_shift(b: TBinaryOp, way: Shift, t: IntType) -> bool
    ensures { result ≡ is_same_binary (ShiftOp way t) b }
{
    match b {
        TBinaryOp::Shift(other, u) => { same_shift(way, other) && same_type(t, u) }
        TBinaryOp::Arithmetic(_, _)
        | TBinaryOp::CompareInts(_, _)
        | TBinaryOp::ComparePointers(_)
        | TBinaryOp::PointerPlusInt { .. }
        | TBinaryOp::IntPlusPointer { .. }
        | TBinaryOp::PointerMinusInt { .. }
        | TBinaryOp::PointerMinusPointer { .. } => false,
    }
}

// Whether the operator is this comparison of integers of this type.
fn compares_ints(b: TBinaryOp, op: Comparison, t: IntType) -> bool
    ensures { result ≡ is_same_binary (CompareInts op t) b }
{
    match b {
        TBinaryOp::CompareInts(other, u) => { same_comparison(op, other) && same_type(t, u) }
        TBinaryOp::Arithmetic(_, _)
        | TBinaryOp::Shift(_, _)
        | TBinaryOp::ComparePointers(_)
        | TBinaryOp::PointerPlusInt { .. }
        | TBinaryOp::IntPlusPointer { .. }
        | TBinaryOp::PointerMinusInt { .. }
        | TBinaryOp::PointerMinusPointer { .. } => false,
    }
}

// Whether the operator is this comparison of pointers.
fn compares_pointers(b: TBinaryOp, op: Comparison) -> bool
    ensures { result ≡ is_same_binary (ComparePointers op) b }
{
    match b {
        TBinaryOp::ComparePointers(other) => same_comparison(op, other),
        TBinaryOp::Arithmetic(_, _)
        | TBinaryOp::Shift(_, _)
        | TBinaryOp::CompareInts(_, _)
        | TBinaryOp::PointerPlusInt { .. }
        | TBinaryOp::IntPlusPointer { .. }
        | TBinaryOp::PointerMinusInt { .. }
        | TBinaryOp::PointerMinusPointer { .. } => false,
    }
}

// Whether two numbers are one.
pub fn same_number(a: &i128, b: &i128) -> bool
    ensures { result ≡ int_eq a.now b.now }
{
    *a == *b
}
