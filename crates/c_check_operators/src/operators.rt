// Operators on constants: each gives a number where nothing goes wrong.
#![tactic(auto, using(c_syntax::proofs::TypeTrees::type_trees))]

ghost use Rattle.std.specs.Prelude.{◌≡◌, ◌&&◌, ◌||◌};
ghost use Rattle.c_syntax.specs.Types.{ctype_tree};
ghost use Rattle.c_syntax.specs.Types as types;
ghost use Rattle.c_typing.specs.Constants as constants;
ghost use Rattle.c_values.specs.Answers.{Answers};
ghost use Rattle.c_values.specs.Looks.{Outcome};

use block_mem::Value;
use c_layout::wrap;
use c_syntax::{Arithmetic, CType, Comparison, IntType, Shift, TBinaryOp, TUnaryOp};
use c_values::{Wrong, arithmetic, compares, complement, negate, shift};

/// An operator on the value of an operand of this type.
pub(crate) fn unary_constant(op: TUnaryOp, ty: &CType, value: Option<i128>) -> Option<i128>
    ensures { result ≡ constants.unary_constant op (ctype_tree ty.now) value }
{
    match value {
        None => None,
        Some(n) => match ty {
            CType::Int(t) => integer_unary(op, *t, n),
            CType::Void
            | CType::Pointer(_)
            | CType::Array(_, _)
            | CType::Struct(_)
            | CType::Function(_) => None,
        },
    }
}

// An operator on a number of type `t`, where it has no type of its own.
fn integer_unary(op: TUnaryOp, t: IntType, n: i128) -> Option<i128>
    ensures { result ≡ constants.integer_unary op (constants.operand_at op t) n }
{
    match op {
        TUnaryOp::Plus(at) => Some(wrap(at, n)),
        TUnaryOp::Minus(at) => number_given(negate(at, wrap(at, n))),
        TUnaryOp::Complement(at) => Some(complement(at, wrap(at, n))),
        TUnaryOp::Not => Some(truth_value(wrap(t, n) == 0)),
    }
}

/// An operator on two values, of operands of these types.
pub(crate) fn binary_constant(
    op: TBinaryOp,
    left: &CType,
    right: &CType,
    a: Option<i128>,
    b: Option<i128>,
) -> Option<i128>
    ensures { result ≡ constants.binary_constant op (ctype_tree left.now) (ctype_tree right.now) a b }
{
    match a {
        None => None,
        Some(a) => match b {
            None => None,
            Some(b) => numbers_constant(op, left, right, a, b),
        },
    }
}

// An operator on two numbers, of operands of these types.
fn numbers_constant(op: TBinaryOp, left: &CType, right: &CType, a: i128, b: i128) -> Option<i128>
    ensures { result ≡ constants.binary_constant op (ctype_tree left.now) (ctype_tree right.now) (Some a) (Some b) }
{
    match left {
        CType::Int(_) => match right {
            CType::Int(u) => integer_binary(op, *u, a, b),
            CType::Void
            | CType::Pointer(_)
            | CType::Array(_, _)
            | CType::Struct(_)
            | CType::Function(_) => None,
        },
        CType::Void
        | CType::Pointer(_)
        | CType::Array(_, _)
        | CType::Struct(_)
        | CType::Function(_) => None,
    }
}

// An operator on two numbers, where the amount of a shift is of type `u`.
fn integer_binary(op: TBinaryOp, u: IntType, a: i128, b: i128) -> Option<i128>
    ensures { (t : IntType) → result ≡ constants.integer_binary op (constants.left_at op t) (constants.right_at op u) a b }
{
    match op {
        TBinaryOp::Arithmetic(op, t) => number_given(arithmetic(op, t, wrap(t, a), wrap(t, b))),
        TBinaryOp::Shift(way, t) => number_given(shift(way, t, wrap(t, a), wrap(u, b))),
        TBinaryOp::CompareInts(op, t) => Some(truth_value(compares(op, wrap(t, a), wrap(t, b)))),
        TBinaryOp::ComparePointers(_)
        | TBinaryOp::PointerPlusInt { .. }
        | TBinaryOp::IntPlusPointer { .. }
        | TBinaryOp::PointerMinusInt { .. }
        | TBinaryOp::PointerMinusPointer { .. } => None,
    }
}

// The number that an operator gives, where it does not go wrong.
fn number_given(answer: Result<Value, Wrong>) -> Option<i128>
    ensures { (o : Outcome) → Answers answer o → result ≡ constants.number_given o }
{
    match answer {
        Ok(Value::Int(_, n)) => Some(n),
        Ok(Value::Ptr(_)) => None,
        Ok(Value::Null) => None,
        Err(_) => None,
    }
}

fn truth_value(b: bool) -> i128
    ensures { result ≡ constants.truth_value b }
{
    if b { 1 } else { 0 }
}

/// A conversion to a type, which gives a number where that is an integer type (C11 6.3.1.3).
pub(crate) fn converted_constant(ty: &CType, value: Option<i128>) -> Option<i128>
    ensures { result ≡ constants.converted_constant (ctype_tree ty.now) value }
{
    match ty {
        CType::Int(t) => match value {
            None => None,
            Some(n) => Some(wrap(*t, n)),
        },
        CType::Void
        | CType::Pointer(_)
        | CType::Array(_, _)
        | CType::Struct(_)
        | CType::Function(_) => None,
    }
}

/// `&&`
pub(crate) fn and_constant(a: Option<i128>, b: Option<i128>) -> Option<i128>
    ensures { result ≡ constants.logical_constant (λ x y. x && y) a b }
{
    match a {
        None => None,
        Some(a) => match b {
            None => None,
            Some(b) => Some(truth_value(a != 0 && b != 0)),
        },
    }
}

/// `||`
pub(crate) fn or_constant(a: Option<i128>, b: Option<i128>) -> Option<i128>
    ensures { result ≡ constants.logical_constant (λ x y. x || y) a b }
{
    match a {
        None => None,
        Some(a) => match b {
            None => None,
            Some(b) => Some(truth_value(a != 0 || b != 0)),
        },
    }
}

/// `?:` of this type, whose three parts are constant.
pub(crate) fn chosen_constant(
    ty: &CType,
    test: Option<i128>,
    a: Option<i128>,
    b: Option<i128>,
) -> Option<i128>
    ensures { result ≡ constants.chosen_constant (ctype_tree ty.now) test a b }
{
    match ty {
        CType::Int(_) => chosen(test, a, b),
        CType::Void
        | CType::Pointer(_)
        | CType::Array(_, _)
        | CType::Struct(_)
        | CType::Function(_) => None,
    }
}

// The part that the test chooses, where all three are constant.
fn chosen(test: Option<i128>, a: Option<i128>, b: Option<i128>) -> Option<i128>
    ensures { (t : IntType) → result ≡ constants.chosen_constant (types.Int t) test a b }
{
    match test {
        None => None,
        Some(test) => match a {
            None => None,
            Some(a) => match b {
                None => None,
                Some(b) => Some(if test != 0 { a } else { b }),
            },
        },
    }
}
