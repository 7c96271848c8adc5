// What operators give, with no check before them.
ghost use Rattle.std.specs.Prelude.{◌≡◌, ◌+ℤ◌, ℤ, true, neg_ℤ, FitsSigned, IfOk, is_err};
ghost use Rattle.std.specs.Int.{w128};
ghost use Rattle.std.specs.Option.{SomeIff};
ghost use Rattle.c_values.specs.Operators as operators;
ghost use Rattle.c_values.specs.Operators.{elements};
ghost use Rattle.c_values.specs.Typed.{TakesNumbers};
ghost use Rattle.csharp.specs.States.{if_taken, takes_right as is_taken};
ghost use Rattle.csharp_state.specs.Unheld as unheld;
ghost use Rattle.csharp_state.specs.Unheld.{is_no_offset, unheld_binary, unheld_unary};

use crate::error::Unheld;
use crate::numbers::{arithmetic_value, complement_of, left_value, negated, right_value};
use block_mem::{Pointer, Value};
use c_layout::wrap;
use c_syntax::{Arithmetic, Comparison, IntType, Shift, TBinaryOp, TUnaryOp};
use c_values::{bit, compare_pointers, compares, difference, truth};

/// What an operator gives on a value; none where the value is not of its type.
pub fn unary_value(op: TUnaryOp, v: Value) -> Result<Option<Value>, Unheld>
    ensures is { IfOk result (λ u. u ≡ operators.unary_result op v) }
    ensures unheld { is_err result ≡ unheld_unary op v }
{
    match v {
        Value::Int(_, n) => match op {
            TUnaryOp::Not => Ok(Some(bit(!truth(v)))),
            TUnaryOp::Plus(t) => Ok(Some(Value::Int(t, n))),
            TUnaryOp::Minus(t) => Ok(Some(Value::Int(t, wrap(t, negated(n)?)))),
            TUnaryOp::Complement(t) => Ok(Some(Value::Int(t, complement_of(t, n)))),
        },
        Value::Ptr(_) | Value::Null => match op {
            TUnaryOp::Not => Ok(Some(bit(!truth(v)))),
            TUnaryOp::Plus(_) | TUnaryOp::Minus(_) | TUnaryOp::Complement(_) => Ok(None),
        },
    }
}

// What an operator gives on two values, of which it takes the right one; none where one of them is not of
// its type.
fn binary_value(op: TBinaryOp, left: Value, right: Value) -> Result<Option<Value>, Unheld>
    requires { is_taken op right ≡ true }
    ensures is { IfOk result (λ v. v ≡ operators.binary_result op left right) }
    ensures unheld { is_err result ≡ unheld_binary op left right }
{
    match op {
        TBinaryOp::ComparePointers(comparison) => Ok(pointers_compared(comparison, left, right)),
        TBinaryOp::PointerPlusInt { element } => moved_on(left, element, right),
        TBinaryOp::IntPlusPointer { element } => moved_on(right, element, left),
        TBinaryOp::PointerMinusInt { element } => moved_back(left, element, right),
        TBinaryOp::PointerMinusPointer { element } => Ok(distance(element, left, right)),
        TBinaryOp::Arithmetic(_, _) | TBinaryOp::Shift(_, _) | TBinaryOp::CompareInts(_, _) =>
            number_value(op, left, right),
    }
}

/// What an operator gives on two values; none where one of them is not of its type, and where it does not
/// take the right one.
pub fn taken_value(op: TBinaryOp, left: Value, right: Value) -> Result<Option<Value>, Unheld>
    ensures is { IfOk result (λ v. v ≡ if_taken op (operators.binary_result op) left right) }
    ensures unheld { is_err result ≡ unheld.if_taken op (unheld_binary op) left right }
{
    if takes_right(op, right) {
        binary_value(op, left, right)
    } else {
        Ok(None)
    }
}

/// Whether an operator takes the right operand: a divisor other than 0, and an amount from 0 to below
/// the width.
pub fn takes_right(op: TBinaryOp, right: Value) -> bool
    ensures { result ≡ is_taken op right }
{
    match right {
        Value::Int(_, n) => match op {
            TBinaryOp::Arithmetic(Arithmetic::Divide | Arithmetic::Remainder, _) => n != 0,
            TBinaryOp::Shift(_, t) => 0 <= n && n < i128::from(t.width()),
            _ => true,
        },
        Value::Ptr(_) | Value::Null => true,
    }
}

// A pointer that is moved on by so many elements.
fn moved_on(place: Value, element: u64, count: Value) -> Result<Option<Value>, Unheld>
    ensures added { IfOk result (λ v. v ≡ operators.binary_result (TBinaryOp.PointerPlusInt element) place count) }
    ensures other_way { IfOk result (λ v. v ≡ operators.binary_result (TBinaryOp.IntPlusPointer element) count place) }
    ensures unheld { is_err result ≡ unheld_binary (TBinaryOp.PointerPlusInt element) place count }
    ensures unheld_other_way { is_err result ≡ unheld_binary (TBinaryOp.IntPlusPointer element) count place }
{
    match (place, count) {
        (Value::Ptr(at), Value::Int(_, n)) => Ok(Some(Value::Ptr(Pointer {
            block: at.block,
            offset: offset_on(at.offset, element, n)?,
        }))),
        (Value::Null, Value::Int(_, _)) => Ok(Some(Value::Null)),
        _ => Ok(None),
    }
}

// A pointer that is moved back by so many elements.
fn moved_back(place: Value, element: u64, count: Value) -> Result<Option<Value>, Unheld>
    ensures is { IfOk result (λ v. v ≡ operators.binary_result (TBinaryOp.PointerMinusInt element) place count) }
    ensures unheld { is_err result ≡ unheld_binary (TBinaryOp.PointerMinusInt element) place count }
{
    match (place, count) {
        (Value::Ptr(at), Value::Int(_, n)) => Ok(Some(Value::Ptr(Pointer {
            block: at.block,
            offset: offset_back(at.offset, element, n)?,
        }))),
        (Value::Null, Value::Int(_, _)) => Ok(Some(Value::Null)),
        _ => Ok(None),
    }
}

// The offset behind so many elements.
fn offset_on(offset: i64, element: u64, count: i128) -> Result<i64, Unheld>
    ensures is { IfOk result (λ n. n ≡ offset +ℤ elements element count) }
    ensures unheld { is_err result ≡ is_no_offset (offset +ℤ elements element count) }
{
    match i128::from(element).checked_mul(count) {
        Some(bytes) => offset_of(i128::from(offset).checked_add(bytes)),
        None => Err(Unheld),
    }
}

// The offset before so many elements.
fn offset_back(offset: i64, element: u64, count: i128) -> Result<i64, Unheld>
    ensures is { IfOk result (λ n. n ≡ offset +ℤ neg_ℤ (elements element count)) }
    ensures unheld { is_err result ≡ is_no_offset (offset +ℤ neg_ℤ (elements element count)) }
{
    match i128::from(element).checked_mul(count) {
        Some(bytes) => offset_of(i128::from(offset).checked_sub(bytes)),
        None => Err(Unheld),
    }
}

// An offset that a pointer of the code may have.
fn offset_of(exact: Option<i128>) -> Result<i64, Unheld>
    ensures is { (n : ℤ) → SomeIff exact (FitsSigned w128 n) n → IfOk result (λ offset. offset ≡ n) }
    ensures unheld { (n : ℤ) → SomeIff exact (FitsSigned w128 n) n → is_err result ≡ is_no_offset n }
{
    match exact {
        Some(n) if i128::from(i64::MIN) <= n && n <= i128::from(i64::MAX) => Ok(n as i64),
        _ => Err(Unheld),
    }
}

// A comparison of two pointers.
fn pointers_compared(comparison: Comparison, left: Value, right: Value) -> Option<Value>
    ensures { result ≡ operators.compare_pointers comparison left right }
{
    match (left, right) {
        (Value::Int(_, _), _) | (_, Value::Int(_, _)) => None,
        _ => Some(compare_pointers(comparison, left, right)),
    }
}

// How many elements lie between two pointers.
fn distance(element: u64, left: Value, right: Value) -> Option<Value>
    ensures { result ≡ operators.binary_result (TBinaryOp.PointerMinusPointer element) left right }
{
    match (left, right) {
        (Value::Ptr(p), Value::Ptr(q)) => Some(if element == 0 {
            Value::Int(IntType::Long, 0)
        } else {
            difference(element, p, q)
        }),
        _ => None,
    }
}

// An operator on two numbers; none where one of them is none.
fn number_value(op: TBinaryOp, left: Value, right: Value) -> Result<Option<Value>, Unheld>
    requires numbers { TakesNumbers op }
    requires taken { is_taken op right ≡ true }
    ensures is { IfOk result (λ v. v ≡ operators.binary_result op left right) }
    ensures unheld { is_err result ≡ unheld_binary op left right }
{
    match (left, right) {
        (Value::Int(_, a), Value::Int(_, b)) => match op {
            TBinaryOp::Arithmetic(op, t) => Ok(Some(arithmetic_value(op, t, a, b)?)),
            TBinaryOp::Shift(Shift::Left, t) => Ok(Some(left_value(t, a, b)?)),
            TBinaryOp::Shift(Shift::Right, t) => Ok(Some(right_value(t, a, b))),
            TBinaryOp::CompareInts(comparison, _) => Ok(Some(bit(compares(comparison, a, b)))),
            _ => unreachable!(),
        },
        _ => Ok(None),
    }
}
