// Numbers, with no check before them.
ghost use Rattle.std.specs.Prelude.{◌≡◌, ◌||◌, ◌+ℤ◌, ◌*ℤ◌, ◌-ℤ◌, ◌≤ℤ◌, ◌<ℤ◌, ◌^◌, ℤ, pos, neg_ℤ, true, FitsSigned, IfOk, int_div, is_err, nat_abs};
ghost use Rattle.std.specs.Int.{w128};
ghost use Rattle.std.specs.Option.{SomeIff};
ghost use Rattle.c_syntax_written.specs.Integer.{HasNumber, wrapped};
ghost use Rattle.c_syntax_written.specs.declared.int_type.IntType.{IntType};
ghost use Rattle.c_values.specs.Numbers as numbers;
ghost use Rattle.c_values.specs.Operators.{elements};
ghost use Rattle.csharp_state.specs.Unheld as unheld;
ghost use Rattle.csharp_state.specs.Unheld.{is_no_number, unheld_arithmetic, wraps_past};

use crate::error::Unheld;
use block_mem::Value;
use c_layout::wrap;
use c_syntax::{Arithmetic, IntType, Shift};
use c_values::arithmetic;

// An exact number, where an `i128` holds it.
fn held(exact: Option<i128>) -> Result<i128, Unheld>
    ensures is { (n : ℤ) → SomeIff exact (FitsSigned w128 n) n → IfOk result (λ m. m ≡ n) }
    ensures unheld { (n : ℤ) → SomeIff exact (FitsSigned w128 n) n → is_err result ≡ is_no_number n }
{
    match exact {
        Some(n) => Ok(n),
        None => Err(Unheld),
    }
}

/// The type has the number.
pub fn has_number(t: IntType, n: i128) -> bool
    ensures test { result ≡ unheld.has_number t n }
    ensures has { result ≡ true → HasNumber t n }
{
    t.least() <= n && n <= i128::from(t.greatest())
}

fn product(a: i128, b: i128) -> Result<i128, Unheld>
    ensures is { IfOk result (λ n. n ≡ a *ℤ b) }
    ensures unheld { is_err result ≡ is_no_number (a *ℤ b) }
{
    held(a.checked_mul(b))
}

fn sum(a: i128, b: i128) -> Result<i128, Unheld>
    ensures is { IfOk result (λ n. n ≡ a +ℤ b) }
    ensures unheld { is_err result ≡ is_no_number (a +ℤ b) }
{
    held(a.checked_add(b))
}

fn difference(a: i128, b: i128) -> Result<i128, Unheld>
    ensures is { IfOk result (λ n. n ≡ a -ℤ b) }
    ensures unheld { is_err result ≡ is_no_number (a -ℤ b) }
{
    held(a.checked_sub(b))
}

/// The offset behind so many elements, wherever it is.
pub fn offset_behind(offset: i64, element: u64, count: i128) -> Result<i128, Unheld>
    ensures is { IfOk result (λ n. n ≡ offset +ℤ elements element count) }
    ensures unheld { is_err result ≡ (is_no_number (elements element count) || is_no_number (offset +ℤ elements element count)) }
{
    sum(i128::from(offset), product(i128::from(element), count)?)
}

/// The offset before so many elements, wherever it is.
pub fn offset_before(offset: i64, element: u64, count: i128) -> Result<i128, Unheld>
    ensures is { IfOk result (λ n. n ≡ offset +ℤ neg_ℤ (elements element count)) }
    ensures unheld { is_err result ≡ (is_no_number (elements element count) || is_no_number (offset +ℤ neg_ℤ (elements element count))) }
{
    difference(i128::from(offset), product(i128::from(element), count)?)
}

// A quotient that is cut towards zero. By 0 it is 0.
fn quotient(a: i128, b: i128) -> Result<i128, Unheld>
    ensures is { IfOk result (λ n. n ≡ int_div a b) }
    ensures unheld { is_err result ≡ is_no_number (int_div a b) }
{
    if b == 0 {
        return Ok(0);
    }
    match a.checked_div(b) {
        Some(quotient) => Ok(quotient),
        None => Err(Unheld),
    }
}

// What is left of a dividend. By 0 it is left whole.
fn remainder(a: i128, b: i128) -> Result<i128, Unheld>
    ensures is { IfOk result (λ n. n ≡ numbers.remainder a b) }
    ensures unheld { is_err result ≡ is_no_number (int_div a b) }
{
    if b == 0 {
        return Ok(a);
    }
    match a.checked_rem(b) {
        Some(rest) => Ok(rest),
        None => Err(Unheld),
    }
}

/// The exact number at which the checks of an operator look.
pub fn exact_arithmetic(op: Arithmetic, a: i128, b: i128) -> Result<i128, Unheld>
    ensures is { IfOk result (λ n. n ≡ numbers.exact_arithmetic op a b) }
    ensures unheld { is_err result ≡ is_no_number (numbers.exact_arithmetic op a b) }
{
    match op {
        Arithmetic::Multiply => product(a, b),
        Arithmetic::Divide | Arithmetic::Remainder => quotient(a, b),
        Arithmetic::Add => sum(a, b),
        Arithmetic::Subtract => difference(a, b),
        Arithmetic::BitAnd | Arithmetic::BitXor | Arithmetic::BitOr => Ok(0),
    }
}

/// The number that an operator gives at a type.
pub fn arithmetic_value(op: Arithmetic, t: IntType, a: i128, b: i128) -> Result<Value, Unheld>
    ensures is { IfOk result (λ v. v ≡ Value.Int t (numbers.arithmetic op t a b)) }
    ensures unheld { is_err result ≡ unheld_arithmetic op t a b }
{
    match before_wrapping(op, a, b) {
        Ok(exact) => Ok(Value::Int(t, wrap(t, exact))),
        Err(_) => typed_value(op, t, a, b),
    }
}

// What is wrapped to the type. An operator on bits has only its value at the type.
fn before_wrapping(op: Arithmetic, a: i128, b: i128) -> Result<i128, Unheld>
    ensures is { IfOk result (λ n. (t : IntType) → numbers.arithmetic op t a b ≡ wrapped t n) }
    ensures unheld { is_err result ≡ wraps_past op a b }
{
    match op {
        Arithmetic::Multiply => product(a, b),
        Arithmetic::Divide => quotient(a, b),
        Arithmetic::Remainder => remainder(a, b),
        Arithmetic::Add => sum(a, b),
        Arithmetic::Subtract => difference(a, b),
        Arithmetic::BitAnd | Arithmetic::BitXor | Arithmetic::BitOr => Err(Unheld),
    }
}

// The number that an operator gives on numbers of its type, where what it wraps is no `i128`.
fn typed_value(op: Arithmetic, t: IntType, a: i128, b: i128) -> Result<Value, Unheld>
    requires { wraps_past op a b ≡ true }
    ensures is { IfOk result (λ v. v ≡ Value.Int t (numbers.arithmetic op t a b)) }
    ensures unheld { is_err result ≡ unheld_arithmetic op t a b }
{
    if has_number(t, a) && has_number(t, b) {
        match arithmetic(op, t, a, b) {
            Ok(v) => Ok(v),
            Err(_) => unreachable!(),
        }
    } else {
        Err(Unheld)
    }
}

// 2 to the power of an amount that is one of some width.
fn power(amount: i128) -> i128
    requires low { pos 0 ≤ℤ amount }
    requires high { amount <ℤ pos 64 }
    ensures is { result ≡ pos (2 ^ nat_abs amount) }
    ensures some { pos 0 <ℤ result }
{
    let places = amount.unsigned_abs();
    1i128 << (places as u32)
}

/// The exact number of a shift to the left by an amount of some width.
pub fn exact_shift(a: i128, amount: i128) -> Result<i128, Unheld>
    requires low { pos 0 ≤ℤ amount }
    requires high { amount <ℤ pos 64 }
    ensures is { IfOk result (λ n. n ≡ numbers.exact_shift a amount) }
    ensures unheld { is_err result ≡ is_no_number (numbers.exact_shift a amount) }
{
    product(a, power(amount))
}

/// The number that a shift by an amount of some width gives at a type: to the left from the exact number.
pub fn left_value(t: IntType, a: i128, amount: i128) -> Result<Value, Unheld>
    requires low { pos 0 ≤ℤ amount }
    requires high { amount <ℤ pos 64 }
    ensures is { IfOk result (λ v. v ≡ Value.Int t (numbers.shifted Shift.Left t a amount)) }
    ensures unheld { is_err result ≡ is_no_number (numbers.exact_shift a amount) }
{
    Ok(Value::Int(t, wrap(t, exact_shift(a, amount)?)))
}

/// The same to the right.
pub fn right_value(t: IntType, a: i128, amount: i128) -> Value
    requires low { pos 0 ≤ℤ amount }
    requires high { amount <ℤ pos 64 }
    ensures { result ≡ Value.Int t (numbers.shifted Shift.Right t a amount) }
{
    Value::Int(t, a.div_euclid(power(amount)))
}

/// The exact number with its sign turned round.
pub fn negated(n: i128) -> Result<i128, Unheld>
    ensures is { IfOk result (λ m. m ≡ neg_ℤ n) }
    ensures unheld { is_err result ≡ is_no_number (neg_ℤ n) }
{
    held(n.checked_neg())
}

/// The number with all its bits turned round.
pub fn complement_of(t: IntType, n: i128) -> i128
    ensures { result ≡ numbers.complement t n }
{
    wrap(t, -1 - n)
}
