// Operators on numbers.
ghost use Rattle.std.specs.Prelude.{◌≡◌, ◌≢◌, ◌<◌, ◌^◌, pos, ◌+ℤ◌, ◌-ℤ◌, ◌*ℤ◌, neg_ℤ, int_div, false, List, IfOk, OnOk};
ghost use Rattle.std.specs.Int.{int_div_euclid};
ghost use Rattle.block_mem.specs.Numbers.{bits_in};
ghost use Rattle.c_syntax_written.specs.Integer.{HasNumber, is_signed, least, greatest, wrapped};
ghost use Rattle.c_syntax.specs.Types.{ObjectTree};
ghost use Rattle.c_values.specs.Answers.{Answers, Finds, divided, ranged};
ghost use Rattle.c_values.specs.Looks.{outcome};
ghost use Rattle.c_values.specs.Numbers as numbers;
ghost use Rattle.c_values.specs.Operators.{binary, unary};
ghost use Rattle.c_values.specs.Places.{ObjectMemory};

use crate::values::Wrong;
use block_mem::{Scalar, Value};
use c_layout::wrap;
use c_syntax::{Arithmetic, Comparison, Example, IntType, Shift, TBinaryOp, TUnaryOp, WrongKind};

/// An operator on two numbers of a type. It is refused with the exact result, for Overflow, the
/// divisor, for DivideByZero, or the exact quotient, for Quotient.
pub fn arithmetic(op: Arithmetic, t: IntType, a: i128, b: i128) -> Result<Value, Wrong>
    requires left { HasNumber t a }
    requires right { HasNumber t b }
    ensures { (objects : List ObjectTree) (m : ObjectMemory) → Answers result (binary objects m (TBinaryOp.Arithmetic op t) (Value.Int t a) (Value.Int t b)) }
{
    match op {
        Arithmetic::Multiply => multiply(t, a, b),
        Arithmetic::Divide => divide(t, a, b),
        Arithmetic::Remainder => remainder(t, a, b),
        Arithmetic::Add => of_type(WrongKind::Overflow, t, a + b),
        Arithmetic::Subtract => of_type(WrongKind::Overflow, t, a - b),
        Arithmetic::BitAnd => Ok(of_bits(t, bits_in(t, a) & bits_in(t, b))),
        Arithmetic::BitXor => Ok(of_bits(t, bits_in(t, a) ^ bits_in(t, b))),
        Arithmetic::BitOr => Ok(of_bits(t, bits_in(t, a) | bits_in(t, b))),
    }
}

// A product. Of two unsigned numbers it may need 128 bits.
fn multiply(t: IntType, a: i128, b: i128) -> Result<Value, Wrong>
    requires left { HasNumber t a }
    requires right { HasNumber t b }
    ensures { Answers result (ranged WrongKind.Overflow t (least t) (pos (greatest t)) (a *ℤ b)) }
{
    if t.is_signed() {
        of_type(WrongKind::Overflow, t, a * b)
    } else {
        Ok(Value::Int(t, wrapped_product(t, a as u64, b as u64)))
    }
}

fn wrapped_product(t: IntType, a: u64, b: u64) -> i128
    requires { is_signed t ≡ false }
    ensures { result ≡ wrapped t (pos a *ℤ pos b) }
{
    let product = u128::from(a) * u128::from(b);
    (product % (u128::from(t.greatest()) + 1)) as i128
}

fn divide(t: IntType, a: i128, b: i128) -> Result<Value, Wrong>
    requires left { HasNumber t a }
    requires right { HasNumber t b }
    ensures { Answers result (outcome (divided t a b) (Some (Value.Int t (wrapped t (int_div a b))))) }
{
    match quotient(t, a, b) {
        Ok(quotient) => Ok(Value::Int(t, wrap(t, quotient))),
        Err(wrong) => Err(wrong),
    }
}

fn remainder(t: IntType, a: i128, b: i128) -> Result<Value, Wrong>
    requires left { HasNumber t a }
    requires right { HasNumber t b }
    ensures { Answers result (outcome (divided t a b) (Some (Value.Int t (wrapped t (numbers.remainder a b))))) }
{
    match quotient(t, a, b) {
        Ok(_) => Ok(Value::Int(t, wrap(t, a % b))),
        Err(wrong) => Err(wrong),
    }
}

// The exact quotient. The divisor is asked before the quotient.
fn quotient(t: IntType, a: i128, b: i128) -> Result<i128, Wrong>
    requires left { HasNumber t a }
    requires right { HasNumber t b }
    ensures checked { Finds result (divided t a b) }
    ensures exact { IfOk result (λ q. q ≡ int_div a b) }
    ensures divisor { OnOk result (b ≢ pos 0) }
{
    if b == 0 {
        return Err(Wrong {
            kind: WrongKind::DivideByZero,
            operand: Example::Number(b),
        });
    }
    let quotient = a / b;
    match of_type(WrongKind::Quotient, t, quotient) {
        Ok(_) => Ok(quotient),
        Err(wrong) => Err(wrong),
    }
}

// The number at the type. If that is signed, it is to have the number.
fn of_type(kind: WrongKind, t: IntType, exact: i128) -> Result<Value, Wrong>
    ensures { Answers result (ranged kind t (least t) (pos (greatest t)) exact) }
{
    in_range(kind, t, t.least(), t.greatest(), exact)
}

// The number at the type. A number of a signed type is to lie between the two ends.
fn in_range(kind: WrongKind, t: IntType, lo: i128, hi: u64, exact: i128) -> Result<Value, Wrong>
    ensures { Answers result (ranged kind t lo (pos hi) exact) }
{
    if t.is_signed() && (exact < lo || i128::from(hi) < exact) {
        return Err(Wrong {
            kind,
            operand: Example::Number(exact),
        });
    }
    Ok(Value::Int(t, wrap(t, exact)))
}

// The bits of a number of a type.
fn bits_in(t: IntType, n: i128) -> u64
    requires { HasNumber t n }
    ensures { result ≡ bits_in t n }
{
    if n < 0 {
        // The least number is half of what the type counts, below 0.
        (n - 2 * t.least()) as u64
    } else {
        n as u64
    }
}

// The value of a type that has these bits.
fn of_bits(t: IntType, bits: u64) -> Value
    ensures { result ≡ Value.Int t (wrapped t (pos bits)) }
{
    Value::Int(t, wrap(t, i128::from(bits)))
}

/// A shift of a number of the type. The amount is asked before the result: ShiftAmount with the
/// amount, then ShiftResult with the exact result.
pub fn shift(way: Shift, t: IntType, a: i128, amount: i128) -> Result<Value, Wrong>
    requires left { HasNumber t a }
    ensures { (objects : List ObjectTree) (m : ObjectMemory) (u : IntType)
        → Answers result (binary objects m (TBinaryOp.Shift way t) (Value.Int t a) (Value.Int u amount)) }
{
    if amount < 0 || amount >= i128::from(t.width()) {
        return Err(Wrong {
            kind: WrongKind::ShiftAmount,
            operand: Example::Number(amount),
        });
    }
    let places = amount as u32;
    match way {
        Shift::Left => shift_left(t, a, places),
        Shift::Right => Ok(Value::Int(t, shift_right(a, places))),
    }
}

fn shift_left(t: IntType, a: i128, places: u32) -> Result<Value, Wrong>
    requires left { HasNumber t a }
    requires right { places < 64 }
    ensures { Answers result (ranged WrongKind.ShiftResult t (pos 0) (pos (greatest t)) (a *ℤ pos (2 ^ places))) }
{
    let exact = a * power_of_two(places);
    in_range(WrongKind::ShiftResult, t, 0, t.greatest(), exact)
}

fn shift_right(a: i128, places: u32) -> i128
    requires { places < 64 }
    ensures { result ≡ int_div_euclid a (pos (2 ^ places)) }
{
    a.div_euclid(power_of_two(places))
}

fn power_of_two(k: u32) -> i128
    requires { k < 64 }
    ensures { result ≡ pos (2 ^ k) }
{
    i128::from(1u64 << k)
}

/// Whether two numbers compare so.
pub fn compares(comparison: Comparison, a: i128, b: i128) -> bool
    ensures { result ≡ numbers.compares comparison a b }
{
    match comparison {
        Comparison::Less => a < b,
        Comparison::Greater => b < a,
        Comparison::AtMost => a <= b,
        Comparison::AtLeast => b <= a,
        Comparison::Equal => a == b,
        Comparison::Unequal => a != b,
    }
}

/// The number with its sign turned round. It is refused with the exact number, for Overflow.
pub fn negate(t: IntType, n: i128) -> Result<Value, Wrong>
    requires { HasNumber t n }
    ensures { (objects : List ObjectTree) (m : ObjectMemory) → Answers result (unary objects m (TUnaryOp.Minus t) (Some (Scalar.Int t)) (Value.Int t n)) }
{
    of_type(WrongKind::Overflow, t, -n)
}

/// The number with all its bits turned round.
pub fn complement(t: IntType, n: i128) -> i128
    requires { HasNumber t n }
    ensures { result ≡ numbers.complement t n }
{
    wrap(t, -n - 1)
}
