// What C gives for expressions, by the calls of `c_values`.

ghost use Rattle.std.specs.Prelude.{IfSome};
ghost use Rattle.c_syntax_written.specs.Integer.{HasNumber};

use super::exprs::Expr;
use crate::boxes::number_of;
use block_mem::{Scalar, Value};
use c_syntax::{Arithmetic, Comparison, IntType, Shift};
use c_values::{Given, Wrong, arithmetic, bit, compares, complement, convert, negate, shift};

/// What C gives for an expression.
#[derive(Clone, Copy, Debug, PartialEq, Eq)]
pub enum Outcome {
    /// A number of a type.
    Number(IntType, i128),
    /// A check of the outermost operator fails.
    Wrong(Wrong),
    /// A check of an operand fails, or an operand has another type.
    Nothing,
}

impl Outcome {
    /// The number, where there is one.
    pub fn number(self) -> Option<i128> {
        match self {
            Outcome::Number(_, n) => Some(n),
            Outcome::Wrong(_) | Outcome::Nothing => None,
        }
    }

    // The number, where the type has it.
    fn at(self, t: IntType) -> Option<i128>
        ensures { IfSome result (λ n. HasNumber t n) }
    {
        match self {
            Outcome::Number(_, n) if t.least() <= n && n <= i128::from(t.greatest()) => Some(n),
            _ => None,
        }
    }
}

fn of_value(value: Value) -> Outcome {
    match value {
        Value::Int(t, n) => Outcome::Number(t, n),
        Value::Ptr(_) | Value::Null => Outcome::Nothing,
    }
}

fn of_answer(answer: Result<Value, Wrong>) -> Outcome {
    match answer {
        Ok(value) => of_value(value),
        Err(wrong) => Outcome::Wrong(wrong),
    }
}

fn of_option(outcome: Option<Outcome>) -> Outcome {
    outcome.unwrap_or(Outcome::Nothing)
}

fn converted(t: IntType, a: Outcome) -> Outcome {
    let Outcome::Number(from, n) = a else {
        return Outcome::Nothing;
    };
    match convert(Some(Scalar::Int(t)), Given::Value(Value::Int(from, n))) {
        Given::Value(value) => of_value(value),
        Given::Nothing => Outcome::Nothing,
    }
}

fn negated(t: IntType, a: Outcome) -> Option<Outcome> {
    Some(of_answer(negate(t, a.at(t)?)))
}

fn turned(t: IntType, a: Outcome) -> Option<Outcome> {
    Some(Outcome::Number(t, complement(t, a.at(t)?)))
}

fn denied(a: Outcome) -> Option<Outcome> {
    Some(of_value(bit(a.number()? == 0)))
}

fn calculated(op: Arithmetic, t: IntType, a: Outcome, b: Outcome) -> Option<Outcome> {
    let left = a.at(t)?;
    let right = b.at(t)?;
    Some(of_answer(arithmetic(op, t, left, right)))
}

fn shifted(way: Shift, t: IntType, a: Outcome, amount: Outcome) -> Option<Outcome> {
    let left = a.at(t)?;
    let places = amount.number()?;
    Some(of_answer(shift(way, t, left, places)))
}

fn compared(c: Comparison, a: Outcome, b: Outcome) -> Option<Outcome> {
    let left = a.number()?;
    let right = b.number()?;
    Some(of_value(bit(compares(c, left, right))))
}

/// What C gives for the expression at these numbers of the variables.
pub fn evaluate(e: &Expr, numbers: &[i128]) -> Outcome {
    match e {
        Expr::Const(t, n) => Outcome::Number(*t, *n),
        Expr::Read(x, t) => Outcome::Number(*t, number_of(numbers, x.0)),
        Expr::Convert(t, a) => converted(*t, evaluate(a, numbers)),
        Expr::Minus(t, a) => of_option(negated(*t, evaluate(a, numbers))),
        Expr::Complement(t, a) => of_option(turned(*t, evaluate(a, numbers))),
        Expr::Not(a) => of_option(denied(evaluate(a, numbers))),
        Expr::Arithmetic(op, t, a, b) => {
            let (a, b) = (evaluate(a, numbers), evaluate(b, numbers));
            of_option(calculated(*op, *t, a, b))
        }
        Expr::Shift(way, t, a, amount) => {
            let (a, amount) = (evaluate(a, numbers), evaluate(amount, numbers));
            of_option(shifted(*way, *t, a, amount))
        }
        Expr::Compare(c, a, b) => {
            of_option(compared(*c, evaluate(a, numbers), evaluate(b, numbers)))
        }
    }
}

// The exact result of an arithmetic operator, where it is an `i128`.
fn exact_arithmetic(op: Arithmetic, a: i128, b: i128) -> Option<i128> {
    match op {
        Arithmetic::Multiply => a.checked_mul(b),
        Arithmetic::Divide => a.checked_div(b),
        Arithmetic::Remainder => a.checked_rem(b),
        Arithmetic::Add => a.checked_add(b),
        Arithmetic::Subtract => a.checked_sub(b),
        Arithmetic::BitAnd => Some(a & b),
        Arithmetic::BitXor => Some(a ^ b),
        Arithmetic::BitOr => Some(a | b),
    }
}

// The exact result of a shift by fewer places than the type has.
fn exact_shift(way: Shift, t: IntType, a: i128, amount: i128) -> Option<i128> {
    if amount < 0 || amount >= i128::from(t.width()) {
        return None;
    }
    let power = 1_i128.checked_shl(amount as u32)?;
    match way {
        Shift::Left => a.checked_mul(power),
        Shift::Right => a.checked_div_euclid(power),
    }
}

/// The exact result of the outermost operator at these numbers, where it is an `i128`: that of a conversion is
/// its operand, and no other but of an operator on numbers can lie outside of its type.
pub fn exact(e: &Expr, numbers: &[i128]) -> Option<i128> {
    match e {
        Expr::Const(_, _) | Expr::Read(_, _) | Expr::Not(_) | Expr::Compare(_, _, _) => {
            evaluate(e, numbers).number()
        }
        Expr::Convert(_, a) => evaluate(a, numbers).number(),
        Expr::Minus(_, a) => evaluate(a, numbers).number()?.checked_neg(),
        Expr::Complement(_, a) => (-1_i128).checked_sub(evaluate(a, numbers).number()?),
        Expr::Arithmetic(op, _, a, b) => {
            let left = evaluate(a, numbers).number()?;
            exact_arithmetic(*op, left, evaluate(b, numbers).number()?)
        }
        Expr::Shift(way, t, a, amount) => {
            let left = evaluate(a, numbers).number()?;
            exact_shift(*way, *t, left, evaluate(amount, numbers).number()?)
        }
    }
}
