// Rows of numbers.
ghost use Rattle.std.specs.Prelude.{IfSome};
ghost use Rattle.c_syntax_written.specs.Integer.{HasNumber};

use super::{Told, comparison};
use block_mem::{Scalar, Value};
use c_syntax::{Arithmetic, IntType, Shift};
use c_values::{Given, Wrong, arithmetic, bit, compares, complement, convert, negate, shift};

/// What an operator at the type answers: its sign, and one or two numbers.
pub fn answer(t: IntType, row: &str) -> Told {
    let (sign, rest) = row.split_once(' ').unwrap_or((row, ""));
    let (first, second) = rest.split_once(' ').unwrap_or((rest, ""));
    if sign == "convert" {
        return converted(t, first);
    }
    let Some(a) = number(t, first) else {
        return Told::NoRow;
    };
    match sign {
        "neg" => told(negate(t, a)),
        "~" => Told::Value(Value::Int(t, complement(t, a))),
        "<<" => shifted(Shift::Left, t, a, second),
        ">>" => shifted(Shift::Right, t, a, second),
        _ => match number(t, second) {
            Some(b) => binary(sign, t, a, b),
            None => Told::NoRow,
        },
    }
}

fn binary(sign: &str, t: IntType, a: i128, b: i128) -> Told
    requires left { HasNumber t a }
    requires right { HasNumber t b }
{
    match comparison(sign) {
        Some(comparison) => Told::Value(bit(compares(comparison, a, b))),
        None => match operator(sign) {
            Some(op) => told(arithmetic(op, t, a, b)),
            None => Told::NoRow,
        },
    }
}

fn operator(sign: &str) -> Option<Arithmetic> {
    match sign {
        "*" => Some(Arithmetic::Multiply),
        "/" => Some(Arithmetic::Divide),
        "%" => Some(Arithmetic::Remainder),
        "+" => Some(Arithmetic::Add),
        "-" => Some(Arithmetic::Subtract),
        "&" => Some(Arithmetic::BitAnd),
        "^" => Some(Arithmetic::BitXor),
        "|" => Some(Arithmetic::BitOr),
        _ => None,
    }
}

// An amount has a type of its own.
fn shifted(way: Shift, t: IntType, a: i128, amount: &str) -> Told
    requires { HasNumber t a }
{
    match amount.parse::<i128>() {
        Ok(amount) => told(shift(way, t, a, amount)),
        Err(_) => Told::NoRow,
    }
}

fn converted(t: IntType, number: &str) -> Told {
    let Ok(n) = number.parse::<i128>() else {
        return Told::NoRow;
    };
    let given = Given::Value(Value::Int(IntType::LLong, n));
    match convert(Some(Scalar::Int(t)), given) {
        Given::Value(value) => Told::Value(value),
        Given::Nothing => Told::NoRow,
    }
}

fn told(answer: Result<Value, Wrong>) -> Told {
    match answer {
        Ok(value) => Told::Value(value),
        Err(wrong) => Told::Wrong(wrong),
    }
}

// A number that the type has.
fn number(t: IntType, word: &str) -> Option<i128>
    ensures { IfSome result (λ n. HasNumber t n) }
{
    match word.parse::<i128>() {
        Ok(n) if t.least() <= n && n <= i128::from(t.greatest()) => Some(n),
        _ => None,
    }
}
