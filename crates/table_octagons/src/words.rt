// Variables, ranges, signs and operators as they are written.

ghost use Rattle.std.specs.Prelude.{◌<◌, IfSome};
ghost use Rattle.num_api.specs.Messages.{IsSign};

use ext_int::Ext;
use num_api::{NOp, Range, Var};

/// The variable of a letter: `a` is the first of 26.
pub fn variable(word: &str) -> Option<Var>
    ensures { IfSome result (λ x. x.0 < 26) }
{
    match word.as_bytes() {
        [letter @ b'a'..=b'z'] => Some(Var(u64::from(*letter - b'a'))),
        _ => None,
    }
}

/// A variable and a range, as `x -5 300`.
pub fn range_of(words: &[&str]) -> Option<(Var, Range)> {
    let [x, lo, hi] = words else {
        return None;
    };
    match (variable(x), lo.parse::<i128>(), hi.parse::<i128>()) {
        (Some(x), Ok(lo), Ok(hi)) => {
            let range = Range {
                lo: Ext::Fin(lo),
                hi: Ext::Fin(hi),
            };
            Some((x, range))
        }
        _ => None,
    }
}

/// A sign, as `+` or `-`.
pub fn sign(word: &str) -> Option<i8>
    ensures { IfSome result IsSign }
{
    match word {
        "+" => Some(1),
        "-" => Some(-1),
        _ => None,
    }
}

/// An operator of two operands.
pub fn binary(word: &str) -> Option<NOp> {
    match word {
        "+" => Some(NOp::Add),
        "-" => Some(NOp::Sub),
        "*" => Some(NOp::Mul),
        "==" => Some(NOp::Eq),
        "!=" => Some(NOp::Ne),
        "<" => Some(NOp::Lt),
        "<=" => Some(NOp::Le),
        _ => None,
    }
}

/// An operator of one operand.
pub fn unary(word: &str) -> Option<NOp> {
    match word {
        "neg" => Some(NOp::Neg),
        "!" => Some(NOp::Not),
        _ => None,
    }
}
