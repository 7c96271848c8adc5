// Ends, ranges, variables and operators as they are written.

use ext_int::Ext;
use num_api::{NOp, Range, Residue, Var};
use std::fmt;

/// An end, as it is printed.
#[derive(Clone, Copy)]
struct End(Ext);

impl fmt::Display for End {
    fn fmt<W: fmt::Write>(&self, f: &mut fmt::Formatter<W>) -> fmt::Result {
        match self.0 {
            Ext::Low => write!(f, "-inf"),
            Ext::Fin(n) => write!(f, "{n}"),
            Ext::High => write!(f, "inf"),
        }
    }
}

/// A range, as it is printed.
#[derive(Clone, Copy)]
pub struct Between(pub Range);

impl fmt::Display for Between {
    fn fmt<W: fmt::Write>(&self, f: &mut fmt::Formatter<W>) -> fmt::Result {
        write!(f, "{}..{}", End(self.0.lo), End(self.0.hi))
    }
}

/// A class, as it is printed.
#[derive(Clone, Copy)]
pub struct OfClass(pub Residue);

impl fmt::Display for OfClass {
    fn fmt<W: fmt::Write>(&self, f: &mut fmt::Formatter<W>) -> fmt::Result {
        write!(f, "{}mod{}", self.0.rem, self.0.modulus)
    }
}

/// The variable of a letter, of which `a` is the first, or of its number behind `v`.
pub fn variable(word: &str) -> Option<Var> {
    match word.as_bytes() {
        [letter @ b'a'..=b'z'] => Some(Var(u64::from(*letter - b'a'))),
        _ => Some(Var(word.strip_prefix("v")?.parse::<u64>().ok()?)),
    }
}

/// A variable and a range, as `x -5 300`.
pub fn range_of(words: &[&str]) -> Option<(Var, Range)> {
    let [x, lo, hi] = words else {
        return None;
    };
    let range = Range {
        lo: Ext::Fin(lo.parse::<i128>().ok()?),
        hi: Ext::Fin(hi.parse::<i128>().ok()?),
    };
    Some((variable(x)?, range))
}

/// An operator of two operands.
pub fn binary(word: &str) -> Option<NOp> {
    match word {
        "+" => Some(NOp::Add),
        "-" => Some(NOp::Sub),
        "*" => Some(NOp::Mul),
        "==" => Some(NOp::Eq),
        "!=" => Some(NOp::Ne),
        "<" => Some(NOp::Lt),
        "<=" => Some(NOp::Le),
        _ => None,
    }
}

/// An operator of one operand.
pub fn unary(word: &str) -> Option<NOp> {
    match word {
        "neg" => Some(NOp::Neg),
        "!" => Some(NOp::Not),
        _ => None,
    }
}
