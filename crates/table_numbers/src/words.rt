// Ends, ranges, classes, variables and operators as they are written.

ghost use Rattle.std.specs.Prelude.{◌<◌, IfSome};
ghost use Rattle.num_api.specs.Residues.{IsResidue};

use ext_int::Ext;
use num_api::{NOp, Range, Residue, Var};
use std::fmt;

const GREATEST_MODULUS: i128 = 1 << 100;

/// An end, as it is printed.
#[derive(Clone, Copy)]
pub struct Printed(pub Ext);

impl fmt::Display for Printed {
    fn fmt<W: fmt::Write>(&self, f: &mut fmt::Formatter<W>) -> fmt::Result {
        match self.0 {
            Ext::Low => write!(f, "-inf"),
            Ext::Fin(n) => write!(f, "{n}"),
            Ext::High => write!(f, "inf"),
        }
    }
}

/// A range, as it is printed.
#[derive(Clone, Copy)]
pub struct Between(pub Range);

impl fmt::Display for Between {
    fn fmt<W: fmt::Write>(&self, f: &mut fmt::Formatter<W>) -> fmt::Result {
        write!(f, "{}..{}", Printed(self.0.lo), Printed(self.0.hi))
    }
}

/// An end, as `-inf` or `7`.
pub fn end(word: &str) -> Option<Ext> {
    match word {
        "-inf" => Some(Ext::Low),
        "inf" => Some(Ext::High),
        _ => match word.parse::<i128>() {
            Ok(n) => Some(Ext::Fin(n)),
            Err(_) => None,
        },
    }
}

/// A range, as `-7..inf`.
pub fn range(word: &str) -> Option<Range> {
    let (lo, hi) = word.split_once("..")?;
    Some(Range {
        lo: end(lo)?,
        hi: end(hi)?,
    })
}

/// A class, as `3mod4`.
pub fn class(word: &str) -> Option<Residue>
    ensures { IfSome result IsResidue }
{
    let (rem, modulus) = word.split_once("mod")?;
    match (rem.parse::<i128>(), modulus.parse::<i128>()) {
        (Ok(rem), Ok(modulus)) => proper(rem, modulus),
        _ => None,
    }
}

fn proper(rem: i128, modulus: i128) -> Option<Residue>
    ensures { IfSome result IsResidue }
{
    let is_class = modulus == 0 || 0 < modulus && 0 <= rem && rem < modulus;
    if is_class && modulus <= GREATEST_MODULUS {
        Some(Residue { rem, modulus })
    } else {
        None
    }
}

/// The variable of a letter: `a` is the first of 26.
pub fn variable(word: &str) -> Option<Var>
    ensures { IfSome result (λ x. x.0 < 26) }
{
    match word.as_bytes() {
        [letter @ b'a'..=b'z'] => Some(Var(u64::from(*letter - b'a'))),
        _ => None,
    }
}

/// A variable and a range, as `x -5 300`.
pub fn range_of(words: &[&str]) -> Option<(Var, Range)> {
    let [x, lo, hi] = words else {
        return None;
    };
    match (variable(x), lo.parse::<i128>(), hi.parse::<i128>()) {
        (Some(x), Ok(lo), Ok(hi)) => {
            let range = Range {
                lo: Ext::Fin(lo),
                hi: Ext::Fin(hi),
            };
            Some((x, range))
        }
        _ => None,
    }
}

/// An operator of two operands.
pub fn binary(word: &str) -> Option<NOp> {
    match word {
        "+" => Some(NOp::Add),
        "-" => Some(NOp::Sub),
        "*" => Some(NOp::Mul),
        "/" => Some(NOp::Quot),
        "%" => Some(NOp::Rem),
        "<<" => Some(NOp::Shl),
        ">>" => Some(NOp::Shr),
        "&" => Some(NOp::And),
        "|" => Some(NOp::Or),
        "^" => Some(NOp::Xor),
        "==" => Some(NOp::Eq),
        "!=" => Some(NOp::Ne),
        "<" => Some(NOp::Lt),
        "<=" => Some(NOp::Le),
        _ => None,
    }
}

/// An operator of one operand.
pub fn unary(word: &str) -> Option<NOp> {
    match word {
        "neg" => Some(NOp::Neg),
        "!" => Some(NOp::Not),
        _ => None,
    }
}
