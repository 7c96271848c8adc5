// What domains tell each other.

ghost use Rattle.std.specs.Prelude.{◌≡◌};
ghost use Rattle.num_api.specs.Ranges.{all_numbers, holds_some, hull};
ghost use Rattle.num_api.specs.Spans.{point, range_of};

use crate::{NExpr, Var};
use ext_int::{Ext, max, min};

/// The whole numbers from one end to another.
#[derive(Clone, Copy, Debug, PartialEq, Eq)]
pub struct Range {
    pub lo: Ext,
    pub hi: Ext,
}

impl Range {
    /// All whole numbers.
    pub fn all() -> Range
        ensures { result ≡ all_numbers }
    {
        Range {
            lo: Ext::Low,
            hi: Ext::High,
        }
    }

    /// The number alone.
    pub fn point(n: i128) -> Range
        ensures { result ≡ range_of (point n) }
    {
        Range {
            lo: Ext::Fin(n),
            hi: Ext::Fin(n),
        }
    }

    /// Whether some number is in the range.
    pub fn holds_some(self) -> bool
        ensures { result ≡ holds_some self }
    {
        match (self.lo, self.hi) {
            (Ext::High, _) | (_, Ext::Low) => false,
            (Ext::Fin(lo), Ext::Fin(hi)) => lo <= hi,
            _ => true,
        }
    }

    /// The least range that holds both.
    pub fn hull(self, other: Range) -> Range
        ensures { result ≡ hull self other }
    {
        Range {
            lo: min(self.lo, other.lo),
            hi: max(self.hi, other.hi),
        }
    }
}

/// The whole numbers that are `rem` up to a multiple of `modulus`. The modulus is from 0 to 2^100,
/// and under one of 1 or more the remainder is from 0 to `modulus - 1`.
#[derive(Clone, Copy, Debug, PartialEq, Eq)]
pub struct Residue {
    pub rem: i128,
    pub modulus: i128,
}

/// A fact of a valuation.
#[derive(Drop)]
pub enum Message {
    /// The variable lies in the range.
    Between(Var, Range),
    /// The variable is in the class.
    Class(Var, Residue),
    /// The expression has a value, and the variable has it too.
    Equal(Var, NExpr),
    /// `sx * x + sy * y` is at most the bound, where each sign is 1 or -1.
    AtMost {
        sx: i8,
        x: Var,
        sy: i8,
        y: Var,
        bound: i128,
    },
}
