// Ranges and classes of whole numbers, as they are shown.

ghost use Rattle.std.specs.Prelude.{◌≡◌};
ghost use Rattle.num_api.specs.Residues.{class_of};
ghost use Rattle.residues.specs.Class.{residue_of};
ghost use Rattle.c_syntax.specs.declared.alarm.Shown.TheVariants.{Number};
ghost use Rattle.mem_shown.specs.Hulls.{IsHullOf, IsProperBounds, bounds, bounds_of, lower_end, upper_end};

use c_syntax::{Numbers, Pointers, Shown};
use num_api::{Residue, ValueDomain};
use residues::Class;

/// The numbers between two ends, each of which may be missing, that are `rem` up to a multiple of the modulus.
#[derive(Clone, Copy)]
pub struct Bounds {
    pub lo: Option<i128>,
    pub hi: Option<i128>,
    pub modulus: i128,
    pub rem: i128,
}

// The lesser of two ends; none where one is missing.
fn lower(a: Option<i128>, b: Option<i128>) -> Option<i128>
    ensures { result ≡ lower_end a b }
{
    match (a, b) {
        (Some(x), Some(y)) => Some(x.min(y)),
        _ => None,
    }
}

// The greater of two ends; none where one is missing.
fn upper(a: Option<i128>, b: Option<i128>) -> Option<i128>
    ensures { result ≡ upper_end a b }
{
    match (a, b) {
        (Some(x), Some(y)) => Some(x.max(y)),
        _ => None,
    }
}

impl Bounds {
    // The numbers of a range and a class.
    pub fn new(lo: Option<i128>, hi: Option<i128>, modulus: i128, rem: i128) -> Bounds
        ensures { result ≡ bounds lo hi modulus rem }
    {
        Bounds {
            lo,
            hi,
            modulus,
            rem,
        }
    }

    // These numbers, as they are shown.
    pub fn shown(self) -> Shown
        ensures { result ≡ Number self.lo self.hi self.modulus self.rem }
    {
        Shown::Number {
            lo: self.lo,
            hi: self.hi,
            modulus: self.modulus,
            rem: self.rem,
        }
    }

    // The set of these names and marks, at these offsets.
    pub fn of_pointers(self, any: bool, null: bool, dead: bool, names: Numbers) -> Pointers
        ensures { result ≡ record { any = any; null = null; dead = dead; names = names; lo = self.lo; hi = self.hi; modulus = self.modulus; rem = self.rem } }
    {
        Pointers {
            any,
            null,
            dead,
            names,
            lo: self.lo,
            hi: self.hi,
            modulus: self.modulus,
            rem: self.rem,
        }
    }

    // The offsets of a set.
    pub fn of(set: &Pointers) -> Bounds
        ensures { result ≡ bounds_of set.now }
    {
        Bounds {
            lo: set.lo,
            hi: set.hi,
            modulus: set.modulus,
            rem: set.rem,
        }
    }

    // The class, as a value domain has it.
    fn class(self) -> Class
        requires { IsProperBounds self }
        ensures { residue_of result ≡ class_of self.rem self.modulus }
    {
        Class::new(Residue {
            rem: self.rem,
            modulus: self.modulus,
        })
    }

    // The least ends and the least class of both.
    pub fn hull(self, other: Bounds) -> Bounds
        requires left { IsProperBounds self }
        requires right { IsProperBounds other }
        ensures hull { IsHullOf self other result }
        ensures proper { IsProperBounds result }
    {
        let class = self.class().join(&other.class()).residue();
        Bounds {
            lo: lower(self.lo, other.lo),
            hi: upper(self.hi, other.hi),
            modulus: class.modulus,
            rem: class.rem,
        }
    }
}
