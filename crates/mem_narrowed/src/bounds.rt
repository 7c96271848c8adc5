// Ranges and classes of whole numbers, as they are shown.

ghost use Rattle.std.specs.Prelude.{◌≡◌, ◌≤ℤ◌, ℤ, pos, false, true};
ghost use Rattle.num_api.specs.Residues.{class_of};
ghost use Rattle.residues.specs.Class.{residue_of};
ghost use Rattle.mem_narrowed.specs.Narrowed.{IsNarrowedBounds, IsNarrowedClass, IsProperBounds, bounds, bounds_of, inner_lower, inner_upper, is_number, shown_numbers};

use c_syntax::{Numbers, Pointers, Shown};
use num_api::{Residue, ValueDomain};
use residues::Class;

/// The numbers between two ends, each of which may be missing, that are `rem` up to a multiple of the modulus.
#[derive(Clone, Copy)]
pub struct Bounds {
    pub lo: Option<i128>,
    pub hi: Option<i128>,
    pub modulus: i128,
    pub rem: i128,
}

// The greater of two lower ends; a missing end bounds nothing.
fn lower(a: Option<i128>, b: Option<i128>) -> Option<i128>
    ensures { result ≡ inner_lower a b }
{
    match (a, b) {
        (Some(x), Some(y)) => Some(x.max(y)),
        (Some(x), None) => Some(x),
        (None, b) => b,
    }
}

// The lesser of two upper ends; a missing end bounds nothing.
fn upper(a: Option<i128>, b: Option<i128>) -> Option<i128>
    ensures { result ≡ inner_upper a b }
{
    match (a, b) {
        (Some(x), Some(y)) => Some(x.min(y)),
        (Some(x), None) => Some(x),
        (None, b) => b,
    }
}

impl Bounds {
    // The numbers of a range and a class.
    pub fn new(lo: Option<i128>, hi: Option<i128>, modulus: i128, rem: i128) -> Bounds
        ensures { result ≡ bounds lo hi modulus rem }
    {
        Bounds {
            lo,
            hi,
            modulus,
            rem,
        }
    }

    // These numbers, as they are shown.
    pub fn shown(self) -> Shown
        ensures { result ≡ shown_numbers self }
    {
        Shown::Number {
            lo: self.lo,
            hi: self.hi,
            modulus: self.modulus,
            rem: self.rem,
        }
    }

    // The set of these names and marks, at these offsets.
    pub fn of_pointers(self, any: bool, null: bool, dead: bool, names: Numbers) -> Pointers
        ensures { result ≡ record { any = any; null = null; dead = dead; names = names; lo = self.lo; hi = self.hi; modulus = self.modulus; rem = self.rem } }
    {
        Pointers {
            any,
            null,
            dead,
            names,
            lo: self.lo,
            hi: self.hi,
            modulus: self.modulus,
            rem: self.rem,
        }
    }

    // The offsets of a set.
    pub fn of(set: &Pointers) -> Bounds
        ensures { result ≡ bounds_of set.now }
    {
        Bounds {
            lo: set.lo,
            hi: set.hi,
            modulus: set.modulus,
            rem: set.rem,
        }
    }

    // Whether both ends are one number.
    fn is_number(self) -> bool
        ensures { result ≡ is_number self.lo self.hi }
    {
        match (self.lo, self.hi) {
            (Some(x), Some(y)) => x == y,
            _ => false,
        }
    }

    // The class, as a value domain has it.
    fn class(self) -> Class
        requires { IsProperBounds self }
        ensures { residue_of result ≡ class_of self.rem self.modulus }
    {
        Class::new(Residue {
            rem: self.rem,
            modulus: self.modulus,
        })
    }

    // The class of the numbers of both classes; that of the first where these are none or one, or where the
    // modulus would be above 2^100.
    fn class_with(self, other: Bounds) -> Residue
        requires left { IsProperBounds self }
        requires right { IsProperBounds other }
        requires step { pos 1 ≤ℤ self.modulus }
        ensures { IsNarrowedClass self other result }
    {
        let first = self.class();
        match first.meet(&other.class()) {
            Some(met) => {
                let residue = met.residue();
                if residue.modulus >= 1 {
                    residue
                } else {
                    first.residue()
                }
            }
            None => first.residue(),
        }
    }

    // What is in both. One number stays as it is.
    pub fn narrowed(self, other: Bounds) -> Bounds
        requires left { IsProperBounds self }
        requires right { IsProperBounds other }
        ensures { IsNarrowedBounds self other result }
    {
        if self.is_number() {
            return self;
        }
        let class = self.class_with(other);
        Bounds {
            lo: lower(self.lo, other.lo),
            hi: upper(self.hi, other.hi),
            modulus: class.modulus,
            rem: class.rem,
        }
    }
}
