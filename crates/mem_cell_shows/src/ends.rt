// Ranges and classes of whole numbers, as they are shown.

ghost use Rattle.std.specs.Prelude.{◌≡◌, ◌≤ℤ◌, ℤ, IfSome};
ghost use Rattle.c_syntax.specs.Admission.{IsModerate};
ghost use Rattle.ext_int.specs.Ext.{Above, Below};
ghost use Rattle.num_api.specs.Ranges.{InRange};
ghost use Rattle.num_api.specs.Residues.{InResidue, IsResidue};
ghost use Rattle.mem_cell_shows.specs.Ends.{IsProperEnds, LiesIn, number_shown};

use c_syntax::Shown;
use ext_int::Ext;
use num_api::{Range, Residue};

// The greatest size of an end that may be shown.
const GREATEST: i128 = 0x4000_0000_0000_0000_0000_0000_0000_0000;

/// The numbers between two ends, each of which may be missing, that are `rem` up to a multiple of the modulus.
#[derive(Clone, Copy)]
pub struct Ends {
    pub lo: Option<i128>,
    pub hi: Option<i128>,
    pub modulus: i128,
    pub rem: i128,
}

// A lower end that may be shown.
fn lower_end(end: Ext) -> Option<i128>
    ensures moderate { IsModerate result }
    ensures below { (n : ℤ) → Below end n → IfSome result (λ low. low ≤ℤ n) }
{
    match end {
        Ext::Low => None,
        Ext::Fin(n) => {
            if n < -GREATEST {
                None
            } else if n > GREATEST {
                Some(GREATEST)
            } else {
                Some(n)
            }
        }
        Ext::High => Some(GREATEST),
    }
}

// An upper end that may be shown.
fn upper_end(end: Ext) -> Option<i128>
    ensures moderate { IsModerate result }
    ensures above { (n : ℤ) → Above end n → IfSome result (λ high. n ≤ℤ high) }
{
    match end {
        Ext::Low => Some(-GREATEST),
        Ext::Fin(n) => {
            if n > GREATEST {
                None
            } else if n < -GREATEST {
                Some(-GREATEST)
            } else {
                Some(n)
            }
        }
        Ext::High => None,
    }
}

// The one number of a class, or all where it may not be shown.
fn point_ends(n: i128) -> Ends
    ensures holds { LiesIn result n }
    ensures proper { IsProperEnds result }
{
    if n < -GREATEST || n > GREATEST {
        return Ends::all();
    }
    Ends {
        lo: Some(n),
        hi: Some(n),
        modulus: 1,
        rem: 0,
    }
}

impl Ends {
    // All numbers.
    pub fn all() -> Ends
        ensures holds { (n : ℤ) → LiesIn result n }
        ensures proper { IsProperEnds result }
    {
        Ends {
            lo: None,
            hi: None,
            modulus: 1,
            rem: 0,
        }
    }

    // The numbers of a range and of a class.
    pub fn of(range: Range, class: Residue) -> Ends
        requires { IsResidue class }
        ensures holds { (n : ℤ) → InRange range n → InResidue class n → LiesIn result n }
        ensures proper { IsProperEnds result }
    {
        if class.modulus == 0 {
            return point_ends(class.rem);
        }
        Ends {
            lo: lower_end(range.lo),
            hi: upper_end(range.hi),
            modulus: class.modulus,
            rem: class.rem,
        }
    }

    // These numbers, as they are shown.
    pub fn shown(self) -> Shown
        ensures { result ≡ number_shown self }
    {
        Shown::Number {
            lo: self.lo,
            hi: self.hi,
            modulus: self.modulus,
            rem: self.rem,
        }
    }
}
