// What is shown of ranges.

ghost use Rattle.std.specs.Prelude.{◌≡◌, ℤ, Some, IfSome, IsSomeAnd, ◌≤ℤ◌};
ghost use Rattle.c_syntax.specs.Admission.{IsModerate};
ghost use Rattle.ext_int.specs.Ext.{Below, Above, AtMost};
ghost use Rattle.ext_int.specs.declared.Ext.TheVariants.{Fin};
ghost use Rattle.mem_temps.specs.Checks.{IsSmall};
ghost use Rattle.mem_temps.specs.Shows.{ShowsNumber, ShowsEnd, IsSetOf};

use crate::operators::is_zero;
use c_syntax::{Pointers, Shown};
use ext_int::Ext;
use mem_shown::{any_pointer, null_pointer};
use num_api::{Range, may_be};
use std::alloc::Global;

// The greatest size of an end that may be shown.
const GREATEST: i128 = 0x4000_0000_0000_0000_0000_0000_0000_0000;

// A lower end that may be shown: the greatest such number that is not above the end.
fn lower_end(end: Ext) -> Option<i128>
    ensures moderate { IsModerate result }
    ensures kept { (n : ℤ) → end ≡ Fin n → IsSmall n → result ≡ Some n }
    ensures below { (n : ℤ) → Below end n → IfSome result (λ low. low ≤ℤ n) }
    ensures least { (n : ℤ) → IsSmall n → AtMost (Fin n) end → IsSomeAnd result (λ low. n ≤ℤ low) }
{
    match end {
        Ext::Low => None,
        Ext::Fin(n) => {
            if n < -GREATEST {
                None
            } else if n > GREATEST {
                Some(GREATEST)
            } else {
                Some(n)
            }
        }
        Ext::High => Some(GREATEST),
    }
}

// An upper end that may be shown: the least such number that is not below the end.
fn upper_end(end: Ext) -> Option<i128>
    ensures moderate { IsModerate result }
    ensures kept { (n : ℤ) → end ≡ Fin n → IsSmall n → result ≡ Some n }
    ensures above { (n : ℤ) → Above end n → IfSome result (λ high. n ≤ℤ high) }
    ensures greatest { (n : ℤ) → IsSmall n → AtMost end (Fin n) → IsSomeAnd result (λ high. high ≤ℤ n) }
{
    match end {
        Ext::Low => Some(-GREATEST),
        Ext::Fin(n) => {
            if n > GREATEST {
                None
            } else if n < -GREATEST {
                Some(-GREATEST)
            } else {
                Some(n)
            }
        }
        Ext::High => None,
    }
}

/// The numbers of a range.
pub fn shown_number(r: Range) -> Shown
    ensures { ShowsNumber r result }
{
    Shown::Number {
        lo: lower_end(r.lo),
        hi: upper_end(r.hi),
        modulus: 1,
        rem: 0,
    }
}

/// The ends of calls that the numbers of a range tell.
pub fn shown_ends(r: Range) -> Shown
    ensures { ShowsEnd r result }
{
    Shown::Ends {
        value: may_be(r, true),
        none: may_be(r, false),
    }
}

/// The pointers whose number is in a range.
pub fn shown_set(alloc: Global, r: Range) -> Pointers
    ensures { IsSetOf r result }
{
    if is_zero(r) {
        return null_pointer(alloc);
    }
    any_pointer(alloc)
}
