//! Small boxes of three variables, whose valuations are tried one by one.
//!
//! `numbers_between` of 3 and 5 has 3, 4 and 5; `valuations` has each choice of a number of each variable;
//! `hull` of 4, -1 and 2 is the range from -1 to 4; and `all_in` says whether numbers are in the range and the
//! class of an answer.
#![tactic(auto)]

ghost use Rattle.std.specs.Prelude.{◌≡◌, ◌++◌, ◌↔◌, IfOk, OnOk, true, All};
ghost use Rattle.num_api.specs.Ranges.{InRange};
ghost use Rattle.num_api.specs.Residues.{InResidue, IsResidue};
ghost use Rattle.trial_boxes.specs.Boxes.{HasAllBetween, IsHeld, hull_of, triples, with_seconds, with_thirds};

use ext_int::Ext;
use num_api::{Range, Residue};
use std::alloc::{AllocError as NoMemory, Global};

/// A number for each variable.
pub type Valuation = [i128; 3];

/// Each number from the least to the greatest, and no other.
pub fn numbers_between(alloc: Global, lo: i128, hi: i128) -> Result<Vec<i128>, NoMemory>
    ensures { IfOk result (λ all. HasAllBetween lo hi all.items) }
{
    let mut all = Vec::new(alloc);
    for n in lo..=hi {
        all.push(n)?;
    }
    Ok(all)
}

/// Each choice of a number of each variable.
pub fn valuations(
    alloc: Global,
    firsts: &[i128],
    seconds: &[i128],
    thirds: &[i128],
) -> Result<Vec<Valuation>, NoMemory>
    ensures { IfOk result (λ all. all.items ≡ triples firsts.now seconds.now thirds.now) }
{
    let mut all = Vec::new(alloc);
    for a in firsts {
        add_seconds(&mut all, *a, seconds, thirds)?;
    }
    Ok(all)
}

// Puts behind the others the choices that begin with this number.
fn add_seconds(
    all: &mut Vec<Valuation>,
    a: i128,
    seconds: &[i128],
    thirds: &[i128],
) -> Result<(), NoMemory>
    ensures { OnOk result (all.new.items ≡ all.old.items ++ with_seconds a seconds.now thirds.now) }
{
    for b in seconds {
        add_thirds(all, a, *b, thirds)?;
    }
    Ok(())
}

// Puts behind the others the choices that begin with these two numbers.
fn add_thirds(all: &mut Vec<Valuation>, a: i128, b: i128, thirds: &[i128]) -> Result<(), NoMemory>
    ensures { OnOk result (all.new.items ≡ all.old.items ++ with_thirds a b thirds.now) }
{
    for c in thirds {
        all.push([a, b, *c])?;
    }
    Ok(())
}

/// Whether all these numbers lie in the range and are of the class.
pub fn all_in(numbers: &[i128], r: Range, c: Residue) -> bool
    requires { IsResidue c }
    ensures { (result ≡ true) ↔ All (IsHeld r c) numbers.now }
{
    for n in numbers {
        if !is_in(*n, r, c) {
            return false;
        }
    }
    true
}

fn is_in(n: i128, r: Range, c: Residue) -> bool
    requires { IsResidue c }
    ensures { (result ≡ true) ↔ IsHeld r c n }
{
    is_between(n, r) && is_of_class(n, c)
}

fn is_between(n: i128, r: Range) -> bool
    ensures { (result ≡ true) ↔ InRange r n }
{
    let above = match r.lo {
        Ext::Low => true,
        Ext::Fin(lo) => lo <= n,
        Ext::High => false,
    };
    let below = match r.hi {
        Ext::Low => false,
        Ext::Fin(hi) => n <= hi,
        Ext::High => true,
    };
    above && below
}

fn is_of_class(n: i128, c: Residue) -> bool
    requires { IsResidue c }
    ensures { (result ≡ true) ↔ InResidue c n }
{
    if c.modulus == 0 {
        return n == c.rem;
    }
    n.rem_euclid(c.modulus) == c.rem
}

/// The least range that holds these numbers, where there are some.
pub fn hull(numbers: &[i128]) -> Option<Range>
    ensures { result ≡ hull_of numbers.now }
{
    let (first, others) = numbers.split_first()?;
    let mut lo = *first;
    let mut hi = *first;
    for n in others {
        lo = lo.min(*n);
        hi = hi.max(*n);
    }
    Some(Range {
        lo: Ext::Fin(lo),
        hi: Ext::Fin(hi),
    })
}
