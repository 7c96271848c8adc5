// Truths of expressions.
#![tactic(auto)]

ghost use Rattle.std.specs.Prelude.{◌≡◌, ℤ, List, Some, IfOk, IsTrue};
ghost use Rattle.num_api.specs.Value.{has_truth, truth};
ghost use Rattle.machine_nums.specs.Machine.{machine_value};
ghost use Rattle.machine_nums.specs.Machines.{Admits};
ghost use Rattle.machine_nums.specs.MExprs.{mexpr_tree};
ghost use Rattle.csharp.specs.Trees.{CsExprTree, csexpr_tree};
ghost use Rattle.mem_cell_exprs.specs.Exprs.{IsNumberFor};
ghost use Rattle.mem_cell_shows.specs.Checks.{HasTruths, ends_shown, truth_ends};

use crate::addresses::is_address;
use crate::ends::Ends;
use c_syntax::Shown;
use csharp::CsExpr;
use ext_int::Live;
use machine_nums::{MExpr, Machine};
use mem_cell_exprs::{Known, number, pointer};
use num_api::NumDomain;
use pointsets::Base;
use std::alloc::AllocError as NoMemory;

/// Whether an expression may be true, and whether it may be false.
#[derive(Clone, Copy)]
pub struct Truths {
    pub yes: bool,
    pub no: bool,
}

// 1 for true, and 0 for false.
fn bit(b: bool) -> i128
    ensures { result ≡ truth b }
{
    if b { 1 } else { 0 }
}

impl Truths {
    // Either.
    pub fn both() -> Truths
        ensures yes { IsTrue result.yes }
        ensures no { IsTrue result.no }
    {
        Truths {
            yes: true,
            no: true,
        }
    }

    // The numbers of these truths: 1 and 0.
    pub fn numbers(self) -> Ends
        ensures { result ≡ truth_ends self }
    {
        Ends {
            lo: Some(bit(!self.no)),
            hi: Some(bit(self.yes)),
            modulus: 1,
            rem: 0,
        }
    }

    // The ends of a call that these truths tell.
    pub fn ends(self) -> Shown
        ensures { result ≡ ends_shown self }
    {
        Shown::Ends {
            value: self.yes,
            none: self.no,
        }
    }
}

// Whether numbers may have a truth, by a test of a copy, so that what is known of two variables together counts.
fn may_have_truth<D: NumDomain>(nums: &Machine<D>, m: &MExpr, truth: bool) -> Result<bool, NoMemory>
    ensures { IfOk result (λ may. (v : List ℤ) (n : ℤ) → Admits D.admits nums.now v → machine_value v (mexpr_tree m.now) ≡ Some n
        → IsTrue (has_truth truth n) → IsTrue may) }
{
    let mut copy = nums.copy()?;
    match copy.test(m, truth)? {
        Live::Live => Ok(true),
        Live::Dead => Ok(false),
    }
}

// The truths of an expression of numbers.
fn of_number<D: NumDomain>(known: &Known<D>, m: &MExpr) -> Result<Truths, NoMemory>
    ensures { IfOk result (λ found. (e : CsExprTree) → IsNumberFor known.now.types e (mexpr_tree m.now) → HasTruths D.admits known.now e found) }
{
    let yes = may_have_truth(&known.nums, m, true)?;
    let no = may_have_truth(&known.nums, m, false)?;
    Ok(Truths { yes, no })
}

// The truths of a pointer: null alone is false.
fn of_pointer<D: NumDomain>(known: &Known<D>, e: &CsExpr) -> Result<Truths, NoMemory>
    ensures { IfOk result (λ found. HasTruths D.admits known.now (csexpr_tree e.now) found) }
{
    if !is_address(known.types.as_slice(), e) {
        return Ok(Truths::both());
    }
    match pointer(known, e)? {
        Some(place) => Ok(Truths {
            yes: true,
            no: place.set.holds(Base::Null),
        }),
        None => Ok(Truths::both()),
    }
}

/// The truths of an expression in the states of a set.
pub fn known_truths<D: NumDomain>(known: &Known<D>, e: &CsExpr) -> Result<Truths, NoMemory>
    ensures { IfOk result (λ found. HasTruths D.admits known.now (csexpr_tree e.now) found) }
{
    match number(known.alloc, known.types.as_slice(), e)? {
        Some(m) => of_number(known, &m),
        None => of_pointer(known, e),
    }
}
