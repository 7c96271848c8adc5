// Numbers that lie between others.
#![tactic(auto)]

ghost use Rattle.std.specs.Prelude.{◌≡◌, ◌≤ℤ◌, pos, ℤ, List, Some, IfOk, IfSome, IsTrue};
ghost use Rattle.c_syntax_written.specs.Integer.{greatest, least};
ghost use Rattle.c_syntax_written.specs.declared.int_type.IntType.TheVariants.{Long};
ghost use Rattle.machine_nums.specs.MExprs.{mexpr_tree};
ghost use Rattle.machine_nums.specs.Machine.{machine_value};
ghost use Rattle.mem_cell_shows.specs.Changes.{KeepsEach, KeepsShape, LiesBetween};

use crate::compares::compared;
use crate::keeps::keep_number;
use c_syntax::{Comparison, IntType};
use ext_int::Live;
use machine_nums::MExpr;
use mem_cell_exprs::Known;
use num_api::NumDomain;
use std::alloc::AllocError as NoMemory;

// Whether a number is not above those of a long.
fn is_at_most(n: i128) -> bool
    ensures { IsTrue result → n ≤ℤ pos (greatest Long) }
{
    n <= i128::from(IntType::Long.greatest())
}

// Whether a number is not below those of a long.
fn is_at_least(n: i128) -> bool
    ensures { IsTrue result → least Long ≤ℤ n }
{
    IntType::Long.least() <= n
}

// A number as a constant, where it is a long.
fn constant(n: i128) -> Option<MExpr>
    ensures { IfSome result (λ m. (v : List ℤ) → machine_value v (mexpr_tree m) ≡ Some n) }
{
    if is_at_least(n) && is_at_most(n) {
        Some(MExpr::Const(IntType::Long, n))
    } else {
        None
    }
}

// Keeps the states in which numbers are not below another.
fn keep_from<D: NumDomain>(known: &mut Known<D>, lo: i128, m: MExpr) -> Result<Live, NoMemory>
    ensures shape { KeepsShape known.old known.new }
    ensures stands { IfOk result (λ live. KeepsEach D.admits known.old known.new live
        (λ objects s st. (n : ℤ) × (machine_value st.v (mexpr_tree m) ≡ Some n) × (lo ≤ℤ n))) }
{
    let Some(end) = constant(lo) else {
        return Ok(Live::Live);
    };
    let test = compared(known.alloc, Comparison::AtMost, end, m)?;
    keep_number(known, &test, true)
}

// Keeps the states in which numbers are not above another.
fn keep_to<D: NumDomain>(known: &mut Known<D>, m: MExpr, hi: i128) -> Result<Live, NoMemory>
    ensures shape { KeepsShape known.old known.new }
    ensures stands { IfOk result (λ live. KeepsEach D.admits known.old known.new live
        (λ objects s st. (n : ℤ) × (machine_value st.v (mexpr_tree m) ≡ Some n) × (n ≤ℤ hi))) }
{
    let Some(end) = constant(hi) else {
        return Ok(Live::Live);
    };
    let test = compared(known.alloc, Comparison::AtMost, m, end)?;
    keep_number(known, &test, true)
}

/// Keeps the states in which numbers lie between two others.
pub fn keep_between<D: NumDomain>(
    known: &mut Known<D>,
    m: MExpr,
    lo: i128,
    hi: i128,
) -> Result<Live, NoMemory>
    ensures shape { KeepsShape known.old known.new }
    ensures stands { IfOk result (λ live. KeepsEach D.admits known.old known.new live (λ objects s st. LiesBetween (mexpr_tree m) lo hi st.v)) }
{
    let copy = m.copy(known.alloc)?;
    match keep_from(known, lo, copy)? {
        Live::Live => keep_to(known, m, hi),
        Live::Dead => Ok(Live::Dead),
    }
}
