// The offset of an address that is moved by constants.
#![tactic(auto, using(csharp::proofs::CodeTrees::the_code_trees))]

ghost use Rattle.std.specs.Prelude.{◌≡◌, ◌≤ℤ◌, ◌+ℤ◌, ◌*ℤ◌, ◌^◌, neg_ℤ, pos, IfSome, IfOk, OnOk, Some};
ghost use Rattle.std.specs.Int.RustNames.{FitsSigned};
ghost use mir.Syntax.{w128};
ghost use Rattle.csharp.specs.Formed.{AreOperandsTyped};
ghost use Rattle.csharp.specs.Trees.{CsProgramTree, csexpr_tree};
ghost use Rattle.mem_api.specs.Named.{Fixed, fixed_at};
ghost use Rattle.mem_places.specs.Places.{step_at, signed, offset_of, both_offsets, Adds};

use crate::places::constant;
use crate::sums::Sum;
use c_syntax::TBinaryOp;
use csharp::CsExpr;
use std::alloc::{AllocError as NoMemory, Global};

// Adds all steps of an address, where all are constants.
#[cycle(adds)]
fn add_steps(sum: &mut Sum, e: &CsExpr) -> Result<bool, NoMemory>
    requires { (q : CsProgramTree) × AreOperandsTyped q (csexpr_tree e.now) }
    ensures { IfOk result (λ all. Adds (offset_of (csexpr_tree e.now)) sum.old all sum.new) }
{
    match e {
        CsExpr::Address { .. } => Ok(true),
        CsExpr::Binary { op, left, right } => match op {
            TBinaryOp::PointerPlusInt { element } => add_moved(sum, *element, left, right, false),
            TBinaryOp::IntPlusPointer { element } => add_moved(sum, *element, right, left, false),
            TBinaryOp::PointerMinusInt { element } => add_moved(sum, *element, left, right, true),
            TBinaryOp::Arithmetic(_, _)
            | TBinaryOp::Shift(_, _)
            | TBinaryOp::CompareInts(_, _)
            | TBinaryOp::ComparePointers(_)
            | TBinaryOp::PointerMinusPointer { .. } => Ok(false),
        },
        CsExpr::Const { .. }
        | CsExpr::Null
        | CsExpr::Temp { .. }
        | CsExpr::Unary { .. }
        | CsExpr::Convert { .. } => Ok(false),
    }
}

// Adds the steps of an address, and one up or down by so many elements, where all are constants.
#[cycle(adds)]
fn add_moved(
    sum: &mut Sum,
    size: u64,
    base: &CsExpr,
    count: &CsExpr,
    down: bool,
) -> Result<bool, NoMemory>
    requires base { (q : CsProgramTree) × AreOperandsTyped q (csexpr_tree base.now) }
    requires count { (q : CsProgramTree) × AreOperandsTyped q (csexpr_tree count.now) }
    ensures { IfOk result (λ all. Adds (both_offsets (offset_of (csexpr_tree base.now)) (step_at down size (csexpr_tree count.now))) sum.old all sum.new) }
{
    if !add_steps(sum, base)? {
        return Ok(false);
    }
    match constant(count) {
        Some(n) => {
            add_step(sum, size, n, down)?;
            Ok(true)
        }
        None => Ok(false),
    }
}

// Adds so many elements, or takes them away.
fn add_step(sum: &mut Sum, size: u64, n: i128, down: bool) -> Result<(), NoMemory>
    requires low { neg_ℤ (pos (2 ^ 64)) ≤ℤ n }
    requires high { n ≤ℤ pos (2 ^ 64) }
    ensures { OnOk result (sum.new ≡ (sum.old +ℤ signed down (pos size *ℤ n))) }
{
    if down {
        sum.add_times(size, -n)
    } else {
        sum.add_times(size, n)
    }
}

/// The offset of an address that is moved by constants alone, where that is an `i128`.
pub fn fixed_offset(alloc: Global, e: &CsExpr) -> Result<Option<i128>, NoMemory>
    requires { (q : CsProgramTree) × AreOperandsTyped q (csexpr_tree e.now) }
    ensures offset { IfOk result (λ o. IfSome o (λ k. (f : Fixed) × (fixed_at (csexpr_tree e.now) ≡ Some f) × (f.offset ≡ k))) }
    ensures fixed { IfOk result (λ o. (f : Fixed) → fixed_at (csexpr_tree e.now) ≡ Some f → FitsSigned w128 f.offset → o ≡ Some f.offset) }
{
    let mut sum = Sum::new(alloc);
    if !add_steps(&mut sum, e)? {
        return Ok(None);
    }
    Ok(sum.total())
}
