// Conditions that are assumed.
#![tactic(auto, using(csharp::proofs::CodeTrees::the_code_trees))]

ghost use Rattle.std.specs.Prelude.{◌≡◌, ◌≢◌, List, Some, false, true, IfOk, IsTrue};
ghost use Rattle.c_syntax.specs.Types.{ObjectTree};
ghost use Rattle.pointsets.specs.declared.Base.{Base as CBase};
ghost use Rattle.pointsets.specs.declared.Base.TheVariants.{Null};
ghost use Rattle.pointsets.specs.Targets.{has_base};
ghost use Rattle.block_mem.specs.declared.types.Value.{Value};
ghost use Rattle.c_values.specs.Values.{truth as truth_of};
ghost use Rattle.num_api.specs.Lives.{is_live};
ghost use Rattle.csharp.specs.Trees.{csexpr_tree};
ghost use Rattle.csharp.specs.States.{State, value_of};
ghost use Rattle.mem_cell_exprs.specs.Known.{StandsFor};
ghost use Rattle.mem_cell_shows.specs.Changes.{HasTruth, KeepsEach, KeepsShape};

use crate::addresses::is_address;
use crate::compares::keep_compared;
use crate::cuts::{null_of, without_null};
use crate::keeps::{keep_number, keep_set};
use c_syntax::{TBinaryOp, TUnaryOp};
use csharp::CsExpr;
use ext_int::Live;
use mem_cell_exprs::{Known, number, pointer};
use num_api::NumDomain;
use pointsets::Targets;
use std::alloc::{AllocError as NoMemory, Global};

// What a pointer of a truth may point to: null alone is false.
fn of_truth(alloc: Global, set: &Targets, truth: bool) -> Targets
    ensures { (b : CBase) → has_base set.now b ≡ true → (truth ≡ true → b ≢ Null) → (truth ≡ false → b ≡ Null) → has_base result b ≡ true }
{
    if truth {
        without_null(alloc, set)
    } else {
        null_of(alloc, set)
    }
}

/// Keeps the states in which a pointer has a truth.
pub fn keep_pointer<D: NumDomain>(
    known: &mut Known<D>,
    e: &CsExpr,
    truth: bool,
) -> Result<Live, NoMemory>
    ensures shape { KeepsShape known.old known.new }
    ensures stands { IfOk result (λ live. KeepsEach D.admits known.old known.new live (λ objects s st. HasTruth (csexpr_tree e.now) truth s)) }
{
    if !is_address(known.types.as_slice(), e) {
        return Ok(Live::Live);
    }
    let Some(place) = pointer(known, e)? else {
        return Ok(Live::Live);
    };
    let set = place.set.to_targets(known.alloc);
    let left = of_truth(known.alloc, &set, truth);
    keep_set(known, e, left)
}

/// Keeps the states in which a condition has a truth.
pub fn keep_condition<D: NumDomain>(
    known: &mut Known<D>,
    e: &CsExpr,
    truth: bool,
) -> Result<Live, NoMemory>
    ensures shape { KeepsShape known.old known.new }
    ensures stands { IfOk result (λ live. KeepsEach D.admits known.old known.new live (λ objects s st. HasTruth (csexpr_tree e.now) truth s)) }
{
    if let Some(m) = number(known.alloc, known.types.as_slice(), e)? {
        return keep_number(known, &m, truth);
    }
    match e {
        CsExpr::Unary { op, operand } => match op {
            TUnaryOp::Not => keep_condition(known, operand, !truth),
            TUnaryOp::Plus(_) | TUnaryOp::Minus(_) | TUnaryOp::Complement(_) => Ok(Live::Live),
        },
        CsExpr::Binary { op, left, right } => match op {
            TBinaryOp::ComparePointers(c) => keep_compared(known, *c, left, right, truth),
            _ => keep_pointer(known, e, truth),
        },
        CsExpr::Const { .. }
        | CsExpr::Null
        | CsExpr::Temp { .. }
        | CsExpr::Address { .. }
        | CsExpr::Convert { .. } => keep_pointer(known, e, truth),
    }
}

/// Keeps the states in which the condition has this truth; `Dead` only where there is none. What is known of objects stays.
pub fn assume<D: NumDomain>(
    known: &mut Known<D>,
    condition: &CsExpr,
    truth: bool,
) -> Result<Live, NoMemory>
    ensures shape { KeepsShape known.old known.new }
    ensures stands { IfOk result (λ live. (objects : List ObjectTree) (s : State) (v : Value) → StandsFor D.admits objects known.old s
        → value_of (csexpr_tree condition.now) s ≡ Some v → truth_of v ≡ truth → IsTrue (is_live live) × StandsFor D.admits objects known.new s) }
{
    keep_condition(known, condition, truth)
}
