// `op=`, `++` and `--`: the old value stands in one temporary, and what the operator gives in the next.
#![tactic(auto, using(csharp::proofs::CodeTrees::the_code_trees))]

ghost use Rattle.std.specs.Prelude.{◌≡◌, ◌<◌, ◌^◌, suc, max, IfOk};
ghost use Rattle.csharp.specs.Trees.{csexpr_tree, csstmt_tree};
ghost use Rattle.c_values.specs.Typed.{binary_type};
ghost use Rattle.csharp.specs.Trees as trees;
ghost use Rattle.lower_trees.specs.Checking as checking;
ghost use Rattle.lower_trees.specs.LowerExpr as lowering;
ghost use Rattle.lower_trees.specs.Temps as temps;
ghost use Rattle.lower_nodes.specs.Parts.{part_tree};

use crate::lists::{binary_list, load_list, store_list};
use crate::numbers::temp_at;
use crate::operators::{binary_scalar, left_type, step_one};
use crate::part::Part;
use crate::steps::{in_turn, sequence};
use crate::terms::{binary, to_scalar};
use block_mem::Scalar;
use c_syntax::{Pos, StepTime, Stride, TBinaryOp};
use csharp::{CsExpr, CsStmt, copy_expr};
use std::alloc::{AllocError as NoMemory, Global};

/// How a place is changed: where the operator and the place stand, the type of what stands in the place, the operator,
/// and whether the old or the new value is given.
#[derive(Clone, Copy)]
pub struct Change {
    pub at: Pos,
    pub at_place: Pos,
    pub ty: Scalar,
    pub op: TBinaryOp,
    pub time: StepTime,
}

// The operator behind its checks, and the store of what it gives behind those of the place.
fn operate(
    alloc: Global,
    change: Change,
    d: u64,
    place: CsExpr,
    right: CsExpr,
) -> Result<CsStmt, NoMemory>
    requires { d < 2 ^ 62 }
    ensures { IfOk result (λ s. csstmt_tree s
        ≡ trees.Sequence (checking.checks (checking.binary_list change.at change.op (lowering.changed_left change.op change.ty d) (csexpr_tree right)))
        (trees.Sequence (trees.Set (temps.temp_at (suc d) (binary_type change.op)) (trees.Binary change.op (lowering.changed_left change.op change.ty d) (csexpr_tree right)))
        (trees.Sequence (checking.checks (checking.store_list change.at_place change.ty (csexpr_tree place))) (trees.Store change.ty (csexpr_tree place) (lowering.changed_new change.op change.ty d))))) }
{
    let old = CsExpr::Temp {
        temp: temp_at(d, change.ty)?,
    };
    let temp = temp_at(d + 1, binary_scalar(change.op))?;
    let left = to_scalar(alloc, left_type(change.op, change.ty), old)?;
    let checks = binary_list(alloc, change.at, change.op, &left, &right)?;
    let stored = put_back(alloc, change, temp, place)?;
    let value = binary(alloc, change.op, left, right)?;
    in_turn(alloc, checks, CsStmt::Set { temp, value }, stored)
}

// What stands in a temporary is stored at the place's type, behind the checks of the place.
fn put_back(alloc: Global, change: Change, temp: u64, place: CsExpr) -> Result<CsStmt, NoMemory>
    ensures { IfOk result (λ s. csstmt_tree s
        ≡ trees.Sequence (checking.checks (checking.store_list change.at_place change.ty (csexpr_tree place))) (trees.Store change.ty (csexpr_tree place) (lowering.to_scalar (Some change.ty) (trees.Temp temp)))) }
{
    let checks = store_list(alloc, change.at_place, change.ty, &place)?;
    let value = to_scalar(alloc, Some(change.ty), CsExpr::Temp { temp })?;
    let store = CsStmt::Store {
        ty: change.ty,
        address: place,
        value,
    };
    sequence(alloc, checks, store)
}

// The load of the old value, and all behind it.
fn changed(
    alloc: Global,
    change: Change,
    d: u64,
    place: CsExpr,
    right: CsExpr,
) -> Result<CsStmt, NoMemory>
    requires { d < 2 ^ 62 }
    ensures { IfOk result (λ s. csstmt_tree s
        ≡ lowering.change change.at change.at_place change.ty change.op d (csexpr_tree place) (csexpr_tree right)) }
{
    let temp = temp_at(d, change.ty)?;
    let checks = load_list(alloc, change.at_place, change.ty, &place)?;
    let address = copy_expr(alloc, &place)?;
    let load = CsStmt::Load {
        temp,
        ty: change.ty,
        address,
    };
    let rest = operate(alloc, change, d, place, right)?;
    in_turn(alloc, checks, load, rest)
}

// The value that a change gives.
fn given(alloc: Global, change: Change, d: u64) -> Result<CsExpr, NoMemory>
    requires { d < 2 ^ 62 }
    ensures { IfOk result (λ e. csexpr_tree e
        ≡ lowering.given_term change.time (trees.Temp (temps.temp_at d change.ty)) (lowering.changed_new change.op change.ty d)) }
{
    match change.time {
        StepTime::Before => {
            let temp = temp_at(d + 1, binary_scalar(change.op))?;
            to_scalar(alloc, Some(change.ty), CsExpr::Temp { temp })
        }
        StepTime::After => {
            let temp = temp_at(d, change.ty)?;
            Ok(CsExpr::Temp { temp })
        }
    }
}

// A change of a place, behind a statement; `top` is how many rows are used before it.
fn of_change(
    alloc: Global,
    change: Change,
    before: CsStmt,
    d: u64,
    top: u64,
    place: CsExpr,
    right: CsExpr,
) -> Result<Part, NoMemory>
    ensures { IfOk result (λ l. part_tree l
        ≡ lowering.of_change change.at change.at_place change.ty change.op change.time (csstmt_tree before) d top (csexpr_tree place) (csexpr_tree right)) }
{
    let _room = temp_at(d, change.ty)?;
    let change_code = changed(alloc, change, d, place, right)?;
    let before = sequence(alloc, before, change_code)?;
    let value = given(alloc, change, d)?;
    Ok(Part {
        before,
        value,
        next: d + 2,
        top: (d + 2).max(top),
    })
}

/// A change of a place by a value, behind both.
pub fn of_compound(
    alloc: Global,
    change: Change,
    place: Part,
    value: Part,
) -> Result<Part, NoMemory>
    ensures { IfOk result (λ l. part_tree l
        ≡ lowering.of_change change.at change.at_place change.ty change.op change.time
        (trees.Sequence (part_tree place).before (part_tree value).before) (part_tree value).next (max (part_tree place).top (part_tree value).top)
        (part_tree place).value (part_tree value).value) }
{
    let top = place.top.max(value.top);
    let next = value.next;
    let before = sequence(alloc, place.before, value.before)?;
    of_change(alloc, change, before, next, top, place.value, value.value)
}

/// A change of a place by one step.
pub fn of_step(alloc: Global, change: Change, stride: Stride, place: Part) -> Result<Part, NoMemory>
    ensures { IfOk result (λ l. part_tree l
        ≡ lowering.of_change change.at change.at_place change.ty change.op change.time
        (part_tree place).before (part_tree place).next (part_tree place).top (part_tree place).value (lowering.step_one stride)) }
{
    let Part {
        before,
        value,
        next,
        top,
    } = place;
    of_change(alloc, change, before, next, top, value, step_one(stride))
}
