// `=`, `op=`, `++` and `--`.
#![tactic(auto)]

ghost use Rattle.std.specs.Prelude.{◌≡◌, map};
ghost use Rattle.c_syntax.specs.TypedExpr.{texpr_tree};
ghost use Rattle.c_syntax.specs.TypedExpr as trees;
ghost use Rattle.c_syntax.specs.Program.{structdef_tree};
ghost use Rattle.c_typing.specs.Nodes as nodes;
ghost use Rattle.c_typing.specs.World.{World};
ghost use Rattle.c_check_operators.specs.OperandViews.{operand_tree};
ghost use Rattle.c_check_names.specs.Views.{Answers};
ghost use Rattle.c_check_operators.specs.StoreViews.{stored_tree};

use crate::place::{compound_node, modifiable, step_node, store_node};
use c_check_names::{TypeError, no_rule};
use c_check_operators::{
    Compound, Operand, Stored, compound_row, step_row, stored_row, value_type,
};
use c_syntax::{AssignOp, Op, Pos, StepTime, StepWay, Stride, StructDefs, TExpr};
use std::alloc::Global;

/// `=` of a typed operand and a typed value. Where no row has their types it is NoRule; where the operand may
/// not be changed, NotLvalue; both at the operator.
pub fn assigned(
    alloc: Global,
    structs: &StructDefs,
    pos: Pos,
    operand: Operand,
    e: TExpr,
) -> Result<Operand, TypeError>
    ensures { (w : World) → w.structs ≡ map structdef_tree structs.now
        → Answers (λ out. out ≡ nodes.assigned w pos (operand_tree operand) (texpr_tree e)) operand_tree w result }
{
    let target = value_type(alloc, &operand)?;
    let ty = e.ty()?;
    match stored_row(alloc, structs, &target, &ty, e)? {
        None => Err(no_rule(alloc, structs, pos, Op::Assign, target, Some(ty))),
        Some(stored) => store(alloc, pos, operand, stored),
    }
}

// A row's store in a place that may be changed.
fn store(alloc: Global, pos: Pos, operand: Operand, stored: Stored) -> Result<Operand, TypeError>
    ensures { (w : World) → Answers (λ out. out ≡ nodes.on_modifiable pos (operand_tree operand) (nodes.store_node pos (stored_tree stored)) w)
        operand_tree w result }
{
    match modifiable(pos, operand) {
        Err(error) => Err(error),
        Ok(place) => {
            let node = store_node(alloc, pos, stored, place)?;
            Ok(Operand::Value(node))
        }
    }
}

/// `op=` of a typed operand and a typed value, refused as `assigned` is.
pub fn compound(
    alloc: Global,
    structs: &StructDefs,
    pos: Pos,
    op: AssignOp,
    operand: Operand,
    e: TExpr,
) -> Result<Operand, TypeError>
    ensures { (w : World) → w.structs ≡ map structdef_tree structs.now
        → Answers (λ out. out ≡ nodes.compound w pos op (operand_tree operand) (texpr_tree e)) operand_tree w result }
{
    let target = value_type(alloc, &operand)?;
    let ty = e.ty()?;
    match compound_row(alloc, structs, op, &target, &ty, e)? {
        None => Err(no_rule(alloc, structs, pos, assign_op(op), target, Some(ty))),
        Some(row) => operate(alloc, pos, operand, row),
    }
}

// A row's operator on a place that may be changed.
fn operate(alloc: Global, pos: Pos, operand: Operand, row: Compound) -> Result<Operand, TypeError>
    ensures { (w : World) → Answers (λ out. out ≡ nodes.on_modifiable pos (operand_tree operand)
        (λ place. trees.Compound pos row.op place (texpr_tree row.value)) w) operand_tree w result }
{
    match modifiable(pos, operand) {
        Err(error) => Err(error),
        Ok(place) => {
            let node = compound_node(alloc, pos, row.op, place, row.value)?;
            Ok(Operand::Value(node))
        }
    }
}

/// `++` or `--` of a typed operand, refused as `assigned` is.
pub fn stepped(
    alloc: Global,
    structs: &StructDefs,
    pos: Pos,
    time: StepTime,
    way: StepWay,
    operand: Operand,
) -> Result<Operand, TypeError>
    ensures { (w : World) → w.structs ≡ map structdef_tree structs.now
        → Answers (λ out. out ≡ nodes.stepped w pos time way (operand_tree operand)) operand_tree w result }
{
    let ty = value_type(alloc, &operand)?;
    match step_row(structs, &ty) {
        None => Err(no_rule(alloc, structs, pos, step_op(way), ty, None)),
        Some(stride) => step(alloc, pos, time, way, operand, stride),
    }
}

// A step of a place that may be changed.
fn step(
    alloc: Global,
    pos: Pos,
    time: StepTime,
    way: StepWay,
    operand: Operand,
    stride: Stride,
) -> Result<Operand, TypeError>
    ensures { (w : World) → Answers (λ out. out ≡ nodes.on_modifiable pos (operand_tree operand)
        (λ place. trees.Step pos time way stride place) w) operand_tree w result }
{
    match modifiable(pos, operand) {
        Err(error) => Err(error),
        Ok(place) => {
            let node = step_node(alloc, pos, time, way, stride, place)?;
            Ok(Operand::Value(node))
        }
    }
}

// The operators as refusals print them.
fn assign_op(op: AssignOp) -> Op
    ensures { result ≡ nodes.assign_op op }
{
    match op {
        AssignOp::Multiply => Op::AssignMultiply,
        AssignOp::Divide => Op::AssignDivide,
        AssignOp::Remainder => Op::AssignRemainder,
        AssignOp::Plus => Op::AssignPlus,
        AssignOp::Minus => Op::AssignMinus,
        AssignOp::ShiftLeft => Op::AssignShiftLeft,
        AssignOp::ShiftRight => Op::AssignShiftRight,
        AssignOp::BitAnd => Op::AssignBitAnd,
        AssignOp::BitXor => Op::AssignBitXor,
        AssignOp::BitOr => Op::AssignBitOr,
    }
}

fn step_op(way: StepWay) -> Op
    ensures { result ≡ nodes.step_op way }
{
    match way {
        StepWay::Up => Op::Increment,
        StepWay::Down => Op::Decrement,
    }
}
