// Copies of expressions, and of checks and calls.
#![tactic(auto, using(crate::proofs::CodeTrees::the_code_trees))]

ghost use Rattle.std.specs.Prelude.{◌≡◌, IfOk, map};
ghost use Rattle.csharp.specs.Trees.{cscall_tree, cscheck_tree, csexpr_tree};
ghost use Rattle.csharp.specs.Trees as trees;

use crate::expression::{CsCheck, CsExpr, CsExprs};
use crate::statement::CsCall;
use c_syntax::{IntType, TBinaryOp, TUnaryOp};
use std::alloc::{AllocError as NoMemory, Global};

/// The same expression once more.
#[cycle(copies)]
pub fn copy_expr(alloc: Global, expr: &CsExpr) -> Result<CsExpr, NoMemory>
    ensures { IfOk result (λ copy. csexpr_tree copy ≡ csexpr_tree expr.now) }
{
    match expr {
        CsExpr::Const { ty, value } => Ok(CsExpr::Const {
            ty: *ty,
            value: *value,
        }),
        CsExpr::Null => Ok(CsExpr::Null),
        CsExpr::Temp { temp } => Ok(CsExpr::Temp { temp: *temp }),
        CsExpr::Address { object } => Ok(CsExpr::Address { object: *object }),
        CsExpr::Unary { op, operand } => copy_unary(alloc, *op, operand),
        CsExpr::Binary { op, left, right } => copy_binary(alloc, *op, left, right),
        CsExpr::Convert { ty, operand } => copy_conversion(alloc, *ty, operand),
    }
}

#[cycle(copies)]
fn boxed(alloc: Global, expr: &CsExpr) -> Result<Box<CsExpr>, NoMemory>
    ensures { IfOk result (λ copy. csexpr_tree copy.value ≡ csexpr_tree expr.now) }
{
    let copy = copy_expr(alloc, expr)?;
    Ok(Box::new(alloc, copy)?)
}

#[cycle(copies)]
fn copy_unary(alloc: Global, op: TUnaryOp, operand: &CsExpr) -> Result<CsExpr, NoMemory>
    ensures { IfOk result (λ copy. csexpr_tree copy ≡ trees.Unary op (csexpr_tree operand.now)) }
{
    Ok(CsExpr::Unary {
        op,
        operand: boxed(alloc, operand)?,
    })
}

#[cycle(copies)]
fn copy_binary(
    alloc: Global,
    op: TBinaryOp,
    left: &CsExpr,
    right: &CsExpr,
) -> Result<CsExpr, NoMemory>
    ensures { IfOk result (λ copy. csexpr_tree copy ≡ trees.Binary op (csexpr_tree left.now) (csexpr_tree right.now)) }
{
    Ok(CsExpr::Binary {
        op,
        left: boxed(alloc, left)?,
        right: boxed(alloc, right)?,
    })
}

#[cycle(copies)]
fn copy_conversion(alloc: Global, ty: IntType, operand: &CsExpr) -> Result<CsExpr, NoMemory>
    ensures { IfOk result (λ copy. csexpr_tree copy ≡ trees.Convert ty (csexpr_tree operand.now)) }
{
    Ok(CsExpr::Convert {
        ty,
        operand: boxed(alloc, operand)?,
    })
}

/// The same expressions once more.
pub fn copy_exprs(alloc: Global, exprs: &CsExprs) -> Result<CsExprs, NoMemory>
    ensures { IfOk result (λ copy. map csexpr_tree copy ≡ map csexpr_tree exprs.now) }
{
    let mut items = Vec::new(alloc);
    for item in exprs.as_slice() {
        items.push(copy_expr(alloc, item)?)?;
    }
    Ok(CsExprs::from_vec(items))
}

/// The same check once more.
pub fn copy_check(alloc: Global, check: &CsCheck) -> Result<CsCheck, NoMemory>
    ensures { IfOk result (λ copy. cscheck_tree copy ≡ cscheck_tree check.now) }
{
    Ok(CsCheck {
        check: check.check,
        pos: check.pos,
        ty: check.ty,
        operands: copy_exprs(alloc, &check.operands)?,
    })
}

/// The same call once more.
pub fn copy_call(alloc: Global, call: &CsCall) -> Result<CsCall, NoMemory>
    ensures { IfOk result (λ copy. cscall_tree copy ≡ cscall_tree call.now) }
{
    Ok(CsCall {
        pos: call.pos,
        function: call.function,
        args: copy_exprs(alloc, &call.args)?,
        value: call.value,
        flag: call.flag,
    })
}
