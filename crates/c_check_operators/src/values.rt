// The values of expressions that are constant.
#![tactic(auto, using(c_syntax::proofs::TypeTrees::type_trees, c_syntax::proofs::TypedExprTrees::typed_expr_trees, crate::proofs::Equations::the_values))]

ghost use Rattle.std.specs.Prelude.{◌≡◌, IfOk};
ghost use Rattle.c_syntax.specs.Types.{ctype_tree};
ghost use Rattle.c_syntax.specs.TypedExpr.{texpr_tree};
ghost use Rattle.c_syntax.specs.TypedExpr as trees;
ghost use Rattle.c_syntax.specs.TypedParts.{texpr_type};
ghost use Rattle.c_syntax_written.specs.declared.place.Pos.{Pos};
ghost use Rattle.c_typing.specs.Constants as constants;

use crate::is_void;
use crate::operators::{
    and_constant, binary_constant, chosen_constant, converted_constant, or_constant, unary_constant,
};
use c_syntax::{CType, TBinaryOp, TExpr, TUnaryOp};
use std::alloc::AllocError as NoMemory;

/// The value of an integer constant expression (C11 6.6p6), or `None` where the expression is none or a node
/// of it goes wrong.
pub fn constant_value(e: &TExpr) -> Result<Option<i128>, NoMemory>
    ensures { IfOk result (λ value. value ≡ constants.constant_value (texpr_tree e.now)) }
{
    match e {
        TExpr::Const { value, .. } => Ok(Some(*value)),
        TExpr::Unary { op, operand, .. } => {
            let value = constant_value(operand)?;
            unary_value(*op, operand, value)
        }
        TExpr::Binary {
            op,
            left,
            right,
            ..
        } => {
            let a = constant_value(left)?;
            let b = constant_value(right)?;
            binary_value(*op, left, right, a, b)
        }
        TExpr::Convert { ty, operand, .. } => {
            let value = constant_value(operand)?;
            Ok(converted_constant(ty, value))
        }
        TExpr::And { left, right, .. } => {
            let a = constant_value(left)?;
            let b = constant_value(right)?;
            Ok(and_constant(a, b))
        }
        TExpr::Or { left, right, .. } => {
            let a = constant_value(left)?;
            let b = constant_value(right)?;
            Ok(or_constant(a, b))
        }
        TExpr::Cond {
            ty,
            condition,
            then,
            otherwise,
            ..
        } => {
            let test = constant_value(condition)?;
            let a = constant_value(then)?;
            let b = constant_value(otherwise)?;
            Ok(chosen_constant(ty, test, a, b))
        }
        TExpr::Null { .. }
        | TExpr::Load { .. }
        | TExpr::AddressOf { .. }
        | TExpr::Decay { .. }
        | TExpr::Whole { .. }
        | TExpr::Assign { .. }
        | TExpr::AssignStruct { .. }
        | TExpr::Compound { .. }
        | TExpr::Step { .. }
        | TExpr::Comma { .. }
        | TExpr::Call { .. }
        | TExpr::Any { .. }
        | TExpr::Assume { .. }
        | TExpr::Assert { .. } => Ok(None),
    }
}

// An operator on the value of an operand.
fn unary_value(op: TUnaryOp, operand: &TExpr, value: Option<i128>) -> Result<Option<i128>, NoMemory>
    ensures { IfOk result (λ n. n ≡ constants.unary_constant op (texpr_type (texpr_tree operand.now)) value) }
{
    let ty = operand.ty()?;
    Ok(unary_constant(op, &ty, value))
}

// An operator on the values of two operands.
fn binary_value(
    op: TBinaryOp,
    left: &TExpr,
    right: &TExpr,
    a: Option<i128>,
    b: Option<i128>,
) -> Result<Option<i128>, NoMemory>
    ensures { IfOk result (λ n. n
        ≡ constants.binary_constant op (texpr_type (texpr_tree left.now)) (texpr_type (texpr_tree right.now)) a b) }
{
    let t = left.ty()?;
    let u = right.ty()?;
    Ok(binary_constant(op, &t, &u, a, b))
}

// Whether it is a constant expression of value 0.
fn is_zero(e: &TExpr) -> Result<bool, NoMemory>
    ensures { IfOk result (λ zero. zero ≡ constants.is_zero (texpr_tree e.now)) }
{
    match constant_value(e)? {
        None => Ok(false),
        Some(value) => Ok(value == 0),
    }
}

/// Whether it is a null pointer constant: an integer constant expression of value 0, also cast to `void *`
/// (C11 6.3.2.3p3).
pub fn is_null_constant(e: &TExpr) -> Result<bool, NoMemory>
    ensures { IfOk result (λ null. null ≡ constants.is_null_constant (texpr_tree e.now)) }
{
    match e {
        TExpr::Null { ty, .. } => Ok(is_void_pointer(ty)),
        TExpr::Const { .. }
        | TExpr::Load { .. }
        | TExpr::AddressOf { .. }
        | TExpr::Decay { .. }
        | TExpr::Whole { .. }
        | TExpr::Unary { .. }
        | TExpr::Binary { .. }
        | TExpr::Convert { .. }
        | TExpr::Assign { .. }
        | TExpr::AssignStruct { .. }
        | TExpr::Compound { .. }
        | TExpr::Step { .. }
        | TExpr::And { .. }
        | TExpr::Or { .. }
        | TExpr::Cond { .. }
        | TExpr::Comma { .. }
        | TExpr::Call { .. }
        | TExpr::Any { .. }
        | TExpr::Assume { .. }
        | TExpr::Assert { .. } => {
            let zero = is_zero(e)?;
            Ok(zero)
        }
    }
}

// Whether it is `void *`, of which a null pointer is a null pointer constant.
fn is_void_pointer(ty: &CType) -> bool
    ensures { (at : Pos) → result ≡ constants.is_null_constant (trees.Null at (ctype_tree ty.now)) }
{
    match ty {
        CType::Pointer(to) => !to.is_const && is_void(&to.ty),
        CType::Void | CType::Int(_) | CType::Array(_, _) | CType::Struct(_) | CType::Function(_) =>
            false,
    }
}
