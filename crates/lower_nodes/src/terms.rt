// Expressions of the analysed language.
#![tactic(auto, using(csharp::proofs::CodeTrees::the_code_trees))]

ghost use Rattle.std.specs.Prelude.{◌≡◌, ◌∷◌, [], IfOk, map};
ghost use Rattle.csharp.specs.Trees.{csexpr_tree};
ghost use Rattle.csharp.specs.Trees as trees;
ghost use Rattle.lower_trees.specs.Checking as checking;
ghost use Rattle.lower_trees.specs.LowerExpr as lowering;

use block_mem::Scalar;
use c_syntax::{Comparison, IntType, TBinaryOp, TUnaryOp};
use csharp::{CsExpr, CsExprs, copy_expr};
use std::alloc::{AllocError as NoMemory, Global};

/// A small number as an int.
pub fn number(n: u8) -> CsExpr
    ensures { csexpr_tree result ≡ lowering.number n }
{
    CsExpr::Const {
        ty: IntType::Int,
        value: i128::from(n),
    }
}

/// An operator on an operand.
pub fn unary(alloc: Global, op: TUnaryOp, operand: CsExpr) -> Result<CsExpr, NoMemory>
    ensures { IfOk result (λ e. csexpr_tree e ≡ trees.Unary op (csexpr_tree operand)) }
{
    let operand = Box::new(alloc, operand)?;
    Ok(CsExpr::Unary { op, operand })
}

/// An operator on two operands.
pub fn binary(alloc: Global, op: TBinaryOp, left: CsExpr, right: CsExpr) -> Result<CsExpr, NoMemory>
    ensures { IfOk result (λ e. csexpr_tree e ≡ trees.Binary op (csexpr_tree left) (csexpr_tree right)) }
{
    let left = Box::new(alloc, left)?;
    let right = Box::new(alloc, right)?;
    Ok(CsExpr::Binary { op, left, right })
}

/// An operator on two operands that stay.
pub fn binary_of(
    alloc: Global,
    op: TBinaryOp,
    left: &CsExpr,
    right: &CsExpr,
) -> Result<CsExpr, NoMemory>
    ensures { IfOk result (λ e. csexpr_tree e ≡ trees.Binary op (csexpr_tree left.now) (csexpr_tree right.now)) }
{
    let left = copy_expr(alloc, left)?;
    let right = copy_expr(alloc, right)?;
    binary(alloc, op, left, right)
}

/// A value at a scalar type: an integer is converted, and a pointer stays as it is.
pub fn to_scalar(alloc: Global, ty: Option<Scalar>, value: CsExpr) -> Result<CsExpr, NoMemory>
    ensures { IfOk result (λ e. csexpr_tree e ≡ lowering.to_scalar ty (csexpr_tree value)) }
{
    match ty {
        Some(Scalar::Int(ty)) => {
            let operand = Box::new(alloc, value)?;
            Ok(CsExpr::Convert { ty, operand })
        }
        Some(Scalar::Pointer) | None => Ok(value),
    }
}

/// The place of a member, so many bytes behind a place.
pub fn moved(alloc: Global, place: CsExpr, offset: u64) -> Result<CsExpr, NoMemory>
    ensures { IfOk result (λ e. csexpr_tree e ≡ checking.moved (csexpr_tree place) offset) }
{
    let step = CsExpr::Const {
        ty: IntType::Long,
        value: i128::from(offset),
    };
    binary(alloc, TBinaryOp::PointerPlusInt { element: 1 }, place, step)
}

/// The address of a byte of an object.
pub fn address_at(alloc: Global, object: u64, offset: u64) -> Result<CsExpr, NoMemory>
    ensures { IfOk result (λ e. csexpr_tree e ≡ checking.address_at object offset) }
{
    if offset == 0 {
        Ok(CsExpr::Address { object })
    } else {
        moved(alloc, CsExpr::Address { object }, offset)
    }
}

/// What an `If` looks at: an integer itself, and whether a pointer is not null.
pub fn test_value(alloc: Global, ty: Option<Scalar>, value: CsExpr) -> Result<CsExpr, NoMemory>
    ensures { IfOk result (λ e. csexpr_tree e ≡ checking.test_value ty (csexpr_tree value)) }
{
    match ty {
        Some(Scalar::Pointer) => binary(
            alloc,
            TBinaryOp::ComparePointers(Comparison::Unequal),
            value,
            CsExpr::Null,
        ),
        Some(Scalar::Int(_)) | None => Ok(value),
    }
}

/// A list with a copy of one expression.
pub fn one_operand(alloc: Global, e: &CsExpr) -> Result<CsExprs, NoMemory>
    ensures { IfOk result (λ es. map csexpr_tree es ≡ csexpr_tree e.now ∷ []) }
{
    let mut items = Vec::new(alloc);
    items.push(copy_expr(alloc, e)?)?;
    Ok(CsExprs::from_vec(items))
}

/// A list with copies of two expressions.
pub fn two_operands(alloc: Global, a: &CsExpr, b: &CsExpr) -> Result<CsExprs, NoMemory>
    ensures { IfOk result (λ es. map csexpr_tree es ≡ csexpr_tree a.now ∷ csexpr_tree b.now ∷ []) }
{
    let mut items = Vec::new(alloc);
    items.push(copy_expr(alloc, a)?)?;
    items.push(copy_expr(alloc, b)?)?;
    Ok(CsExprs::from_vec(items))
}
