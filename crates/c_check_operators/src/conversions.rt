// Values brought to a type. A conversion stands as a node only where the type changes.
#![tactic(auto, using(c_syntax::proofs::Trees::the_trees))]

ghost use Rattle.std.specs.Prelude.{◌≡◌, IfOk};
ghost use Rattle.c_syntax.specs.Types.{ctype_tree};
ghost use Rattle.c_syntax.specs.TypedExpr.{texpr_tree};
ghost use Rattle.c_syntax.specs.TypedExpr as trees;
ghost use Rattle.c_layout.specs.Conversion as conversion;
ghost use Rattle.c_syntax.specs.TypedParts.{texpr_type};
ghost use Rattle.c_typing.specs.Operands as operands;
ghost use Rattle.c_typing.specs.Rows as rows;
ghost use Rattle.c_typing.specs.SameTypes as same_types;

use crate::types::is_same;
use c_layout::balance;
use c_syntax::{CType, IntType, Pos, TBinaryOp, TExpr, TUnaryOp};
use c_syntax_written::boxed;
use std::alloc::{AllocError as NoMemory, Global};

/// The conversion of a value to this type, as a node at this place.
pub fn convert_node(alloc: Global, pos: Pos, ty: CType, e: TExpr) -> Result<TExpr, NoMemory>
    ensures { IfOk result (λ node. texpr_tree node ≡ trees.Convert pos (ctype_tree ty) (texpr_tree e)) }
{
    let operand = boxed(alloc, e)?;
    Ok(TExpr::Convert { pos, ty, operand })
}

/// An operator on one value.
pub fn unary_node(alloc: Global, pos: Pos, op: TUnaryOp, e: TExpr) -> Result<TExpr, NoMemory>
    ensures { IfOk result (λ node. texpr_tree node ≡ trees.Unary pos op (texpr_tree e)) }
{
    let operand = boxed(alloc, e)?;
    Ok(TExpr::Unary { pos, op, operand })
}

/// An operator on two values.
pub fn binary_node(
    alloc: Global,
    pos: Pos,
    op: TBinaryOp,
    a: TExpr,
    b: TExpr,
) -> Result<TExpr, NoMemory>
    ensures { IfOk result (λ node. texpr_tree node ≡ trees.Binary pos op (texpr_tree a) (texpr_tree b)) }
{
    let left = boxed(alloc, a)?;
    let right = boxed(alloc, b)?;
    Ok(TExpr::Binary {
        pos,
        op,
        left,
        right,
    })
}

/// An integer of type `from` as one of type `target` (C11 6.3.1.3).
pub fn as_int(alloc: Global, target: IntType, from: IntType, e: TExpr) -> Result<TExpr, NoMemory>
    ensures { IfOk result (λ value. texpr_tree value ≡ operands.as_int target from (texpr_tree e)) }
{
    if target == from {
        return Ok(e);
    }
    let pos = e.pos();
    convert_node(alloc, pos, CType::Int(target), e)
}

/// A value as one of this type.
pub fn as_type(alloc: Global, target: &CType, e: TExpr) -> Result<TExpr, NoMemory>
    ensures { IfOk result (λ value. texpr_tree value ≡ operands.as_type (ctype_tree target.now) (texpr_tree e)) }
{
    let pos = e.pos();
    cast_node(alloc, pos, target, e)
}

/// A value as one of this type, which is a node at this place only where the type changes.
pub(crate) fn cast_node(
    alloc: Global,
    pos: Pos,
    target: &CType,
    e: TExpr,
) -> Result<TExpr, NoMemory>
    ensures { IfOk result (λ node. texpr_tree node ≡ rows.cast_node pos (ctype_tree target.now) (texpr_tree e)) }
{
    if has_type(target, &e)? {
        return Ok(e);
    }
    let target = target.copy()?;
    convert_node(alloc, pos, target, e)
}

// Whether a value is of this type.
fn has_type(target: &CType, e: &TExpr) -> Result<bool, NoMemory>
    ensures { IfOk result (λ same. same ≡ same_types.is_same (ctype_tree target.now) (texpr_type (texpr_tree e.now))) }
{
    let ty = e.ty()?;
    Ok(is_same(target, &ty))
}

/// A null pointer constant as a pointer of this type (C11 6.3.2.3p3).
pub fn as_null(target: &CType, e: TExpr) -> Result<TExpr, NoMemory>
    ensures { IfOk result (λ null. texpr_tree null ≡ operands.as_null (ctype_tree target.now) (texpr_tree e)) }
{
    let pos = e.pos();
    let ty = target.copy()?;
    Ok(TExpr::Null { pos, ty })
}

/// An operator on two integers of these types, each brought to their balanced type (C11 6.3.1.8p1). The
/// operator is one that works at that type.
pub fn balanced(
    alloc: Global,
    pos: Pos,
    op: TBinaryOp,
    left: (IntType, TExpr),
    right: (IntType, TExpr),
) -> Result<TExpr, NoMemory>
    ensures { IfOk result (λ node. texpr_tree node ≡ trees.Binary pos op
        (operands.as_int (conversion.balanced left.0 right.0) left.0 (texpr_tree left.1))
        (operands.as_int (conversion.balanced left.0 right.0) right.0 (texpr_tree right.1))) }
{
    let (t, a) = left;
    let (u, b) = right;
    let target = balance(t, u);
    let a = as_int(alloc, target, t, a)?;
    let b = as_int(alloc, target, u, b)?;
    binary_node(alloc, pos, op, a, b)
}
