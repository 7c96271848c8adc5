// `&&` and `||`.
#![tactic(auto, using(c_syntax::proofs::Trees::the_trees))]

ghost use Rattle.std.specs.Prelude.{◌≡◌, IfOk, option_map};
ghost use Rattle.c_syntax.specs.Types.{ctype_tree};
ghost use Rattle.c_syntax.specs.TypedExpr.{texpr_tree};
ghost use Rattle.c_syntax.specs.TypedExpr as trees;
ghost use Rattle.c_typing.specs.Rows as rows;

use crate::is_scalar;
use c_syntax::{CType, Pos, TExpr};
use c_syntax_written::boxed;
use std::alloc::{AllocError as NoMemory, Global};

/// `&&` of two scalars (C11 6.5.13p2).
pub fn and_row(
    alloc: Global,
    pos: Pos,
    left: &CType,
    right: &CType,
    a: TExpr,
    b: TExpr,
) -> Result<Option<TExpr>, NoMemory>
    ensures { IfOk result (λ row. option_map texpr_tree row
        ≡ rows.logical_row (trees.And pos) (ctype_tree left.now) (ctype_tree right.now) (texpr_tree a) (texpr_tree b)) }
{
    if !(is_scalar(left) && is_scalar(right)) {
        return Ok(None);
    }
    let left = boxed(alloc, a)?;
    let right = boxed(alloc, b)?;
    Ok(Some(TExpr::And { pos, left, right }))
}

/// `||` of two scalars (C11 6.5.14p2).
pub fn or_row(
    alloc: Global,
    pos: Pos,
    left: &CType,
    right: &CType,
    a: TExpr,
    b: TExpr,
) -> Result<Option<TExpr>, NoMemory>
    ensures { IfOk result (λ row. option_map texpr_tree row
        ≡ rows.logical_row (trees.Or pos) (ctype_tree left.now) (ctype_tree right.now) (texpr_tree a) (texpr_tree b)) }
{
    if !(is_scalar(left) && is_scalar(right)) {
        return Ok(None);
    }
    let left = boxed(alloc, a)?;
    let right = boxed(alloc, b)?;
    Ok(Some(TExpr::Or { pos, left, right }))
}
