// Operators on one value.
#![tactic(auto, using(c_syntax::proofs::Trees::the_trees))]

ghost use Rattle.std.specs.Prelude.{◌≡◌, IfOk, option_map};
ghost use Rattle.c_syntax.specs.Types.{ctype_tree};
ghost use Rattle.c_syntax.specs.TypedExpr.{texpr_tree};
ghost use Rattle.c_typing.specs.Rows as rows;
ghost use Rattle.c_check_operators.specs.ArithmeticViews.{sign_at};

use crate::{as_int, is_scalar, unary_node};
use c_layout::promote;
use c_syntax::{CType, IntType, Pos, TExpr, TUnaryOp};
use std::alloc::{AllocError as NoMemory, Global};

/// An operator on one integer.
#[derive(Clone, Copy, PartialEq, Eq)]
pub enum Sign {
    /// `+a`
    Plus,
    /// `-a`
    Minus,
    /// `~a`
    Complement,
}

fn op_at(sign: Sign, t: IntType) -> TUnaryOp
    ensures { result ≡ sign_at sign t }
{
    match sign {
        Sign::Plus => TUnaryOp::Plus(t),
        Sign::Minus => TUnaryOp::Minus(t),
        Sign::Complement => TUnaryOp::Complement(t),
    }
}

/// `+`, `-` and `~` on an integer, at its promoted type (C11 6.5.3.3p1 to p4).
pub fn unary_row(
    alloc: Global,
    sign: Sign,
    pos: Pos,
    ty: &CType,
    e: TExpr,
) -> Result<Option<TExpr>, NoMemory>
    ensures { IfOk result (λ row. option_map texpr_tree row ≡ rows.unary_row (sign_at sign) pos (ctype_tree ty.now) (texpr_tree e)) }
{
    match ty {
        CType::Int(t) => {
            let target = promote(*t);
            let e = as_int(alloc, target, *t, e)?;
            let node = unary_node(alloc, pos, op_at(sign, target), e)?;
            Ok(Some(node))
        }
        CType::Void
        | CType::Pointer(_)
        | CType::Array(_, _)
        | CType::Struct(_)
        | CType::Function(_) => Ok(None),
    }
}

/// `!` on a scalar (C11 6.5.3.3p1 and p5).
pub fn not_row(alloc: Global, pos: Pos, ty: &CType, e: TExpr) -> Result<Option<TExpr>, NoMemory>
    ensures { IfOk result (λ row. option_map texpr_tree row ≡ rows.not_row pos (ctype_tree ty.now) (texpr_tree e)) }
{
    if !is_scalar(ty) {
        return Ok(None);
    }
    let node = unary_node(alloc, pos, TUnaryOp::Not, e)?;
    Ok(Some(node))
}
