// What the operators on two values make of them, told by the types alone, so that only few ways lead out where
// the values are owned.
#![tactic(auto, using(c_syntax::proofs::TypeTrees::type_trees))]

ghost use Rattle.std.specs.Prelude.{◌≡◌, IfOk, IfSome, option_map};
ghost use Rattle.c_syntax.specs.Types.{ctype_tree};
ghost use Rattle.c_syntax.specs.Types as types;
ghost use Rattle.c_syntax.specs.TypedExpr.{texpr_tree};
ghost use Rattle.c_check_operators.specs.Forms.{binary_of};
ghost use Rattle.c_check_operators.specs.Forms as forms;

use crate::{as_int, balanced, binary_node};
use c_layout::promote;
use c_syntax::{CType, IntType, Pos, Shift, TBinaryOp, TExpr};
use std::alloc::{AllocError as NoMemory, Global};

/// An operator on two values.
#[derive(Clone, Copy)]
pub(crate) enum Form {
    /// On both at the balanced type of these two. The operator is one that works at that type.
    Balanced(TBinaryOp, IntType, IntType),
    /// A shift of a value of this type, at its promoted type.
    Shifted(Shift, IntType),
    /// On both as they are.
    Plain(TBinaryOp),
}

/// Two integer types.
pub(crate) fn ints_of(left: &CType, right: &CType) -> Option<(IntType, IntType)>
    ensures is { result ≡ forms.ints_of (ctype_tree left.now) (ctype_tree right.now) }
    ensures ints { IfSome result (λ ints. (ctype_tree left.now ≡ types.Int ints.0) × (ctype_tree right.now ≡ types.Int ints.1)) }
{
    match left {
        CType::Int(t) => match right {
            CType::Int(u) => Some((*t, *u)),
            CType::Void
            | CType::Pointer(_)
            | CType::Array(_, _)
            | CType::Struct(_)
            | CType::Function(_) => None,
        },
        CType::Void
        | CType::Pointer(_)
        | CType::Array(_, _)
        | CType::Struct(_)
        | CType::Function(_) => None,
    }
}

/// The node of an operator, where there is one.
pub(crate) fn row_of(
    alloc: Global,
    pos: Pos,
    form: Option<Form>,
    a: TExpr,
    b: TExpr,
) -> Result<Option<TExpr>, NoMemory>
    ensures { IfOk result (λ row. option_map texpr_tree row ≡ option_map (λ f. binary_of f pos (texpr_tree a) (texpr_tree b)) form) }
{
    match form {
        None => Ok(None),
        Some(form) => {
            let node = formed(alloc, pos, form, a, b)?;
            Ok(Some(node))
        }
    }
}

fn formed(alloc: Global, pos: Pos, form: Form, a: TExpr, b: TExpr) -> Result<TExpr, NoMemory>
    ensures { IfOk result (λ node. texpr_tree node ≡ binary_of form pos (texpr_tree a) (texpr_tree b)) }
{
    match form {
        Form::Balanced(op, t, u) => balanced(alloc, pos, op, (t, a), (u, b)),
        Form::Shifted(way, t) => {
            let target = promote(t);
            let a = as_int(alloc, target, t, a)?;
            binary_node(alloc, pos, TBinaryOp::Shift(way, target), a, b)
        }
        Form::Plain(op) => binary_node(alloc, pos, op, a, b),
    }
}
