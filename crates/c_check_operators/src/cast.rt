// Casts.
#![tactic(auto, using(c_syntax::proofs::TypeTrees::type_trees))]

ghost use Rattle.std.specs.Prelude.{◌≡◌, IfOk, option_map};
ghost use Rattle.c_syntax.specs.Types.{ctype_tree};
ghost use Rattle.c_syntax.specs.TypedExpr.{texpr_tree};
ghost use Rattle.c_typing.specs.Rows as rows;
ghost use Rattle.c_check_operators.specs.Forms.{cast_of};

use crate::conversions::cast_node;
use crate::{convert_node, is_null_constant};
use c_syntax::{CType, Pos, TExpr};
use std::alloc::{AllocError as NoMemory, Global};

/// A cast of a value of type `ty` to the type `target`: any to void, integers, pointers, and a null pointer
/// constant to a pointer (C11 6.5.4p2 and p3). It is a node only where the type changes, or is void.
pub fn cast_row(
    alloc: Global,
    pos: Pos,
    target: &CType,
    ty: &CType,
    e: TExpr,
) -> Result<Option<TExpr>, NoMemory>
    ensures { IfOk result (λ row. option_map texpr_tree row ≡ rows.cast_row pos (ctype_tree target.now) (ctype_tree ty.now) (texpr_tree e)) }
{
    match cast_form(target, ty, &e)? {
        None => Ok(None),
        Some(form) => {
            let node = cast_as(alloc, pos, form, target, e)?;
            Ok(Some(node))
        }
    }
}

/// What a cast makes of a value.
#[derive(Clone, Copy)]
enum Cast {
    /// To void, which drops the value.
    Dropped,
    /// Between types of one kind.
    Same,
    /// Of a null pointer constant to a pointer.
    Null,
}

// The value that is cast to this type.
#[tactic(auto, using(c_syntax::proofs::Trees::the_trees))]
fn cast_as(alloc: Global, pos: Pos, form: Cast, target: &CType, e: TExpr) -> Result<TExpr, NoMemory>
    ensures { IfOk result (λ node. texpr_tree node ≡ cast_of form pos (ctype_tree target.now) (texpr_tree e)) }
{
    match form {
        Cast::Dropped => convert_node(alloc, pos, CType::Void, e.not_used()),
        Cast::Same => cast_node(alloc, pos, target, e),
        Cast::Null => {
            let ty = target.copy()?;
            Ok(TExpr::Null { pos, ty })
        }
    }
}

fn cast_form(target: &CType, ty: &CType, e: &TExpr) -> Result<Option<Cast>, NoMemory>
    ensures { IfOk result (λ form. (at : Pos) → option_map (λ f. cast_of f at (ctype_tree target.now) (texpr_tree e.now)) form
        ≡ rows.cast_row at (ctype_tree target.now) (ctype_tree ty.now) (texpr_tree e.now)) }
{
    match target {
        CType::Void => Ok(Some(Cast::Dropped)),
        CType::Int(_) => match ty {
            CType::Int(_) => Ok(Some(Cast::Same)),
            CType::Void
            | CType::Pointer(_)
            | CType::Array(_, _)
            | CType::Struct(_)
            | CType::Function(_) => Ok(None),
        },
        CType::Pointer(_) => match ty {
            CType::Pointer(_) => Ok(Some(Cast::Same)),
            CType::Int(_) => if is_null_constant(e)? {
                Ok(Some(Cast::Null))
            } else {
                Ok(None)
            },
            CType::Void | CType::Array(_, _) | CType::Struct(_) | CType::Function(_) => Ok(None),
        },
        CType::Array(_, _) | CType::Struct(_) | CType::Function(_) => Ok(None),
    }
}

/// Whether a cast to the first type from the second is one between a pointer and an integer (this profile).
pub fn is_pointer_integer(target: &CType, ty: &CType) -> bool
    ensures { result ≡ rows.is_pointer_integer (ctype_tree target.now) (ctype_tree ty.now) }
{
    match target {
        CType::Pointer(_) => match ty {
            CType::Int(_) => true,
            CType::Void
            | CType::Pointer(_)
            | CType::Array(_, _)
            | CType::Struct(_)
            | CType::Function(_) => false,
        },
        CType::Int(_) => match ty {
            CType::Pointer(_) => true,
            CType::Void
            | CType::Int(_)
            | CType::Array(_, _)
            | CType::Struct(_)
            | CType::Function(_) => false,
        },
        CType::Void | CType::Array(_, _) | CType::Struct(_) | CType::Function(_) => false,
    }
}
