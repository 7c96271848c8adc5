// Places behind pointers.
#![tactic(auto, using(c_syntax::proofs::Trees::the_trees))]

ghost use Rattle.std.specs.Prelude.{◌≡◌, IfOk, map, option_map};
ghost use Rattle.c_syntax.specs.Types.{ctype_tree};
ghost use Rattle.c_syntax.specs.Types as types;
ghost use Rattle.c_syntax.specs.TypedExpr.{texpr_tree, tlvalue_tree};
ghost use Rattle.c_syntax.specs.Program.{structdef_tree};
ghost use Rattle.c_typing.specs.Rows as rows;

use crate::plus_row;
use c_syntax::{CType, DerefKind, Pos, StructDefs, TExpr, TLvalue, Target};
use c_syntax_written::boxed;
use std::alloc::{AllocError as NoMemory, Global};
use std::rc::Rc;

/// What a pointer points to, unless that is void (C11 6.5.3.2p2 and p4). `kind` tells how it was written.
pub fn star_row(
    alloc: Global,
    kind: DerefKind,
    pos: Pos,
    ty: &CType,
    e: TExpr,
) -> Result<Option<TLvalue>, NoMemory>
    ensures { IfOk result (λ row. option_map tlvalue_tree row ≡ rows.star_row kind pos (ctype_tree ty.now) (texpr_tree e)) }
{
    match ty {
        CType::Pointer(to) => pointed(alloc, kind, pos, to, e),
        CType::Void | CType::Int(_) | CType::Array(_, _) | CType::Struct(_) | CType::Function(_) =>
            Ok(None),
    }
}

// What a pointer to this target points to.
fn pointed(
    alloc: Global,
    kind: DerefKind,
    pos: Pos,
    to: &Rc<Target>,
    e: TExpr,
) -> Result<Option<TLvalue>, NoMemory>
    ensures { IfOk result (λ row. option_map tlvalue_tree row
        ≡ rows.star_row kind pos (types.Pointer (ctype_tree to.now.value.ty) to.now.value.is_const) (texpr_tree e)) }
{
    match &to.ty {
        CType::Void => Ok(None),
        CType::Int(_)
        | CType::Pointer(_)
        | CType::Array(_, _)
        | CType::Struct(_)
        | CType::Function(_) => {
            let ty = to.ty.copy()?;
            let pointer = boxed(alloc, e)?;
            Ok(Some(TLvalue::Deref {
                pos,
                kind,
                ty,
                is_const: to.is_const,
                pointer,
            }))
        }
    }
}

/// `a[b]`, as `*(a + b)`: the place behind so many elements of a complete type (C11 6.5.2.1p1 and p2).
pub fn index_row(
    alloc: Global,
    structs: &StructDefs,
    pos: Pos,
    left: &CType,
    right: &CType,
    a: TExpr,
    b: TExpr,
) -> Result<Option<TLvalue>, NoMemory>
    ensures { IfOk result (λ row. option_map tlvalue_tree row
        ≡ rows.index_row (map structdef_tree structs.now) pos (ctype_tree left.now) (ctype_tree right.now) (texpr_tree a) (texpr_tree b)) }
{
    match plus_row(alloc, structs, pos, left, right, a, b)? {
        None => Ok(None),
        Some(sum) => {
            let ty = sum.ty()?;
            star_row(alloc, DerefKind::Index, pos, &ty, sum)
        }
    }
}
