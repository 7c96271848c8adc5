// Values that are stored.
#![tactic(auto, using(c_syntax::proofs::TypeTrees::type_trees))]

ghost use Rattle.std.specs.Prelude.{◌≡◌, IfOk, map, option_map};
ghost use Rattle.c_syntax.specs.Types.{ctype_tree};
ghost use Rattle.c_syntax.specs.TypedExpr.{TExprTree, texpr_tree};
ghost use Rattle.c_syntax.specs.Program.{structdef_tree};
ghost use Rattle.c_typing.specs.Rows as rows;
ghost use Rattle.c_check_operators.specs.Forms.{store_of, stored_of};
ghost use Rattle.c_check_operators.specs.StoreViews.{stored_tree};

use crate::{
    as_int, as_null, as_type, extent_of, is_null_constant, is_same_but_const, is_void, keeps_const,
};
use c_syntax::{CType, Extent, IntType, StructDefs, TExpr};
use std::alloc::{AllocError as NoMemory, Global};

/// What is stored in a place: a scalar of its type, or the bytes of a struct of this size and alignment.
#[derive(Drop)]
pub enum Stored {
    Scalar(TExpr),
    Copied(Extent, TExpr),
}

/// A scalar of type `ty` that is stored as one of type `target`, by `=`, an argument or a `return`
/// (C11 6.5.16.1p1).
pub fn store_row(
    alloc: Global,
    target: &CType,
    ty: &CType,
    e: TExpr,
) -> Result<Option<TExpr>, NoMemory>
    ensures { IfOk result (λ row. option_map texpr_tree row ≡ rows.store_row (ctype_tree target.now) (ctype_tree ty.now) (texpr_tree e)) }
{
    match store_form(target, ty, &e)? {
        None => Ok(None),
        Some(form) => {
            let value = stored_as(alloc, form, target, e)?;
            Ok(Some(value))
        }
    }
}

/// What a store makes of a scalar.
#[derive(Clone, Copy)]
enum Store {
    /// An integer of the second type, as one of the first.
    Number(IntType, IntType),
    /// A null pointer constant, as a null pointer.
    Null,
    /// A pointer.
    Pointer,
}

// The value that is stored as this type.
fn stored_as(alloc: Global, form: Store, target: &CType, e: TExpr) -> Result<TExpr, NoMemory>
    ensures { IfOk result (λ value. texpr_tree value ≡ store_of form (ctype_tree target.now) (texpr_tree e)) }
{
    match form {
        Store::Number(t, u) => as_int(alloc, t, u, e),
        Store::Null => as_null(target, e),
        Store::Pointer => as_type(alloc, target, e),
    }
}

fn store_form(target: &CType, ty: &CType, e: &TExpr) -> Result<Option<Store>, NoMemory>
    ensures { IfOk result (λ form. option_map (λ f. store_of f (ctype_tree target.now) (texpr_tree e.now)) form
        ≡ rows.store_row (ctype_tree target.now) (ctype_tree ty.now) (texpr_tree e.now)) }
{
    match target {
        CType::Int(t) => match ty {
            CType::Int(u) => Ok(Some(Store::Number(*t, *u))),
            CType::Void
            | CType::Pointer(_)
            | CType::Array(_, _)
            | CType::Struct(_)
            | CType::Function(_) => Ok(None),
        },
        CType::Pointer(to) => match ty {
            CType::Pointer(from) => pointer_form(target, &to.ty, ty, &from.ty, e),
            CType::Int(_) => if is_null_constant(e)? {
                Ok(Some(Store::Null))
            } else {
                Ok(None)
            },
            CType::Void | CType::Array(_, _) | CType::Struct(_) | CType::Function(_) => Ok(None),
        },
        CType::Void | CType::Array(_, _) | CType::Struct(_) | CType::Function(_) => Ok(None),
    }
}

// A pointer of type `ty`, to `from`, that is stored as one of type `target`, to `to`: both point to one type, or
// one points to void.
fn pointer_form(
    target: &CType,
    to: &CType,
    ty: &CType,
    from: &CType,
    e: &TExpr,
) -> Result<Option<Store>, NoMemory>
    ensures { IfOk result (λ form. option_map (λ f. store_of f (ctype_tree target.now) (texpr_tree e.now)) form
        ≡ rows.store_pointer (ctype_tree target.now) (ctype_tree to.now) (ctype_tree ty.now) (ctype_tree from.now) (texpr_tree e.now)) }
{
    if is_null_constant(e)? {
        return Ok(Some(Store::Null));
    }
    let agree = is_same_but_const(to, from) || (is_void(to) || is_void(from));
    if agree && keeps_const(ty, target) {
        Ok(Some(Store::Pointer))
    } else {
        Ok(None)
    }
}

/// A value of type `ty` that is stored in a place of type `target`, by `=` or an initialiser: a scalar as by
/// `store_row`, or a complete struct of the same type (C11 6.5.16.1p1).
pub fn stored_row(
    alloc: Global,
    structs: &StructDefs,
    target: &CType,
    ty: &CType,
    e: TExpr,
) -> Result<Option<Stored>, NoMemory>
    ensures { IfOk result (λ row. option_map stored_tree row
        ≡ rows.stored_row (map structdef_tree structs.now) (ctype_tree target.now) (ctype_tree ty.now) (texpr_tree e)) }
{
    match copied_extent(structs, target, ty) {
        Some(extent) => Ok(Some(Stored::Copied(extent, e))),
        None => stored_scalar(alloc, target, ty, e),
    }
}

// The size and the alignment of a complete struct that is stored in a place of its type.
fn copied_extent(structs: &StructDefs, target: &CType, ty: &CType) -> Option<Extent>
    ensures { (e : TExprTree) → stored_of result (ctype_tree target.now) (ctype_tree ty.now) e
        ≡ rows.stored_row (map structdef_tree structs.now) (ctype_tree target.now) (ctype_tree ty.now) e }
{
    match target {
        CType::Struct(m) => match ty {
            CType::Struct(n) => if m == n {
                extent_of(structs, target)
            } else {
                None
            },
            CType::Void
            | CType::Int(_)
            | CType::Pointer(_)
            | CType::Array(_, _)
            | CType::Function(_) => None,
        },
        CType::Int(_) | CType::Pointer(_) | CType::Void | CType::Array(_, _) | CType::Function(_) =>
            None,
    }
}

// What is stored as a scalar.
fn stored_scalar(
    alloc: Global,
    target: &CType,
    ty: &CType,
    e: TExpr,
) -> Result<Option<Stored>, NoMemory>
    ensures { IfOk result (λ row. option_map stored_tree row
        ≡ option_map rows.Scalar (rows.store_row (ctype_tree target.now) (ctype_tree ty.now) (texpr_tree e))) }
{
    match store_row(alloc, target, ty, e)? {
        None => Ok(None),
        Some(value) => Ok(Some(Stored::Scalar(value))),
    }
}
