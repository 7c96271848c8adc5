// `?:`, whose parts come to one type.
#![tactic(auto, using(c_syntax::proofs::TypeTrees::type_trees))]

ghost use Rattle.std.specs.Prelude.{◌≡◌, IfOk, if◌then◌else◌, None, Some, option_map};
ghost use Rattle.c_syntax.specs.Types.{ctype_tree};
ghost use Rattle.c_syntax.specs.Types as types;
ghost use Rattle.c_syntax.specs.TypedExpr.{texpr_tree};
ghost use Rattle.c_syntax.specs.TypedExpr as trees;
ghost use Rattle.c_layout.specs.RowTypes as row_types;
ghost use Rattle.c_typing.specs.Constants as constants;
ghost use Rattle.c_typing.specs.Operands as operands;
ghost use Rattle.c_typing.specs.Rows as rows;
ghost use Rattle.c_check_operators.specs.Forms.{common_of};

use crate::{as_null, as_type, is_null_constant, is_same_but_const, is_void, pointer_to};
use c_layout::{balance, has_const_elements};
use c_syntax::{CType, Pos, TExpr, Target};
use c_syntax_written::boxed;
use std::alloc::{AllocError as NoMemory, Global};
use std::rc::Rc;

/// `?:` on a condition that is tested, by the types of its second and third operand.
pub fn cond_row(
    alloc: Global,
    pos: Pos,
    test: TExpr,
    left: &CType,
    right: &CType,
    a: TExpr,
    b: TExpr,
) -> Result<Option<TExpr>, NoMemory>
    ensures { IfOk result (λ row. option_map texpr_tree row
        ≡ rows.cond_row pos (texpr_tree test) (ctype_tree left.now) (ctype_tree right.now) (texpr_tree a) (texpr_tree b)) }
{
    match cond_type(alloc, left, right, &a, &b)? {
        None => Ok(None),
        Some(ty) => {
            let a = cond_part(alloc, &ty, a)?;
            let b = cond_part(alloc, &ty, b)?;
            let node = cond_node(alloc, pos, ty, test, a, b)?;
            Ok(Some(node))
        }
    }
}

#[tactic(auto, using(c_syntax::proofs::Trees::the_trees))]
fn cond_node(
    alloc: Global,
    pos: Pos,
    ty: CType,
    test: TExpr,
    a: TExpr,
    b: TExpr,
) -> Result<TExpr, NoMemory>
    ensures { IfOk result (λ node. texpr_tree node ≡ trees.Cond pos (ctype_tree ty) (texpr_tree test) (texpr_tree a) (texpr_tree b)) }
{
    let condition = boxed(alloc, test)?;
    let then = boxed(alloc, a)?;
    let otherwise = boxed(alloc, b)?;
    Ok(TExpr::Cond {
        pos,
        ty,
        condition,
        then,
        otherwise,
    })
}

// The type of the whole, by those of its second and third operand (C11 6.5.15p3 to p6).
fn cond_type(
    alloc: Global,
    left: &CType,
    right: &CType,
    a: &TExpr,
    b: &TExpr,
) -> Result<Option<CType>, NoMemory>
    ensures { IfOk result (λ ty. option_map ctype_tree ty
        ≡ rows.cond_type (ctype_tree left.now) (ctype_tree right.now) (texpr_tree a.now) (texpr_tree b.now)) }
{
    match left {
        CType::Int(t) => match right {
            CType::Int(u) => Ok(Some(CType::Int(balance(*t, *u)))),
            CType::Pointer(_) => beside_null(right, a),
            CType::Void | CType::Array(_, _) | CType::Struct(_) | CType::Function(_) => Ok(None),
        },
        CType::Pointer(s) => match right {
            CType::Pointer(t) => cond_pointer(alloc, s, t, a, b),
            CType::Int(_) => beside_null(left, b),
            CType::Void | CType::Array(_, _) | CType::Struct(_) | CType::Function(_) => Ok(None),
        },
        CType::Void | CType::Struct(_) | CType::Array(_, _) | CType::Function(_) => Ok(same_kind(
            left, right,
        )),
    }
}

// The type of two parts of which the first is neither an integer nor a pointer.
fn same_kind(left: &CType, right: &CType) -> Option<CType>
    requires { row_types.IsScalar (ctype_tree left.now) → ⊥ }
    ensures { (a b : trees.TExprTree) → option_map ctype_tree result ≡ rows.cond_type (ctype_tree left.now) (ctype_tree right.now) a b }
{
    match left {
        CType::Void => match right {
            CType::Void => Some(CType::Void),
            CType::Int(_)
            | CType::Pointer(_)
            | CType::Array(_, _)
            | CType::Struct(_)
            | CType::Function(_) => None,
        },
        CType::Struct(m) => match right {
            CType::Struct(n) => if m == n {
                Some(CType::Struct(*m))
            } else {
                None
            },
            CType::Void
            | CType::Int(_)
            | CType::Pointer(_)
            | CType::Array(_, _)
            | CType::Function(_) => None,
        },
        CType::Int(_) | CType::Pointer(_) | CType::Array(_, _) | CType::Function(_) => None,
    }
}

// The pointer type, where the other part is a null pointer constant.
fn beside_null(pointer: &CType, other: &TExpr) -> Result<Option<CType>, NoMemory>
    ensures { IfOk result (λ ty. option_map ctype_tree ty
        ≡ (if constants.is_null_constant (texpr_tree other.now) then Some (ctype_tree pointer.now) else None)) }
{
    if !is_null_constant(other)? {
        return Ok(None);
    }
    let ty = pointer.copy()?;
    Ok(Some(ty))
}

/// The type of two pointers.
#[derive(Clone, Copy)]
enum Common {
    /// To the one target of both.
    Target,
    /// That of the left, beside a null pointer constant.
    Left,
    /// That of the right, beside one.
    Right,
    /// To void.
    Void,
}

// The type of two pointers to these targets.
fn cond_pointer(
    alloc: Global,
    s: &Rc<Target>,
    t: &Rc<Target>,
    a: &TExpr,
    b: &TExpr,
) -> Result<Option<CType>, NoMemory>
    ensures { IfOk result (λ ty. option_map ctype_tree ty
        ≡ rows.cond_pointer (ctype_tree s.now.value.ty) s.now.value.is_const (ctype_tree t.now.value.ty) t.now.value.is_const
        (texpr_tree a.now) (texpr_tree b.now)) }
{
    match common_form(s, t, a, b)? {
        None => Ok(None),
        Some(form) => {
            let ty = common_type(alloc, form, s, t)?;
            Ok(Some(ty))
        }
    }
}

// To one target, const where either is; the one beside a null pointer constant; to void where one is.
fn common_form(
    s: &Rc<Target>,
    t: &Rc<Target>,
    a: &TExpr,
    b: &TExpr,
) -> Result<Option<Common>, NoMemory>
    ensures { IfOk result (λ form.
        option_map (λ f. common_of f (ctype_tree s.now.value.ty) s.now.value.is_const (ctype_tree t.now.value.ty) t.now.value.is_const) form
        ≡ rows.cond_pointer (ctype_tree s.now.value.ty) s.now.value.is_const (ctype_tree t.now.value.ty) t.now.value.is_const
        (texpr_tree a.now) (texpr_tree b.now)) }
{
    if is_same_but_const(&s.ty, &t.ty) {
        return Ok(Some(Common::Target));
    }
    if is_null_constant(b)? {
        return Ok(Some(Common::Left));
    }
    if is_null_constant(a)? {
        return Ok(Some(Common::Right));
    }
    if is_void(&s.ty) || is_void(&t.ty) {
        return Ok(Some(Common::Void));
    }
    Ok(None)
}

fn common_type(
    alloc: Global,
    form: Common,
    s: &Rc<Target>,
    t: &Rc<Target>,
) -> Result<CType, NoMemory>
    ensures { IfOk result (λ ty. ctype_tree ty
        ≡ common_of form (ctype_tree s.now.value.ty) s.now.value.is_const (ctype_tree t.now.value.ty) t.now.value.is_const) }
{
    match form {
        Common::Target => {
            let target = s.ty.copy()?;
            pointer_to(alloc, target, is_const_target(s) || is_const_target(t))
        }
        Common::Left => Ok(CType::Pointer(s.clone()?)),
        Common::Right => Ok(CType::Pointer(t.clone()?)),
        Common::Void => pointer_to(alloc, CType::Void, is_const_target(s) || is_const_target(t)),
    }
}

// Whether a pointer to this target points to what is const.
fn is_const_target(target: &Rc<Target>) -> bool
    ensures { result ≡ row_types.has_const_target (types.Pointer (ctype_tree target.now.value.ty) target.now.value.is_const) }
{
    target.is_const || has_const_elements(&target.ty)
}

// A part at the type of the whole: a null pointer constant beside a pointer is a null pointer.
fn cond_part(alloc: Global, ty: &CType, e: TExpr) -> Result<TExpr, NoMemory>
    ensures { IfOk result (λ part. texpr_tree part ≡ rows.cond_part (ctype_tree ty.now) (texpr_tree e)) }
{
    if takes_null(ty, &e)? {
        as_null(ty, e)
    } else {
        as_type(alloc, ty, e)
    }
}

// Whether a part of this type is a null pointer constant beside a pointer.
fn takes_null(ty: &CType, e: &TExpr) -> Result<bool, NoMemory>
    ensures { IfOk result (λ null. (if null then operands.as_null (ctype_tree ty.now) (texpr_tree e.now)
        else operands.as_type (ctype_tree ty.now) (texpr_tree e.now)) ≡ rows.cond_part (ctype_tree ty.now) (texpr_tree e.now)) }
{
    match ty {
        CType::Pointer(_) => is_null_constant(e),
        CType::Void | CType::Int(_) | CType::Array(_, _) | CType::Struct(_) | CType::Function(_) =>
            Ok(false),
    }
}
