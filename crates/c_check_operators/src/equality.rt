// Comparisons.
#![tactic(auto, using(c_syntax::proofs::TypeTrees::type_trees))]

ghost use Rattle.std.specs.Prelude.{◌≡◌, IfOk, option_map};
ghost use Rattle.c_syntax.specs.Types.{ctype_tree};
ghost use Rattle.c_syntax.specs.Types as types;
ghost use Rattle.c_syntax.specs.TypedExpr.{texpr_tree};
ghost use Rattle.c_syntax.specs.TypedExpr as trees;
ghost use Rattle.c_typing.specs.Rows as rows;
ghost use Rattle.c_check_operators.specs.Forms.{binary_of, equal_of};

use crate::binary::comparison_form;
use crate::forms::{Form, row_of};
use crate::{as_null, balanced, binary_node, is_null_constant, is_same_but_const, is_void};
use c_layout::balance;
use c_syntax::{CType, Comparison, IntType, Pos, TBinaryOp, TExpr, Target};
use std::alloc::{AllocError as NoMemory, Global};
use std::rc::Rc;

/// `<`, `>`, `<=` and `>=`: integers, or pointers to one type (C11 6.5.8p2).
pub fn order_row(
    alloc: Global,
    op: Comparison,
    pos: Pos,
    left: &CType,
    right: &CType,
    a: TExpr,
    b: TExpr,
) -> Result<Option<TExpr>, NoMemory>
    ensures { IfOk result (λ row. option_map texpr_tree row
        ≡ rows.order_row op pos (ctype_tree left.now) (ctype_tree right.now) (texpr_tree a) (texpr_tree b)) }
{
    let form = order_form(op, left, right);
    row_of(alloc, pos, form, a, b)
}

fn order_form(op: Comparison, left: &CType, right: &CType) -> Option<Form>
    ensures { (at : Pos) (a b : trees.TExprTree) → option_map (λ f. binary_of f at a b) result
        ≡ rows.order_row op at (ctype_tree left.now) (ctype_tree right.now) a b }
{
    match left {
        CType::Pointer(s) => match right {
            CType::Pointer(t) => if is_same_but_const(&s.ty, &t.ty) {
                Some(Form::Plain(TBinaryOp::ComparePointers(op)))
            } else {
                None
            },
            CType::Void
            | CType::Int(_)
            | CType::Array(_, _)
            | CType::Struct(_)
            | CType::Function(_) => None,
        },
        CType::Void | CType::Int(_) | CType::Array(_, _) | CType::Struct(_) | CType::Function(_) =>
            comparison_form(op, left, right),
    }
}

/// What `==` and `!=` make of two values.
#[derive(Clone, Copy)]
enum Equal {
    /// A comparison at the balanced type of these two.
    Ints(IntType, IntType),
    /// A comparison of two pointers.
    Pointers,
    /// The same with a null pointer constant on the right.
    RightNull,
    /// The same with one on the left.
    LeftNull,
}

/// `==` and `!=`: integers; pointers to one type; a pointer and a null pointer constant; a pointer and one to
/// void (C11 6.5.9p2).
pub fn equality_row(
    alloc: Global,
    op: Comparison,
    pos: Pos,
    left: &CType,
    right: &CType,
    a: TExpr,
    b: TExpr,
) -> Result<Option<TExpr>, NoMemory>
    ensures { IfOk result (λ row. option_map texpr_tree row
        ≡ rows.equality_row op pos (ctype_tree left.now) (ctype_tree right.now) (texpr_tree a) (texpr_tree b)) }
{
    match equality_form(left, right, &a, &b)? {
        None => Ok(None),
        Some(form) => {
            let node = equality(alloc, form, op, pos, left, right, a, b)?;
            Ok(Some(node))
        }
    }
}

// The node of an equality of two values of these types.
fn equality(
    alloc: Global,
    form: Equal,
    op: Comparison,
    pos: Pos,
    left: &CType,
    right: &CType,
    a: TExpr,
    b: TExpr,
) -> Result<TExpr, NoMemory>
    ensures { IfOk result (λ node. texpr_tree node
        ≡ equal_of form op pos (ctype_tree left.now) (ctype_tree right.now) (texpr_tree a) (texpr_tree b)) }
{
    match form {
        Equal::Ints(t, u) => {
            let op = TBinaryOp::CompareInts(op, balance(t, u));
            balanced(alloc, pos, op, (t, a), (u, b))
        }
        Equal::Pointers => binary_node(alloc, pos, TBinaryOp::ComparePointers(op), a, b),
        Equal::RightNull => {
            let null = as_null(left, b)?;
            binary_node(alloc, pos, TBinaryOp::ComparePointers(op), a, null)
        }
        Equal::LeftNull => {
            let null = as_null(right, a)?;
            binary_node(alloc, pos, TBinaryOp::ComparePointers(op), null, b)
        }
    }
}

fn equality_form(
    left: &CType,
    right: &CType,
    a: &TExpr,
    b: &TExpr,
) -> Result<Option<Equal>, NoMemory>
    ensures { IfOk result (λ form. (op : Comparison) (at : Pos)
        → option_map (λ f. equal_of f op at (ctype_tree left.now) (ctype_tree right.now) (texpr_tree a.now) (texpr_tree b.now)) form
        ≡ rows.equality_row op at (ctype_tree left.now) (ctype_tree right.now) (texpr_tree a.now) (texpr_tree b.now)) }
{
    match left {
        CType::Pointer(s) => match right {
            CType::Pointer(t) => pointers_form(s, t, a, b),
            CType::Int(_) => if is_null_constant(b)? {
                Ok(Some(Equal::RightNull))
            } else {
                Ok(None)
            },
            CType::Void | CType::Array(_, _) | CType::Struct(_) | CType::Function(_) => Ok(None),
        },
        CType::Int(t) => match right {
            CType::Pointer(_) => if is_null_constant(a)? {
                Ok(Some(Equal::LeftNull))
            } else {
                Ok(None)
            },
            CType::Int(u) => Ok(Some(Equal::Ints(*t, *u))),
            CType::Void | CType::Array(_, _) | CType::Struct(_) | CType::Function(_) => Ok(None),
        },
        CType::Void | CType::Array(_, _) | CType::Struct(_) | CType::Function(_) => Ok(None),
    }
}

// Two pointers to these types.
fn pointers_form(
    s: &Rc<Target>,
    t: &Rc<Target>,
    a: &TExpr,
    b: &TExpr,
) -> Result<Option<Equal>, NoMemory>
    ensures { IfOk result (λ form. (op : Comparison) (at : Pos)
        → option_map (λ f. equal_of f op at (types.Pointer (ctype_tree s.now.value.ty) s.now.value.is_const)
        (types.Pointer (ctype_tree t.now.value.ty) t.now.value.is_const) (texpr_tree a.now) (texpr_tree b.now)) form
        ≡ rows.equal_pointers op at (ctype_tree s.now.value.ty) s.now.value.is_const (ctype_tree t.now.value.ty) t.now.value.is_const
        (texpr_tree a.now) (texpr_tree b.now)) }
{
    if is_same_but_const(&s.ty, &t.ty) {
        return Ok(Some(Equal::Pointers));
    }
    if is_null_constant(b)? {
        return Ok(Some(Equal::RightNull));
    }
    if is_null_constant(a)? {
        return Ok(Some(Equal::LeftNull));
    }
    if is_void(&s.ty) || is_void(&t.ty) {
        return Ok(Some(Equal::Pointers));
    }
    Ok(None)
}
