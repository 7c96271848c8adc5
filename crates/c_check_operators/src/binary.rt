// Operators between two values.
#![tactic(auto, using(c_syntax::proofs::TypeTrees::type_trees))]

ghost use Rattle.std.specs.Prelude.{◌≡◌, IfOk, map, option_map};
ghost use Rattle.c_syntax.specs.Types.{ctype_tree};
ghost use Rattle.c_syntax.specs.Types as types;
ghost use Rattle.c_syntax.specs.TypedExpr.{texpr_tree};
ghost use Rattle.c_syntax.specs.TypedExpr as trees;
ghost use Rattle.c_syntax.specs.Program.{structdef_tree};
ghost use Rattle.c_typing.specs.Rows as rows;
ghost use Rattle.c_check_operators.specs.Forms.{binary_of};

use crate::forms::{Form, ints_of, row_of};
use crate::{complete_size, is_same_but_const};
use c_layout::balance;
use c_syntax::{Arithmetic, CType, Comparison, Pos, Shift, StructDefs, TBinaryOp, TExpr, Target};
use std::alloc::{AllocError as NoMemory, Global};
use std::rc::Rc;

/// An operator on two integers that gives their balanced type, as `*` and `&` (C11 6.3.1.8p1).
pub fn arithmetic_row(
    alloc: Global,
    op: Arithmetic,
    pos: Pos,
    left: &CType,
    right: &CType,
    a: TExpr,
    b: TExpr,
) -> Result<Option<TExpr>, NoMemory>
    ensures { IfOk result (λ row. option_map texpr_tree row
        ≡ rows.balanced_row (TBinaryOp.Arithmetic op) pos (ctype_tree left.now) (ctype_tree right.now) (texpr_tree a) (texpr_tree b)) }
{
    let form = arithmetic_form(op, left, right);
    row_of(alloc, pos, form, a, b)
}

fn arithmetic_form(op: Arithmetic, left: &CType, right: &CType) -> Option<Form>
    ensures { (at : Pos) (a b : trees.TExprTree) → option_map (λ f. binary_of f at a b) result
        ≡ rows.balanced_row (TBinaryOp.Arithmetic op) at (ctype_tree left.now) (ctype_tree right.now) a b }
{
    match ints_of(left, right) {
        Some((t, u)) => Some(Form::Balanced(TBinaryOp::Arithmetic(op, balance(t, u)), t, u)),
        None => None,
    }
}

/// A comparison of two integers at their balanced type (C11 6.5.8p3, 6.5.9p4).
pub fn comparison_row(
    alloc: Global,
    comparison: Comparison,
    pos: Pos,
    left: &CType,
    right: &CType,
    a: TExpr,
    b: TExpr,
) -> Result<Option<TExpr>, NoMemory>
    ensures { IfOk result (λ row. option_map texpr_tree row
        ≡ rows.balanced_row (TBinaryOp.CompareInts comparison) pos (ctype_tree left.now) (ctype_tree right.now) (texpr_tree a) (texpr_tree b)) }
{
    let form = comparison_form(comparison, left, right);
    row_of(alloc, pos, form, a, b)
}

/// What `comparison_row` makes of values of these types.
pub(crate) fn comparison_form(comparison: Comparison, left: &CType, right: &CType) -> Option<Form>
    ensures { (at : Pos) (a b : trees.TExprTree) → option_map (λ f. binary_of f at a b) result
        ≡ rows.balanced_row (TBinaryOp.CompareInts comparison) at (ctype_tree left.now) (ctype_tree right.now) a b }
{
    match ints_of(left, right) {
        Some((t, u)) => Some(Form::Balanced(
            TBinaryOp::CompareInts(comparison, balance(t, u)),
            t,
            u,
        )),
        None => None,
    }
}

/// `<<` and `>>`, at the promoted left type (C11 6.5.7p2 and p3).
pub fn shift_row(
    alloc: Global,
    way: Shift,
    pos: Pos,
    left: &CType,
    right: &CType,
    a: TExpr,
    b: TExpr,
) -> Result<Option<TExpr>, NoMemory>
    ensures { IfOk result (λ row. option_map texpr_tree row
        ≡ rows.shift_row way pos (ctype_tree left.now) (ctype_tree right.now) (texpr_tree a) (texpr_tree b)) }
{
    let form = shift_form(way, left, right);
    row_of(alloc, pos, form, a, b)
}

fn shift_form(way: Shift, left: &CType, right: &CType) -> Option<Form>
    ensures { (at : Pos) (a b : trees.TExprTree) → option_map (λ f. binary_of f at a b) result
        ≡ rows.shift_row way at (ctype_tree left.now) (ctype_tree right.now) a b }
{
    match ints_of(left, right) {
        Some((t, _)) => Some(Form::Shifted(way, t)),
        None => None,
    }
}

/// `+`: integers, or a pointer to a complete type and an integer, both ways (C11 6.5.6p2).
pub fn plus_row(
    alloc: Global,
    structs: &StructDefs,
    pos: Pos,
    left: &CType,
    right: &CType,
    a: TExpr,
    b: TExpr,
) -> Result<Option<TExpr>, NoMemory>
    ensures { IfOk result (λ row. option_map texpr_tree row
        ≡ rows.plus_row (map structdef_tree structs.now) pos (ctype_tree left.now) (ctype_tree right.now) (texpr_tree a) (texpr_tree b)) }
{
    let form = plus_form(structs, left, right);
    row_of(alloc, pos, form, a, b)
}

fn plus_form(structs: &StructDefs, left: &CType, right: &CType) -> Option<Form>
    ensures { (at : Pos) (a b : trees.TExprTree) → option_map (λ f. binary_of f at a b) result
        ≡ rows.plus_row (map structdef_tree structs.now) at (ctype_tree left.now) (ctype_tree right.now) a b }
{
    match left {
        CType::Pointer(to) => match right {
            CType::Int(_) => match complete_size(structs, &to.ty) {
                None => None,
                Some(element) => Some(Form::Plain(TBinaryOp::PointerPlusInt { element })),
            },
            CType::Void
            | CType::Pointer(_)
            | CType::Array(_, _)
            | CType::Struct(_)
            | CType::Function(_) => None,
        },
        CType::Int(_) => match right {
            CType::Pointer(to) => match complete_size(structs, &to.ty) {
                None => None,
                Some(element) => Some(Form::Plain(TBinaryOp::IntPlusPointer { element })),
            },
            CType::Int(_)
            | CType::Void
            | CType::Array(_, _)
            | CType::Struct(_)
            | CType::Function(_) => arithmetic_form(Arithmetic::Add, left, right),
        },
        CType::Void | CType::Array(_, _) | CType::Struct(_) | CType::Function(_) => None,
    }
}

/// `-`: integers, an integer from a pointer to a complete type, or two pointers to one such type (C11 6.5.6p3).
pub fn minus_row(
    alloc: Global,
    structs: &StructDefs,
    pos: Pos,
    left: &CType,
    right: &CType,
    a: TExpr,
    b: TExpr,
) -> Result<Option<TExpr>, NoMemory>
    ensures { IfOk result (λ row. option_map texpr_tree row
        ≡ rows.minus_row (map structdef_tree structs.now) pos (ctype_tree left.now) (ctype_tree right.now) (texpr_tree a) (texpr_tree b)) }
{
    let form = minus_form(structs, left, right);
    row_of(alloc, pos, form, a, b)
}

fn minus_form(structs: &StructDefs, left: &CType, right: &CType) -> Option<Form>
    ensures { (at : Pos) (a b : trees.TExprTree) → option_map (λ f. binary_of f at a b) result
        ≡ rows.minus_row (map structdef_tree structs.now) at (ctype_tree left.now) (ctype_tree right.now) a b }
{
    match left {
        CType::Pointer(to) => match right {
            CType::Int(_) => match complete_size(structs, &to.ty) {
                None => None,
                Some(element) => Some(Form::Plain(TBinaryOp::PointerMinusInt { element })),
            },
            CType::Pointer(other) => difference_form(structs, to, other),
            CType::Void | CType::Array(_, _) | CType::Struct(_) | CType::Function(_) => None,
        },
        CType::Int(_) | CType::Void | CType::Array(_, _) | CType::Struct(_) | CType::Function(_) =>
            arithmetic_form(Arithmetic::Subtract, left, right),
    }
}

// The elements between two pointers to these types.
fn difference_form(structs: &StructDefs, left: &Rc<Target>, right: &Rc<Target>) -> Option<Form>
    ensures { (at : Pos) (a b : trees.TExprTree) → option_map (λ f. binary_of f at a b) result
        ≡ rows.minus_row (map structdef_tree structs.now) at (types.Pointer (ctype_tree left.now.value.ty) left.now.value.is_const)
        (types.Pointer (ctype_tree right.now.value.ty) right.now.value.is_const) a b }
{
    if !is_same_but_const(&left.ty, &right.ty) {
        return None;
    }
    match complete_size(structs, &left.ty) {
        None => None,
        Some(element) => Some(Form::Plain(TBinaryOp::PointerMinusPointer { element })),
    }
}
