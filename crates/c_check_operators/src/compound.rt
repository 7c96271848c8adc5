// `op=`, `++` and `--`, by the type of what stands in the place.
#![tactic(auto, using(c_syntax::proofs::TypeTrees::type_trees))]

ghost use Rattle.std.specs.Prelude.{◌≡◌, IfOk, map, option_map};
ghost use Rattle.c_syntax.specs.Types.{ctype_tree};
ghost use Rattle.c_syntax.specs.TypedExpr.{TExprTree, texpr_tree};
ghost use Rattle.c_syntax.specs.Program.{structdef_tree};
ghost use Rattle.c_typing.specs.Rows as rows;
ghost use Rattle.c_check_operators.specs.ArithmeticViews.{compound_tree};
ghost use Rattle.c_check_operators.specs.Forms.{change_of};

use crate::forms::ints_of;
use crate::{as_int, complete_size};
use c_layout::{balance, promote};
use c_syntax::{Arithmetic, AssignOp, CType, IntType, Shift, Stride, StructDefs, TBinaryOp, TExpr};
use std::alloc::{AllocError as NoMemory, Global};

/// The operator of an `op=`, and the value that it takes beside what stands in the place.
#[derive(Drop)]
pub struct Compound {
    pub op: TBinaryOp,
    pub value: TExpr,
}

/// `op=` on a place of type `target` and a value of type `ty` (C11 6.5.16.2p1 and p2).
pub fn compound_row(
    alloc: Global,
    structs: &StructDefs,
    op: AssignOp,
    target: &CType,
    ty: &CType,
    e: TExpr,
) -> Result<Option<Compound>, NoMemory>
    ensures { IfOk result (λ row. option_map compound_tree row
        ≡ rows.compound_row (map structdef_tree structs.now) op (ctype_tree target.now) (ctype_tree ty.now) (texpr_tree e)) }
{
    match change_form(structs, op, target, ty) {
        None => Ok(None),
        Some(form) => {
            let compound = changed(alloc, form, e)?;
            Ok(Some(compound))
        }
    }
}

/// What an `op=` takes beside what stands in the place.
#[derive(Clone, Copy)]
enum Change {
    /// A value of the second type, as one of the first.
    Converted(TBinaryOp, IntType, IntType),
    /// The value as it is.
    Plain(TBinaryOp),
}

fn changed(alloc: Global, form: Change, e: TExpr) -> Result<Compound, NoMemory>
    ensures { IfOk result (λ compound. compound_tree compound ≡ change_of form (texpr_tree e)) }
{
    match form {
        Change::Converted(op, t, u) => {
            let value = as_int(alloc, t, u, e)?;
            Ok(Compound { op, value })
        }
        Change::Plain(op) => Ok(Compound { op, value: e }),
    }
}

fn change_form(structs: &StructDefs, op: AssignOp, target: &CType, ty: &CType) -> Option<Change>
    ensures { (e : TExprTree) → option_map (λ f. change_of f e) result
        ≡ rows.compound_row (map structdef_tree structs.now) op (ctype_tree target.now) (ctype_tree ty.now) e }
{
    match op {
        AssignOp::Multiply => integers_form(Arithmetic::Multiply, target, ty),
        AssignOp::Divide => integers_form(Arithmetic::Divide, target, ty),
        AssignOp::Remainder => integers_form(Arithmetic::Remainder, target, ty),
        AssignOp::Plus => plus_form(structs, target, ty),
        AssignOp::Minus => minus_form(structs, target, ty),
        AssignOp::ShiftLeft => shift_form(Shift::Left, target, ty),
        AssignOp::ShiftRight => shift_form(Shift::Right, target, ty),
        AssignOp::BitAnd => integers_form(Arithmetic::BitAnd, target, ty),
        AssignOp::BitXor => integers_form(Arithmetic::BitXor, target, ty),
        AssignOp::BitOr => integers_form(Arithmetic::BitOr, target, ty),
    }
}

// An operator on two integers, at their balanced type.
fn integers_form(op: Arithmetic, target: &CType, ty: &CType) -> Option<Change>
    ensures { (e : TExprTree) → option_map (λ f. change_of f e) result
        ≡ rows.compound_integers (TBinaryOp.Arithmetic op) (ctype_tree target.now) (ctype_tree ty.now) e }
{
    match ints_of(target, ty) {
        Some((p, u)) => {
            let t = balance(p, u);
            Some(Change::Converted(TBinaryOp::Arithmetic(op, t), t, u))
        }
        None => None,
    }
}

// A shift, at the promoted type of what stands in the place.
fn shift_form(way: Shift, target: &CType, ty: &CType) -> Option<Change>
    ensures { (e : TExprTree) → option_map (λ f. change_of f e) result
        ≡ rows.compound_shift way (ctype_tree target.now) (ctype_tree ty.now) e }
{
    match ints_of(target, ty) {
        Some((p, _)) => Some(Change::Plain(TBinaryOp::Shift(way, promote(p)))),
        None => None,
    }
}

// `+=`, also of an integer to a pointer.
fn plus_form(structs: &StructDefs, target: &CType, ty: &CType) -> Option<Change>
    ensures { (e : TExprTree) → option_map (λ f. change_of f e) result
        ≡ rows.compound_row (map structdef_tree structs.now) AssignOp.Plus (ctype_tree target.now) (ctype_tree ty.now) e }
{
    match target {
        CType::Pointer(to) => match ty {
            CType::Int(_) => match complete_size(structs, &to.ty) {
                None => None,
                Some(element) => Some(Change::Plain(TBinaryOp::PointerPlusInt { element })),
            },
            CType::Void
            | CType::Pointer(_)
            | CType::Array(_, _)
            | CType::Struct(_)
            | CType::Function(_) => None,
        },
        CType::Int(_) | CType::Void | CType::Array(_, _) | CType::Struct(_) | CType::Function(_) =>
            integers_form(Arithmetic::Add, target, ty),
    }
}

// `-=`, also of an integer from a pointer.
fn minus_form(structs: &StructDefs, target: &CType, ty: &CType) -> Option<Change>
    ensures { (e : TExprTree) → option_map (λ f. change_of f e) result
        ≡ rows.compound_row (map structdef_tree structs.now) AssignOp.Minus (ctype_tree target.now) (ctype_tree ty.now) e }
{
    match target {
        CType::Pointer(to) => match ty {
            CType::Int(_) => match complete_size(structs, &to.ty) {
                None => None,
                Some(element) => Some(Change::Plain(TBinaryOp::PointerMinusInt { element })),
            },
            CType::Void
            | CType::Pointer(_)
            | CType::Array(_, _)
            | CType::Struct(_)
            | CType::Function(_) => None,
        },
        CType::Int(_) | CType::Void | CType::Array(_, _) | CType::Struct(_) | CType::Function(_) =>
            integers_form(Arithmetic::Subtract, target, ty),
    }
}

/// What `++` and `--` move a place of this type by: 1 at the type balanced with int, or one element of a
/// complete type (C11 6.5.2.4p2, 6.5.3.1p2).
pub fn step_row(structs: &StructDefs, ty: &CType) -> Option<Stride>
    ensures { result ≡ rows.step_row (map structdef_tree structs.now) (ctype_tree ty.now) }
{
    match ty {
        CType::Int(p) => Some(Stride::Int(balance(*p, IntType::Int))),
        CType::Pointer(to) => match complete_size(structs, &to.ty) {
            None => None,
            Some(element) => Some(Stride::Element(element)),
        },
        CType::Void | CType::Array(_, _) | CType::Struct(_) | CType::Function(_) => None,
    }
}
