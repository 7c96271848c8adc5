// Expressions and places, settled where they stand.
#![tactic(auto, unfolding(c_syntax::specs::TypedExpr::texpr_tree, c_typing::specs::Settled::settled_expr))]

ghost use Rattle.std.specs.Prelude.{◌≡◌, OnOk, map};
ghost use Rattle.c_syntax.specs.TypedExpr.{texpr_tree, texprs_tree, tlvalue_tree};
ghost use Rattle.c_syntax.specs.Types.{ctype_tree, object_tree};
ghost use Rattle.c_typing.specs.Settled as typing;

use c_syntax::{CType, Object, TExpr, TExprs, TLvalue};
use std::alloc::{AllocError as NoMemory, Global};
use std::mem;

/// Gives each name of an object in the expression the type that the object has at the end of the file. Where memory runs
/// out, part of the expression has been settled.
#[cycle(settles)]
pub fn settle_expr(alloc: Global, objects: &[Object], e: &mut TExpr) -> Result<(), NoMemory>
    ensures { OnOk result (texpr_tree e.new ≡ typing.settled_expr (map object_tree objects.now) (texpr_tree e.old)) }
{
    match e {
        TExpr::Const { .. } | TExpr::Null { .. } | TExpr::Any { .. } => Ok(()),
        TExpr::Load { place, .. } => settle_place(alloc, objects, place),
        TExpr::AddressOf { place, .. } => settle_place(alloc, objects, place),
        TExpr::Decay { place, .. } => settle_place(alloc, objects, place),
        TExpr::Whole { place, .. } => settle_place(alloc, objects, place),
        TExpr::Step { place, .. } => settle_place(alloc, objects, place),
        TExpr::Unary { operand, .. } => settle_expr(alloc, objects, operand),
        TExpr::Convert { operand, .. } => settle_expr(alloc, objects, operand),
        TExpr::Assume { operand, .. } => settle_expr(alloc, objects, operand),
        TExpr::Assert { operand, .. } => settle_expr(alloc, objects, operand),
        TExpr::Binary { left, right, .. } => settle_two(alloc, objects, left, right),
        TExpr::And { left, right, .. } => settle_two(alloc, objects, left, right),
        TExpr::Or { left, right, .. } => settle_two(alloc, objects, left, right),
        TExpr::Comma { left, right, .. } => settle_two(alloc, objects, left, right),
        TExpr::Cond {
            condition,
            then,
            otherwise,
            ..
        } => {
            settle_expr(alloc, objects, condition)?;
            settle_two(alloc, objects, then, otherwise)
        }
        TExpr::Call { args, .. } => settle_exprs(alloc, objects, args),
        TExpr::Assign { place, value, .. } => settle_store(alloc, objects, place, value),
        TExpr::AssignStruct { place, source, .. } => settle_store(alloc, objects, place, source),
        TExpr::Compound { place, value, .. } => settle_store(alloc, objects, place, value),
    }
}

/// Gives each name of an object in the place the type that the object has at the end of the file. Where memory runs out,
/// part of the place has been settled.
#[tactic(auto, unfolding(c_syntax::specs::TypedExpr::tlvalue_tree, c_typing::specs::Settled::settled_place))]
#[cycle(settles)]
pub fn settle_place(alloc: Global, objects: &[Object], place: &mut TLvalue) -> Result<(), NoMemory>
    ensures { OnOk result (tlvalue_tree place.new ≡ typing.settled_place (map object_tree objects.now) (tlvalue_tree place.old)) }
{
    match place {
        TLvalue::Var { object, ty, .. } => settle_type(objects, *object, ty),
        TLvalue::Deref { pointer, .. } => settle_expr(alloc, objects, pointer),
        TLvalue::Member { place, .. } => settle_place(alloc, objects, place),
    }
}

// The type that an object has at the end, where there is that object.
#[tactic(auto)]
fn settle_type(objects: &[Object], object: u64, ty: &mut CType) -> Result<(), NoMemory>
    ensures { OnOk result (ctype_tree ty.new ≡ typing.last_type (map object_tree objects.now) object (ctype_tree ty.old)) }
{
    if let Some(last) = objects.get(object as usize) {
        *ty = last.ty.copy()?;
    }
    Ok(())
}

// Two expressions.
#[cycle(settles)]
fn settle_two(
    alloc: Global,
    objects: &[Object],
    left: &mut TExpr,
    right: &mut TExpr,
) -> Result<(), NoMemory>
    ensures left { OnOk result (texpr_tree left.new ≡ typing.settled_expr (map object_tree objects.now) (texpr_tree left.old)) }
    ensures right { OnOk result (texpr_tree right.new ≡ typing.settled_expr (map object_tree objects.now) (texpr_tree right.old)) }
{
    settle_expr(alloc, objects, left)?;
    settle_expr(alloc, objects, right)
}

// A place, and what is stored there.
#[cycle(settles)]
fn settle_store(
    alloc: Global,
    objects: &[Object],
    place: &mut TLvalue,
    value: &mut TExpr,
) -> Result<(), NoMemory>
    ensures place { OnOk result (tlvalue_tree place.new ≡ typing.settled_place (map object_tree objects.now) (tlvalue_tree place.old)) }
    ensures value { OnOk result (texpr_tree value.new ≡ typing.settled_expr (map object_tree objects.now) (texpr_tree value.old)) }
{
    settle_place(alloc, objects, place)?;
    settle_expr(alloc, objects, value)
}

/// Gives each name of an object in the expressions the type that the object has at the end of the file. Where memory runs
/// out, the list is left with nothing in it.
#[cycle(settles)]
pub fn settle_exprs(alloc: Global, objects: &[Object], list: &mut TExprs) -> Result<(), NoMemory>
    ensures { OnOk result (texprs_tree list.new ≡ typing.settled_exprs (map object_tree objects.now) (texprs_tree list.old)) }
{
    let mut items = mem::replace(list, TExprs::new(alloc)).into_vec();
    for item in items.iter_mut() {
        settle_expr(alloc, objects, item)?;
    }
    *list = TExprs::from_vec(items);
    Ok(())
}
