// The objects whose addresses expressions take.
#![tactic(auto, using(c_syntax::proofs::Trees::the_trees, c_syntax::proofs::Sizes::the_typed_sizes, crate::proofs::TakenForms::the_taken))]

ghost use Rattle.std.specs.Prelude.{◌≡◌, ◌++◌, OnOk};
ghost use Rattle.c_syntax.specs.TypedExpr.{texpr_tree, texprs_tree, tlvalue_tree};
ghost use Rattle.c_rules_effects.specs.Places.{place_of};
ghost use Rattle.c_rules_effects.specs.Taken.{object_named, taken_among, taken_at, taken_by_index, taken_in, taken_of_array, taken_under_index};

use crate::{Touch, place_of};
use c_syntax::{DerefKind, TBinaryOp, TExpr, TExprs, TLvalue};
use std::alloc::{AllocError as NoMemory, Global};

// Those that an expression takes, behind those that are there.
#[cycle(taken)]
pub(crate) fn add_expr(expr: &TExpr, taken: &mut Vec<u64>) -> Result<(), NoMemory>
    ensures { OnOk result (taken.new.items ≡ taken.old.items ++ taken_in (texpr_tree expr.now)) }
{
    match expr {
        TExpr::Const { .. } => Ok(()),
        TExpr::Null { .. } => Ok(()),
        TExpr::Any { .. } => Ok(()),
        TExpr::Load { place, .. } => add_place(place, taken),
        TExpr::AddressOf { place, .. } => add_address(place, taken),
        TExpr::Decay { place, .. } => add_address(place, taken),
        TExpr::Whole { place, .. } => add_place(place, taken),
        TExpr::Step { place, .. } => add_place(place, taken),
        TExpr::Unary { operand, .. } => add_expr(operand, taken),
        TExpr::Convert { operand, .. } => add_expr(operand, taken),
        TExpr::Assume { operand, .. } => add_expr(operand, taken),
        TExpr::Assert { operand, .. } => add_expr(operand, taken),
        TExpr::Binary { left, right, .. } => add_both(left, right, taken),
        TExpr::And { left, right, .. } => add_both(left, right, taken),
        TExpr::Or { left, right, .. } => add_both(left, right, taken),
        TExpr::Comma { left, right, .. } => add_both(left, right, taken),
        TExpr::Assign { place, value, .. } => add_stored(place, value, taken),
        TExpr::Compound { place, value, .. } => add_stored(place, value, taken),
        TExpr::AssignStruct { place, source, .. } => add_stored(place, source, taken),
        TExpr::Cond {
            condition,
            then,
            otherwise,
            ..
        } => add_choice(condition, then, otherwise, taken),
        TExpr::Call { args, .. } => add_args(args, taken),
    }
}

#[cycle(taken)]
fn add_place(place: &TLvalue, taken: &mut Vec<u64>) -> Result<(), NoMemory>
    ensures { OnOk result (taken.new.items ≡ taken.old.items ++ taken_at (tlvalue_tree place.now)) }
{
    match place {
        TLvalue::Var { .. } => Ok(()),
        TLvalue::Deref { kind, pointer, .. } => match kind {
            DerefKind::Index => add_indexed(pointer, taken),
            DerefKind::Star => add_expr(pointer, taken),
            DerefKind::Arrow => add_expr(pointer, taken),
        },
        TLvalue::Member { place, .. } => add_place(place, taken),
    }
}

// Of what an index stands on, which is the sum of its two operands.
#[cycle(taken)]
fn add_indexed(sum: &TExpr, taken: &mut Vec<u64>) -> Result<(), NoMemory>
    ensures { OnOk result (taken.new.items ≡ taken.old.items ++ taken_by_index (texpr_tree sum.now)) }
{
    match sum {
        TExpr::Binary {
            op,
            left,
            right,
            ..
        } => add_sum(*op, left, right, taken),
        _ => add_expr(sum, taken),
    }
}

#[cycle(taken)]
fn add_sum(op: TBinaryOp, left: &TExpr, right: &TExpr, taken: &mut Vec<u64>) -> Result<(), NoMemory>
    ensures { OnOk result
        (taken.new.items ≡ taken.old.items ++ taken_under_index op (texpr_tree left.now) ++ taken_in (texpr_tree right.now)) }
{
    match op {
        TBinaryOp::PointerPlusInt { .. } => add_element(left, right, taken),
        _ => add_both(left, right, taken),
    }
}

// An array under an index gives no address away.
#[cycle(taken)]
fn add_element(array: &TExpr, index: &TExpr, taken: &mut Vec<u64>) -> Result<(), NoMemory>
    ensures { OnOk result
        (taken.new.items ≡ taken.old.items ++ taken_of_array (texpr_tree array.now) ++ taken_in (texpr_tree index.now)) }
{
    add_array(array, taken)?;
    add_expr(index, taken)?;
    Ok(())
}

#[cycle(taken)]
fn add_array(array: &TExpr, taken: &mut Vec<u64>) -> Result<(), NoMemory>
    ensures { OnOk result (taken.new.items ≡ taken.old.items ++ taken_of_array (texpr_tree array.now)) }
{
    match array {
        TExpr::Decay { place, .. } => add_place(place, taken),
        _ => add_expr(array, taken),
    }
}

// The address of a place, with those that are taken on the way to it.
#[cycle(taken)]
fn add_address(place: &TLvalue, taken: &mut Vec<u64>) -> Result<(), NoMemory>
    ensures { OnOk result
        (taken.new.items ≡ taken.old.items ++ taken_at (tlvalue_tree place.now) ++ object_named (place_of (tlvalue_tree place.now))) }
{
    add_place(place, taken)?;
    if let Touch::Object(number, _) = place_of(*taken.allocator(), place)? {
        taken.push(number)?;
    }
    Ok(())
}

#[cycle(taken)]
fn add_both(left: &TExpr, right: &TExpr, taken: &mut Vec<u64>) -> Result<(), NoMemory>
    ensures { OnOk result (taken.new.items ≡ taken.old.items ++ taken_in (texpr_tree left.now) ++ taken_in (texpr_tree right.now)) }
{
    add_expr(left, taken)?;
    add_expr(right, taken)?;
    Ok(())
}

#[cycle(taken)]
fn add_stored(place: &TLvalue, value: &TExpr, taken: &mut Vec<u64>) -> Result<(), NoMemory>
    ensures { OnOk result (taken.new.items ≡ taken.old.items ++ taken_at (tlvalue_tree place.now) ++ taken_in (texpr_tree value.now)) }
{
    add_place(place, taken)?;
    add_expr(value, taken)?;
    Ok(())
}

#[cycle(taken)]
fn add_choice(
    condition: &TExpr,
    then: &TExpr,
    otherwise: &TExpr,
    taken: &mut Vec<u64>,
) -> Result<(), NoMemory>
    ensures { OnOk result
        (taken.new.items ≡ taken.old.items ++ taken_in (texpr_tree condition.now) ++ taken_in (texpr_tree then.now) ++ taken_in (texpr_tree otherwise.now)) }
{
    add_expr(condition, taken)?;
    add_both(then, otherwise, taken)?;
    Ok(())
}

#[cycle(taken)]
fn add_args(args: &TExprs, taken: &mut Vec<u64>) -> Result<(), NoMemory>
    ensures { OnOk result (taken.new.items ≡ taken.old.items ++ taken_among (texprs_tree args.now)) }
{
    for arg in args.as_slice() {
        add_expr(arg, taken)?;
    }
    Ok(())
}
