// The calls in expressions, as they are made from left to right.
#![tactic(auto, using(c_syntax::proofs::Trees::the_trees, c_syntax::proofs::Sizes::the_typed_sizes, crate::proofs::Forms::the_calls))]

ghost use Rattle.std.specs.Prelude.{◌≡◌, [], ◌∷◌, ◌++◌, OnOk};
ghost use Rattle.c_syntax.specs.TypedExpr.{texpr_tree, texprs_tree, tlvalue_tree};
ghost use Rattle.c_layout.specs.Calls.{calls_among, calls_at, calls_of};

use crate::call::{Call, Calls};
use c_syntax::{Pos, TExpr, TExprs, TLvalue};
use std::alloc::AllocError as NoMemory;

// The calls in an expression, behind those that are there.
#[cycle(calls)]
pub(crate) fn add_expr(expr: &TExpr, calls: &mut Calls) -> Result<(), NoMemory>
    ensures { OnOk result (calls.new ≡ calls.old ++ calls_of (texpr_tree expr.now)) }
{
    match expr {
        TExpr::Const { .. } => Ok(()),
        TExpr::Null { .. } => Ok(()),
        TExpr::Any { .. } => Ok(()),
        TExpr::Load { place, .. } => add_place(place, calls),
        TExpr::AddressOf { place, .. } => add_place(place, calls),
        TExpr::Decay { place, .. } => add_place(place, calls),
        TExpr::Whole { place, .. } => add_place(place, calls),
        TExpr::Step { place, .. } => add_place(place, calls),
        TExpr::Unary { operand, .. } => add_expr(operand, calls),
        TExpr::Convert { operand, .. } => add_expr(operand, calls),
        TExpr::Assume { operand, .. } => add_expr(operand, calls),
        TExpr::Assert { operand, .. } => add_expr(operand, calls),
        TExpr::Binary { left, right, .. } => add_both(left, right, calls),
        TExpr::And { left, right, .. } => add_both(left, right, calls),
        TExpr::Or { left, right, .. } => add_both(left, right, calls),
        TExpr::Comma { left, right, .. } => add_both(left, right, calls),
        TExpr::Assign { place, value, .. } => add_stored(place, value, calls),
        TExpr::Compound { place, value, .. } => add_stored(place, value, calls),
        TExpr::AssignStruct { place, source, .. } => add_stored(place, source, calls),
        TExpr::Cond {
            condition,
            then,
            otherwise,
            ..
        } => add_choice(condition, then, otherwise, calls),
        TExpr::Call {
            pos,
            function,
            args,
            ..
        } => add_call(*pos, *function, args, calls),
    }
}

#[cycle(calls)]
fn add_place(place: &TLvalue, calls: &mut Calls) -> Result<(), NoMemory>
    ensures { OnOk result (calls.new ≡ calls.old ++ calls_at (tlvalue_tree place.now)) }
{
    match place {
        TLvalue::Var { .. } => Ok(()),
        TLvalue::Deref { pointer, .. } => add_expr(pointer, calls),
        TLvalue::Member { place, .. } => add_place(place, calls),
    }
}

#[cycle(calls)]
fn add_both(left: &TExpr, right: &TExpr, calls: &mut Calls) -> Result<(), NoMemory>
    ensures { OnOk result (calls.new ≡ calls.old ++ calls_of (texpr_tree left.now) ++ calls_of (texpr_tree right.now)) }
{
    add_expr(left, calls)?;
    add_expr(right, calls)?;
    Ok(())
}

#[cycle(calls)]
fn add_stored(place: &TLvalue, value: &TExpr, calls: &mut Calls) -> Result<(), NoMemory>
    ensures { OnOk result (calls.new ≡ calls.old ++ calls_at (tlvalue_tree place.now) ++ calls_of (texpr_tree value.now)) }
{
    add_place(place, calls)?;
    add_expr(value, calls)?;
    Ok(())
}

#[cycle(calls)]
fn add_choice(
    condition: &TExpr,
    then: &TExpr,
    otherwise: &TExpr,
    calls: &mut Calls,
) -> Result<(), NoMemory>
    ensures { OnOk result
        (calls.new ≡ calls.old ++ calls_of (texpr_tree condition.now) ++ calls_of (texpr_tree then.now) ++ calls_of (texpr_tree otherwise.now)) }
{
    add_expr(condition, calls)?;
    add_both(then, otherwise, calls)?;
    Ok(())
}

// The arguments' calls, and then the call itself.
#[cycle(calls)]
fn add_call(pos: Pos, callee: u64, args: &TExprs, calls: &mut Calls) -> Result<(), NoMemory>
    ensures { OnOk result (calls.new ≡ calls.old ++ calls_among (texprs_tree args.now) ++ record { pos = pos; callee = callee } ∷ []) }
{
    add_args(args, calls)?;
    calls.push(Call { pos, callee })?;
    Ok(())
}

#[cycle(calls)]
fn add_args(args: &TExprs, calls: &mut Calls) -> Result<(), NoMemory>
    ensures { OnOk result (calls.new ≡ calls.old ++ calls_among (texprs_tree args.now)) }
{
    for arg in args.as_slice() {
        add_expr(arg, calls)?;
    }
    Ok(())
}
