// The constants in expressions.
#![tactic(auto, using(c_syntax::proofs::Trees::the_trees, c_syntax::proofs::Sizes::the_typed_sizes, crate::proofs::ConstantForms::the_constants))]

ghost use Rattle.std.specs.Prelude.{◌≡◌, ◌++◌, OnOk};
ghost use Rattle.c_syntax.specs.TypedExpr.{texpr_tree, texprs_tree, tlvalue_tree};
ghost use Rattle.ramp_constants.specs.Constants.{constants_among, constants_at, constants_in};

use c_syntax::{TExpr, TExprs, TLvalue};
use std::alloc::AllocError as NoMemory;

// Those in an expression, behind those that are there.
#[cycle(constants)]
pub(crate) fn add_expr(expr: &TExpr, constants: &mut Vec<i128>) -> Result<(), NoMemory>
    ensures { OnOk result (constants.new.items ≡ constants.old.items ++ constants_in (texpr_tree expr.now)) }
{
    match expr {
        TExpr::Const { value, .. } => {
            constants.push(*value)?;
            Ok(())
        }
        TExpr::Null { .. } => Ok(()),
        TExpr::Any { .. } => Ok(()),
        TExpr::Load { place, .. } => add_place(place, constants),
        TExpr::AddressOf { place, .. } => add_place(place, constants),
        TExpr::Decay { place, .. } => add_place(place, constants),
        TExpr::Whole { place, .. } => add_place(place, constants),
        TExpr::Step { place, .. } => add_place(place, constants),
        TExpr::Unary { operand, .. } => add_expr(operand, constants),
        TExpr::Convert { operand, .. } => add_expr(operand, constants),
        TExpr::Assume { operand, .. } => add_expr(operand, constants),
        TExpr::Assert { operand, .. } => add_expr(operand, constants),
        TExpr::Binary { left, right, .. } => add_both(left, right, constants),
        TExpr::And { left, right, .. } => add_both(left, right, constants),
        TExpr::Or { left, right, .. } => add_both(left, right, constants),
        TExpr::Comma { left, right, .. } => add_both(left, right, constants),
        TExpr::Assign { place, value, .. } => add_stored(place, value, constants),
        TExpr::Compound { place, value, .. } => add_stored(place, value, constants),
        TExpr::AssignStruct { place, source, .. } => add_stored(place, source, constants),
        TExpr::Cond {
            condition,
            then,
            otherwise,
            ..
        } => add_choice(condition, then, otherwise, constants),
        TExpr::Call { args, .. } => add_args(args, constants),
    }
}

#[cycle(constants)]
fn add_place(place: &TLvalue, constants: &mut Vec<i128>) -> Result<(), NoMemory>
    ensures { OnOk result (constants.new.items ≡ constants.old.items ++ constants_at (tlvalue_tree place.now)) }
{
    match place {
        TLvalue::Var { .. } => Ok(()),
        TLvalue::Deref { pointer, .. } => add_expr(pointer, constants),
        TLvalue::Member { place, .. } => add_place(place, constants),
    }
}

#[cycle(constants)]
fn add_both(left: &TExpr, right: &TExpr, constants: &mut Vec<i128>) -> Result<(), NoMemory>
    ensures { OnOk result (constants.new.items ≡ constants.old.items ++ constants_in (texpr_tree left.now) ++ constants_in (texpr_tree right.now)) }
{
    add_expr(left, constants)?;
    add_expr(right, constants)?;
    Ok(())
}

#[cycle(constants)]
fn add_stored(place: &TLvalue, value: &TExpr, constants: &mut Vec<i128>) -> Result<(), NoMemory>
    ensures { OnOk result (constants.new.items ≡ constants.old.items ++ constants_at (tlvalue_tree place.now) ++ constants_in (texpr_tree value.now)) }
{
    add_place(place, constants)?;
    add_expr(value, constants)?;
    Ok(())
}

#[cycle(constants)]
fn add_choice(
    condition: &TExpr,
    then: &TExpr,
    otherwise: &TExpr,
    constants: &mut Vec<i128>,
) -> Result<(), NoMemory>
    ensures { OnOk result
        (constants.new.items ≡ constants.old.items ++ constants_in (texpr_tree condition.now) ++ constants_in (texpr_tree then.now) ++ constants_in (texpr_tree otherwise.now)) }
{
    add_expr(condition, constants)?;
    add_both(then, otherwise, constants)?;
    Ok(())
}

#[cycle(constants)]
fn add_args(args: &TExprs, constants: &mut Vec<i128>) -> Result<(), NoMemory>
    ensures { OnOk result (constants.new.items ≡ constants.old.items ++ constants_among (texprs_tree args.now)) }
{
    for arg in args.as_slice() {
        add_expr(arg, constants)?;
    }
    Ok(())
}
