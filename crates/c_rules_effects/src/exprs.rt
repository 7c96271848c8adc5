// The effects of expressions.
#![tactic(auto, using(c_syntax::proofs::Trees::the_trees, c_syntax::proofs::Sizes::the_typed_sizes, crate::proofs::Forms::the_effects, crate::proofs::Joins::the_joins))]

ghost use Rattle.std.specs.Prelude.{◌≡◌, IfOk, OnOk};
ghost use Rattle.c_syntax.specs.TypedExpr.{texpr_tree, texprs_tree, tlvalue_tree};
ghost use Rattle.c_rules_effects.specs.Places.{place_of};
ghost use Rattle.c_rules_effects.specs.Effects.{called, effects_among, effects_at, effects_of};
ghost use Rattle.c_rules_effects.specs.Joined.{change_at, joined, read_at, write_at};

use crate::effects::Effects;
use crate::place_of;
use c_syntax::{TExpr, TExprs, TLvalue};
use std::alloc::{AllocError as NoMemory, Global};

/// The effects of an expression, where these are the effects of each function, by its number. A function that has none
/// there has no effects.
pub fn effects_of(alloc: Global, known: &[Effects], expr: &TExpr) -> Result<Effects, NoMemory>
    ensures { IfOk result (λ effects. effects ≡ effects_of known.now (texpr_tree expr.now)) }
{
    let mut effects = Effects::new(alloc);
    add_expr(alloc, known, expr, &mut effects)?;
    Ok(effects)
}

// The effects of an expression, behind those that are there.
#[cycle(effects)]
pub(crate) fn add_expr(
    alloc: Global,
    known: &[Effects],
    expr: &TExpr,
    effects: &mut Effects,
) -> Result<(), NoMemory>
    ensures { OnOk result (effects.new ≡ joined effects.old (effects_of known.now (texpr_tree expr.now))) }
{
    match expr {
        TExpr::Const { .. } => Ok(()),
        TExpr::Null { .. } => Ok(()),
        TExpr::Any { .. } => Ok(()),
        TExpr::AddressOf { place, .. } => add_place(alloc, known, place, effects),
        TExpr::Decay { place, .. } => add_place(alloc, known, place, effects),
        TExpr::Load { place, .. } => add_read(alloc, known, place, effects),
        TExpr::Whole { place, .. } => add_read(alloc, known, place, effects),
        TExpr::Step { place, .. } => add_step(alloc, known, place, effects),
        TExpr::Unary { operand, .. } => add_expr(alloc, known, operand, effects),
        TExpr::Convert { operand, .. } => add_expr(alloc, known, operand, effects),
        TExpr::Assume { operand, .. } => add_expr(alloc, known, operand, effects),
        TExpr::Assert { operand, .. } => add_expr(alloc, known, operand, effects),
        TExpr::Binary { left, right, .. } => add_both(alloc, known, left, right, effects),
        TExpr::And { left, right, .. } => add_both(alloc, known, left, right, effects),
        TExpr::Or { left, right, .. } => add_both(alloc, known, left, right, effects),
        TExpr::Comma { left, right, .. } => add_both(alloc, known, left, right, effects),
        TExpr::Assign { place, value, .. } => add_store(alloc, known, place, value, effects),
        TExpr::AssignStruct { place, source, .. } => {
            add_store(alloc, known, place, source, effects)
        }
        TExpr::Compound { place, value, .. } => add_change(alloc, known, place, value, effects),
        TExpr::Cond {
            condition,
            then,
            otherwise,
            ..
        } => add_choice(alloc, known, condition, then, otherwise, effects),
        TExpr::Call { function, args, .. } => add_call(alloc, known, *function, args, effects),
    }
}

// The effects of naming a place.
#[cycle(effects)]
fn add_place(
    alloc: Global,
    known: &[Effects],
    place: &TLvalue,
    effects: &mut Effects,
) -> Result<(), NoMemory>
    ensures { OnOk result (effects.new ≡ joined effects.old (effects_at known.now (tlvalue_tree place.now))) }
{
    match place {
        TLvalue::Var { .. } => Ok(()),
        TLvalue::Deref { pointer, .. } => add_expr(alloc, known, pointer, effects),
        TLvalue::Member { place, .. } => add_place(alloc, known, place, effects),
    }
}

#[cycle(effects)]
fn add_read(
    alloc: Global,
    known: &[Effects],
    place: &TLvalue,
    effects: &mut Effects,
) -> Result<(), NoMemory>
    ensures { OnOk result
        (effects.new ≡ joined effects.old (joined (effects_at known.now (tlvalue_tree place.now)) (read_at (place_of (tlvalue_tree place.now))))) }
{
    add_place(alloc, known, place, effects)?;
    effects.read(place_of(alloc, place)?)?;
    Ok(())
}

#[cycle(effects)]
fn add_step(
    alloc: Global,
    known: &[Effects],
    place: &TLvalue,
    effects: &mut Effects,
) -> Result<(), NoMemory>
    ensures { OnOk result
        (effects.new ≡ joined effects.old (joined (effects_at known.now (tlvalue_tree place.now)) (change_at (place_of (tlvalue_tree place.now))))) }
{
    add_place(alloc, known, place, effects)?;
    effects.change(alloc, place_of(alloc, place)?)?;
    Ok(())
}

#[cycle(effects)]
fn add_both(
    alloc: Global,
    known: &[Effects],
    left: &TExpr,
    right: &TExpr,
    effects: &mut Effects,
) -> Result<(), NoMemory>
    ensures { OnOk result
        (effects.new ≡ joined effects.old (joined (effects_of known.now (texpr_tree left.now)) (effects_of known.now (texpr_tree right.now)))) }
{
    add_expr(alloc, known, left, effects)?;
    add_expr(alloc, known, right, effects)?;
    Ok(())
}

// The place that is named, and the value.
#[cycle(effects)]
fn add_parts(
    alloc: Global,
    known: &[Effects],
    place: &TLvalue,
    value: &TExpr,
    effects: &mut Effects,
) -> Result<(), NoMemory>
    ensures { OnOk result
        (effects.new ≡ joined effects.old (joined (effects_at known.now (tlvalue_tree place.now)) (effects_of known.now (texpr_tree value.now)))) }
{
    add_place(alloc, known, place, effects)?;
    add_expr(alloc, known, value, effects)?;
    Ok(())
}

#[cycle(effects)]
fn add_store(
    alloc: Global,
    known: &[Effects],
    place: &TLvalue,
    value: &TExpr,
    effects: &mut Effects,
) -> Result<(), NoMemory>
    ensures { OnOk result
        (effects.new
        ≡ joined effects.old (joined (joined (effects_at known.now (tlvalue_tree place.now)) (effects_of known.now (texpr_tree value.now)))
        (write_at (place_of (tlvalue_tree place.now))))) }
{
    add_parts(alloc, known, place, value, effects)?;
    effects.write(place_of(alloc, place)?)?;
    Ok(())
}

#[cycle(effects)]
fn add_change(
    alloc: Global,
    known: &[Effects],
    place: &TLvalue,
    value: &TExpr,
    effects: &mut Effects,
) -> Result<(), NoMemory>
    ensures { OnOk result
        (effects.new
        ≡ joined effects.old (joined (joined (effects_at known.now (tlvalue_tree place.now)) (effects_of known.now (texpr_tree value.now)))
        (change_at (place_of (tlvalue_tree place.now))))) }
{
    add_parts(alloc, known, place, value, effects)?;
    effects.change(alloc, place_of(alloc, place)?)?;
    Ok(())
}

#[cycle(effects)]
fn add_choice(
    alloc: Global,
    known: &[Effects],
    condition: &TExpr,
    then: &TExpr,
    otherwise: &TExpr,
    effects: &mut Effects,
) -> Result<(), NoMemory>
    ensures { OnOk result
        (effects.new
        ≡ joined effects.old (joined (joined (effects_of known.now (texpr_tree condition.now)) (effects_of known.now (texpr_tree then.now)))
        (effects_of known.now (texpr_tree otherwise.now)))) }
{
    add_both(alloc, known, condition, then, effects)?;
    add_expr(alloc, known, otherwise, effects)?;
    Ok(())
}

// The arguments, and then what the function does.
#[cycle(effects)]
fn add_call(
    alloc: Global,
    known: &[Effects],
    function: u64,
    args: &TExprs,
    effects: &mut Effects,
) -> Result<(), NoMemory>
    ensures { OnOk result (effects.new ≡ joined effects.old (joined (effects_among known.now (texprs_tree args.now)) (called known.now function))) }
{
    add_args(alloc, known, args, effects)?;
    add_called(alloc, known, function, effects)?;
    Ok(())
}

/// What calls of this function do, behind the effects that are there, where these are the effects of each function.
pub fn add_called(
    alloc: Global,
    known: &[Effects],
    function: u64,
    effects: &mut Effects,
) -> Result<(), NoMemory>
    ensures { OnOk result (effects.new ≡ joined effects.old (called known.now function)) }
{
    match known.get(function as usize) {
        Some(called) => effects.join(alloc, called),
        None => Ok(()),
    }
}

#[cycle(effects)]
fn add_args(
    alloc: Global,
    known: &[Effects],
    args: &TExprs,
    effects: &mut Effects,
) -> Result<(), NoMemory>
    ensures { OnOk result (effects.new ≡ joined effects.old (effects_among known.now (texprs_tree args.now))) }
{
    for arg in args.as_slice() {
        add_expr(alloc, known, arg, effects)?;
    }
    Ok(())
}
