// What expressions do, handed up part by part, and their first sides that clash.
#![tactic(auto, using(c_syntax::proofs::Trees::the_trees, c_syntax::proofs::Sizes::the_typed_sizes, crate::proofs::Forms::the_sides, crate::proofs::FirstFound::the_firsts))]

ghost use Rattle.std.specs.Prelude.{◌≡◌, ◌++◌, IfOk, OnOk};
ghost use Rattle.c_syntax.specs.TypedExpr.{texpr_tree, texprs_tree, tlvalue_tree};
ghost use Rattle.c_rules_effects.specs.Places.{place_of};
ghost use Rattle.c_rules_effects.specs.Joined.{change_at, read_at, write_at};
ghost use Rattle.c_rules_order.specs.Firsts.{or_first};
ghost use Rattle.c_rules_order.specs.Made.{all_joined, only, sides_joined, with_call, with_own};
ghost use Rattle.c_rules_order.specs.Sides.{all_pairs, compared_among, compared_at, compared_in, side_at, side_of, sides_of, stored_beside, two};

use crate::compare::{compare_all, join_changed, join_compared, join_stored};
use crate::known::Known;
use crate::side::{Comparison, Side, called_with};
use c_syntax::{Pos, TExpr, TExprs, TLvalue};
use std::alloc::{AllocError as NoMemory, Global};

// What an expression does, and what was found before, or else the first two of its sides that clash.
#[cycle(sides)]
pub(crate) fn walk_expr(
    alloc: Global,
    known: &Known,
    expr: &TExpr,
    found: &mut Option<Comparison>,
) -> Result<Side, NoMemory>
    ensures side { IfOk result (λ side. side ≡ side_of (texpr_tree expr.now)) }
    ensures found { OnOk result (found.new ≡ or_first known.now found.old (compared_in (texpr_tree expr.now))) }
{
    match expr {
        TExpr::Const { .. } => Ok(Side::new(alloc)),
        TExpr::Null { .. } => Ok(Side::new(alloc)),
        TExpr::Any { .. } => Ok(Side::new(alloc)),
        TExpr::AddressOf { place, .. } => walk_place(alloc, known, place, found),
        TExpr::Decay { place, .. } => walk_place(alloc, known, place, found),
        TExpr::Load { place, .. } => walk_read(alloc, known, place, found),
        TExpr::Whole { place, .. } => walk_read(alloc, known, place, found),
        TExpr::Step { place, .. } => walk_step(alloc, known, place, found),
        TExpr::Unary { operand, .. } => walk_expr(alloc, known, operand, found),
        TExpr::Convert { operand, .. } => walk_expr(alloc, known, operand, found),
        TExpr::Assume { operand, .. } => walk_expr(alloc, known, operand, found),
        TExpr::Assert { operand, .. } => walk_expr(alloc, known, operand, found),
        TExpr::And { left, right, .. } => walk_both(alloc, known, left, right, found),
        TExpr::Or { left, right, .. } => walk_both(alloc, known, left, right, found),
        TExpr::Comma { left, right, .. } => walk_both(alloc, known, left, right, found),
        TExpr::Binary {
            pos,
            left,
            right,
            ..
        } => walk_operands(alloc, known, *pos, left, right, found),
        TExpr::Assign { pos, place, value } => walk_store(alloc, known, *pos, place, value, found),
        TExpr::AssignStruct {
            pos,
            place,
            source,
            ..
        } => walk_store(alloc, known, *pos, place, source, found),
        TExpr::Compound {
            pos,
            place,
            value,
            ..
        } => walk_change(alloc, known, *pos, place, value, found),
        TExpr::Cond {
            condition,
            then,
            otherwise,
            ..
        } => walk_choice(alloc, known, condition, then, otherwise, found),
        TExpr::Call {
            pos,
            function,
            args,
            ..
        } => walk_call(alloc, known, *pos, *function, args, found),
    }
}

// What naming a place does.
#[cycle(sides)]
fn walk_place(
    alloc: Global,
    known: &Known,
    place: &TLvalue,
    found: &mut Option<Comparison>,
) -> Result<Side, NoMemory>
    ensures side { IfOk result (λ side. side ≡ side_at (tlvalue_tree place.now)) }
    ensures found { OnOk result (found.new ≡ or_first known.now found.old (compared_at (tlvalue_tree place.now))) }
{
    match place {
        TLvalue::Var { .. } => Ok(Side::new(alloc)),
        TLvalue::Deref { pointer, .. } => walk_expr(alloc, known, pointer, found),
        TLvalue::Member { place, .. } => walk_place(alloc, known, place, found),
    }
}

#[cycle(sides)]
fn walk_read(
    alloc: Global,
    known: &Known,
    place: &TLvalue,
    found: &mut Option<Comparison>,
) -> Result<Side, NoMemory>
    ensures side { IfOk result (λ side. side ≡ with_own (side_at (tlvalue_tree place.now)) (read_at (place_of (tlvalue_tree place.now)))) }
    ensures found { OnOk result (found.new ≡ or_first known.now found.old (compared_at (tlvalue_tree place.now))) }
{
    let mut side = walk_place(alloc, known, place, found)?;
    side.read(alloc, place)?;
    Ok(side)
}

#[cycle(sides)]
fn walk_step(
    alloc: Global,
    known: &Known,
    place: &TLvalue,
    found: &mut Option<Comparison>,
) -> Result<Side, NoMemory>
    ensures side { IfOk result (λ side. side ≡ with_own (side_at (tlvalue_tree place.now)) (change_at (place_of (tlvalue_tree place.now)))) }
    ensures found { OnOk result (found.new ≡ or_first known.now found.old (compared_at (tlvalue_tree place.now))) }
{
    let mut side = walk_place(alloc, known, place, found)?;
    side.change(alloc, place)?;
    Ok(side)
}

#[cycle(sides)]
fn walk_both(
    alloc: Global,
    known: &Known,
    left: &TExpr,
    right: &TExpr,
    found: &mut Option<Comparison>,
) -> Result<Side, NoMemory>
    ensures side { IfOk result (λ side. side ≡ sides_joined (side_of (texpr_tree left.now)) (side_of (texpr_tree right.now))) }
    ensures found { OnOk result (found.new ≡ or_first known.now found.old (compared_in (texpr_tree left.now) ++ compared_in (texpr_tree right.now))) }
{
    let mut side = walk_expr(alloc, known, left, found)?;
    add_expr(alloc, known, right, &mut side, found)?;
    Ok(side)
}

// What a side does, and then what an expression does.
#[cycle(sides)]
fn add_expr(
    alloc: Global,
    known: &Known,
    expr: &TExpr,
    side: &mut Side,
    found: &mut Option<Comparison>,
) -> Result<(), NoMemory>
    ensures side { OnOk result (side.new ≡ sides_joined side.old (side_of (texpr_tree expr.now))) }
    ensures found { OnOk result
        (found.new ≡ or_first known.now found.old (compared_in (texpr_tree expr.now))) }
{
    let other = walk_expr(alloc, known, expr, found)?;
    side.join(alloc, &other)
}

// Operands whose order nothing fixes.
#[cycle(sides)]
fn walk_operands(
    alloc: Global,
    known: &Known,
    pos: Pos,
    left: &TExpr,
    right: &TExpr,
    found: &mut Option<Comparison>,
) -> Result<Side, NoMemory>
    ensures side { IfOk result (λ side. side ≡ sides_joined (side_of (texpr_tree left.now)) (side_of (texpr_tree right.now))) }
    ensures found { OnOk result
        (found.new ≡ or_first known.now found.old (compared_in (texpr_tree left.now) ++ compared_in (texpr_tree right.now)
        ++ two pos (side_of (texpr_tree left.now)) (side_of (texpr_tree right.now)))) }
{
    let mut side = walk_expr(alloc, known, left, found)?;
    add_operand(alloc, known, pos, right, &mut side, found)?;
    Ok(side)
}

// The other operand, beside one that does this.
#[cycle(sides)]
fn add_operand(
    alloc: Global,
    known: &Known,
    pos: Pos,
    operand: &TExpr,
    side: &mut Side,
    found: &mut Option<Comparison>,
) -> Result<(), NoMemory>
    ensures side { OnOk result (side.new ≡ sides_joined side.old (side_of (texpr_tree operand.now))) }
    ensures found { OnOk result
        (found.new ≡ or_first known.now found.old (compared_in (texpr_tree operand.now) ++ two pos side.old (side_of (texpr_tree operand.now)))) }
{
    let other = walk_expr(alloc, known, operand, found)?;
    join_compared(alloc, known, pos, &other, side, found)
}

#[cycle(sides)]
fn walk_store(
    alloc: Global,
    known: &Known,
    pos: Pos,
    place: &TLvalue,
    value: &TExpr,
    found: &mut Option<Comparison>,
) -> Result<Side, NoMemory>
    ensures side { IfOk result
        (λ side. side ≡ with_own (sides_joined (side_at (tlvalue_tree place.now)) (side_of (texpr_tree value.now))) (write_at (place_of
        (tlvalue_tree place.now)))) }
    ensures found { OnOk result
        (found.new ≡ or_first known.now found.old (compared_at (tlvalue_tree place.now) ++ compared_in (texpr_tree value.now)
        ++ two pos (side_at (tlvalue_tree place.now)) (side_of (texpr_tree value.now)) ++ stored_beside pos (tlvalue_tree place.now) (texpr_tree value.now))) }
{
    let mut side = walk_place(alloc, known, place, found)?;
    add_stored(alloc, known, pos, place, value, &mut side, found)?;
    Ok(side)
}

// The right side of an `=`, beside a place whose naming does this, and the store.
#[cycle(sides)]
fn add_stored(
    alloc: Global,
    known: &Known,
    pos: Pos,
    place: &TLvalue,
    value: &TExpr,
    side: &mut Side,
    found: &mut Option<Comparison>,
) -> Result<(), NoMemory>
    ensures side { OnOk result (side.new ≡ with_own (sides_joined side.old (side_of (texpr_tree value.now))) (write_at (place_of (tlvalue_tree place.now)))) }
    ensures found { OnOk result
        (found.new ≡ or_first known.now found.old (compared_in (texpr_tree value.now) ++ two pos side.old (side_of (texpr_tree value.now))
        ++ stored_beside pos (tlvalue_tree place.now) (texpr_tree value.now))) }
{
    let right = walk_expr(alloc, known, value, found)?;
    join_stored(alloc, known, pos, place, value, &right, side, found)?;
    Ok(())
}

#[cycle(sides)]
fn walk_change(
    alloc: Global,
    known: &Known,
    pos: Pos,
    place: &TLvalue,
    value: &TExpr,
    found: &mut Option<Comparison>,
) -> Result<Side, NoMemory>
    ensures side { IfOk result
        (λ side. side ≡ with_own (sides_joined (side_at (tlvalue_tree place.now)) (side_of (texpr_tree value.now))) (change_at (place_of
        (tlvalue_tree place.now)))) }
    ensures found { OnOk result
        (found.new ≡ or_first known.now found.old (compared_at (tlvalue_tree place.now) ++ compared_in (texpr_tree value.now)
        ++ two pos (side_at (tlvalue_tree place.now)) (side_of (texpr_tree value.now))
        ++ two pos (only (read_at (place_of (tlvalue_tree place.now)))) (side_of (texpr_tree value.now)))) }
{
    let mut side = walk_place(alloc, known, place, found)?;
    add_changed(alloc, known, pos, place, value, &mut side, found)?;
    Ok(side)
}

// The right side of an `op=`, beside a place whose naming does this, and the change.
#[cycle(sides)]
fn add_changed(
    alloc: Global,
    known: &Known,
    pos: Pos,
    place: &TLvalue,
    value: &TExpr,
    side: &mut Side,
    found: &mut Option<Comparison>,
) -> Result<(), NoMemory>
    ensures side { OnOk result (side.new ≡ with_own (sides_joined side.old (side_of (texpr_tree value.now))) (change_at (place_of (tlvalue_tree place.now)))) }
    ensures found { OnOk result
        (found.new ≡ or_first known.now found.old (compared_in (texpr_tree value.now) ++ two pos side.old (side_of (texpr_tree value.now))
        ++ two pos (only (read_at (place_of (tlvalue_tree place.now)))) (side_of (texpr_tree value.now)))) }
{
    let right = walk_expr(alloc, known, value, found)?;
    join_changed(alloc, known, pos, place, &right, side, found)?;
    Ok(())
}

#[cycle(sides)]
fn walk_choice(
    alloc: Global,
    known: &Known,
    condition: &TExpr,
    then: &TExpr,
    otherwise: &TExpr,
    found: &mut Option<Comparison>,
) -> Result<Side, NoMemory>
    ensures side { IfOk result
        (λ side. side ≡ sides_joined (sides_joined (side_of (texpr_tree condition.now)) (side_of (texpr_tree then.now))) (side_of (texpr_tree otherwise.now))) }
    ensures found { OnOk result
        (found.new ≡ or_first known.now found.old
        (compared_in (texpr_tree condition.now) ++ compared_in (texpr_tree then.now) ++ compared_in (texpr_tree otherwise.now))) }
{
    let mut side = walk_both(alloc, known, condition, then, found)?;
    add_expr(alloc, known, otherwise, &mut side, found)?;
    Ok(side)
}

// The arguments, any two of which are sides, and then the call.
#[cycle(sides)]
fn walk_call(
    alloc: Global,
    known: &Known,
    pos: Pos,
    function: u64,
    args: &TExprs,
    found: &mut Option<Comparison>,
) -> Result<Side, NoMemory>
    ensures side { IfOk result (λ side. side ≡ with_call (all_joined (sides_of (texprs_tree args.now))) pos function) }
    ensures found { OnOk result
        (found.new ≡ or_first known.now found.old (compared_among (texprs_tree args.now) ++ all_pairs pos (sides_of (texprs_tree args.now)))) }
{
    let sides = walk_args(alloc, known, args, found)?;
    compare_all(alloc, known, pos, &sides, found)?;
    called_with(alloc, &sides, pos, function)
}

#[cycle(sides)]
fn walk_args(
    alloc: Global,
    known: &Known,
    args: &TExprs,
    found: &mut Option<Comparison>,
) -> Result<Vec<Side>, NoMemory>
    ensures sides { IfOk result (λ sides. sides.items ≡ sides_of (texprs_tree args.now)) }
    ensures found { OnOk result (found.new ≡ or_first known.now found.old (compared_among (texprs_tree args.now))) }
{
    let mut sides = Vec::new(alloc);
    for arg in args.as_slice() {
        let side = walk_expr(alloc, known, arg, found)?;
        sides.push(side)?;
    }
    Ok(sides)
}
