// The sides of the expressions in statements, statement by statement in the order of the text.
#![tactic(auto, using(c_syntax::proofs::Trees::the_trees, c_syntax::proofs::Sizes::the_typed_sizes, crate::proofs::Forms::the_sides, crate::proofs::FirstFound::the_firsts))]

ghost use Rattle.std.specs.Prelude.{◌≡◌, ◌++◌, None, map, option_map, IfOk, OnOk};
ghost use Rattle.std.specs.List.{flat_map};
ghost use Rattle.c_syntax.specs.TypedExpr.{texpr_tree};
ghost use Rattle.c_syntax.specs.TypedStmt.{tinit_tree, tstmt_tree, tstmts_tree};
ghost use Rattle.c_rules_order.specs.Firsts.{or_first};
ghost use Rattle.c_rules_order.specs.Sides.{all_pairs, compared_if_there, compared_in, compared_in_items, compared_in_stmt, init_compared, init_side};

use crate::compare::compare_all;
use crate::exprs::walk_expr;
use crate::known::Known;
use crate::side::{Comparison, Side};
use c_syntax::{Pos, TExpr, TInit, TInits, TStmt, TStmts};
use std::alloc::{AllocError as NoMemory, Global};

/// Of the sides of the nodes in a statement, whose order nothing fixes, the first two of which one writes what the other
/// touches, where this is known of the program. Children come before their parents, and all else is in the order of
/// the text.
pub fn first_clash(
    alloc: Global,
    known: &Known,
    stmt: &TStmt,
) -> Result<Option<Comparison>, NoMemory>
    ensures { IfOk result (λ found. found ≡ or_first known.now None (compared_in_stmt (tstmt_tree stmt.now))) }
{
    let mut found = None;
    walk_stmt(alloc, known, stmt, &mut found)?;
    Ok(found)
}

#[cycle(sides)]
fn walk_stmt(
    alloc: Global,
    known: &Known,
    stmt: &TStmt,
    found: &mut Option<Comparison>,
) -> Result<(), NoMemory>
    ensures { OnOk result (found.new ≡ or_first known.now found.old (compared_in_stmt (tstmt_tree stmt.now))) }
{
    match stmt {
        TStmt::Empty { .. } => Ok(()),
        TStmt::Static { .. } => Ok(()),
        TStmt::Break { .. } => Ok(()),
        TStmt::Continue { .. } => Ok(()),
        TStmt::Goto { .. } => Ok(()),
        TStmt::Label { .. } => Ok(()),
        TStmt::Case { .. } => Ok(()),
        TStmt::Default { .. } => Ok(()),
        TStmt::Expr { value, .. } => walk_value(alloc, known, value, found),
        TStmt::Return { value, .. } => walk_option(alloc, known, value, found),
        TStmt::Declare { pos, inits, .. } => walk_inits(alloc, known, *pos, inits, found),
        TStmt::Block { items, .. } => walk_items(alloc, known, items, found),
        TStmt::Switch { value, items, .. } => walk_switch(alloc, known, value, items, found),
        TStmt::If {
            condition,
            then,
            otherwise,
            ..
        } => walk_if(alloc, known, condition, then, otherwise, found),
        TStmt::While {
            condition,
            body,
            ..
        } => walk_while(alloc, known, condition, body, found),
        TStmt::DoWhile {
            body,
            condition,
            ..
        } => walk_do(alloc, known, body, condition, found),
        TStmt::For {
            head,
            condition,
            step,
            body,
            ..
        } => walk_for(alloc, known, head, condition, step, body, found),
    }
}

// What the expression does is of no use here.
fn walk_value(
    alloc: Global,
    known: &Known,
    value: &TExpr,
    found: &mut Option<Comparison>,
) -> Result<(), NoMemory>
    ensures { OnOk result (found.new ≡ or_first known.now found.old (compared_in (texpr_tree value.now))) }
{
    let _side = walk_expr(alloc, known, value, found)?;
    Ok(())
}

fn walk_option(
    alloc: Global,
    known: &Known,
    value: &Option<TExpr>,
    found: &mut Option<Comparison>,
) -> Result<(), NoMemory>
    ensures { OnOk result (found.new ≡ or_first known.now found.old (compared_if_there (option_map texpr_tree value.now))) }
{
    match value {
        Some(value) => walk_value(alloc, known, value, found),
        None => Ok(()),
    }
}

// The items of an initialiser, any two of which are sides of its declaration.
fn walk_inits(
    alloc: Global,
    known: &Known,
    pos: Pos,
    inits: &TInits,
    found: &mut Option<Comparison>,
) -> Result<(), NoMemory>
    ensures { OnOk result
        (found.new ≡ or_first known.now found.old (flat_map init_compared (map tinit_tree inits.now)
        ++ all_pairs pos (map init_side (map tinit_tree inits.now)))) }
{
    let sides = init_sides(alloc, known, inits, found)?;
    compare_all(alloc, known, pos, &sides, found)
}

fn init_sides(
    alloc: Global,
    known: &Known,
    inits: &TInits,
    found: &mut Option<Comparison>,
) -> Result<Vec<Side>, NoMemory>
    ensures sides { IfOk result (λ sides. sides.items ≡ map init_side (map tinit_tree inits.now)) }
    ensures found { OnOk result (found.new ≡ or_first known.now found.old (flat_map init_compared (map tinit_tree inits.now))) }
{
    let mut sides = Vec::new(alloc);
    for init in inits.as_slice() {
        let side = walk_init(alloc, known, init, found)?;
        sides.push(side)?;
    }
    Ok(sides)
}

fn walk_init(
    alloc: Global,
    known: &Known,
    init: &TInit,
    found: &mut Option<Comparison>,
) -> Result<Side, NoMemory>
    ensures side { IfOk result (λ side. side ≡ init_side (tinit_tree init.now)) }
    ensures found { OnOk result (found.new ≡ or_first known.now found.old (init_compared (tinit_tree init.now))) }
{
    match init {
        TInit::Store { value, .. } => walk_expr(alloc, known, value, found),
        TInit::Copy { source, .. } => walk_expr(alloc, known, source, found),
    }
}

#[cycle(sides)]
fn walk_items(
    alloc: Global,
    known: &Known,
    items: &TStmts,
    found: &mut Option<Comparison>,
) -> Result<(), NoMemory>
    ensures { OnOk result (found.new ≡ or_first known.now found.old (compared_in_items (tstmts_tree items.now))) }
{
    for item in items.as_slice() {
        walk_stmt(alloc, known, item, found)?;
    }
    Ok(())
}

#[cycle(sides)]
fn walk_switch(
    alloc: Global,
    known: &Known,
    value: &TExpr,
    items: &TStmts,
    found: &mut Option<Comparison>,
) -> Result<(), NoMemory>
    ensures { OnOk result (found.new ≡ or_first known.now found.old (compared_in (texpr_tree value.now) ++ compared_in_items (tstmts_tree items.now))) }
{
    walk_value(alloc, known, value, found)?;
    walk_items(alloc, known, items, found)?;
    Ok(())
}

#[cycle(sides)]
fn walk_if(
    alloc: Global,
    known: &Known,
    condition: &TExpr,
    then: &TStmt,
    otherwise: &TStmt,
    found: &mut Option<Comparison>,
) -> Result<(), NoMemory>
    ensures { OnOk result
        (found.new ≡ or_first known.now found.old (compared_in (texpr_tree condition.now) ++ compared_in_stmt (tstmt_tree then.now)
        ++ compared_in_stmt (tstmt_tree otherwise.now))) }
{
    walk_while(alloc, known, condition, then, found)?;
    walk_stmt(alloc, known, otherwise, found)?;
    Ok(())
}

#[cycle(sides)]
fn walk_while(
    alloc: Global,
    known: &Known,
    condition: &TExpr,
    body: &TStmt,
    found: &mut Option<Comparison>,
) -> Result<(), NoMemory>
    ensures { OnOk result (found.new ≡ or_first known.now found.old (compared_in (texpr_tree condition.now) ++ compared_in_stmt (tstmt_tree body.now))) }
{
    walk_value(alloc, known, condition, found)?;
    walk_stmt(alloc, known, body, found)?;
    Ok(())
}

#[cycle(sides)]
fn walk_do(
    alloc: Global,
    known: &Known,
    body: &TStmt,
    condition: &TExpr,
    found: &mut Option<Comparison>,
) -> Result<(), NoMemory>
    ensures { OnOk result (found.new ≡ or_first known.now found.old (compared_in_stmt (tstmt_tree body.now) ++ compared_in (texpr_tree condition.now))) }
{
    walk_stmt(alloc, known, body, found)?;
    walk_value(alloc, known, condition, found)?;
    Ok(())
}

#[cycle(sides)]
fn walk_for(
    alloc: Global,
    known: &Known,
    head: &TStmts,
    condition: &Option<TExpr>,
    step: &Option<TExpr>,
    body: &TStmt,
    found: &mut Option<Comparison>,
) -> Result<(), NoMemory>
    ensures { OnOk result
        (found.new ≡ or_first known.now found.old (compared_in_items (tstmts_tree head.now) ++ compared_if_there (option_map texpr_tree condition.now)
        ++ compared_if_there (option_map texpr_tree step.now) ++ compared_in_stmt (tstmt_tree body.now))) }
{
    walk_items(alloc, known, head, found)?;
    walk_option(alloc, known, condition, found)?;
    walk_option(alloc, known, step, found)?;
    walk_stmt(alloc, known, body, found)?;
    Ok(())
}
