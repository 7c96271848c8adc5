// The effects of the expressions in statements.
#![tactic(auto, using(c_syntax::proofs::Trees::the_trees, c_syntax::proofs::Sizes::the_typed_sizes, crate::proofs::Forms::the_effects, crate::proofs::Joins::the_joins))]

ghost use Rattle.std.specs.Prelude.{◌≡◌, map, option_map, IfOk, OnOk};
ghost use Rattle.c_syntax.specs.TypedExpr.{texpr_tree};
ghost use Rattle.c_syntax.specs.TypedStmt.{tinit_tree, tstmt_tree, tstmts_tree};
ghost use Rattle.c_rules_effects.specs.Effects.{effects_if_there, effects_in, effects_in_items, effects_of, init_effects, inits_effects};
ghost use Rattle.c_rules_effects.specs.Joined.{joined};

use crate::effects::Effects;
use crate::exprs::add_expr;
use c_syntax::{TExpr, TInit, TInits, TStmt, TStmts};
use std::alloc::{AllocError as NoMemory, Global};

/// The effects of the expressions in a statement, where these are the effects of each function, by its number.
pub fn effects_in(alloc: Global, known: &[Effects], stmt: &TStmt) -> Result<Effects, NoMemory>
    ensures { IfOk result (λ effects. effects ≡ effects_in known.now (tstmt_tree stmt.now)) }
{
    let mut effects = Effects::new(alloc);
    add_stmt(alloc, known, stmt, &mut effects)?;
    Ok(effects)
}

#[cycle(effects)]
fn add_stmt(
    alloc: Global,
    known: &[Effects],
    stmt: &TStmt,
    effects: &mut Effects,
) -> Result<(), NoMemory>
    ensures { OnOk result (effects.new ≡ joined effects.old (effects_in known.now (tstmt_tree stmt.now))) }
{
    match stmt {
        TStmt::Empty { .. } => Ok(()),
        TStmt::Static { .. } => Ok(()),
        TStmt::Break { .. } => Ok(()),
        TStmt::Continue { .. } => Ok(()),
        TStmt::Goto { .. } => Ok(()),
        TStmt::Label { .. } => Ok(()),
        TStmt::Case { .. } => Ok(()),
        TStmt::Default { .. } => Ok(()),
        TStmt::Expr { value, .. } => add_expr(alloc, known, value, effects),
        TStmt::Return { value, .. } => add_option(alloc, known, value, effects),
        TStmt::Declare { inits, .. } => add_inits(alloc, known, inits, effects),
        TStmt::Block { items, .. } => add_items(alloc, known, items, effects),
        TStmt::Switch { value, items, .. } => add_switch(alloc, known, value, items, effects),
        TStmt::If {
            condition,
            then,
            otherwise,
            ..
        } => add_if(alloc, known, condition, then, otherwise, effects),
        TStmt::While {
            condition,
            body,
            ..
        } => add_while(alloc, known, condition, body, effects),
        TStmt::DoWhile {
            body,
            condition,
            ..
        } => add_do(alloc, known, body, condition, effects),
        TStmt::For {
            head,
            condition,
            step,
            body,
            ..
        } => add_for(alloc, known, head, condition, step, body, effects),
    }
}

fn add_option(
    alloc: Global,
    known: &[Effects],
    value: &Option<TExpr>,
    effects: &mut Effects,
) -> Result<(), NoMemory>
    ensures { OnOk result (effects.new ≡ joined effects.old (effects_if_there known.now (option_map texpr_tree value.now))) }
{
    match value {
        Some(value) => add_expr(alloc, known, value, effects),
        None => Ok(()),
    }
}

fn add_inits(
    alloc: Global,
    known: &[Effects],
    inits: &TInits,
    effects: &mut Effects,
) -> Result<(), NoMemory>
    ensures { OnOk result (effects.new ≡ joined effects.old (inits_effects known.now (map tinit_tree inits.now))) }
{
    for init in inits.as_slice() {
        add_init(alloc, known, init, effects)?;
    }
    Ok(())
}

fn add_init(
    alloc: Global,
    known: &[Effects],
    init: &TInit,
    effects: &mut Effects,
) -> Result<(), NoMemory>
    ensures { OnOk result (effects.new ≡ joined effects.old (init_effects known.now (tinit_tree init.now))) }
{
    match init {
        TInit::Store { value, .. } => add_expr(alloc, known, value, effects),
        TInit::Copy { source, .. } => add_expr(alloc, known, source, effects),
    }
}

#[cycle(effects)]
fn add_items(
    alloc: Global,
    known: &[Effects],
    items: &TStmts,
    effects: &mut Effects,
) -> Result<(), NoMemory>
    ensures { OnOk result (effects.new ≡ joined effects.old (effects_in_items known.now (tstmts_tree items.now))) }
{
    for item in items.as_slice() {
        add_stmt(alloc, known, item, effects)?;
    }
    Ok(())
}

#[cycle(effects)]
fn add_switch(
    alloc: Global,
    known: &[Effects],
    value: &TExpr,
    items: &TStmts,
    effects: &mut Effects,
) -> Result<(), NoMemory>
    ensures { OnOk result
        (effects.new ≡ joined effects.old (joined (effects_of known.now (texpr_tree value.now)) (effects_in_items known.now (tstmts_tree items.now)))) }
{
    add_expr(alloc, known, value, effects)?;
    add_items(alloc, known, items, effects)?;
    Ok(())
}

#[cycle(effects)]
fn add_while(
    alloc: Global,
    known: &[Effects],
    condition: &TExpr,
    body: &TStmt,
    effects: &mut Effects,
) -> Result<(), NoMemory>
    ensures { OnOk result
        (effects.new ≡ joined effects.old (joined (effects_of known.now (texpr_tree condition.now)) (effects_in known.now (tstmt_tree body.now)))) }
{
    add_expr(alloc, known, condition, effects)?;
    add_stmt(alloc, known, body, effects)?;
    Ok(())
}

#[cycle(effects)]
fn add_if(
    alloc: Global,
    known: &[Effects],
    condition: &TExpr,
    then: &TStmt,
    otherwise: &TStmt,
    effects: &mut Effects,
) -> Result<(), NoMemory>
    ensures { OnOk result
        (effects.new
        ≡ joined effects.old (joined (joined (effects_of known.now (texpr_tree condition.now)) (effects_in known.now (tstmt_tree then.now)))
        (effects_in known.now (tstmt_tree otherwise.now)))) }
{
    add_while(alloc, known, condition, then, effects)?;
    add_stmt(alloc, known, otherwise, effects)?;
    Ok(())
}

#[cycle(effects)]
fn add_do(
    alloc: Global,
    known: &[Effects],
    body: &TStmt,
    condition: &TExpr,
    effects: &mut Effects,
) -> Result<(), NoMemory>
    ensures { OnOk result
        (effects.new ≡ joined effects.old (joined (effects_in known.now (tstmt_tree body.now)) (effects_of known.now (texpr_tree condition.now)))) }
{
    add_stmt(alloc, known, body, effects)?;
    add_expr(alloc, known, condition, effects)?;
    Ok(())
}

#[cycle(effects)]
fn add_for(
    alloc: Global,
    known: &[Effects],
    head: &TStmts,
    condition: &Option<TExpr>,
    step: &Option<TExpr>,
    body: &TStmt,
    effects: &mut Effects,
) -> Result<(), NoMemory>
    ensures { OnOk result
        (effects.new
        ≡ joined effects.old (joined (joined (joined (effects_in_items known.now (tstmts_tree head.now))
        (effects_if_there known.now (option_map texpr_tree condition.now))) (effects_if_there known.now (option_map texpr_tree step.now)))
        (effects_in known.now (tstmt_tree body.now)))) }
{
    add_items(alloc, known, head, effects)?;
    add_option(alloc, known, condition, effects)?;
    add_option(alloc, known, step, effects)?;
    add_stmt(alloc, known, body, effects)?;
    Ok(())
}
