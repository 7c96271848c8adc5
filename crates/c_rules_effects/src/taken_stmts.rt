// The objects whose addresses the expressions in statements take.
#![tactic(auto, using(c_syntax::proofs::Trees::the_trees, c_syntax::proofs::Sizes::the_typed_sizes, crate::proofs::TakenForms::the_taken))]

ghost use Rattle.std.specs.Prelude.{◌≡◌, ◌++◌, map, option_map, OnOk};
ghost use Rattle.std.specs.List.{flat_map};
ghost use Rattle.c_syntax.specs.TypedExpr.{texpr_tree};
ghost use Rattle.c_syntax.specs.TypedStmt.{tinit_tree, tstmt_tree, tstmts_tree};
ghost use Rattle.c_rules_effects.specs.Taken.{taken_if_there, taken_in, init_taken, taken_in_items, taken_in_stmt};

use crate::taken_exprs::add_expr;
use c_syntax::{TExpr, TInit, TInits, TStmt, TStmts};
use std::alloc::AllocError as NoMemory;

// Those that a statement takes, behind those that are there.
#[cycle(taken)]
pub(crate) fn add_stmt(stmt: &TStmt, taken: &mut Vec<u64>) -> Result<(), NoMemory>
    ensures { OnOk result (taken.new.items ≡ taken.old.items ++ taken_in_stmt (tstmt_tree stmt.now)) }
{
    match stmt {
        TStmt::Empty { .. } => Ok(()),
        TStmt::Static { .. } => Ok(()),
        TStmt::Break { .. } => Ok(()),
        TStmt::Continue { .. } => Ok(()),
        TStmt::Goto { .. } => Ok(()),
        TStmt::Label { .. } => Ok(()),
        TStmt::Case { .. } => Ok(()),
        TStmt::Default { .. } => Ok(()),
        TStmt::Expr { value, .. } => add_expr(value, taken),
        TStmt::Return { value, .. } => add_option(value, taken),
        TStmt::Declare { inits, .. } => add_inits(inits, taken),
        TStmt::Block { items, .. } => add_items(items, taken),
        TStmt::Switch { value, items, .. } => add_switch(value, items, taken),
        TStmt::If {
            condition,
            then,
            otherwise,
            ..
        } => add_if(condition, then, otherwise, taken),
        TStmt::While {
            condition,
            body,
            ..
        } => add_while(condition, body, taken),
        TStmt::DoWhile {
            body,
            condition,
            ..
        } => add_do(body, condition, taken),
        TStmt::For {
            head,
            condition,
            step,
            body,
            ..
        } => add_for(head, condition, step, body, taken),
    }
}

fn add_option(value: &Option<TExpr>, taken: &mut Vec<u64>) -> Result<(), NoMemory>
    ensures { OnOk result (taken.new.items ≡ taken.old.items ++ taken_if_there (option_map texpr_tree value.now)) }
{
    match value {
        Some(value) => add_expr(value, taken),
        None => Ok(()),
    }
}

fn add_inits(inits: &TInits, taken: &mut Vec<u64>) -> Result<(), NoMemory>
    ensures { OnOk result (taken.new.items ≡ taken.old.items ++ flat_map init_taken (map tinit_tree inits.now)) }
{
    for init in inits.as_slice() {
        add_init(init, taken)?;
    }
    Ok(())
}

fn add_init(init: &TInit, taken: &mut Vec<u64>) -> Result<(), NoMemory>
    ensures { OnOk result (taken.new.items ≡ taken.old.items ++ init_taken (tinit_tree init.now)) }
{
    match init {
        TInit::Store { value, .. } => add_expr(value, taken),
        TInit::Copy { source, .. } => add_expr(source, taken),
    }
}

#[cycle(taken)]
fn add_items(items: &TStmts, taken: &mut Vec<u64>) -> Result<(), NoMemory>
    ensures { OnOk result (taken.new.items ≡ taken.old.items ++ taken_in_items (tstmts_tree items.now)) }
{
    for item in items.as_slice() {
        add_stmt(item, taken)?;
    }
    Ok(())
}

#[cycle(taken)]
fn add_switch(value: &TExpr, items: &TStmts, taken: &mut Vec<u64>) -> Result<(), NoMemory>
    ensures { OnOk result (taken.new.items ≡ taken.old.items ++ taken_in (texpr_tree value.now) ++ taken_in_items (tstmts_tree items.now)) }
{
    add_expr(value, taken)?;
    add_items(items, taken)?;
    Ok(())
}

#[cycle(taken)]
fn add_if(
    condition: &TExpr,
    then: &TStmt,
    otherwise: &TStmt,
    taken: &mut Vec<u64>,
) -> Result<(), NoMemory>
    ensures { OnOk result
        (taken.new.items ≡ taken.old.items ++ taken_in (texpr_tree condition.now) ++ taken_in_stmt (tstmt_tree then.now)
        ++ taken_in_stmt (tstmt_tree otherwise.now)) }
{
    add_while(condition, then, taken)?;
    add_stmt(otherwise, taken)?;
    Ok(())
}

#[cycle(taken)]
fn add_while(condition: &TExpr, body: &TStmt, taken: &mut Vec<u64>) -> Result<(), NoMemory>
    ensures { OnOk result (taken.new.items ≡ taken.old.items ++ taken_in (texpr_tree condition.now) ++ taken_in_stmt (tstmt_tree body.now)) }
{
    add_expr(condition, taken)?;
    add_stmt(body, taken)?;
    Ok(())
}

#[cycle(taken)]
fn add_do(body: &TStmt, condition: &TExpr, taken: &mut Vec<u64>) -> Result<(), NoMemory>
    ensures { OnOk result (taken.new.items ≡ taken.old.items ++ taken_in_stmt (tstmt_tree body.now) ++ taken_in (texpr_tree condition.now)) }
{
    add_stmt(body, taken)?;
    add_expr(condition, taken)?;
    Ok(())
}

#[cycle(taken)]
fn add_for(
    head: &TStmts,
    condition: &Option<TExpr>,
    step: &Option<TExpr>,
    body: &TStmt,
    taken: &mut Vec<u64>,
) -> Result<(), NoMemory>
    ensures { OnOk result
        (taken.new.items
        ≡ taken.old.items ++ taken_in_items (tstmts_tree head.now) ++ taken_if_there (option_map texpr_tree condition.now)
        ++ taken_if_there (option_map texpr_tree step.now) ++ taken_in_stmt (tstmt_tree body.now)) }
{
    add_items(head, taken)?;
    add_option(condition, taken)?;
    add_option(step, taken)?;
    add_stmt(body, taken)?;
    Ok(())
}
