// The calls in statements, statement by statement in the order of the text.
#![tactic(auto, using(c_syntax::proofs::Trees::the_trees, c_syntax::proofs::Sizes::the_typed_sizes, crate::proofs::Forms::the_calls))]

ghost use Rattle.std.specs.Prelude.{◌≡◌, ◌++◌, map, option_map, OnOk};
ghost use Rattle.std.specs.List.{flat_map};
ghost use Rattle.c_syntax.specs.TypedExpr.{texpr_tree};
ghost use Rattle.c_syntax.specs.TypedStmt.{tinit_tree, tstmt_tree, tstmts_tree};
ghost use Rattle.c_layout.specs.Calls.{calls_if_there, calls_of, init_calls, item_calls, stmt_calls};

use crate::call::Calls;
use crate::exprs::add_expr;
use c_syntax::{TExpr, TInit, TInits, TStmt, TStmts};
use std::alloc::AllocError as NoMemory;

// The calls in a statement, behind those that are there.
#[cycle(calls)]
pub(crate) fn add_stmt(stmt: &TStmt, calls: &mut Calls) -> Result<(), NoMemory>
    ensures { OnOk result (calls.new ≡ calls.old ++ stmt_calls (tstmt_tree stmt.now)) }
{
    match stmt {
        TStmt::Empty { .. } => Ok(()),
        TStmt::Static { .. } => Ok(()),
        TStmt::Break { .. } => Ok(()),
        TStmt::Continue { .. } => Ok(()),
        TStmt::Goto { .. } => Ok(()),
        TStmt::Label { .. } => Ok(()),
        TStmt::Case { .. } => Ok(()),
        TStmt::Default { .. } => Ok(()),
        TStmt::Expr { value, .. } => add_expr(value, calls),
        TStmt::Return { value, .. } => add_option(value, calls),
        TStmt::Declare { inits, .. } => add_inits(inits, calls),
        TStmt::Block { items, .. } => add_items(items, calls),
        TStmt::Switch { value, items, .. } => add_switch(value, items, calls),
        TStmt::If {
            condition,
            then,
            otherwise,
            ..
        } => add_if(condition, then, otherwise, calls),
        TStmt::While {
            condition,
            body,
            ..
        } => add_while(condition, body, calls),
        TStmt::DoWhile {
            body,
            condition,
            ..
        } => add_do(body, condition, calls),
        TStmt::For {
            head,
            condition,
            step,
            body,
            ..
        } => add_for(head, condition, step, body, calls),
    }
}

fn add_option(value: &Option<TExpr>, calls: &mut Calls) -> Result<(), NoMemory>
    ensures { OnOk result (calls.new ≡ calls.old ++ calls_if_there (option_map texpr_tree value.now)) }
{
    match value {
        Some(value) => add_expr(value, calls),
        None => Ok(()),
    }
}

fn add_inits(inits: &TInits, calls: &mut Calls) -> Result<(), NoMemory>
    ensures { OnOk result (calls.new ≡ calls.old ++ flat_map init_calls (map tinit_tree inits.now)) }
{
    for init in inits.as_slice() {
        add_init(init, calls)?;
    }
    Ok(())
}

fn add_init(init: &TInit, calls: &mut Calls) -> Result<(), NoMemory>
    ensures { OnOk result (calls.new ≡ calls.old ++ init_calls (tinit_tree init.now)) }
{
    match init {
        TInit::Store { value, .. } => add_expr(value, calls),
        TInit::Copy { source, .. } => add_expr(source, calls),
    }
}

#[cycle(calls)]
fn add_items(items: &TStmts, calls: &mut Calls) -> Result<(), NoMemory>
    ensures { OnOk result (calls.new ≡ calls.old ++ item_calls (tstmts_tree items.now)) }
{
    for item in items.as_slice() {
        add_stmt(item, calls)?;
    }
    Ok(())
}

#[cycle(calls)]
fn add_switch(value: &TExpr, items: &TStmts, calls: &mut Calls) -> Result<(), NoMemory>
    ensures { OnOk result (calls.new ≡ calls.old ++ calls_of (texpr_tree value.now) ++ item_calls (tstmts_tree items.now)) }
{
    add_expr(value, calls)?;
    add_items(items, calls)?;
    Ok(())
}

#[cycle(calls)]
fn add_if(
    condition: &TExpr,
    then: &TStmt,
    otherwise: &TStmt,
    calls: &mut Calls,
) -> Result<(), NoMemory>
    ensures { OnOk result
        (calls.new ≡ calls.old ++ calls_of (texpr_tree condition.now) ++ stmt_calls (tstmt_tree then.now) ++ stmt_calls (tstmt_tree otherwise.now)) }
{
    add_while(condition, then, calls)?;
    add_stmt(otherwise, calls)?;
    Ok(())
}

#[cycle(calls)]
fn add_while(condition: &TExpr, body: &TStmt, calls: &mut Calls) -> Result<(), NoMemory>
    ensures { OnOk result (calls.new ≡ calls.old ++ calls_of (texpr_tree condition.now) ++ stmt_calls (tstmt_tree body.now)) }
{
    add_expr(condition, calls)?;
    add_stmt(body, calls)?;
    Ok(())
}

#[cycle(calls)]
fn add_do(body: &TStmt, condition: &TExpr, calls: &mut Calls) -> Result<(), NoMemory>
    ensures { OnOk result (calls.new ≡ calls.old ++ stmt_calls (tstmt_tree body.now) ++ calls_of (texpr_tree condition.now)) }
{
    add_stmt(body, calls)?;
    add_expr(condition, calls)?;
    Ok(())
}

#[cycle(calls)]
fn add_for(
    head: &TStmts,
    condition: &Option<TExpr>,
    step: &Option<TExpr>,
    body: &TStmt,
    calls: &mut Calls,
) -> Result<(), NoMemory>
    ensures { OnOk result
        (calls.new
        ≡ calls.old ++ item_calls (tstmts_tree head.now) ++ calls_if_there (option_map texpr_tree condition.now)
        ++ calls_if_there (option_map texpr_tree step.now) ++ stmt_calls (tstmt_tree body.now)) }
{
    add_items(head, calls)?;
    add_option(condition, calls)?;
    add_option(step, calls)?;
    add_stmt(body, calls)?;
    Ok(())
}
