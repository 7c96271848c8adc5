// The constants in the expressions of statements.
#![tactic(auto, using(c_syntax::proofs::Trees::the_trees, c_syntax::proofs::Sizes::the_typed_sizes, crate::proofs::ConstantForms::the_constants))]

ghost use Rattle.std.specs.Prelude.{◌≡◌, ◌++◌, map, option_map, OnOk};
ghost use Rattle.std.specs.List.{flat_map};
ghost use Rattle.c_syntax.specs.TypedExpr.{texpr_tree};
ghost use Rattle.c_syntax.specs.TypedStmt.{tinit_tree, tstmt_tree, tstmts_tree};
ghost use Rattle.ramp_constants.specs.Constants.{constants_if_there, constants_in, init_constants, constants_in_items, constants_in_stmt};

use crate::exprs::add_expr;
use c_syntax::{TExpr, TInit, TInits, TStmt, TStmts};
use std::alloc::AllocError as NoMemory;

// Those in a statement, behind those that are there.
#[cycle(constants)]
pub(crate) fn add_stmt(stmt: &TStmt, constants: &mut Vec<i128>) -> Result<(), NoMemory>
    ensures { OnOk result (constants.new.items ≡ constants.old.items ++ constants_in_stmt (tstmt_tree stmt.now)) }
{
    match stmt {
        TStmt::Empty { .. } => Ok(()),
        TStmt::Static { .. } => Ok(()),
        TStmt::Break { .. } => Ok(()),
        TStmt::Continue { .. } => Ok(()),
        TStmt::Goto { .. } => Ok(()),
        TStmt::Label { .. } => Ok(()),
        TStmt::Case { .. } => Ok(()),
        TStmt::Default { .. } => Ok(()),
        TStmt::Expr { value, .. } => add_expr(value, constants),
        TStmt::Return { value, .. } => add_option(value, constants),
        TStmt::Declare { inits, .. } => add_inits(inits, constants),
        TStmt::Block { items, .. } => add_items(items, constants),
        TStmt::Switch { value, items, .. } => add_switch(value, items, constants),
        TStmt::If {
            condition,
            then,
            otherwise,
            ..
        } => add_if(condition, then, otherwise, constants),
        TStmt::While {
            condition,
            body,
            ..
        } => add_while(condition, body, constants),
        TStmt::DoWhile {
            body,
            condition,
            ..
        } => add_do(body, condition, constants),
        TStmt::For {
            head,
            condition,
            step,
            body,
            ..
        } => add_for(head, condition, step, body, constants),
    }
}

fn add_option(value: &Option<TExpr>, constants: &mut Vec<i128>) -> Result<(), NoMemory>
    ensures { OnOk result (constants.new.items ≡ constants.old.items ++ constants_if_there (option_map texpr_tree value.now)) }
{
    match value {
        Some(value) => add_expr(value, constants),
        None => Ok(()),
    }
}

fn add_inits(inits: &TInits, constants: &mut Vec<i128>) -> Result<(), NoMemory>
    ensures { OnOk result (constants.new.items ≡ constants.old.items ++ flat_map init_constants (map tinit_tree inits.now)) }
{
    for init in inits.as_slice() {
        add_init(init, constants)?;
    }
    Ok(())
}

fn add_init(init: &TInit, constants: &mut Vec<i128>) -> Result<(), NoMemory>
    ensures { OnOk result (constants.new.items ≡ constants.old.items ++ init_constants (tinit_tree init.now)) }
{
    match init {
        TInit::Store { value, .. } => add_expr(value, constants),
        TInit::Copy { source, .. } => add_expr(source, constants),
    }
}

#[cycle(constants)]
fn add_items(items: &TStmts, constants: &mut Vec<i128>) -> Result<(), NoMemory>
    ensures { OnOk result (constants.new.items ≡ constants.old.items ++ constants_in_items (tstmts_tree items.now)) }
{
    for item in items.as_slice() {
        add_stmt(item, constants)?;
    }
    Ok(())
}

#[cycle(constants)]
fn add_switch(value: &TExpr, items: &TStmts, constants: &mut Vec<i128>) -> Result<(), NoMemory>
    ensures { OnOk result (constants.new.items ≡ constants.old.items ++ constants_in (texpr_tree value.now) ++ constants_in_items (tstmts_tree items.now)) }
{
    add_expr(value, constants)?;
    add_items(items, constants)?;
    Ok(())
}

#[cycle(constants)]
fn add_if(
    condition: &TExpr,
    then: &TStmt,
    otherwise: &TStmt,
    constants: &mut Vec<i128>,
) -> Result<(), NoMemory>
    ensures { OnOk result
        (constants.new.items ≡ constants.old.items ++ constants_in (texpr_tree condition.now) ++ constants_in_stmt (tstmt_tree then.now)
        ++ constants_in_stmt (tstmt_tree otherwise.now)) }
{
    add_while(condition, then, constants)?;
    add_stmt(otherwise, constants)?;
    Ok(())
}

#[cycle(constants)]
fn add_while(condition: &TExpr, body: &TStmt, constants: &mut Vec<i128>) -> Result<(), NoMemory>
    ensures { OnOk result (constants.new.items ≡ constants.old.items ++ constants_in (texpr_tree condition.now) ++ constants_in_stmt (tstmt_tree body.now)) }
{
    add_expr(condition, constants)?;
    add_stmt(body, constants)?;
    Ok(())
}

#[cycle(constants)]
fn add_do(body: &TStmt, condition: &TExpr, constants: &mut Vec<i128>) -> Result<(), NoMemory>
    ensures { OnOk result (constants.new.items ≡ constants.old.items ++ constants_in_stmt (tstmt_tree body.now) ++ constants_in (texpr_tree condition.now)) }
{
    add_stmt(body, constants)?;
    add_expr(condition, constants)?;
    Ok(())
}

#[cycle(constants)]
fn add_for(
    head: &TStmts,
    condition: &Option<TExpr>,
    step: &Option<TExpr>,
    body: &TStmt,
    constants: &mut Vec<i128>,
) -> Result<(), NoMemory>
    ensures { OnOk result
        (constants.new.items
        ≡ constants.old.items ++ constants_in_items (tstmts_tree head.now) ++ constants_if_there (option_map texpr_tree condition.now)
        ++ constants_if_there (option_map texpr_tree step.now) ++ constants_in_stmt (tstmt_tree body.now)) }
{
    add_items(head, constants)?;
    add_option(condition, constants)?;
    add_option(step, constants)?;
    add_stmt(body, constants)?;
    Ok(())
}
