// Statements, and what initialises objects, settled where they stand.
#![tactic(auto, unfolding(c_syntax::specs::TypedStmt::tstmt_tree, c_typing::specs::Settled::settled_stmt))]

ghost use Rattle.std.specs.Prelude.{◌≡◌, OnOk, map, option_map};
ghost use Rattle.c_syntax.specs.TypedExpr.{texpr_tree};
ghost use Rattle.c_syntax.specs.TypedStmt.{tinit_tree, tstmt_tree, tstmts_tree};
ghost use Rattle.c_syntax.specs.Types.{object_tree};
ghost use Rattle.c_typing.specs.Settled as typing;

use crate::exprs::settle_expr;
use c_syntax::{Object, TExpr, TInit, TInits, TStmt, TStmts};
use std::alloc::{AllocError as NoMemory, Global};
use std::mem;

/// Gives each name of an object in the statement the type that the object has at the end of the file. Where memory runs
/// out, part of the statement has been settled.
#[cycle(settles)]
pub fn settle_stmt(alloc: Global, objects: &[Object], stmt: &mut TStmt) -> Result<(), NoMemory>
    ensures { OnOk result (tstmt_tree stmt.new ≡ typing.settled_stmt (map object_tree objects.now) (tstmt_tree stmt.old)) }
{
    match stmt {
        TStmt::Empty { .. } | TStmt::Static { .. } => Ok(()),
        TStmt::Break { .. } | TStmt::Continue { .. } | TStmt::Goto { .. } => Ok(()),
        TStmt::Label { .. } | TStmt::Case { .. } | TStmt::Default { .. } => Ok(()),
        TStmt::Expr { value, .. } => settle_expr(alloc, objects, value),
        TStmt::Declare { inits, .. } => settle_inits(alloc, objects, inits),
        TStmt::Return { value, .. } => settle_option(alloc, objects, value),
        TStmt::Block { items, .. } => settle_stmts(alloc, objects, items),
        TStmt::Switch { value, items, .. } => {
            settle_expr(alloc, objects, value)?;
            settle_stmts(alloc, objects, items)
        }
        TStmt::If {
            condition,
            then,
            otherwise,
            ..
        } => {
            settle_expr(alloc, objects, condition)?;
            settle_stmt(alloc, objects, then)?;
            settle_stmt(alloc, objects, otherwise)
        }
        TStmt::While {
            condition,
            body,
            ..
        } => settle_loop(alloc, objects, condition, body),
        TStmt::DoWhile {
            body,
            condition,
            ..
        } => settle_loop(alloc, objects, condition, body),
        TStmt::For {
            head,
            condition,
            step,
            body,
            ..
        } => {
            settle_option(alloc, objects, condition)?;
            settle_option(alloc, objects, step)?;
            settle_stmts(alloc, objects, head)?;
            settle_stmt(alloc, objects, body)
        }
    }
}

// A condition, and the statement that it guards.
#[cycle(settles)]
fn settle_loop(
    alloc: Global,
    objects: &[Object],
    condition: &mut TExpr,
    body: &mut TStmt,
) -> Result<(), NoMemory>
    ensures condition { OnOk result (texpr_tree condition.new ≡ typing.settled_expr (map object_tree objects.now) (texpr_tree condition.old)) }
    ensures body { OnOk result (tstmt_tree body.new ≡ typing.settled_stmt (map object_tree objects.now) (tstmt_tree body.old)) }
{
    settle_expr(alloc, objects, condition)?;
    settle_stmt(alloc, objects, body)
}

/// Gives each name of an object in the statements the type that the object has at the end of the file. Where memory runs
/// out, the list is left with nothing in it.
#[cycle(settles)]
pub fn settle_stmts(alloc: Global, objects: &[Object], list: &mut TStmts) -> Result<(), NoMemory>
    ensures { OnOk result (tstmts_tree list.new ≡ typing.settled_stmts (map object_tree objects.now) (tstmts_tree list.old)) }
{
    let mut items = mem::replace(list, TStmts::new(alloc)).into_vec();
    for item in items.iter_mut() {
        settle_stmt(alloc, objects, item)?;
    }
    *list = TStmts::from_vec(items);
    Ok(())
}

// An expression that may be missing.
fn settle_option(
    alloc: Global,
    objects: &[Object],
    value: &mut Option<TExpr>,
) -> Result<(), NoMemory>
    ensures { OnOk result (option_map texpr_tree value.new ≡ option_map (typing.settled_expr (map object_tree objects.now)) (option_map texpr_tree value.old)) }
{
    match value {
        None => Ok(()),
        Some(value) => settle_expr(alloc, objects, value),
    }
}

/// Gives each name of an object in the items of an initialiser the type that the object has at the end of the file. Where
/// memory runs out, the list is left with nothing in it.
pub fn settle_inits(alloc: Global, objects: &[Object], list: &mut TInits) -> Result<(), NoMemory>
    ensures { OnOk result (map tinit_tree list.new ≡ map (typing.settled_init (map object_tree objects.now)) (map tinit_tree list.old)) }
{
    let mut items = mem::replace(list, TInits::new(alloc)).into_vec();
    for item in items.iter_mut() {
        settle_init(alloc, objects, item)?;
    }
    *list = TInits::from_vec(items);
    Ok(())
}

/// Gives each name of an object in the item the type that the object has at the end of the file. Where memory runs out,
/// part of the item has been settled.
#[tactic(auto, using(c_syntax::proofs::TypedStmtTrees::typed_stmt_trees))]
pub fn settle_init(alloc: Global, objects: &[Object], item: &mut TInit) -> Result<(), NoMemory>
    ensures { OnOk result (tinit_tree item.new ≡ typing.settled_init (map object_tree objects.now) (tinit_tree item.old)) }
{
    match item {
        TInit::Store { value, .. } => settle_expr(alloc, objects, value),
        TInit::Copy { source, .. } => settle_expr(alloc, objects, source),
    }
}
