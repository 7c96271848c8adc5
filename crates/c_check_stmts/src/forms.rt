// Blocks, and statements that hold others. The scope of a statement begins before its first part (C11 6.8.4p3, 6.8.5p5).
#![tactic(auto)]

ghost use Rattle.c_syntax_written.specs.Written.{expr_tree};
ghost use Rattle.c_syntax_written.specs.WrittenFile as files;
ghost use Rattle.c_syntax_written.specs.WrittenFile.{blockitems_tree, forstart_tree, optional_tree, stmt_tree};
ghost use Rattle.c_syntax.specs.TypedStmt.{tstmt_tree};
ghost use Rattle.c_typing.specs.Stmts.{TypesStmt, one};
ghost use Rattle.c_check_jumps.specs.ContextViews.{context_tree};
ghost use Rattle.c_check_names.specs.Views.{Answers};
ghost use Rattle.c_check_names.specs.Worlds.{world_of};
ghost use Rattle.c_check_stmts.specs.Forms.{Substatement};

use crate::conditions::{condition, condition_if_any, dropped_if_any};
use crate::items::{block_items, statement};
use crate::nodes::{block_node, do_while_node, for_node, if_node, no_else, while_node};
use crate::simple::start;
use c_check_decls::Made;
use c_check_jumps::Context;
use c_check_names::{TypeError, World};
use c_syntax::{BlockItems, BlockKind, Expr, ForHead, Pos, Stmt, TStmt};

/// A block that is written (C11 6.8.2).
#[cycle(walk)]
pub(crate) fn block_form(
    world: &mut World,
    around: Context,
    at: Pos,
    items: &BlockItems,
) -> Result<TStmt, TypeError>
    ensures { Answers (TypesStmt (world_of world.old) (context_tree around.entry) (files.Block at (blockitems_tree items.now)))
        (λ s. one (tstmt_tree s)) (world_of world.new) result }
{
    let scope = world.open();
    let made = got!(block_items(world, around.inside_block(), items));
    world.close(scope);
    Ok(block_node(at, BlockKind::Written, made))
}

/// A statement below another, which is a block with a scope of its own.
#[cycle(walk)]
fn substatement(world: &mut World, around: Context, s: &Stmt) -> Result<TStmt, TypeError>
    ensures { Answers (Substatement (world_of world.old) (context_tree around.entry) (stmt_tree s.now)) tstmt_tree (world_of world.new) result }
{
    let scope = world.open();
    let nothing = Made::nothing(world.alloc());
    let made = got!(statement(world, around, nothing, s));
    world.close(scope);
    Ok(block_node(s.pos(), BlockKind::Added, made))
}

/// An `if` without `else` (C11 6.8.4.1).
#[cycle(walk)]
pub(crate) fn if_form(
    world: &mut World,
    around: Context,
    at: Pos,
    e: &Expr,
    first: &Stmt,
) -> Result<TStmt, TypeError>
    ensures { Answers (TypesStmt (world_of world.old) (context_tree around.entry) (files.If at (expr_tree e.now) (stmt_tree first.now)))
        (λ s. one (tstmt_tree s)) (world_of world.new) result }
{
    let scope = world.open();
    let test = got!(condition(world, at, e));
    let then = got!(substatement(world, around.inside_block(), first));
    world.close(scope);
    let otherwise = no_else(world.alloc(), at);
    let node = if_node(world.alloc(), at, test, then, otherwise)?;
    Ok(node)
}

/// An `if` with `else` (C11 6.8.4.1).
#[cycle(walk)]
pub(crate) fn if_else_form(
    world: &mut World,
    around: Context,
    at: Pos,
    e: &Expr,
    first: &Stmt,
    second: &Stmt,
) -> Result<TStmt, TypeError>
    ensures { Answers (TypesStmt (world_of world.old) (context_tree around.entry)
        (files.IfElse at (expr_tree e.now) (stmt_tree first.now) (stmt_tree second.now))) (λ s. one (tstmt_tree s)) (world_of world.new) result }
{
    let scope = world.open();
    let test = got!(condition(world, at, e));
    let then = got!(substatement(world, around.inside_block(), first));
    let otherwise = got!(substatement(world, around.inside_block(), second));
    world.close(scope);
    let node = if_node(world.alloc(), at, test, then, otherwise)?;
    Ok(node)
}

/// A `while` (C11 6.8.5.1).
#[cycle(walk)]
pub(crate) fn while_form(
    world: &mut World,
    around: Context,
    at: Pos,
    e: &Expr,
    body: &Stmt,
) -> Result<TStmt, TypeError>
    ensures { Answers (TypesStmt (world_of world.old) (context_tree around.entry) (files.While at (expr_tree e.now) (stmt_tree body.now)))
        (λ s. one (tstmt_tree s)) (world_of world.new) result }
{
    let scope = world.open();
    let test = got!(condition(world, at, e));
    let turn = got!(substatement(world, around.inside_loop(), body));
    world.close(scope);
    let node = while_node(world.alloc(), at, test, turn)?;
    Ok(node)
}

/// A `do`, whose condition stands behind its body (C11 6.8.5.2).
#[cycle(walk)]
pub(crate) fn do_while_form(
    world: &mut World,
    around: Context,
    at: Pos,
    body: &Stmt,
    e: &Expr,
) -> Result<TStmt, TypeError>
    ensures { Answers (TypesStmt (world_of world.old) (context_tree around.entry) (files.DoWhile at (stmt_tree body.now) (expr_tree e.now)))
        (λ s. one (tstmt_tree s)) (world_of world.new) result }
{
    let scope = world.open();
    let turn = got!(substatement(world, around.inside_loop(), body));
    let test = got!(condition(world, at, e));
    world.close(scope);
    let node = do_while_node(world.alloc(), at, turn, test)?;
    Ok(node)
}

/// A `for`, in whose scope stands what it declares (C11 6.8.5.3).
#[cycle(walk)]
pub(crate) fn for_form(
    world: &mut World,
    around: Context,
    at: Pos,
    head: &ForHead,
    body: &Stmt,
) -> Result<TStmt, TypeError>
    ensures { Answers (TypesStmt (world_of world.old) (context_tree around.entry) (files.For at (forstart_tree head.now.start)
        (optional_tree head.now.condition) (optional_tree head.now.step) (stmt_tree body.now))) (λ s. one (tstmt_tree s)) (world_of world.new) result }
{
    let scope = world.open();
    let first = got!(start(world, around.inside_block(), &head.start));
    let test = got!(condition_if_any(world, at, &head.condition));
    let step = got!(dropped_if_any(world, &head.step));
    let turn = got!(substatement(world, around.inside_loop(), body));
    world.close(scope);
    let node = for_node(world.alloc(), at, first, test, step, turn)?;
    Ok(node)
}
