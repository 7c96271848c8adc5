// What holds no statement, and one statement behind others.
#![tactic(auto)]

ghost use Rattle.std.specs.Prelude.{◌≡◌};
ghost use Rattle.c_syntax_written.specs.Written.{expr_tree};
ghost use Rattle.c_syntax_written.specs.WrittenDecl.{decl_tree};
ghost use Rattle.c_syntax_written.specs.WrittenFile as files;
ghost use Rattle.c_syntax_written.specs.WrittenFile.{StmtTree, forstart_tree, optional_tree};
ghost use Rattle.c_syntax.specs.TypedStmt.{tstmt_tree};
ghost use Rattle.c_typing.specs.Context.{Context as Surroundings};
ghost use Rattle.c_typing.specs.Stmts.{TypesStart, TypesStmt, one};
ghost use Rattle.c_typing.specs.World.{World as Program};
ghost use Rattle.c_check_jumps.specs.ContextViews.{context_tree};
ghost use Rattle.c_check_names.specs.Views.{Answers};
ghost use Rattle.c_check_decls.specs.MadeViews.{made_tree};
ghost use Rattle.c_check_names.specs.Worlds.{world_of};
ghost use Rattle.c_check_stmts.specs.Forms.{Behind, BehindDeclaration, ValueStart};

use crate::conditions::dropped;
use crate::nodes::{empty_node, expression_node};
use crate::returns::return_of;
use c_check_decls::{Made, declaration};
use c_check_jumps::{Context, break_of, continue_of, goto_of};
use c_check_names::{TypeError, World};
use c_syntax::{Decl, Expr, ForStart, Name, Pos, TStmt};
use std::alloc::AllocError as NoMemory;

/// One statement behind what stands before it, or its refusal.
pub(crate) fn one_behind(done: Made, typed: Result<TStmt, TypeError>) -> Result<Made, TypeError>
    ensures { (w v : Program) (around : Surroundings) (s : StmtTree) → Answers (TypesStmt w around s) (λ node. one (tstmt_tree node)) v typed
        → Answers (Behind w around (made_tree done) s) made_tree v result }
{
    let mut done = done;
    let node = got!(typed);
    make_room(&mut done)?;
    done.push(node)?;
    Ok(done)
}

// Room for one statement alone where there is none yet: most lists have no more, and a list that grows begins with four.
fn make_room(done: &mut Made) -> Result<(), NoMemory>
    ensures { made_tree done.new ≡ made_tree done.old }
{
    if done.items.is_empty() {
        done.items.reserve_exact(1)?;
    }
    Ok(())
}

/// A declaration behind what stands before it.
pub(crate) fn declaration_behind(
    world: &mut World,
    around: Context,
    done: Made,
    decl: &Decl,
) -> Result<Made, TypeError>
    ensures { Answers (BehindDeclaration (world_of world.old) (context_tree around.entry) (made_tree done) (decl_tree decl.now))
        made_tree (world_of world.new) result }
{
    let next = got!(declaration(world, around, decl));
    let all = done.then(next)?;
    Ok(all)
}

/// What a `for` begins with (C11 6.8.5.3p1).
pub(crate) fn start(world: &mut World, around: Context, from: &ForStart) -> Result<Made, TypeError>
    ensures { Answers (TypesStart (world_of world.old) (context_tree around.entry) (forstart_tree from.now)) made_tree (world_of world.new) result }
{
    match from {
        ForStart::Nothing => Ok(Made::nothing(world.alloc())),
        ForStart::Value(e) => value_start(world, e),
        ForStart::Declares(decl) => declaration(world, around, decl),
    }
}

// An expression with which a `for` begins.
fn value_start(world: &mut World, e: &Expr) -> Result<Made, TypeError>
    ensures { Answers (ValueStart (world_of world.old) (expr_tree e.now)) made_tree (world_of world.new) result }
{
    let x = got!(dropped(world, e));
    let mut made = Made::nothing(world.alloc());
    made.push(expression_node(e.pos(), x))?;
    Ok(made)
}

/// `;` (C11 6.8.3p3)
pub(crate) fn empty_form(at: Pos) -> Result<TStmt, TypeError>
    ensures { (w : Program) (around : Surroundings) → Answers (TypesStmt w around (files.Empty at)) (λ s. one (tstmt_tree s)) w result }
{
    Ok(empty_node(at))
}

/// An expression whose value is dropped (C11 6.8.3p2).
pub(crate) fn expression_form(world: &mut World, at: Pos, e: &Expr) -> Result<TStmt, TypeError>
    ensures { (around : Surroundings) → Answers (TypesStmt (world_of world.old) around (files.Expression at (expr_tree e.now)))
        (λ s. one (tstmt_tree s)) (world_of world.new) result }
{
    let x = got!(dropped(world, e));
    Ok(expression_node(at, x))
}

/// A goto (C11 6.8.6.1).
pub(crate) fn goto_form(around: Context, at: Pos, label: &Name) -> Result<TStmt, TypeError>
    ensures { (w : Program) → Answers (TypesStmt w (context_tree around.entry) (files.Goto at label.now)) (λ s. one (tstmt_tree s)) w result }
{
    goto_of(around, at, label.as_slice())
}

/// A `continue`, in a loop (C11 6.8.6.2).
pub(crate) fn continue_form(around: Context, at: Pos) -> Result<TStmt, TypeError>
    ensures { (w : Program) → Answers (TypesStmt w (context_tree around.entry) (files.Continue at)) (λ s. one (tstmt_tree s)) w result }
{
    continue_of(around, at)
}

/// A `break`, in a loop or a switch (C11 6.8.6.3).
pub(crate) fn break_form(around: Context, at: Pos) -> Result<TStmt, TypeError>
    ensures { (w : Program) → Answers (TypesStmt w (context_tree around.entry) (files.Break at)) (λ s. one (tstmt_tree s)) w result }
{
    break_of(around, at)
}

/// A `return` (C11 6.8.6.4).
pub(crate) fn return_form(
    world: &mut World,
    around: Context,
    at: Pos,
    e: &Option<Box<Expr>>,
) -> Result<TStmt, TypeError>
    ensures { Answers (TypesStmt (world_of world.old) (context_tree around.entry) (files.Return at (optional_tree e.now)))
        (λ s. one (tstmt_tree s)) (world_of world.new) result }
{
    return_of(world, around, at, e)
}
