// Labels and cases, with the statements that they stand before.
#![tactic(auto)]

ghost use Rattle.c_syntax_written.specs.Written.{expr_tree};
ghost use Rattle.c_syntax_written.specs.WrittenFile as files;
ghost use Rattle.c_syntax_written.specs.WrittenFile.{stmt_tree};
ghost use Rattle.c_syntax.specs.TypedStmt.{tstmt_tree};
ghost use Rattle.c_check_jumps.specs.ContextViews.{context_tree};
ghost use Rattle.c_check_names.specs.Views.{Answers};
ghost use Rattle.c_check_decls.specs.MadeViews.{made_tree};
ghost use Rattle.c_check_names.specs.Worlds.{world_of};
ghost use Rattle.c_check_stmts.specs.Forms.{Behind, BehindPrefix};

use crate::items::statement;
use crate::prefix_parts::{case_at, label_of};
use c_check_decls::Made;
use c_check_jumps::{Context, default_of};
use c_check_names::{TypeError, World};
use c_syntax::{Expr, Name, Pos, Stmt, TStmt};

/// A label and its statement (C11 6.8.1).
#[cycle(walk)]
pub(crate) fn label_form(
    world: &mut World,
    around: Context,
    done: Made,
    at: Pos,
    name: &Name,
    body: &Stmt,
) -> Result<Made, TypeError>
    ensures { Answers (Behind (world_of world.old) (context_tree around.entry) (made_tree done) (files.Label at name.now (stmt_tree body.now)))
        made_tree (world_of world.new) result }
{
    let node = got!(label_of(world, at, name));
    behind_prefix(world, around, done, node, body)
}

/// A case and its statement (C11 6.8.1).
#[cycle(walk)]
pub(crate) fn case_form(
    world: &mut World,
    around: Context,
    done: Made,
    at: Pos,
    value: &Expr,
    body: &Stmt,
) -> Result<Made, TypeError>
    ensures { Answers (Behind (world_of world.old) (context_tree around.entry) (made_tree done)
        (files.Case at (expr_tree value.now) (stmt_tree body.now))) made_tree (world_of world.new) result }
{
    let node = got!(case_at(world, at, around.switch, value));
    behind_prefix(world, around, done, node, body)
}

/// A default and its statement (C11 6.8.1).
#[cycle(walk)]
pub(crate) fn default_form(
    world: &mut World,
    around: Context,
    done: Made,
    at: Pos,
    body: &Stmt,
) -> Result<Made, TypeError>
    ensures { Answers (Behind (world_of world.old) (context_tree around.entry) (made_tree done) (files.Default at (stmt_tree body.now)))
        made_tree (world_of world.new) result }
{
    let node = got!(default_of(world, at, around.switch));
    behind_prefix(world, around, done, node, body)
}

/// The node of a label or a case, and the statement behind it.
#[cycle(walk)]
fn behind_prefix(
    world: &mut World,
    around: Context,
    done: Made,
    node: TStmt,
    body: &Stmt,
) -> Result<Made, TypeError>
    ensures { Answers (BehindPrefix (world_of world.old) (context_tree around.entry) (made_tree done) (tstmt_tree node) (stmt_tree body.now))
        made_tree (world_of world.new) result }
{
    let mut done = done;
    done.push(node)?;
    statement(world, around, done, body)
}
