// Switches. The cases of the one around are kept while those of another are told (C11 6.8.4.2).
#![tactic(auto)]

ghost use Rattle.std.specs.Prelude.{◌≡◌, option_map};
ghost use Rattle.c_syntax_written.specs.Written.{expr_tree};
ghost use Rattle.c_syntax_written.specs.WrittenFile as files;
ghost use Rattle.c_syntax_written.specs.WrittenFile.{blockitems_tree, stmt_tree};
ghost use Rattle.c_syntax.specs.TypedStmt.{tstmt_tree};
ghost use Rattle.c_typing.specs.Stmts.{TypesStmt, one};
ghost use Rattle.c_check_jumps.specs.ContextViews.{context_tree};
ghost use Rattle.c_check_names.specs.Views.{Answers};
ghost use Rattle.c_check_names.specs.Worlds.{world_of};
ghost use Rattle.c_check_stmts.specs.Forms.{AddedBody, SwitchBodyForm, WrittenBody, as_block};
ghost use Rattle.c_check_stmts.specs.Views.{body_tree};

use crate::conditions::switch_value;
use crate::items::{block_items, statement};
use crate::nodes::switch_node;
use c_check_decls::Made;
use c_check_jumps::{Context, Switched, begin_cases, end_cases};
use c_check_names::{TypeError, World};
use c_syntax::{BlockItems, BlockKind, Expr, Pos, Stmt, TStmt};

/// The block of a switch, which is written, or added around another statement.
#[derive(Drop)]
pub(crate) struct SwitchBody {
    kind: BlockKind,
    made: Made,
}

/// A `switch` by its value.
#[cycle(walk)]
pub(crate) fn switch_form(
    world: &mut World,
    around: Context,
    at: Pos,
    e: &Expr,
    body: &Stmt,
) -> Result<TStmt, TypeError>
    ensures { Answers (TypesStmt (world_of world.old) (context_tree around.entry) (files.Switch at (expr_tree e.now) (stmt_tree body.now)))
        (λ s. one (tstmt_tree s)) (world_of world.new) result }
{
    let scope = world.open();
    let Switched { value, ty } = got!(switch_value(world, at, e));
    let outer = begin_cases(world);
    let SwitchBody { kind, made } = got!(switch_body(world, around.inside_switch(ty), body));
    world.close(scope);
    end_cases(world, outer);
    Ok(switch_node(at, value, kind, made))
}

/// What stands below a switch, in a scope of its own.
#[cycle(walk)]
fn switch_body(world: &mut World, around: Context, body: &Stmt) -> Result<SwitchBody, TypeError>
    ensures { Answers (SwitchBodyForm (world_of world.old) (context_tree around.entry) (stmt_tree body.now) (as_block (stmt_tree body.now)))
        body_tree (world_of world.new) result }
{
    match block_of(body) {
        None => added_body(world, around, body),
        Some(items) => written_body(world, around, items),
    }
}

/// A block below a switch.
#[cycle(walk)]
fn written_body(
    world: &mut World,
    around: Context,
    items: &BlockItems,
) -> Result<SwitchBody, TypeError>
    ensures { Answers (WrittenBody (world_of world.old) (context_tree around.entry) (blockitems_tree items.now)) body_tree (world_of world.new) result }
{
    let scope = world.open();
    let made = got!(block_items(world, around, items));
    world.close(scope);
    Ok(SwitchBody {
        kind: BlockKind::Written,
        made,
    })
}

/// Another statement below a switch. Its scope ends with that of the switch.
#[cycle(walk)]
fn added_body(world: &mut World, around: Context, body: &Stmt) -> Result<SwitchBody, TypeError>
    ensures { Answers (AddedBody (world_of world.old) (context_tree around.entry) (stmt_tree body.now)) body_tree (world_of world.new) result }
{
    world.open();
    let nothing = Made::nothing(world.alloc());
    let made = got!(statement(world, around, nothing, body));
    Ok(SwitchBody {
        kind: BlockKind::Added,
        made,
    })
}

// The items of a block, and nothing of another statement.
#[tactic(auto, using(c_syntax_written::proofs::Trees::the_written_trees))]
fn block_of(s: &Stmt) -> Option<&BlockItems>
    ensures { option_map (λ items. blockitems_tree items.now) result ≡ as_block (stmt_tree s.now) }
{
    match s {
        Stmt::Block { items, .. } => Some(items),
        Stmt::Label { .. } | Stmt::Case { .. } | Stmt::Default { .. } => None,
        Stmt::Empty { .. } | Stmt::Expression { .. } => None,
        Stmt::If { .. } | Stmt::IfElse { .. } | Stmt::Switch { .. } => None,
        Stmt::While { .. } | Stmt::DoWhile { .. } | Stmt::For { .. } => None,
        Stmt::Goto { .. } | Stmt::Continue { .. } | Stmt::Break { .. } => None,
        Stmt::Return { .. } => None,
    }
}
