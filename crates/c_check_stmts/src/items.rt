// The items of blocks, and statements among them.
#![tactic(auto)]

ghost use Rattle.c_syntax_written.specs.WrittenFile.{blockitem_tree, blockitems_tree, stmt_tree};
ghost use Rattle.c_typing.specs.Decls as decls;
ghost use Rattle.c_typing.specs.Stmts as stmts;
ghost use Rattle.c_check_jumps.specs.ContextViews.{context_tree};
ghost use Rattle.c_check_names.specs.Views.{Answers};
ghost use Rattle.c_check_decls.specs.MadeViews.{made_tree};
ghost use Rattle.c_check_names.specs.Worlds.{world_of};
ghost use Rattle.c_check_stmts.specs.Forms.{Behind, ItemForm};

use crate::forms::{block_form, do_while_form, for_form, if_else_form, if_form, while_form};
use crate::prefixes::{case_form, default_form, label_form};
use crate::simple::{
    break_form, continue_form, declaration_behind, empty_form, expression_form, goto_form,
    one_behind, return_form,
};
use crate::switches::switch_form;
use c_check_decls::Made;
use c_check_jumps::Context;
use c_check_names::{TypeError, World};
use c_syntax::{BlockItem, BlockItems, Stmt};

/// The items of a block (C11 6.8.2): its automatic objects and its statements. The scope around them is the caller's.
#[cycle(walk)]
pub fn block_items(
    world: &mut World,
    around: Context,
    items: &BlockItems,
) -> Result<Made, TypeError>
    ensures { Answers (stmts.TypesItems (world_of world.old) (context_tree around.entry) decls.nothing_made (blockitems_tree items.now))
        made_tree (world_of world.new) result }
{
    let mut done = Made::nothing(world.alloc());
    let list = items.as_slice();
    'each: for item in list {
        done = got!(item_behind(world, around, done, item));
    }
    Ok(done)
}

/// An item of a block, behind what stands before it.
#[cycle(walk)]
fn item_behind(
    world: &mut World,
    around: Context,
    done: Made,
    item: &BlockItem,
) -> Result<Made, TypeError>
    ensures { Answers (ItemForm (world_of world.old) (context_tree around.entry) (made_tree done) (blockitem_tree item.now))
        made_tree (world_of world.new) result }
{
    match item {
        BlockItem::Declaration(decl) => declaration_behind(world, around, done, decl),
        BlockItem::Statement(inner) => statement(world, around, done, inner),
    }
}

/// A statement with its labels and cases (C11 6.8), behind what stands before it in its block.
#[cycle(walk)]
pub fn statement(
    world: &mut World,
    around: Context,
    done: Made,
    s: &Stmt,
) -> Result<Made, TypeError>
    ensures { Answers (Behind (world_of world.old) (context_tree around.entry) (made_tree done) (stmt_tree s.now)) made_tree (world_of world.new) result }
{
    match s {
        Stmt::Label { pos, name, body } => label_form(world, around, done, *pos, name, body),
        Stmt::Case { pos, value, body } => case_form(world, around, done, *pos, value, body),
        Stmt::Default { pos, body } => default_form(world, around, done, *pos, body),
        Stmt::Block { pos, items } => one_behind(done, block_form(world, around, *pos, items)),
        Stmt::Empty { pos } => one_behind(done, empty_form(*pos)),
        Stmt::Expression { pos, value } => one_behind(done, expression_form(world, *pos, value)),
        Stmt::If {
            pos,
            condition,
            then,
        } => one_behind(done, if_form(world, around, *pos, condition, then)),
        Stmt::IfElse {
            pos,
            condition,
            then,
            otherwise,
        } => one_behind(
            done,
            if_else_form(world, around, *pos, condition, then, otherwise),
        ),
        Stmt::Switch { pos, value, body } => {
            one_behind(done, switch_form(world, around, *pos, value, body))
        }
        Stmt::While {
            pos,
            condition,
            body,
        } => one_behind(done, while_form(world, around, *pos, condition, body)),
        Stmt::DoWhile {
            pos,
            body,
            condition,
        } => one_behind(done, do_while_form(world, around, *pos, body, condition)),
        Stmt::For { pos, head, body } => {
            one_behind(done, for_form(world, around, *pos, head, body))
        }
        Stmt::Goto { pos, label } => one_behind(done, goto_form(around, *pos, label)),
        Stmt::Continue { pos } => one_behind(done, continue_form(around, *pos)),
        Stmt::Break { pos } => one_behind(done, break_form(around, *pos)),
        Stmt::Return { pos, value } => one_behind(done, return_form(world, around, *pos, value)),
    }
}
