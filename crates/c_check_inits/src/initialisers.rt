// Whole initialisers.
#![tactic(auto)]

ghost use Rattle.c_syntax_written.specs.WrittenDecl.{init_tree, inits_tree};
ghost use Rattle.c_syntax_written.specs.Written as written;
ghost use Rattle.c_syntax_written.specs.Written.{expr_tree};
ghost use Rattle.c_syntax.specs.Types.{ctype_tree};
ghost use Rattle.c_typing.specs.Inits as inits;
ghost use Rattle.c_check_names.specs.Views.{Answers};
ghost use Rattle.c_check_fills.specs.Views.{by_tree};
ghost use Rattle.c_check_fills.specs.RoomViews.{frame_tree};
ghost use Rattle.c_check_names.specs.Worlds.{world_of};
ghost use Rattle.c_check_inits.specs.Forms as forms;
ghost use Rattle.c_check_inits.specs.Forms.{ByExpression, ByList, ByLiteral};

use crate::filled::nothing_filled;
use crate::items::list_items;
use crate::texts::{as_text, by_text};
use crate::values::by_value;
use c_check_fills::{Frame, Initialised, is_text};
use c_check_names::{TypeError, World};
use c_syntax::{CType, Expr, Init, Inits, Pos};

/// What an initialiser stores in an object of type `ty`, whose parts the frame tells; an array without size has as many as
/// the initialiser fills (C11 6.7.9p11 to p16 and p22). What a static object holds is constant.
pub fn initialiser(
    world: &mut World,
    is_static: bool,
    ty: &CType,
    frame: Frame,
    init: &Init,
) -> Result<Initialised, TypeError>
    ensures { Answers (inits.TypesInit (world_of world.old) is_static (ctype_tree ty.now) (frame_tree frame) (init_tree init.now))
        by_tree (world_of world.new) result }
{
    match init {
        Init::Braces { items, .. } => by_list(world, is_static, ty, frame, items),
        Init::Value { value } => by_expression(world, is_static, ty, frame, value),
    }
}

// A list that initialises an object.
fn by_list(
    world: &mut World,
    is_static: bool,
    ty: &CType,
    frame: Frame,
    list: &Inits,
) -> Result<Initialised, TypeError>
    ensures { Answers (ByList (world_of world.old) is_static (ctype_tree ty.now) (frame_tree frame) (inits_tree list.now)) by_tree (world_of world.new) result }
{
    let nothing = nothing_filled(world.alloc(), frame);
    let filled = got!(list_items(world, is_static, ty, nothing, list));
    let count = filled.aggregates.own_count();
    Ok(Initialised {
        items: filled.items,
        zeroes_rest: true,
        count,
    })
}

// An expression that initialises an object.
fn by_expression(
    world: &mut World,
    is_static: bool,
    ty: &CType,
    frame: Frame,
    e: &Expr,
) -> Result<Initialised, TypeError>
    ensures { Answers (ByExpression (world_of world.old) is_static (ctype_tree ty.now) (frame_tree frame) (expr_tree e.now) (forms.as_text (expr_tree e.now)))
        by_tree (world_of world.new) result }
{
    match as_text(e) {
        None => by_value(world, is_static, ty, e),
        Some((at, text)) => by_literal(world, is_static, ty, frame, e, at, text),
    }
}

// A literal that initialises an array of characters, or another object by its value.
fn by_literal(
    world: &mut World,
    is_static: bool,
    ty: &CType,
    frame: Frame,
    e: &Expr,
    at: Pos,
    text: &[u8],
) -> Result<Initialised, TypeError>
    ensures { Answers (ByLiteral (world_of world.old) is_static (ctype_tree ty.now) (frame_tree frame) (expr_tree e.now) at text.now) by_tree
        (world_of world.new) result }
{
    if is_text(ty) {
        by_text(world, ty, frame.count, at, text)
    } else {
        by_value(world, is_static, ty, e)
    }
}
