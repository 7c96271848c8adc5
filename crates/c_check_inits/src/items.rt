// The items of lists. Braces in braces are as deep as the text nests.
#![tactic(auto)]

ghost use Rattle.std.specs.Prelude.{map};
ghost use Rattle.c_syntax_written.specs.Written.{expr_tree};
ghost use Rattle.c_syntax_written.specs.WrittenDecl.{init_tree, inits_tree};
ghost use Rattle.c_syntax.specs.Types.{ctype_tree};
ghost use Rattle.c_syntax.specs.TypedStmt.{tinit_tree};
ghost use Rattle.c_typing.specs.Inits as inits;
ghost use Rattle.c_check_names.specs.Views.{Answers};
ghost use Rattle.c_check_fills.specs.RoomViews.{aggregates_tree, part_tree};
ghost use Rattle.c_check_names.specs.Worlds.{world_of};
ghost use Rattle.c_check_inits.specs.Forms as forms;
ghost use Rattle.c_check_inits.specs.Forms.{ItemForm, ListInPart, ListItem};
ghost use Rattle.c_check_inits.specs.Views.{filled_tree};

use crate::excess::{excess, list_in_braces};
use crate::filled::{Filled, nothing_filled, with_items};
use crate::texts::{as_text, text_item};
use crate::values::value_item;
use c_check_fills::{Aggregates, Frame, Part};
use c_check_names::{TypeError, World};
use c_syntax::{CType, Expr, Init, Inits, Pos, TInit};

/// The items of a list for an object of type `whole`, behind those that stand before them. An item too many is NoRule with
/// Op `init` and `whole` left.
#[cycle(lists)]
pub fn list_items(
    world: &mut World,
    is_static: bool,
    whole: &CType,
    before: Filled,
    list: &Inits,
) -> Result<Filled, TypeError>
    ensures { Answers (inits.TypesItems (world_of world.old) is_static (ctype_tree whole.now) (filled_tree before) (inits_tree list.now))
        filled_tree (world_of world.new) result }
{
    let mut done = before;
    let items = list.as_slice();
    'each: for item in items {
        done = got!(one_item(world, is_static, whole, done, item));
    }
    Ok(done)
}

/// One item.
#[cycle(lists)]
fn one_item(
    world: &mut World,
    is_static: bool,
    whole: &CType,
    done: Filled,
    item: &Init,
) -> Result<Filled, TypeError>
    ensures { Answers (ItemForm (world_of world.old) is_static (ctype_tree whole.now) (filled_tree done) (init_tree item.now))
        filled_tree (world_of world.new) result }
{
    match item {
        Init::Braces { pos, items } => list_item(world, is_static, whole, done, *pos, items),
        Init::Value { value } => expression_item(world, is_static, whole, done, value),
    }
}

/// A list in braces of its own, as an item.
#[cycle(lists)]
fn list_item(
    world: &mut World,
    is_static: bool,
    whole: &CType,
    done: Filled,
    at: Pos,
    list: &Inits,
) -> Result<Filled, TypeError>
    ensures { Answers (ListItem (world_of world.old) is_static (ctype_tree whole.now) (filled_tree done) at (inits_tree list.now))
        filled_tree (world_of world.new) result }
{
    let Filled {
        items,
        mut aggregates,
    } = done;
    let is_scalar = aggregates.is_scalar_in_braces();
    let next = aggregates.next_part(&world.structs.defs)?;
    match next {
        None => Err(excess(world, whole, at)),
        Some(part) => {
            if is_scalar {
                Err(list_in_braces(world, whole, at, list))
            } else {
                list_in_part(world, is_static, items, aggregates, part, list)
            }
        }
    }
}

/// A list that fills the part that is next.
#[cycle(lists)]
fn list_in_part(
    world: &mut World,
    is_static: bool,
    items: Vec<TInit>,
    aggregates: Aggregates,
    part: Part,
    list: &Inits,
) -> Result<Filled, TypeError>
    ensures { Answers (ListInPart (world_of world.old) is_static (map tinit_tree items.items) (aggregates_tree aggregates) (part_tree part)
        (inits_tree list.now)) filled_tree (world_of world.new) result }
{
    let whole = part.ty.copy()?;
    let frame = Frame::of(&world.structs.defs, part);
    let nothing = nothing_filled(world.alloc(), frame);
    let inner = got!(list_items(world, is_static, &whole, nothing, list));
    let filled = with_items(items, inner.items, aggregates)?;
    Ok(filled)
}

// An expression, as an item.
fn expression_item(
    world: &mut World,
    is_static: bool,
    whole: &CType,
    done: Filled,
    e: &Expr,
) -> Result<Filled, TypeError>
    ensures { Answers (forms.ExpressionItem (world_of world.old) is_static (ctype_tree whole.now) (filled_tree done) (expr_tree e.now)
        (forms.as_text (expr_tree e.now))) filled_tree (world_of world.new) result }
{
    match as_text(e) {
        None => value_item(world, is_static, whole, done, e),
        Some((at, text)) => text_item(world, is_static, whole, done, at, text),
    }
}
