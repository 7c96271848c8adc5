// Expressions that are items of a list, or the whole of an initialiser.
#![tactic(auto)]

ghost use Rattle.std.specs.Prelude.{map};
ghost use Rattle.c_syntax_written.specs.Written.{expr_tree};
ghost use Rattle.c_syntax.specs.Types.{ctype_tree};
ghost use Rattle.c_syntax.specs.TypedStmt.{tinit_tree};
ghost use Rattle.c_typing.specs.Inits as inits;
ghost use Rattle.c_check_names.specs.Views.{Answers};
ghost use Rattle.c_check_fills.specs.RoomViews.{aggregates_tree, part_tree};
ghost use Rattle.c_check_names.specs.Worlds.{world_of};
ghost use Rattle.c_check_fills.specs.Views.{by_tree};
ghost use Rattle.c_check_inits.specs.Forms.{ValueInPart, ValueItem};
ghost use Rattle.c_check_inits.specs.Views.{filled_tree};

use crate::excess::too_many;
use crate::filled::{Filled, with_item};
use c_check_exprs::value;
use c_check_fills::{Aggregates, Initialised, Item, Part, fill};
use c_check_names::{TypeError, World};
use c_syntax::{CType, Expr, TInit};

/// An expression that is no string literal, as an item.
pub(crate) fn value_item(
    world: &mut World,
    is_static: bool,
    whole: &CType,
    done: Filled,
    e: &Expr,
) -> Result<Filled, TypeError>
    ensures { Answers (ValueItem (world_of world.old) is_static (ctype_tree whole.now) (filled_tree done) (expr_tree e.now))
        filled_tree (world_of world.new) result }
{
    let Filled {
        items,
        mut aggregates,
    } = done;
    let next = aggregates.next_part(&world.structs.defs)?;
    match next {
        None => {
            let typed = value(world, e);
            Err(too_many(world, whole, e.pos(), typed))
        }
        Some(part) => value_in_part(world, is_static, items, aggregates, part, e),
    }
}

// The value of an expression in the part that is next.
fn value_in_part(
    world: &mut World,
    is_static: bool,
    items: Vec<TInit>,
    aggregates: Aggregates,
    part: Part,
    e: &Expr,
) -> Result<Filled, TypeError>
    ensures { Answers (ValueInPart (world_of world.old) is_static (map tinit_tree items.items) (aggregates_tree aggregates) (part_tree part) (expr_tree e.now))
        filled_tree (world_of world.new) result }
{
    let mut aggregates = aggregates;
    let x = got!(value(world, e));
    let ty = x.ty()?;
    let item = Item::Value(ty);
    let inner = aggregates.filled_in(&world.structs.defs, &item, part)?;
    let stored = got!(fill(world, is_static, inner, e.pos(), x));
    let filled = with_item(items, stored, aggregates)?;
    Ok(filled)
}

/// An expression that initialises a whole object.
pub(crate) fn by_value(
    world: &mut World,
    is_static: bool,
    ty: &CType,
    e: &Expr,
) -> Result<Initialised, TypeError>
    ensures { Answers (inits.ByValue (world_of world.old) is_static (ctype_tree ty.now) (expr_tree e.now)) by_tree (world_of world.new) result }
{
    let x = got!(value(world, e));
    let ty = ty.copy()?;
    let part = Part { ty, offset: 0 };
    let stored = got!(fill(world, is_static, part, e.pos(), x));
    let mut items = Vec::new(world.alloc());
    items.push(stored)?;
    Ok(Initialised {
        items,
        zeroes_rest: false,
        count: 0,
    })
}
