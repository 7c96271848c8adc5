// What the items of a list fill.
#![tactic(auto)]

ghost use Rattle.std.specs.Prelude.{◌≡◌, ◌∷◌, ◌++◌, [], IfOk, map};
ghost use Rattle.c_syntax.specs.TypedStmt.{tinit_tree};
ghost use Rattle.c_typing.specs.CurrentObject as objects;
ghost use Rattle.c_typing.specs.Inits as inits;
ghost use Rattle.c_check_fills.specs.RoomViews.{aggregates_tree, frame_tree};
ghost use Rattle.c_check_inits.specs.Views.{filled_tree};

use c_check_fills::{Aggregates, Frame};
use c_syntax::TInit;
use std::alloc::{AllocError as NoMemory, Global};

/// What the items of a list store so far, and the aggregates that they fill.
#[derive(Drop)]
pub struct Filled {
    pub items: Vec<TInit>,
    pub aggregates: Aggregates,
}

/// Nothing yet, in the braces of this aggregate.
pub(crate) fn nothing_filled(alloc: Global, frame: Frame) -> Filled
    ensures { filled_tree result ≡ inits.filled_so [] (objects.in_braces (frame_tree frame)) }
{
    Filled {
        items: Vec::new(alloc),
        aggregates: Aggregates::in_braces(alloc, frame),
    }
}

/// One item more.
pub(crate) fn with_item(
    items: Vec<TInit>,
    item: TInit,
    aggregates: Aggregates,
) -> Result<Filled, NoMemory>
    ensures { IfOk result (λ filled. filled_tree filled
        ≡ inits.filled_so (map tinit_tree items.items ++ tinit_tree item ∷ []) (aggregates_tree aggregates)) }
{
    let mut items = items;
    items.push(item)?;
    Ok(Filled { items, aggregates })
}

/// These items more.
pub(crate) fn with_items(
    items: Vec<TInit>,
    more: Vec<TInit>,
    aggregates: Aggregates,
) -> Result<Filled, NoMemory>
    ensures { IfOk result (λ filled. filled_tree filled
        ≡ inits.filled_so (map tinit_tree items.items ++ map tinit_tree more.items) (aggregates_tree aggregates)) }
{
    let mut items = items;
    let mut more = more;
    items.append(&mut more)?;
    Ok(Filled { items, aggregates })
}
