// Entities of the file by their names.
#![tactic(auto)]

ghost use Rattle.std.specs.Prelude.{◌≡◌, IfOk, option_map};
ghost use Rattle.c_typing.specs.Decls as decls;
ghost use Rattle.c_typing.specs.Names as names;
ghost use Rattle.c_check_names.specs.Trees.{linked_tree};
ghost use Rattle.c_check_names.specs.Worlds.{world_of};

use crate::copy_meaning;
use c_check_names::{Linked, World};
use std::alloc::AllocError as NoMemory;

/// A copy of the entity of the file that has the name, if one has.
pub(crate) fn entity(world: &World, name: &[u8]) -> Result<Option<Linked>, NoMemory>
    ensures { IfOk result (λ found. option_map linked_tree found ≡ names.linked_as (world_of world.now) name.now) }
{
    match world.linked_as(name) {
        None => Ok(None),
        Some(linked) => {
            let meaning = copy_meaning(world.alloc(), &linked.meaning)?;
            Ok(Some(Linked {
                name: linked.name.copy()?,
                pos: linked.pos,
                meaning,
                defined: linked.defined,
            }))
        }
    }
}

/// Whether the name is `main`.
pub(crate) fn is_named_main(name: &[u8]) -> bool
    ensures { result ≡ decls.is_named_main name.now }
{
    b"main".as_slice() == name
}
