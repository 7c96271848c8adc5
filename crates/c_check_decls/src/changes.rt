// Entities of the file, and what declarations change of them.
#![tactic(auto)]

ghost use Rattle.std.specs.Prelude.{◌≡◌, ◌<◌, IfOk, length, map, OnOk};
ghost use Rattle.c_syntax.specs.Types.{ctype_tree};
ghost use Rattle.c_typing.specs.Decls as decls;
ghost use Rattle.c_typing.specs.World as worlds;
ghost use Rattle.c_check_declarators.specs.Views.{name_tree};
ghost use Rattle.c_check_names.specs.Trees.{linked_tree, meaning_tree};
ghost use Rattle.c_check_names.specs.Worlds.{world_of};
ghost use Rattle.c_check_decls.specs.Changes.{become, changed_at};
ghost use Rattle.c_check_decls.specs.Entities.{changed};

use crate::linked_objects::resize;
use c_check_declarators::{DeclaredName, copy_form};
use c_check_names::{Linked, Meaning, World};
use c_syntax::CType;
use std::alloc::{AllocError as NoMemory, Global};

/// What a declaration changes of an entity.
#[derive(Drop)]
pub(crate) enum Change {
    /// It is defined.
    Defined,
    /// It is an object that the file does not define, of this type, const or not.
    Missing(CType, bool),
}

/// A name that stands for a new entity of the file. Once out of memory the program is only dropped.
pub fn link(
    world: &mut World,
    named: &DeclaredName,
    meaning: Meaning,
    defined: bool,
) -> Result<(), NoMemory>
    ensures { OnOk result (world_of world.new ≡ decls.with_linked (world_of world.old) (name_tree named.now) (meaning_tree meaning) defined) }
{
    let copy = copy_meaning(world.alloc(), &meaning)?;
    let name = named.name.copy()?;
    world.declare(named.pos, name, copy)?;
    let name = named.name.copy()?;
    world.link(Linked {
        name,
        pos: named.pos,
        meaning,
        defined,
    })
}

/// An entity is defined from here on, if this declaration defines it. Once out of memory the program is only dropped.
pub fn define(world: &mut World, name: &[u8], now: bool) -> Result<(), NoMemory>
    ensures { OnOk result (world_of world.new ≡ decls.with_defined (world_of world.old) name.now now) }
{
    if now {
        change_named(world, name, &Change::Defined)
    } else {
        Ok(())
    }
}

/// The entity that has this meaning has this type and size from here on. Once out of memory the program is only dropped.
pub fn retype(
    world: &mut World,
    name: &[u8],
    meaning: &Meaning,
    ty: CType,
    size: u64,
) -> Result<(), NoMemory>
    ensures { OnOk result (world_of world.new
        ≡ decls.with_type (world_of world.old) name.now (meaning_tree meaning.now) (ctype_tree ty) size) }
{
    match meaning {
        Meaning::Object(n) => resize(world, *n, ty, size),
        Meaning::Missing(_, is_const) => {
            let change = Change::Missing(ty, *is_const);
            change_named(world, name, &change)
        }
        Meaning::Parameter(_, _, _)
        | Meaning::Function(_)
        | Meaning::TypeName(_)
        | Meaning::Enumeration(_) => Ok(()),
    }
}

// The entities of this name are changed.
fn change_named(world: &mut World, name: &[u8], change: &Change) -> Result<(), NoMemory>
    ensures { OnOk result (world_of world.new ≡ record (world_of world.old) {
      linked = map (become (λ l. l.name) name.now (changed change.now)) (world_of world.old).linked;
    }) }
{
    let mut from = 0;
    'each: while let Some(place) = world.linked.place_from(name, from) {
        change_at(world, place, change)?;
        from = place + 1;
    }
    Ok(())
}

// The entity at a place is changed.
fn change_at(world: &mut World, place: usize, change: &Change) -> Result<(), NoMemory>
    requires { place < length world.old.linked }
    ensures { OnOk result (world_of world.new ≡ record (world_of world.old) {
      linked = changed_at (changed change.now) place (map linked_tree world.old.linked);
    }) }
{
    let after = changed_entity(world.alloc(), world.linked.get(place), change)?;
    world.linked.replace(place, after);
    Ok(())
}

// The entity, changed.
fn changed_entity(alloc: Global, linked: &Linked, change: &Change) -> Result<Linked, NoMemory>
    ensures tree { IfOk result (λ after. linked_tree after ≡ changed change.now (linked_tree linked.now)) }
    ensures name { IfOk result (λ after. after.name ≡ linked.now.name) }
{
    let name = linked.name.copy()?;
    match change {
        Change::Defined => {
            let meaning = copy_meaning(alloc, &linked.meaning)?;
            Ok(Linked {
                name,
                pos: linked.pos,
                meaning,
                defined: true,
            })
        }
        Change::Missing(ty, is_const) => {
            let ty = ty.copy()?;
            Ok(Linked {
                name,
                pos: linked.pos,
                meaning: Meaning::Missing(ty, *is_const),
                defined: linked.defined,
            })
        }
    }
}

/// A copy of what a name stands for, which shares what it is made of.
pub fn copy_meaning(alloc: Global, meaning: &Meaning) -> Result<Meaning, NoMemory>
    ensures { IfOk result (λ copy. meaning_tree copy ≡ meaning_tree meaning.now) }
{
    match meaning {
        Meaning::Object(n) => Ok(Meaning::Object(*n)),
        Meaning::Missing(ty, is_const) => Ok(Meaning::Missing(ty.copy()?, *is_const)),
        Meaning::Parameter(k, ty, is_const) => Ok(Meaning::Parameter(*k, ty.copy()?, *is_const)),
        Meaning::Function(n) => Ok(Meaning::Function(*n)),
        Meaning::TypeName(form) => {
            let form = copy_form(alloc, form)?;
            Ok(Meaning::TypeName(form))
        }
        Meaning::Enumeration(value) => Ok(Meaning::Enumeration(*value)),
    }
}
