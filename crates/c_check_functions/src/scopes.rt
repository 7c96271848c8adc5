// The scopes of bodies.
#![tactic(auto)]

ghost use Rattle.std.specs.Prelude.{◌≡◌, [], ◌∷◌, IfOk, OnOk, map};
ghost use Rattle.c_typing.specs.File as files;
ghost use Rattle.c_check_names.specs.Trees.{binding_tree, meaning_tree, tag_tree};
ghost use Rattle.c_check_names.specs.Worlds.{Encloses, world_of};
ghost use Rattle.c_check_functions.specs.Views as views;

use c_check_names::{Binding, Cases, Meaning, Scope, Table, TagBinding, World};
use std::alloc::AllocError as NoMemory;

/// The scope of a body begins, with the names and tags of its parameter list (C11 6.2.1p4), where the objects of the
/// parameters have numbers from `first` on. A number past the greatest counts as out of memory, after which the program is
/// only dropped.
pub(crate) fn in_body(
    world: &mut World,
    first: u64,
    names: Vec<Binding>,
    tags: Vec<TagBinding>,
) -> Result<Scope, NoMemory>
    ensures begun { OnOk result (world_of world.new ≡ files.in_body (world_of world.old) first (map binding_tree names.items) (map tag_tree tags.items)) }
    ensures scope { IfOk result (λ scope. Encloses (world_of world.old) scope) }
{
    let scope = world.open();
    add_names(world, first, names)?;
    add_tags(world, tags)?;
    forget_jumps(world);
    Ok(scope)
}

// Names at the end, where those of parameters stand for their objects.
fn add_names(world: &mut World, first: u64, names: Vec<Binding>) -> Result<(), NoMemory>
    ensures { OnOk result (world_of world.new
        ≡ views.with_names (world_of world.old) (map (files.with_object_meaning first) (map binding_tree names.items))) }
{
    let mut left = names;
    left.reverse();
    'each: while let Some(binding) = left.pop() {
        let Binding { name, pos, meaning } = binding;
        let meaning = as_object(first, meaning)?;
        world.declare(pos, name, meaning)?;
    }
    Ok(())
}

// The name of a parameter stands for its object.
fn as_object(first: u64, meaning: Meaning) -> Result<Meaning, NoMemory>
    ensures { IfOk result (λ m. meaning_tree m ≡ files.as_object first (meaning_tree meaning)) }
{
    match meaning {
        Meaning::Parameter(k, _ty, _is_const) => match first.checked_add(k) {
            None => Err(NoMemory),
            Some(n) => Ok(Meaning::Object(n)),
        },
        Meaning::Object(n) => Ok(Meaning::Object(n)),
        Meaning::Missing(ty, is_const) => Ok(Meaning::Missing(ty, is_const)),
        Meaning::Function(n) => Ok(Meaning::Function(n)),
        Meaning::TypeName(form) => Ok(Meaning::TypeName(form)),
        Meaning::Enumeration(value) => Ok(Meaning::Enumeration(value)),
    }
}

// Tags at the end.
fn add_tags(world: &mut World, tags: Vec<TagBinding>) -> Result<(), NoMemory>
    ensures { OnOk result (world_of world.new ≡ views.with_tags (world_of world.old) (map tag_tree tags.items)) }
{
    let mut left = tags;
    left.reverse();
    'each: while let Some(tag) = left.pop() {
        add_tag(world, tag)?;
    }
    Ok(())
}

// A tag at the end.
fn add_tag(world: &mut World, tag: TagBinding) -> Result<(), NoMemory>
    ensures { OnOk result (world_of world.new ≡ views.with_tags (world_of world.old) (tag_tree tag ∷ [])) }
{
    world.tags.push(tag)?;
    Ok(())
}

/// No labels, cases and default.
pub(crate) fn forget_jumps(world: &mut World)
    ensures { world_of world.new ≡ views.without_jumps (world_of world.old) }
{
    let alloc = world.alloc();
    world.labels = Table::new(alloc);
    world.cases = Cases::new(alloc);
    world.default = None;
}
