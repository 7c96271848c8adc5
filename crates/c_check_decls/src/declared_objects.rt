// Objects that declarators make.
#![tactic(auto)]

ghost use Rattle.std.specs.Prelude.{◌≡◌, IfOk, OnOk, length};
ghost use Rattle.c_syntax.specs.Types.{ctype_tree, object_tree};
ghost use Rattle.c_typing.specs.Decls as decls;
ghost use Rattle.c_typing.specs.Names as names;
ghost use Rattle.c_typing.specs.World as worlds;
ghost use Rattle.c_check_declarators.specs.Views.{name_tree};
ghost use Rattle.c_check_names.specs.Worlds.{world_of};

use crate::is_read_only;
use c_check_declarators::DeclaredName;
use c_check_names::{Meaning, World};
use c_syntax::{CType, Object};
use std::alloc::AllocError as NoMemory;

/// The object that a declarator makes of this type and size.
pub(crate) fn object_of(
    named: &DeclaredName,
    ty: CType,
    is_const: bool,
    size: u64,
    is_static: bool,
) -> Result<Object, NoMemory>
    ensures { IfOk result (λ object. object_tree object ≡ decls.object_of (name_tree named.now) (ctype_tree ty) is_const size is_static) }
{
    let name = named.name.copy()?;
    let read_only = is_read_only(&ty, is_const);
    Ok(Object {
        name,
        pos: named.pos,
        ty,
        size,
        read_only,
        is_static,
    })
}

/// One object more, which does not count among the sizes yet. Once out of memory the program is only dropped.
pub(crate) fn add_object(world: &mut World, object: Object) -> Result<(), NoMemory>
    ensures { OnOk result (world_of world.new ≡ decls.with_object (world_of world.old) (object_tree object)) }
{
    world.objects.push(object)?;
    Ok(())
}

/// A name that stands for a new object of a block. Once out of memory the program is only dropped.
pub(crate) fn add_local(
    world: &mut World,
    named: &DeclaredName,
    object: Object,
) -> Result<u64, NoMemory>
    ensures number { IfOk result (λ n. n ≡ length (world_of world.old).objects) }
    ensures declared { OnOk result (world_of world.new ≡ names.with_name (decls.with_object (world_of world.old) (object_tree object))
        named.now.pos named.now.name (worlds.Object (length (world_of world.old).objects))) }
{
    let number = world.objects.len() as u64;
    add_object(world, object)?;
    let name = named.name.copy()?;
    world.declare(named.pos, name, Meaning::Object(number))?;
    Ok(number)
}
