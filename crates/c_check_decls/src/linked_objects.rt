// Objects of the program whose types and sizes are told later.
#![tactic(auto)]

ghost use Rattle.std.specs.Prelude.{◌≡◌, IfOk, OnOk};
ghost use Rattle.c_syntax.specs.Types.{ctype_tree, object_tree};
ghost use Rattle.c_typing.specs.Decls as decls;
ghost use Rattle.c_check_names.specs.Worlds.{world_of};

use c_check_names::World;
use c_layout::has_const_elements;
use c_syntax::{CType, Object};
use std::alloc::AllocError as NoMemory;

/// The object of this number has this type and size from here on. Once out of memory the program is only dropped.
pub fn resize(world: &mut World, n: u64, ty: CType, size: u64) -> Result<(), NoMemory>
    ensures { OnOk result (world_of world.new ≡ decls.with_sized (world_of world.old) n (ctype_tree ty) size) }
{
    let k = n as usize;
    if k >= world.objects.len() {
        return Ok(());
    }
    let object = resized(&world.objects[k], ty, size)?;
    world.objects[k] = object;
    Ok(())
}

// The object with this type and size.
fn resized(object: &Object, ty: CType, size: u64) -> Result<Object, NoMemory>
    ensures { IfOk result (λ after. object_tree after ≡ decls.sized_object (ctype_tree ty) size (object_tree object.now)) }
{
    let name = object.name.copy()?;
    Ok(Object {
        name,
        pos: object.pos,
        ty,
        size,
        read_only: object.read_only,
        is_static: object.is_static,
    })
}

/// Whether an array, or another object, is const as declared (C11 6.7.3p9).
#[tactic(auto, using(c_syntax::proofs::Trees::the_trees))]
pub fn is_read_only(ty: &CType, is_const: bool) -> bool
    ensures { result ≡ decls.is_read_only (ctype_tree ty.now) is_const }
{
    match ty {
        CType::Array(_, _) => has_const_elements(ty),
        CType::Void | CType::Int(_) | CType::Pointer(_) | CType::Struct(_) | CType::Function(_) =>
            is_const,
    }
}
