// The sizes of objects, one and all.
#![tactic(auto)]

ghost use Rattle.std.specs.Prelude.{◌≡◌, ◌≤◌, ◌+◌, IfOk, OnOk};
ghost use Rattle.c_syntax.specs.Types.{ctype_tree};
ghost use Rattle.c_typing.specs.Decls as decls;
ghost use Rattle.c_typing.specs.Names as names;
ghost use Rattle.c_typing.specs.World as worlds;
ghost use Rattle.c_check_names.specs.Views.{Answers};
ghost use Rattle.c_check_names.specs.Worlds.{world_of};

use c_check_exprs::refused_by;
use c_check_names::{TypeError, World};
use c_layout::{Sized, size_of};
use c_syntax::{CType, Pos};
use std::alloc::AllocError as NoMemory;

/// Whether the program may have one more object of so many bytes. It is refused where it is too large, or all objects
/// together are.
pub fn check_limits(world: &World, pos: Pos, size: u64) -> Result<(), TypeError>
    ensures limits { Answers (λ out. out ≡ names.within_limits pos size (world_of world.now) (worlds.Typed tt (world_of world.now)))
        (λ u. u) (world_of world.now) result }
    ensures fits { OnOk result (world.now.total + size ≤ names.total_limit) }
{
    match world.check_size(pos, size) {
        Ok(()) => Ok(()),
        Err(error) => Err(refused_by(error)),
    }
}

/// So many bytes more count among the sizes.
pub fn count(world: &mut World, size: u64)
    requires { world.old.total + size ≤ names.total_limit }
    ensures { world_of world.new ≡ decls.with_total (world_of world.old) size }
{
    world.total += size;
}

/// The size of a type, or nothing for an incomplete one. More than 2 to the 40 bytes count as out of memory.
pub fn size_or_zero(world: &World, ty: &CType) -> Result<u64, NoMemory>
    ensures { IfOk result (λ size. size ≡ decls.size_or_zero (world_of world.now) (ctype_tree ty.now)) }
{
    match size_of(ty, &world.structs.defs) {
        Sized::Fits(size) => Ok(size),
        Sized::Incomplete => Ok(0),
        Sized::Oversize => Err(NoMemory),
    }
}
