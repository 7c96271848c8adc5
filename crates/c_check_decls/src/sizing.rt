// Arrays that get their sizes by their initialisers.
#![tactic(auto)]

ghost use Rattle.std.specs.Prelude.{◌≡◌, ◌≤◌, ◌^◌, IfOk};
ghost use Rattle.c_syntax.specs.Types.{ctype_tree};
ghost use Rattle.c_typing.specs.Decls as decls;
ghost use Rattle.c_check_decls.specs.DeclaredViews.{now_tree};
ghost use Rattle.c_check_names.specs.Views.{Answers};
ghost use Rattle.c_check_fills.specs.Views.{by_tree};
ghost use Rattle.c_check_names.specs.Worlds.{world_of};

use crate::{ObjectNow, check_limits, count, resize};
use c_check_fills::Initialised;
use c_check_names::{TypeError, World};
use c_layout::{Sized, size_of};
use c_syntax::CType;
use std::alloc::AllocError as NoMemory;

/// The most bytes that a type may take.
const TYPE_LIMIT: u64 = 1 << 40;

/// The type of an object behind its initialiser, by which an array without size gets its own (C11 6.7.9p22).
pub(crate) fn measured(
    world: &mut World,
    object: &ObjectNow,
    by: &Initialised,
) -> Result<CType, TypeError>
    ensures { Answers (λ out. out ≡ decls.measured (world_of world.old) (now_tree object.now) (by_tree by.now)) ctype_tree (world_of world.new) result }
{
    if !object.measured {
        let ty = object.ty.copy()?;
        return Ok(ty);
    }
    if by.count == 0 {
        return Err(TypeError::NotConstant(object.pos));
    }
    let ty = measured_type(&object.ty, by.count)?;
    match size_of(&ty, &world.structs.defs) {
        Sized::Fits(size) => sized_now(world, object, ty, size),
        Sized::Incomplete => sized_now(world, object, ty, 0),
        Sized::Oversize => Err(TypeError::ObjectTooLarge(object.pos, TYPE_LIMIT)),
    }
}

// The array with this number of elements.
#[tactic(auto, using(c_syntax::proofs::Trees::the_trees))]
fn measured_type(ty: &CType, elements: u64) -> Result<CType, NoMemory>
    ensures { IfOk result (λ told. ctype_tree told ≡ decls.measured_type (ctype_tree ty.now) elements) }
{
    match ty {
        CType::Array(of, _) => Ok(CType::Array(of.clone()?, elements)),
        CType::Void | CType::Int(_) | CType::Pointer(_) | CType::Struct(_) | CType::Function(_) =>
            ty.copy(),
    }
}

// An object whose size is told now, which counts from here on.
fn sized_now(
    world: &mut World,
    object: &ObjectNow,
    ty: CType,
    size: u64,
) -> Result<CType, TypeError>
    requires { size ≤ 2 ^ 40 }
    ensures { Answers (λ out. out ≡ decls.sized_now (world_of world.old) (now_tree object.now) (ctype_tree ty) size) ctype_tree (world_of world.new) result }
{
    match check_limits(world, object.pos, size) {
        Err(error) => Err(error),
        Ok(()) => {
            count(world, size);
            resize(world, object.number, ty.copy()?, size)?;
            Ok(ty)
        }
    }
}
