// Initialisers of declarators.
#![tactic(auto)]

ghost use Rattle.std.specs.Prelude.{◌≡◌, IfOk, OnOk, map};
ghost use Rattle.c_syntax.specs.Types.{ctype_tree};
ghost use Rattle.c_syntax.specs.TypedStmt.{tinit_tree, tstmt_tree};
ghost use Rattle.c_syntax.specs.TypedStmt as trees;
ghost use Rattle.c_typing.specs.Decls as decls;
ghost use Rattle.c_check_decls.specs.DeclaredViews.{now_tree};
ghost use Rattle.c_check_names.specs.Views.{Answers};
ghost use Rattle.c_check_fills.specs.Views.{by_tree};
ghost use Rattle.c_check_fills.specs.RoomViews.{frame_tree};
ghost use Rattle.c_check_names.specs.Worlds.{world_of};
ghost use Rattle.c_check_decls.specs.MadeViews.{made_tree};

use crate::made::{Made, one_made};
use crate::sizing::measured;
use crate::{ObjectNow, size_or_zero};
use c_check_fills::{Frame, Initialised, Part, static_bytes};
use c_check_names::{TypeError, World};
use c_syntax::{CType, TInit, TInits, TStmt};
use std::alloc::{AllocError as NoMemory, Global};

/// Where the initialiser of an object begins: an array without size has any number of parts.
pub fn frame_for(world: &World, object: &ObjectNow) -> Result<Frame, NoMemory>
    ensures { IfOk result (λ frame. frame_tree frame ≡ decls.frame_for (world_of world.now) (now_tree object.now)) }
{
    let ty = object.ty.copy()?;
    if object.measured {
        Ok(Frame::open(ty))
    } else {
        Ok(Frame::of(&world.structs.defs, Part { ty, offset: 0 }))
    }
}

/// What stands for a declarator with its initialiser. An array without size gets its own by it: with no elements it is
/// NotConstant, and past a limit too large, at its name. A static object gets the bytes with which it begins. Once out of
/// memory the program is only dropped.
pub fn initialised(
    world: &mut World,
    object: &ObjectNow,
    by: Initialised,
) -> Result<Made, TypeError>
    ensures { Answers (λ out. out ≡ decls.initialised (world_of world.old) (now_tree object.now) (by_tree by)
        (decls.measured (world_of world.old) (now_tree object.now) (by_tree by))) made_tree (world_of world.new) result }
{
    match measured(world, object, &by) {
        Err(error) => Err(error),
        Ok(ty) => {
            begin_static(world, object, &ty, &by)?;
            let Initialised {
                items,
                zeroes_rest,
                count: _,
            } = by;
            let made = made_of(world.alloc(), object, items, zeroes_rest)?;
            Ok(made)
        }
    }
}

// A static object has the bytes with which it begins.
fn begin_static(
    world: &mut World,
    object: &ObjectNow,
    ty: &CType,
    by: &Initialised,
) -> Result<(), NoMemory>
    ensures { OnOk result (world_of world.new ≡ decls.with_static (world_of world.old) (now_tree object.now) (ctype_tree ty.now) (by_tree by.now)) }
{
    if !object.is_static {
        return Ok(());
    }
    let size = size_or_zero(world, ty)?;
    let items = by.items.as_slice();
    let bytes = static_bytes(world.alloc(), world.objects.as_slice(), size, items)?;
    world.add_initial(object.number, bytes)
}

/// What stands for a declarator in a block, with these items of its initialiser. One of the file is no statement.
pub fn made_of(
    alloc: Global,
    object: &ObjectNow,
    items: Vec<TInit>,
    zeroes_rest: bool,
) -> Result<Made, NoMemory>
    ensures { IfOk result (λ made. made_tree made ≡ decls.made_of (now_tree object.now) (map tinit_tree items.items) zeroes_rest) }
{
    if !object.in_block {
        return Ok(Made::nothing(alloc));
    }
    let mut objects = Vec::new(alloc);
    if object.is_static {
        return one_made(alloc, objects, static_node(object));
    }
    objects.push(object.number)?;
    one_made(alloc, objects, declare_node(object, items, zeroes_rest))
}

#[tactic(auto, using(c_syntax::proofs::Trees::the_trees))]
fn static_node(object: &ObjectNow) -> TStmt
    ensures { tstmt_tree result ≡ trees.Static object.now.pos object.now.number }
{
    TStmt::Static {
        pos: object.pos,
        object: object.number,
    }
}

#[tactic(auto, using(c_syntax::proofs::Trees::the_trees))]
fn declare_node(object: &ObjectNow, items: Vec<TInit>, zeroes_rest: bool) -> TStmt
    ensures { tstmt_tree result ≡ trees.Declare object.now.pos object.now.number (map tinit_tree items.items) zeroes_rest }
{
    TStmt::Declare {
        pos: object.pos,
        object: object.number,
        inits: TInits::from_vec(items),
        zeroes_rest,
    }
}
