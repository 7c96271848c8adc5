// What initialises what was declared.
#![tactic(auto)]

ghost use Rattle.std.specs.Prelude.{option_map};
ghost use Rattle.c_syntax_written.specs.WrittenDecl.{init_tree};
ghost use Rattle.c_typing.specs.Decls as decls;
ghost use Rattle.c_check_decls.specs.DeclaredViews.{declares_tree, now_tree};
ghost use Rattle.c_check_names.specs.Views.{Answers};
ghost use Rattle.c_check_decls.specs.MadeViews.{made_tree};
ghost use Rattle.c_check_names.specs.Worlds.{world_of};
ghost use Rattle.c_check_decls.specs.Forms.{WithInitialiser};

use crate::{Declares, Made, ObjectNow, frame_for, initialised, made_of};
use c_check_inits::initialiser;
use c_check_names::{TypeError, World};
use c_syntax_written::Init;

/// The initialiser of what was declared, if it has one. An extern declaration in a block is no statement.
pub(crate) fn initial(
    world: &mut World,
    what: Declares,
    init: &Option<Box<Init>>,
) -> Result<Made, TypeError>
    ensures { Answers (decls.TypesInitOf (world_of world.old) (declares_tree what) (option_map (λ v. init_tree v.value) init.now))
        made_tree (world_of world.new) result }
{
    match what {
        Declares::NoObject => Ok(Made::nothing(world.alloc())),
        Declares::AnObject(object) => match init {
            None => without_initialiser(world, &object),
            Some(init) => with_initialiser(world, &object, init),
        },
    }
}

// An object whose declarator has no initialiser.
fn without_initialiser(world: &World, object: &ObjectNow) -> Result<Made, TypeError>
    ensures { Answers (decls.TypesInitOf (world_of world.now) (decls.AnObject (now_tree object.now)) None) made_tree (world_of world.now) result }
{
    let alloc = world.alloc();
    let made = made_of(alloc, object, Vec::new(alloc), false)?;
    Ok(made)
}

// An object with its initialiser.
fn with_initialiser(world: &mut World, object: &ObjectNow, init: &Init) -> Result<Made, TypeError>
    ensures { Answers (WithInitialiser (world_of world.old) (now_tree object.now) (init_tree init.now)) made_tree (world_of world.new) result }
{
    let frame = frame_for(world, object)?;
    let by = got!(initialiser(world, object.is_static, &object.ty, frame, init));
    initialised(world, object, by)
}
