// Whole programs.
#![tactic(auto)]

ghost use Rattle.std.specs.Prelude.{◌≡◌, IfOk, OnOk, map};
ghost use Rattle.c_syntax.specs.Program.{structdef_tree, tfunction_tree, tprogram_tree};
ghost use Rattle.c_syntax.specs.Types.{object_tree};
ghost use Rattle.c_typing.specs.File as files;
ghost use Rattle.c_typing.specs.Settled as settled;
ghost use Rattle.c_check_names.specs.Worlds.{world_of};

use crate::functions::settle_functions;
use crate::initials::static_initials;
use c_check_names::{Structs, World};
use c_syntax::{Initial, Initials, Object, Objects, StructDefs, TFunction, TFunctions, TProgram};
use std::alloc::{AllocError as NoMemory, Global};

/// The program that a file leaves.
pub fn program_of(world: World) -> Result<TProgram, NoMemory>
    ensures { IfOk result (λ program. tprogram_tree program ≡ files.program_of (world_of world)) }
{
    let alloc = world.alloc();
    let World {
        structs,
        objects,
        functions,
        initial,
        ..
    } = world;
    let Structs { defs, .. } = structs;
    program_from(alloc, defs, objects, functions, initial.into_vec())
}

// The program of these parts. A function of its own, since what a function owns on a way out is dear to prove.
fn program_from(
    alloc: Global,
    structs: StructDefs,
    objects: Vec<Object>,
    functions: Vec<TFunction>,
    given: Vec<Initial>,
) -> Result<TProgram, NoMemory>
    ensures { IfOk result (λ program. tprogram_tree program ≡ record {
      structs = map structdef_tree structs;
      objects = map object_tree objects.items;
      functions = map (settled.settled_function (map object_tree objects.items)) (map tfunction_tree functions.items);
      initial = files.initials_from given.items 0 (map object_tree objects.items);
    }) }
{
    let mut functions = functions;
    let initial = settle(alloc, objects.as_slice(), functions.as_mut_slice(), given)?;
    Ok(TProgram {
        structs,
        objects: Objects::from_vec(objects),
        functions: TFunctions::from_vec(functions),
        initial: Initials::from_vec(initial),
    })
}

// Settles the functions, and gives the initial values of the static objects.
fn settle(
    alloc: Global,
    objects: &[Object],
    functions: &mut [TFunction],
    given: Vec<Initial>,
) -> Result<Vec<Initial>, NoMemory>
    ensures initial { IfOk result (λ all. all.items ≡ files.initials_from given.items 0 (map object_tree objects.now)) }
    ensures functions { OnOk result (map tfunction_tree functions.new
        ≡ map (settled.settled_function (map object_tree objects.now)) (map tfunction_tree functions.old)) }
{
    settle_functions(alloc, objects, functions)?;
    static_initials(alloc, given, objects)
}
