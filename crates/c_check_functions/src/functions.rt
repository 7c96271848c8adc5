// Functions, settled where they stand.
#![tactic(auto)]

ghost use Rattle.std.specs.Prelude.{◌≡◌, OnOk, map};
ghost use Rattle.c_syntax.specs.Program.{tfunction_tree};
ghost use Rattle.c_syntax.specs.Types.{object_tree};
ghost use Rattle.c_typing.specs.Settled as typing;

use crate::stmts::settle_stmt;
use c_syntax::{Object, TFunction};
use std::alloc::{AllocError as NoMemory, Global};

/// Gives each name of an object in the function's body the type that the object has at the end of the file. Where memory
/// runs out, part of the body has been settled.
pub fn settle_function(
    alloc: Global,
    objects: &[Object],
    function: &mut TFunction,
) -> Result<(), NoMemory>
    ensures { OnOk result (tfunction_tree function.new ≡ typing.settled_function (map object_tree objects.now) (tfunction_tree function.old)) }
{
    match &mut function.body {
        None => Ok(()),
        Some(body) => settle_stmt(alloc, objects, body),
    }
}

/// Each of the functions, as `settle_function` does.
pub fn settle_functions(
    alloc: Global,
    objects: &[Object],
    functions: &mut [TFunction],
) -> Result<(), NoMemory>
    ensures { OnOk result (map tfunction_tree functions.new
        ≡ map (typing.settled_function (map object_tree objects.now)) (map tfunction_tree functions.old)) }
{
    for function in functions.iter_mut() {
        settle_function(alloc, objects, function)?;
    }
    Ok(())
}
