// Objects for the parameters of a function with a body.
#![tactic(auto)]

ghost use Rattle.std.specs.Prelude.{◌≡◌, ◌+◌, IfOk, OnOk, length, map};
ghost use Rattle.c_syntax.specs.Types.{object_tree};
ghost use Rattle.c_typing.specs.Decls as decls;
ghost use Rattle.c_typing.specs.File as files;
ghost use Rattle.c_check_declarators.specs.Views.{parameter_tree};
ghost use Rattle.c_check_names.specs.Views.{Answers};
ghost use Rattle.c_check_names.specs.Worlds.{world_of};
ghost use Rattle.c_check_functions.specs.Views as views;

use c_check_declarators::Parameter;
use c_check_decls::{check_limits, count, parameter_object, size_or_zero};
use c_check_names::{TypeError, World};
use c_syntax::{Numbers, Object};
use std::alloc::AllocError as NoMemory;

/// Objects for parameters, which count among the sizes one by one: their numbers. One that goes past a limit is too large, at
/// its place. Once out of memory the program is only dropped.
pub(crate) fn count_parameters(
    world: &mut World,
    params: &[Parameter],
) -> Result<Numbers, TypeError>
    ensures numbers { IfOk result (λ numbers. numbers ≡ decls.numbers_from (length (world_of world.old).objects) (length (map parameter_tree params.now))) }
    ensures counted { Answers (λ out. out ≡ files.with_counted (world_of world.old) (map parameter_tree params.now)) (λ _. tt) (world_of world.new) result }
{
    let mut numbers = Vec::new(world.alloc());
    'each: for param in params {
        match count_parameter(world, param) {
            Err(error) => return Err(error),
            Ok(number) => numbers.push(number)?,
        }
    }
    Ok(Numbers::from_vec(numbers))
}

// An object for a parameter: its number.
fn count_parameter(world: &mut World, param: &Parameter) -> Result<u64, TypeError>
    ensures number { IfOk result (λ n. n ≡ length (world_of world.old).objects) }
    ensures grown { OnOk result (length (world_of world.new).objects ≡ length (world_of world.old).objects + 1) }
    ensures counted { Answers (λ out. out ≡ views.counted (world_of world.old) (parameter_tree param.now)) (λ _. tt) (world_of world.new) result }
{
    let size = size_or_zero(world, &param.ty)?;
    match check_limits(world, param.pos, size) {
        Err(error) => Err(error),
        Ok(()) => {
            let number = world.objects.len() as u64;
            let object = parameter_object(world, param)?;
            add_object(world, object)?;
            count(world, size);
            Ok(number)
        }
    }
}

// One object more, which does not count among the sizes yet.
fn add_object(world: &mut World, object: Object) -> Result<(), NoMemory>
    ensures { OnOk result (world_of world.new ≡ decls.with_object (world_of world.old) (object_tree object)) }
{
    world.objects.push(object)?;
    Ok(())
}
