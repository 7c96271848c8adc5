// Objects for parameters.
#![tactic(auto)]

ghost use Rattle.std.specs.Prelude.{◌≡◌, [], IfOk, OnOk, length, map};
ghost use Rattle.c_syntax.specs.Types.{ctype_tree, object_tree};
ghost use Rattle.c_typing.specs.Decls as decls;
ghost use Rattle.c_check_declarators.specs.Views.{parameter_tree};
ghost use Rattle.c_check_names.specs.Worlds.{world_of};

use crate::declared_objects::add_object;
use crate::limits::size_or_zero;
use c_check_declarators::Parameter;
use c_check_names::World;
use c_syntax::{CType, Name, Numbers, Object, Pos};
use std::alloc::{AllocError as NoMemory, Global};

/// An automatic object for a parameter. One of more than 2 to the 40 bytes, which no parameter has, counts as out of
/// memory.
pub fn parameter_object(world: &World, param: &Parameter) -> Result<Object, NoMemory>
    ensures { IfOk result (λ object. object_tree object ≡ decls.parameter_object (world_of world.now) (parameter_tree param.now)) }
{
    let size = size_or_zero(world, &param.ty)?;
    Ok(Object {
        name: param.name.copy()?,
        pos: param.pos,
        ty: param.ty.copy()?,
        size,
        read_only: param.is_const,
        is_static: false,
    })
}

/// Objects for the parameters of a function without a body, which do not count among the sizes: their numbers. Once out of
/// memory the program is only dropped.
pub(crate) fn add_parameters(world: &mut World, params: &[Parameter]) -> Result<Numbers, NoMemory>
    ensures numbers { IfOk result (λ numbers. numbers ≡ decls.numbers_from (length (world_of world.old).objects) (length (map parameter_tree params.now))) }
    ensures objects { OnOk result (world_of world.new ≡ decls.with_parameters (world_of world.old) (map parameter_tree params.now)) }
{
    let mut numbers = Vec::new(world.alloc());
    'each: for param in params {
        let number = add_parameter(world, param)?;
        numbers.push(number)?;
    }
    Ok(Numbers::from_vec(numbers))
}

// An object for a parameter: its number.
fn add_parameter(world: &mut World, param: &Parameter) -> Result<u64, NoMemory>
    ensures number { IfOk result (λ n. n ≡ length (world_of world.old).objects) }
    ensures object { OnOk result (world_of world.new
        ≡ decls.with_object (world_of world.old) (decls.parameter_object (world_of world.old) (parameter_tree param.now))) }
{
    let number = world.objects.len() as u64;
    let object = parameter_object(world, param)?;
    add_object(world, object)?;
    Ok(number)
}

/// Parameters of these types without names, as a function has them whose type is a typedef name.
pub(crate) fn unnamed(alloc: Global, pos: Pos, types: &[CType]) -> Result<Vec<Parameter>, NoMemory>
    ensures { IfOk result (λ params. map parameter_tree params.items ≡ decls.parameters_of [] (map ctype_tree types.now) pos) }
{
    let mut params = Vec::new(alloc);
    for ty in types {
        let ty = ty.copy()?;
        let name = Name::new(alloc);
        params.push(Parameter {
            name,
            pos,
            ty,
            is_const: false,
        })?;
    }
    Ok(params)
}
