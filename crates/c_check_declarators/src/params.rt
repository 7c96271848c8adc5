// Parameters.
#![tactic(auto)]

ghost use Rattle.std.specs.Prelude.{◌≡◌, [], IfOk, OnOk, option_map, unwrap_or};
ghost use Rattle.c_syntax.specs.Types.{ctype_tree};
ghost use Rattle.c_typing.specs.Typing as typing;
ghost use Rattle.c_typing.specs.World as worlds;
ghost use Rattle.c_check_declarators.specs.Views.{name_tree, parameter_tree, shape_tree};
ghost use Rattle.c_check_names.specs.Views.{Answers};
ghost use Rattle.c_check_names.specs.Trees.{form_tree, meaning_tree};
ghost use Rattle.c_check_names.specs.Worlds.{world_of};
ghost use Rattle.c_check_declarators.specs.PartViews.{IsNamedBefore};

use crate::{DeclaredName, Parameter, Shape, laid, parameter_type, size_or_refused};
use c_check_names::{Form, Meaning, TypeError, World};
use c_syntax::{CType, Construct, Name, Pos};
use std::alloc::AllocError as NoMemory;

/// Parameter number `k` of a list, by what its specs tell and its declarator, whose name is declared. It is a scalar:
/// void and other incomplete types are NoRule, a struct is Unsupported, and so is a function, each at the name or, where
/// there is none, at the first token of the specs; a name that the list has is Redeclared. Once out of memory the
/// program is only dropped.
pub fn parameter_made(
    world: &mut World,
    first: Pos,
    base: Form,
    k: u64,
    shape: Shape,
) -> Result<Parameter, TypeError>
    ensures { Answers (λ out. out ≡ typing.parameter_made (world_of world.old) first (form_tree base) k (shape_tree shape))
        parameter_tree (world_of world.new) result }
{
    let Shape { name, steps } = shape;
    let pos = match &name {
        None => first,
        Some(named) => named.pos,
    };
    match laid(world, pos, steps.as_slice(), base) {
        Err(error) => Err(error),
        Ok(form) => {
            let form = parameter_type(world.alloc(), form)?;
            parameter_of(world, pos, name, k, form)
        }
    }
}

// Parameter number `k` of this type.
fn parameter_of(
    world: &mut World,
    pos: Pos,
    name: Option<DeclaredName>,
    k: u64,
    form: Form,
) -> Result<Parameter, TypeError>
    ensures { Answers (λ out. out ≡ typing.parameter_of (world_of world.old) pos (option_map name_tree name) k (form_tree form))
        parameter_tree (world_of world.new) result }
{
    match form {
        Form::Plain(ty, is_const) => match size_or_refused(world, pos, &ty) {
            Err(error) => Err(error),
            Ok(_) => parameter_sized(world, pos, name, k, ty, is_const),
        },
        Form::Unsized(_of, _is_const) => no_parameter(world, pos, name, Construct::FunctionPointer),
        Form::Callable(_params, _ret) => no_parameter(world, pos, name, Construct::FunctionPointer),
    }
}

// Parameter number `k` of a complete type, which is no struct.
fn parameter_sized(
    world: &mut World,
    pos: Pos,
    name: Option<DeclaredName>,
    k: u64,
    ty: CType,
    is_const: bool,
) -> Result<Parameter, TypeError>
    ensures { Answers (λ out. out ≡ typing.parameter_sized (world_of world.old) pos (option_map name_tree name) k (ctype_tree ty) is_const)
        parameter_tree (world_of world.new) result }
{
    match &ty {
        CType::Struct(_) => no_parameter(world, pos, name, Construct::StructByValue),
        _ => scalar_parameter(world, pos, name, k, ty, is_const),
    }
}

// That what is no scalar is no parameter, unless its name was in the list before.
fn no_parameter(
    world: &World,
    pos: Pos,
    name: Option<DeclaredName>,
    construct: Construct,
) -> Result<Parameter, TypeError>
    ensures { Answers (λ out. out ≡ typing.unless_named_before (world_of world.now) (option_map name_tree name)
        (worlds.Refused (worlds.Unsupported pos construct))) parameter_tree (world_of world.now) result }
{
    match named_before(world, &name) {
        Some((again, first)) => Err(TypeError::Redeclared(again, first)),
        None => Err(TypeError::Unsupported(pos, construct)),
    }
}

// A parameter whose name, if it has one, is declared.
fn scalar_parameter(
    world: &mut World,
    pos: Pos,
    name: Option<DeclaredName>,
    k: u64,
    ty: CType,
    is_const: bool,
) -> Result<Parameter, TypeError>
    ensures { Answers (λ out. out ≡ typing.unless_named_before (world_of world.old) (option_map name_tree name)
        (worlds.Typed (typing.parameter_tree pos (option_map name_tree name) (ctype_tree ty) is_const)
        (typing.with_parameter (world_of world.old) (option_map name_tree name) (worlds.Parameter k (ctype_tree ty) is_const))))
        parameter_tree (world_of world.new) result }
{
    if let Some((again, first)) = named_before(world, &name) {
        return Err(TypeError::Redeclared(again, first));
    }
    let shared = ty.copy()?;
    let name = declared(world, name, Meaning::Parameter(k, shared, is_const))?;
    Ok(Parameter {
        name,
        pos,
        ty,
        is_const,
    })
}

// The place of a name and that of its first declaration in the list, if it has one.
fn named_before(world: &World, name: &Option<DeclaredName>) -> Option<(Pos, Pos)>
    ensures { IsNamedBefore (world_of world.now) (option_map name_tree name.now) result }
{
    match name {
        None => None,
        Some(named) => match world.first_here(named.pos, named.name.as_slice()) {
            None => None,
            Some(first) => Some((named.pos, first)),
        },
    }
}

// The name, which is empty where there is none, behind its declaration.
fn declared(
    world: &mut World,
    name: Option<DeclaredName>,
    meaning: Meaning,
) -> Result<Name, NoMemory>
    ensures name { IfOk result (λ told. told ≡ unwrap_or (option_map (λ n. n.name) (option_map name_tree name)) []) }
    ensures declared { OnOk result (world_of world.new ≡ typing.with_parameter (world_of world.old) (option_map name_tree name) (meaning_tree meaning)) }
{
    match name {
        None => Ok(Name::new(world.alloc())),
        Some(named) => {
            let DeclaredName { name, pos } = named;
            let told = name.copy()?;
            world.declare(pos, name, meaning)?;
            Ok(told)
        }
    }
}
