// Declarators and parameters.
#![tactic(auto)]

ghost use Rattle.std.specs.Prelude.{[], false, map};
ghost use Rattle.c_syntax_written.specs.Written as written;
ghost use Rattle.c_syntax_written.specs.Written.{declarator_tree, expr_tree, param_tree, params_tree, specs_tree};
ghost use Rattle.c_typing.specs.Specifiers.{no_specs_yet};
ghost use Rattle.c_typing.specs.Typing.{OfParameter, TypesDeclarator, TypesParams, TypesSpecs};
ghost use Rattle.c_typing.specs.Typing as typing;
ghost use Rattle.c_typing.specs.World as worlds;
ghost use Rattle.c_typing.specs.World.{Typed};
ghost use Rattle.c_check_declarators.specs.Views.{parameter_tree, shape_tree};
ghost use Rattle.c_check_names.specs.Views.{Answers};
ghost use Rattle.c_check_names.specs.Worlds.{world_of};
ghost use Rattle.c_check_exprs.specs.Views.{ArrayStep, FunctionStep, ParamForm, inside};

use crate::exprs::value;
use crate::leaves::first_of;
use crate::steps::{forms, longer, named, no_parameters, no_shape, with_function};
use crate::types::specs;
use c_check_declarators::{
    Parameter, Shape, SpecPlace, Step, array_sized, parameter_made, type_told,
};
use c_check_names::{TypeError, World};
use c_check_operators::constant_value;
use c_syntax::{Declarator, Expr, Param, Params, Pos, Specs};

/// The name and the steps of a declarator (C11 6.7.6), of any length. The sizes of its arrays and its parameters are
/// typed in the order of the text, and the first refusal is that of the whole.
#[cycle(walk)]
pub fn declarator(world: &mut World, whole: &Declarator) -> Result<Shape, TypeError>
    ensures { Answers (TypesDeclarator (world_of world.old) (declarator_tree whole.now)) shape_tree (world_of world.new) result }
{
    let mut left = forms(world.alloc(), whole)?;
    let mut shape = no_shape(world.alloc());
    'outward: while let Some(form) = left.pop() {
        shape = got!(stepped(world, shape, form));
    }
    Ok(shape)
}

/// One form more around what is typed of a declarator.
#[cycle(walk)]
fn stepped(world: &mut World, shape: Shape, form: &Declarator) -> Result<Shape, TypeError>
    ensures { (w : worlds.World) → TypesDeclarator w (inside (declarator_tree form.now)) (Typed (shape_tree shape) (world_of world.old))
        → Answers (TypesDeclarator w (declarator_tree form.now)) shape_tree (world_of world.new) result }
{
    match form {
        Declarator::Absent => Ok(shape),
        Declarator::Name { pos, name } => named(shape, *pos, name),
        Declarator::Grouped { .. } => Ok(shape),
        Declarator::Pointer { is_const, .. } => longer(shape, Step::PointerTo(*is_const)),
        Declarator::Array { size, .. } => array_step(world, shape, size),
        Declarator::OpenArray { .. } => longer(shape, Step::OpenArray),
        Declarator::Function { params, .. } => function_step(world, shape, params),
        Declarator::VoidFunction { .. } => longer(shape, no_parameters(world.alloc())),
    }
}

/// The brackets of an array with their size.
#[cycle(walk)]
fn array_step(world: &mut World, shape: Shape, size: &Expr) -> Result<Shape, TypeError>
    ensures { Answers (ArrayStep (world_of world.old) (shape_tree shape) (expr_tree size.now)) shape_tree (world_of world.new) result }
{
    let e = got!(value(world, size));
    let n = constant_value(&e)?;
    let step = got!(array_sized(size.pos(), n));
    longer(shape, step)
}

/// The parameters of a function, whose scope ends with them.
#[cycle(walk)]
fn function_step(world: &mut World, shape: Shape, list: &Params) -> Result<Shape, TypeError>
    ensures { Answers (FunctionStep (world_of world.old) (shape_tree shape) (params_tree list.now)) shape_tree (world_of world.new) result }
{
    let scope = world.open();
    let made = got!(params(world, list));
    with_function(world, scope, shape, made)
}

/// Parameters in their order.
#[cycle(walk)]
fn params(world: &mut World, list: &Params) -> Result<Vec<Parameter>, TypeError>
    ensures { Answers (TypesParams (world_of world.old) [] (params_tree list.now)) (λ made. map parameter_tree made.items) (world_of world.new) result }
{
    let mut done = Vec::new(world.alloc());
    let items = list.as_slice();
    'each: for item in items {
        let k = done.len() as u64;
        let made = got!(param(world, k, item));
        done.push(made)?;
    }
    Ok(done)
}

/// Parameter number `k`, with a name or without.
#[cycle(walk)]
fn param(world: &mut World, k: u64, item: &Param) -> Result<Parameter, TypeError>
    ensures { Answers (ParamForm (world_of world.old) k (param_tree item.now)) parameter_tree (world_of world.new) result }
{
    match item {
        Param::Named {
            pos,
            specs,
            declarator,
        } => param_made(world, k, *pos, specs, declarator),
        Param::Abstract {
            pos,
            specs,
            declarator,
        } => param_made(world, k, *pos, specs, declarator),
    }
}

/// Parameter number `k` of these specs and this declarator.
#[cycle(walk)]
fn param_made(
    world: &mut World,
    k: u64,
    pos: Pos,
    words: &Specs,
    shape: &Declarator,
) -> Result<Parameter, TypeError>
    ensures { Answers (OfParameter k (typing.first_of pos (specs_tree words.now)) (TypesSpecs (world_of world.old) false no_specs_yet (specs_tree words.now))
        (λ v. TypesDeclarator v (declarator_tree shape.now))) parameter_tree (world_of world.new) result }
{
    let first = first_of(pos, words);
    let made = got!(specs(world, false, words));
    let base = got!(type_told(world.alloc(), SpecPlace::Parameter, first, made));
    let shape = got!(declarator(world, shape));
    parameter_made(world, first, base, k, shape)
}
