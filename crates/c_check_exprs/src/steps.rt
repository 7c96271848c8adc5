// Declarators as lists of their forms, and the steps that they make.
#![tactic(auto)]

ghost use Rattle.std.specs.Prelude.{◌≡◌, [], IfNone, IfOk, IfSome, None, Some, false, map, true};
ghost use Rattle.c_syntax_written.specs.Written.{declarator_tree};
ghost use Rattle.c_typing.specs.Declarators as declarators;
ghost use Rattle.c_typing.specs.Typing as typing;
ghost use Rattle.c_typing.specs.World as worlds;
ghost use Rattle.c_check_declarators.specs.Views.{parameter_tree, shape_tree, step_tree};
ghost use Rattle.c_check_names.specs.Views.{Answers};
ghost use Rattle.c_check_names.specs.Worlds.{Encloses, world_of};
ghost use Rattle.c_check_exprs.specs.Views.{forms_of, inside, stands_around_one};

use c_check_declarators::{DeclaredName, Parameter, Shape, Step};
use c_check_names::{Scope, TypeError, World};
use c_syntax::{Declarator, Name, Pos};
use std::alloc::{AllocError as NoMemory, Global};

/// The forms of a declarator, from the outermost in.
pub(crate) fn forms(alloc: Global, whole: &Declarator) -> Result<Vec<&Declarator>, NoMemory>
    ensures { IfOk result (λ list. map (λ form. declarator_tree form.now) list.items ≡ forms_of (declarator_tree whole.now)) }
{
    let mut list = Vec::new(alloc);
    let mut next = Some(whole);
    'inward: while let Some(form) = next {
        list.push(form)?;
        next = inner(form);
    }
    Ok(list)
}

/// What a form stands around, if it is no name and not absent.
#[tactic(auto, using(c_syntax_written::proofs::Trees::the_written_trees))]
fn inner(form: &Declarator) -> Option<&Declarator>
    ensures none { IfNone result (stands_around_one (declarator_tree form.now) ≡ false) }
    ensures one { IfSome result (λ inner. (stands_around_one (declarator_tree form.now) ≡ true)
        × (inside (declarator_tree form.now) ≡ declarator_tree inner.now)) }
{
    match form {
        Declarator::Absent => None,
        Declarator::Name { .. } => None,
        Declarator::Grouped { inner, .. } => Some(inner),
        Declarator::Pointer { inner, .. } => Some(inner),
        Declarator::Array { inner, .. } => Some(inner),
        Declarator::OpenArray { inner, .. } => Some(inner),
        Declarator::Function { inner, .. } => Some(inner),
        Declarator::VoidFunction { inner, .. } => Some(inner),
    }
}

/// A declarator of no forms.
pub(crate) fn no_shape(alloc: Global) -> Shape
    ensures { shape_tree result ≡ record { name = None; steps = [] } }
{
    Shape {
        name: None,
        steps: Vec::new(alloc),
    }
}

/// The shape with a step more, from its name outward.
pub(crate) fn longer(shape: Shape, step: Step) -> Result<Shape, TypeError>
    ensures { (w : worlds.World) → Answers (λ out. out ≡ worlds.Typed (typing.with_step (shape_tree shape) (step_tree step)) w) shape_tree w result }
{
    let Shape { name, mut steps } = shape;
    steps.push(step)?;
    Ok(Shape { name, steps })
}

/// The shape with this name.
pub(crate) fn named(shape: Shape, pos: Pos, name: &Name) -> Result<Shape, TypeError>
    ensures { (w : worlds.World) → Answers (λ out. out ≡ worlds.Typed (record (shape_tree shape) { name = Some (record { name = name.now; pos = pos }) }) w)
        shape_tree w result }
{
    let Shape { name: _, steps } = shape;
    let name = name.copy()?;
    Ok(Shape {
        name: Some(DeclaredName { name, pos }),
        steps,
    })
}

/// The step of `(void)`.
pub(crate) fn no_parameters(alloc: Global) -> Step
    ensures { step_tree result ≡ declarators.FunctionOf [] [] [] }
{
    Step::FunctionOf(Vec::new(alloc), Vec::new(alloc), Vec::new(alloc))
}

/// The shape with the step of a function of these parameters, whose scope ends. Once out of memory the program is only
/// dropped.
pub(crate) fn with_function(
    world: &mut World,
    scope: Scope,
    shape: Shape,
    params: Vec<Parameter>,
) -> Result<Shape, TypeError>
    ensures { (outer : worlds.World) → Encloses outer scope
        → Answers (λ out. out ≡ typing.with_function outer (world_of world.old) (shape_tree shape) (map parameter_tree params.items))
        shape_tree (world_of world.new) result }
{
    let (names, tags) = world.close_apart(scope)?;
    longer(shape, Step::FunctionOf(params, names, tags))
}
