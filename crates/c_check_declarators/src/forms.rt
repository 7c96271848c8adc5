// One step of a declarator, round what the steps further out make.
#![tactic(auto)]

ghost use Rattle.std.specs.Prelude.{◌≡◌, ◌==◌, if◌then◌else◌, IfOk, IfSome, None, Some, map};
ghost use Rattle.c_syntax.specs.declared.op.Op.TheVariants as ops;
ghost use Rattle.c_syntax.specs.Types.{ctype_tree};
ghost use Rattle.c_typing.specs.Declarators as declarators;
ghost use Rattle.c_typing.specs.World as worlds;
ghost use Rattle.c_check_names.specs.Views.{Answers};
ghost use Rattle.c_check_names.specs.Trees.{form_tree};
ghost use Rattle.c_check_names.specs.Worlds.{world_of};
ghost use Rattle.c_check_declarators.specs.Views.{IsComplete, IsSizeTold, parameter_tree, step_tree};
ghost use Rattle.c_typing.specs.Operands as operands;

use crate::refusals::{array_of, no_init, shown};
use crate::shape::{Parameter, Step};
use c_check_names::{Form, TypeError, World};
use c_check_operators::{complete_size, pointer_to};
use c_syntax::{CType, Construct, Pos};
use std::alloc::{AllocError as NoMemory, Global};

/// The most bytes that a type may take.
const TYPE_LIMIT: u64 = 1 << 40;

/// What steps make, and its size in bytes where that is told with it.
#[derive(Drop)]
pub(crate) struct Laying {
    pub(crate) form: Form,
    pub(crate) size: Option<u64>,
}

/// One step round what the steps further out make. An array is told with its size, so that an array of it need not go down
/// its type for that.
pub(crate) fn step_form(
    world: &World,
    pos: Pos,
    step: &Step,
    laying: Laying,
) -> Result<Laying, TypeError>
    requires { IsSizeTold (world_of world.now).structs (form_tree laying.form) laying.size }
    ensures made { Answers (λ out. out ≡ declarators.step_form (world_of world.now) pos (step_tree step.now) (form_tree laying.form))
        (λ made. form_tree made.form) (world_of world.now) result }
    ensures told { IfOk result (λ made. IsSizeTold (world_of world.now).structs (form_tree made.form) made.size) }
{
    let Laying { form, size } = laying;
    match step {
        Step::PointerTo(is_const) => untold(pointer_form(world, pos, *is_const, form)),
        Step::ArrayOf(size_pos, n) => array_form(world, pos, *size_pos, *n, form, size),
        Step::OpenArray => untold(open_form(world, pos, form)),
        Step::FunctionOf(params, _, _) => {
            untold(function_form(world, pos, params.as_slice(), form))
        }
    }
}

// The same without a size.
fn untold(made: Result<Form, TypeError>) -> Result<Laying, TypeError>
    ensures made { (outcome : worlds.Outcome worlds.Form) (w : worlds.World) → Answers (λ out. out ≡ outcome) form_tree w made
        → Answers (λ out. out ≡ outcome) (λ made. form_tree made.form) w result }
    ensures told { IfOk result (λ made. made.size ≡ None) }
{
    match made {
        Ok(form) => Ok(Laying { form, size: None }),
        Err(error) => Err(error),
    }
}

// A pointer to what the rest of the declarator says.
fn pointer_form(world: &World, pos: Pos, is_const: bool, form: Form) -> Result<Form, TypeError>
    ensures { Answers (λ out. out ≡ declarators.pointer_form (world_of world.now) pos is_const (form_tree form)) form_tree (world_of world.now) result }
{
    match form {
        Form::Plain(ty, target_const) => {
            let pointer = pointer_to(world.alloc(), ty, target_const)?;
            Ok(Form::Plain(pointer, is_const))
        }
        Form::Unsized(_of, _is_const) => Err(TypeError::NotConstant(pos)),
        Form::Callable(_params, _ret) => {
            Err(TypeError::Unsupported(pos, Construct::FunctionPointer))
        }
    }
}

// An array of what the rest says, whose size may be told.
fn array_form(
    world: &World,
    pos: Pos,
    size_pos: Pos,
    n: u64,
    form: Form,
    told: Option<u64>,
) -> Result<Laying, TypeError>
    requires { IsSizeTold (world_of world.now).structs (form_tree form) told }
    ensures made { Answers (λ out. out ≡ declarators.array_form (world_of world.now) pos size_pos n (form_tree form))
        (λ made. form_tree made.form) (world_of world.now) result }
    ensures told { IfOk result (λ made. IsSizeTold (world_of world.now).structs (form_tree made.form) made.size) }
{
    match form {
        Form::Plain(ty, is_const) => match size_told(world, pos, &ty, told) {
            Err(error) => Err(error),
            Ok(size) => sized_array(world, size_pos, n, ty, is_const, size),
        },
        Form::Unsized(_of, _is_const) => Err(TypeError::NotConstant(pos)),
        Form::Callable(_params, _ret) => {
            Err(TypeError::Unsupported(pos, Construct::FunctionPointer))
        }
    }
}

// The size of a type, which may be told.
fn size_told(world: &World, pos: Pos, ty: &CType, told: Option<u64>) -> Result<u64, TypeError>
    requires { IfSome told (λ size. operands.complete_size (world_of world.now).structs (ctype_tree ty.now) ≡ Some size) }
    ensures { IsComplete (operands.complete_size (world_of world.now).structs (ctype_tree ty.now))
        (worlds.no_rule (world_of world.now) pos ops.Init (ctype_tree ty.now) None) result }
{
    match told {
        Some(size) => Ok(size),
        None => size_or_refused(world, pos, ty),
    }
}

// An array whose size is told takes at most 2 to the 40 bytes.
fn sized_array(
    world: &World,
    size_pos: Pos,
    n: u64,
    ty: CType,
    is_const: bool,
    size: u64,
) -> Result<Laying, TypeError>
    requires { operands.complete_size (world_of world.now).structs (ctype_tree ty) ≡ Some size }
    ensures made { Answers (λ out. out ≡ declarators.sized_array (world_of world.now) size_pos n (ctype_tree ty) is_const size)
        (λ made. form_tree made.form) (world_of world.now) result }
    ensures told { IfOk result (λ made. IsSizeTold (world_of world.now).structs (form_tree made.form) made.size) }
{
    match n.checked_mul(size) {
        Some(bytes) if bytes <= TYPE_LIMIT => {
            let array = array_of(world.alloc(), ty, is_const, n)?;
            Ok(Laying {
                form: Form::Plain(array, false),
                size: array_size(n, bytes),
            })
        }
        _ => Err(TypeError::ObjectTooLarge(size_pos, TYPE_LIMIT)),
    }
}

// The size of an array of so many elements, which take so many bytes. One of none has no size yet.
fn array_size(n: u64, bytes: u64) -> Option<u64>
    ensures { result ≡ (if n == 0 then None else Some bytes) }
{
    if n == 0 { None } else { Some(bytes) }
}

// An array without size.
fn open_form(world: &World, pos: Pos, form: Form) -> Result<Form, TypeError>
    ensures { Answers (λ out. out ≡ declarators.open_form (world_of world.now) pos (form_tree form)) form_tree (world_of world.now) result }
{
    match form {
        Form::Plain(ty, is_const) => match size_or_refused(world, pos, &ty) {
            Err(error) => Err(error),
            Ok(_) => Ok(Form::Unsized(ty, is_const)),
        },
        Form::Unsized(_of, _is_const) => Err(TypeError::NotConstant(pos)),
        Form::Callable(_params, _ret) => {
            Err(TypeError::Unsupported(pos, Construct::FunctionPointer))
        }
    }
}

// A function of these parameters with the rest as its result.
fn function_form(
    world: &World,
    pos: Pos,
    params: &[Parameter],
    form: Form,
) -> Result<Form, TypeError>
    ensures { Answers (λ out. out ≡ declarators.function_form (world_of world.now) pos (declarators.types_of_params (map parameter_tree params.now))
        (form_tree form)) form_tree (world_of world.now) result }
{
    match form {
        Form::Plain(ty, _is_const) => result_form(world, pos, params, ty),
        Form::Unsized(of, is_const) => {
            let ty = shown(world, Form::Unsized(of, is_const))?;
            Err(no_init(world, pos, ty))
        }
        Form::Callable(params, ret) => {
            let ty = shown(world, Form::Callable(params, ret))?;
            Err(no_init(world, pos, ty))
        }
    }
}

// A result is a scalar or void.
fn result_form(world: &World, pos: Pos, params: &[Parameter], ty: CType) -> Result<Form, TypeError>
    ensures { Answers (λ out. out ≡ declarators.result_form (world_of world.now) pos (declarators.types_of_params (map parameter_tree params.now))
        (ctype_tree ty)) form_tree (world_of world.now) result }
{
    match &ty {
        CType::Array(_, _) => Err(no_init(world, pos, ty)),
        CType::Struct(_) => Err(TypeError::Unsupported(pos, Construct::StructByValue)),
        _ => {
            let params = types_of_params(world.alloc(), params)?;
            Ok(Form::Callable(params, ty))
        }
    }
}

// The types of parameters.
fn types_of_params(alloc: Global, params: &[Parameter]) -> Result<Vec<CType>, NoMemory>
    ensures { IfOk result (λ tys. map ctype_tree tys.items ≡ declarators.types_of_params (map parameter_tree params.now)) }
{
    let mut tys = Vec::new(alloc);
    for param in params {
        let ty = param.ty.copy()?;
        tys.push(ty)?;
    }
    Ok(tys)
}

/// The size of a complete type in bytes. Any other is NoRule with Op `init`, with the type left.
pub fn size_or_refused(world: &World, pos: Pos, ty: &CType) -> Result<u64, TypeError>
    ensures { IsComplete (operands.complete_size (world_of world.now).structs (ctype_tree ty.now))
        (worlds.no_rule (world_of world.now) pos ops.Init (ctype_tree ty.now) None) result }
{
    match complete_size(&world.structs.defs, ty) {
        Some(size) => Ok(size),
        None => {
            let ty = ty.copy()?;
            Err(no_init(world, pos, ty))
        }
    }
}

/// The type of a parameter as an object: an array is a pointer to its element (C11 6.7.6.3p7).
#[tactic(auto, using(c_syntax::proofs::Trees::the_trees))]
pub fn parameter_type(alloc: Global, form: Form) -> Result<Form, NoMemory>
    ensures { IfOk result (λ told. form_tree told ≡ declarators.parameter_type (form_tree form)) }
{
    match form {
        Form::Plain(ty, is_const) => match &ty {
            CType::Array(of, _) => {
                let pointer = CType::Pointer(of.clone()?);
                Ok(Form::Plain(pointer, false))
            }
            CType::Void
            | CType::Int(_)
            | CType::Pointer(_)
            | CType::Struct(_)
            | CType::Function(_) => Ok(Form::Plain(ty, is_const)),
        },
        Form::Unsized(of, is_const) => {
            let pointer = pointer_to(alloc, of, is_const)?;
            Ok(Form::Plain(pointer, false))
        }
        Form::Callable(params, ret) => Ok(Form::Callable(params, ret)),
    }
}
