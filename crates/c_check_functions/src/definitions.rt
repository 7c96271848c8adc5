// The heads of definitions.
#![tactic(auto)]

ghost use Rattle.std.specs.Prelude.{◌≡◌, Some, length, map, true};
ghost use Rattle.std.specs.Option.{option_map};
ghost use Rattle.c_syntax.specs.declared.op.Op.TheVariants as ops;
ghost use Rattle.c_syntax.specs.Types.{ctype_tree};
ghost use Rattle.c_typing.specs.Declarators as declarators;
ghost use Rattle.c_typing.specs.Decls as decls;
ghost use Rattle.c_typing.specs.File as files;
ghost use Rattle.c_typing.specs.World as worlds;
ghost use Rattle.c_check_jumps.specs.ContextViews.{context_tree};
ghost use Rattle.c_check_declarators.specs.Views.{name_tree, shape_tree, step_tree};
ghost use Rattle.c_check_names.specs.Views.{Tells};
ghost use Rattle.c_check_names.specs.Trees.{form_tree};
ghost use Rattle.c_check_names.specs.Worlds.{world_of};
ghost use Rattle.c_check_functions.specs.Views.{ComesToBody, by_list, list_tree};

use crate::begun::Begun;
use crate::entries::define;
use crate::lists::{ParameterList, own_list};
use crate::parameters::count_parameters;
use crate::scopes::in_body;
use c_check_declarators::{DeclaredName, Shape, Step, laid, no_init, shown, unknown_function};
use c_check_decls::function_declared;
use c_check_jumps::{Context, is_word};
use c_check_names::{Form, TypeError, World};
use c_syntax::{CType, Pos, StorageWord};

/// The head of a function's definition (C11 6.9.1), by the storage words and the type of its specs and by its declarator: the
/// scope of the body begins. Without a name it is Undeclared at the first token of the specs; a typedef, and what is no
/// function by its own list of parameters, is NoRule with Op `init`. It is Redeclared where the name stands for another
/// entity, for a reserved one, or for a function that has a body. A parameter that goes past a limit is too large. Once out
/// of memory the program is only dropped.
pub fn definition(
    world: &mut World,
    around: Context,
    first: Pos,
    storage: &[StorageWord],
    base: Form,
    shape: Shape,
) -> Result<Begun, TypeError>
    ensures { ComesToBody (files.definition (world_of world.old) (context_tree around.entry) first storage.now (form_tree base) (shape_tree shape))
        (world_of world.new) result }
{
    let Shape { name, steps } = shape;
    match name {
        None => Err(TypeError::Undeclared(first)),
        Some(named) => definition_named(world, around, storage, &named, steps, base),
    }
}

// A definition of this name.
fn definition_named(
    world: &mut World,
    around: Context,
    storage: &[StorageWord],
    named: &DeclaredName,
    steps: Vec<Step>,
    base: Form,
) -> Result<Begun, TypeError>
    ensures { ComesToBody (files.definition_laid (context_tree around.entry) (name_tree named.now) storage.now (map step_tree steps.items)
        (declarators.laid (world_of world.old) named.now.pos (map step_tree steps.items) (form_tree base))) (world_of world.new) result }
{
    match laid(world, named.pos, steps.as_slice(), base) {
        Err(error) => Err(error),
        Ok(form) => {
            if is_word(StorageWord::Typedef, storage) {
                return Err(no_body(world, named.pos, form));
            }
            definition_of(world, around, named, steps, form)
        }
    }
}

// That a name of this type has no body.
fn no_body(world: &World, pos: Pos, form: Form) -> TypeError
    ensures { Tells result (worlds.no_rule (world_of world.now) pos ops.Init (declarators.shown (world_of world.now) (form_tree form)) None) }
{
    match shown(world, form) {
        Err(_) => TypeError::NoMemory,
        Ok(ty) => no_init(world, pos, ty),
    }
}

// A definition of a name of this type.
fn definition_of(
    world: &mut World,
    around: Context,
    named: &DeclaredName,
    steps: Vec<Step>,
    form: Form,
) -> Result<Begun, TypeError>
    ensures { ComesToBody (files.definition_of (world_of world.old) (context_tree around.entry) (name_tree named.now) (map step_tree steps.items)
        (form_tree form)) (world_of world.new) result }
{
    match form {
        Form::Callable(types, target) => {
            let list = own_list(steps);
            function_by(world, around, named, types, target, list)
        }
        Form::Plain(ty, is_const) => { Err(no_body(world, named.pos, Form::Plain(ty, is_const))) }
        Form::Unsized(of, is_const) => {
            Err(no_body(world, named.pos, Form::Unsized(of, is_const)))
        }
    }
}

// A definition of a function, which has its own list of parameters.
fn function_by(
    world: &mut World,
    around: Context,
    named: &DeclaredName,
    types: Vec<CType>,
    target: CType,
    list: Option<ParameterList>,
) -> Result<Begun, TypeError>
    ensures { ComesToBody (by_list (world_of world.old) (context_tree around.entry) (name_tree named.now) (map ctype_tree types.items) (ctype_tree target)
        (option_map list_tree list)) (world_of world.new) result }
{
    match list {
        None => Err(no_init(world, named.pos, unknown_function(world))),
        Some(list) => definition_begins(world, around, named, types, target, list),
    }
}

// A definition of a function of these parameters.
fn definition_begins(
    world: &mut World,
    around: Context,
    named: &DeclaredName,
    types: Vec<CType>,
    target: CType,
    list: ParameterList,
) -> Result<Begun, TypeError>
    ensures { ComesToBody (by_list (world_of world.old) (context_tree around.entry) (name_tree named.now) (map ctype_tree types.items) (ctype_tree target)
        (Some (list_tree list))) (world_of world.new) result }
{
    let kept = target.copy()?;
    let params = list.params.as_slice();
    let number = match function_declared(world, around, named, params, types, target, true) {
        Err(error) => return Err(error),
        Ok(number) => number,
    };
    match number {
        None => Err(TypeError::Redeclared(named.pos, named.pos)),
        Some(number) => body_begins(world, number, named, kept, list),
    }
}

// The body of the function of this number, behind objects for its parameters.
fn body_begins(
    world: &mut World,
    number: u64,
    named: &DeclaredName,
    target: CType,
    list: ParameterList,
) -> Result<Begun, TypeError>
    ensures { ComesToBody (files.body_begins number (length (world_of world.old).objects) (name_tree named.now) (ctype_tree target) (list_tree list).params
        (list_tree list).names (list_tree list).tags (files.with_counted (world_of world.old) (list_tree list).params)) (world_of world.new) result }
{
    let first = world.objects.len() as u64;
    let ParameterList {
        params,
        names,
        tags,
    } = list;
    match count_parameters(world, params.as_slice()) {
        Err(error) => Err(error),
        Ok(numbers) => {
            define(world, number, named, numbers);
            let outside = in_body(world, first, names, tags)?;
            Ok(Begun {
                number,
                result: target,
                outside,
            })
        }
    }
}
