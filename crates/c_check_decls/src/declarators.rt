// Whole declarators.
#![tactic(auto)]

ghost use Rattle.std.specs.Prelude.{◌≡◌, [], ◌∷◌, List, false, map, option_map, unwrap_or};
ghost use Rattle.c_syntax_written.specs.declared.place.Pos.{Pos};
ghost use Rattle.c_syntax.specs.Types as trees;
ghost use Rattle.c_syntax.specs.Types.{ctype_tree};
ghost use Rattle.c_typing.specs.Declarators as declarators;
ghost use Rattle.c_typing.specs.Decls as decls;
ghost use Rattle.c_typing.specs.World as worlds;
ghost use Rattle.c_check_jumps.specs.ContextViews.{context_tree};
ghost use Rattle.c_check_declarators.specs.Views.{name_tree, parameter_tree, shape_tree, step_tree};
ghost use Rattle.c_check_names.specs.Views.{Answers};
ghost use Rattle.c_check_names.specs.Trees.{form_tree};
ghost use Rattle.c_check_names.specs.Worlds.{world_of};
ghost use Rattle.c_check_decls.specs.DeclaredViews.{declares_tree, how_tree};

use crate::declares::{Declares, FileObject};
use crate::file_objects::file_form;
use crate::functions::function_declared;
use crate::locals::local_declared;
use crate::parameters::unnamed;
use crate::typedefs::typedef_declared;
use c_check_declarators::{DeclaredName, Parameter, Shape, Step, laid};
use c_check_exprs::no_function;
use c_check_jumps::{Context, is_word};
use c_check_names::{Form, TypeError, World};
use c_syntax::{CType, Op, Pos, StorageWord};

/// What a declarator declares, by what its specs tell: an object, whose initialiser may follow, or what takes none. Without a
/// name it is Undeclared at the first token of the specs. Once out of memory the program is only dropped.
pub fn declared(
    world: &mut World,
    around: Context,
    first: Pos,
    storage: &[StorageWord],
    base: Form,
    has_init: bool,
    shape: &Shape,
) -> Result<Declares, TypeError>
    ensures { Answers (λ out. out ≡ decls.declared (world_of world.old) (context_tree around.entry) first storage.now (form_tree base) has_init
        (shape_tree shape.now)) declares_tree (world_of world.new) result }
{
    match &shape.name {
        None => Err(TypeError::Undeclared(first)),
        Some(named) => match laid(world, named.pos, shape.steps.as_slice(), base) {
            Err(error) => Err(error),
            Ok(form) => {
                let steps = shape.steps.as_slice();
                name_declared(world, around, storage, steps, named, has_init, form)
            }
        },
    }
}

// What a name of this type declares.
fn name_declared(
    world: &mut World,
    around: Context,
    storage: &[StorageWord],
    steps: &[Step],
    named: &DeclaredName,
    has_init: bool,
    form: Form,
) -> Result<Declares, TypeError>
    ensures { Answers (λ out. out ≡ decls.name_declared (context_tree around.entry) storage.now (map step_tree steps.now) (name_tree named.now) has_init
        (worlds.Typed (form_tree form) (world_of world.old))) declares_tree (world_of world.new) result }
{
    if is_word(StorageWord::Typedef, storage) {
        return typedef_declared(world, named, form);
    }
    match form {
        Form::Callable(types, target) => {
            if has_init {
                return Err(no_function(world, named.pos, Op::Init));
            }
            prototype_declared(world, around, steps, named, types, target)
        }
        Form::Plain(ty, is_const) => {
            let form = Form::Plain(ty, is_const);
            object_declared(world, around, storage, named, form, has_init)
        }
        Form::Unsized(of, is_const) => {
            let form = Form::Unsized(of, is_const);
            object_declared(world, around, storage, named, form, has_init)
        }
    }
}

// An object of a block or of the file.
fn object_declared(
    world: &mut World,
    around: Context,
    storage: &[StorageWord],
    named: &DeclaredName,
    form: Form,
    has_init: bool,
) -> Result<Declares, TypeError>
    ensures { Answers (λ out. out ≡ decls.object_declared (world_of world.old) (context_tree around.entry) storage.now (name_tree named.now) (form_tree form)
        has_init) declares_tree (world_of world.new) result }
{
    let is_extern = is_word(StorageWord::Extern, storage);
    if around.in_block && !is_extern {
        let is_static = is_word(StorageWord::Static, storage);
        local_declared(world, named, form, is_static, has_init)
    } else {
        let how = FileObject {
            has_init,
            defines: !around.in_block && (!is_extern || has_init),
            is_there: around.file.objects.has(named.name.as_slice()),
            in_block: around.in_block,
        };
        file_form(world, named, form, how)
    }
}

// A function by its own list of parameters, or by those of a type that it takes from a typedef name.
fn prototype_declared(
    world: &mut World,
    around: Context,
    steps: &[Step],
    named: &DeclaredName,
    types: Vec<CType>,
    target: CType,
) -> Result<Declares, TypeError>
    ensures { Answers (λ out. out ≡ decls.prototype_declared (world_of world.old) (context_tree around.entry) (map step_tree steps.now) (name_tree named.now)
        (map ctype_tree types.items) (ctype_tree target) false) declares_tree (world_of world.new) result }
{
    match own_params(steps) {
        Some(params) => function_of(world, around, named, params, types, target),
        None => {
            let params = unnamed(world.alloc(), named.pos, types.as_slice())?;
            function_of(world, around, named, params.as_slice(), types, target)
        }
    }
}

// The parameters of the declarator's own list, if its first step has one.
fn own_params(steps: &[Step]) -> Option<&[Parameter]>
    ensures { (types : List trees.CTypeTree) (pos : Pos) → unwrap_or (option_map (λ params. map parameter_tree params.now) result)
        (decls.parameters_of [] types pos) ≡ decls.parameters_of (map step_tree steps.now) types pos }
{
    match steps.split_first() {
        None => None,
        Some((step, _rest)) => params_in(step),
    }
}

fn params_in(step: &Step) -> Option<&[Parameter]>
    ensures { (rest : List declarators.Step) (types : List trees.CTypeTree) (pos : Pos)
        → unwrap_or (option_map (λ params. map parameter_tree params.now) result) (decls.parameters_of [] types pos)
        ≡ decls.parameters_of (step_tree step.now ∷ rest) types pos }
{
    match step {
        Step::FunctionOf(params, _, _) => Some(params.as_slice()),
        Step::PointerTo(_) => None,
        Step::ArrayOf(_, _) => None,
        Step::OpenArray => None,
    }
}

// A function without a body is no object.
fn function_of(
    world: &mut World,
    around: Context,
    named: &DeclaredName,
    params: &[Parameter],
    types: Vec<CType>,
    target: CType,
) -> Result<Declares, TypeError>
    ensures { Answers (λ out. out ≡ decls.no_object (decls.function_declared (world_of world.old) (context_tree around.entry) (name_tree named.now)
        (map parameter_tree params.now) (map ctype_tree types.items) (ctype_tree target) false)) declares_tree (world_of world.new) result }
{
    match function_declared(world, around, named, params, types, target, false) {
        Err(error) => Err(error),
        Ok(_) => Ok(Declares::NoObject),
    }
}
