// Types by their names, and types that casts and sizes name.
#![tactic(auto)]

ghost use Rattle.std.specs.Prelude.{◌≡◌};
ghost use Rattle.c_typing.specs.Names as names;
ghost use Rattle.c_typing.specs.Typing as typing;
ghost use Rattle.c_check_declarators.specs.Views.{shape_tree};
ghost use Rattle.c_check_names.specs.Views.{Answers};
ghost use Rattle.c_check_declarators.specs.FormViews.{part_tree};
ghost use Rattle.c_check_names.specs.Trees.{form_tree};
ghost use Rattle.c_check_names.specs.Worlds.{world_of};

use crate::{Shape, SpecPart, copy_form, laid};
use c_check_names::{Form, Meaning, TypeError, World};
use c_syntax::Pos;

/// A typedef name among specs: the type that it stands for. Any other name is Undeclared.
pub fn typedef_named(world: &World, pos: Pos, name: &[u8]) -> Result<SpecPart, TypeError>
    ensures { Answers (λ out. out ≡ typing.typedef_named (world_of world.now) pos (names.meaning_of (world_of world.now) name.now))
        part_tree (world_of world.now) result }
{
    match world.meaning_of(name) {
        None => Err(TypeError::Undeclared(pos)),
        Some(meaning) => match meaning {
            Meaning::TypeName(form) => {
                let form = copy_form(world.alloc(), form)?;
                Ok(SpecPart::Type(form))
            }
            Meaning::Object(_)
            | Meaning::Missing(_, _)
            | Meaning::Parameter(_, _, _)
            | Meaning::Function(_)
            | Meaning::Enumeration(_) => Err(TypeError::Undeclared(pos)),
        },
    }
}

/// The type that a cast or a `sizeof` names, by what its specs tell and its declarator. An array without size is
/// NotConstant at the first token of the specs, and a name is Undeclared at its place.
pub fn type_name(world: &World, first: Pos, base: Form, shape: &Shape) -> Result<Form, TypeError>
    ensures { Answers (λ out. out ≡ typing.type_name (world_of world.now) first (form_tree base) (shape_tree shape.now))
        form_tree (world_of world.now) result }
{
    if let Some(named) = &shape.name {
        return Err(TypeError::Undeclared(named.pos));
    }
    match laid(world, first, shape.steps.as_slice(), base) {
        Err(error) => Err(error),
        Ok(form) => match form {
            Form::Unsized(_of, _is_const) => Err(TypeError::NotConstant(first)),
            Form::Plain(ty, is_const) => Ok(Form::Plain(ty, is_const)),
            Form::Callable(params, ret) => Ok(Form::Callable(params, ret)),
        },
    }
}
