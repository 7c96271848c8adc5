// The type that a declarator makes.
#![tactic(auto)]

ghost use Rattle.std.specs.Prelude.{◌≡◌, map};
ghost use Rattle.c_typing.specs.Declarators as declarators;
ghost use Rattle.c_check_names.specs.Views.{Answers};
ghost use Rattle.c_check_names.specs.Trees.{form_tree};
ghost use Rattle.c_check_names.specs.Worlds.{world_of};
ghost use Rattle.c_check_declarators.specs.Views.{step_tree};

use crate::forms::{Laying, step_form};
use crate::shape::Step;
use c_check_names::{Form, TypeError, World};
use c_syntax::Pos;

/// The type that the steps of a declarator make of the type that its specs tell, from the outermost in. A pointer to and
/// an array of a function are Unsupported, an array of arrays without size is NotConstant, what has no complete element
/// and a result that is an array are NoRule, all at this place; an array of more than 2 to the 40 bytes is too large at
/// its size.
pub fn laid(world: &World, pos: Pos, steps: &[Step], base: Form) -> Result<Form, TypeError>
    ensures { Answers (λ out. out ≡ declarators.laid (world_of world.now) pos (map step_tree steps.now) (form_tree base))
        form_tree (world_of world.now) result }
{
    let mut left = steps;
    let mut laying = Laying {
        form: base,
        size: None,
    };
    'inward: while let Some((step, inner)) = left.split_last() {
        laying = match step_form(world, pos, step, laying) {
            Err(error) => return Err(error),
            Ok(laying) => laying,
        };
        left = inner;
    }
    Ok(laying.form)
}
