// Typedef names.
#![tactic(auto)]

ghost use Rattle.std.specs.Prelude.{◌≡◌};
ghost use Rattle.c_typing.specs.Decls as decls;
ghost use Rattle.c_check_declarators.specs.Views.{name_tree};
ghost use Rattle.c_check_names.specs.Views.{Answers};
ghost use Rattle.c_check_names.specs.Trees.{form_tree};
ghost use Rattle.c_check_names.specs.Worlds.{world_of};
ghost use Rattle.c_check_decls.specs.DeclaredViews.{declares_tree};

use crate::declares::Declares;
use c_check_declarators::DeclaredName;
use c_check_names::{Form, Meaning, TypeError, World};

/// A typedef name (C11 6.7.8). Once out of memory the program is only dropped.
pub(crate) fn typedef_declared(
    world: &mut World,
    named: &DeclaredName,
    form: Form,
) -> Result<Declares, TypeError>
    ensures { Answers (λ out. out ≡ decls.typedef_declared (world_of world.old) (name_tree named.now) (form_tree form))
        declares_tree (world_of world.new) result }
{
    if let Some(first) = world.first_here(named.pos, named.name.as_slice()) {
        return Err(TypeError::Redeclared(named.pos, first));
    }
    if let Form::Unsized(_, _) = &form {
        return Err(TypeError::NotConstant(named.pos));
    }
    let name = named.name.copy()?;
    world.declare(named.pos, name, Meaning::TypeName(form))?;
    Ok(Declares::NoObject)
}
