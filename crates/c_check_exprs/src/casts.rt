// Casts to named types, and their sizes.
#![tactic(auto)]

ghost use Rattle.std.specs.Prelude.{◌≡◌};
ghost use Rattle.c_syntax.specs.TypedExpr.{texpr_tree};
ghost use Rattle.c_typing.specs.Nodes as nodes;
ghost use Rattle.c_check_operators.specs.OperandViews.{operand_tree};
ghost use Rattle.c_check_names.specs.Views.{Answers};
ghost use Rattle.c_check_names.specs.Trees.{form_tree};
ghost use Rattle.c_check_names.specs.Worlds.{world_of};
ghost use Rattle.c_check_exprs.specs.NamedViews.{no_function_cast};

use crate::no_function;
use c_check_declarators::unknown_function;
use c_check_names::{Form, TypeError, World, no_rule};
use c_check_nodes::{cast, size_of};
use c_check_operators::Operand;
use c_syntax::{Op, Pos, TExpr};

/// `sizeof` a named type: its size in bytes, as an unsigned long. A type that is not complete, and that of a function,
/// are NoRule.
pub fn size_of_form(world: &World, pos: Pos, form: Form) -> Result<Operand, TypeError>
    ensures { Answers (λ out. out ≡ nodes.size_of_form (world_of world.now) pos (form_tree form)) operand_tree (world_of world.now) result }
{
    match form {
        Form::Plain(ty, _is_const) => size_of(world.alloc(), &world.structs.defs, pos, ty),
        Form::Unsized(_of, _is_const) => Err(no_function(world, pos, Op::Sizeof)),
        Form::Callable(_params, _ret) => Err(no_function(world, pos, Op::Sizeof)),
    }
}

/// A cast of a value to a named type. Between a pointer and an integer, where no row has it, it is Unsupported; any
/// other that no row has, and one to the type of a function, is NoRule, with the target's type left and the value's
/// right.
pub fn cast_to(world: &World, pos: Pos, form: Form, e: TExpr) -> Result<Operand, TypeError>
    ensures { Answers (λ out. out ≡ nodes.cast (world_of world.now) pos (form_tree form) (texpr_tree e)) operand_tree (world_of world.now) result }
{
    match form {
        Form::Plain(ty, _is_const) => cast(world.alloc(), &world.structs.defs, pos, ty, e),
        Form::Unsized(_of, _is_const) => no_cast(world, pos, e),
        Form::Callable(_params, _ret) => no_cast(world, pos, e),
    }
}

// That no row casts to the type of a function.
fn no_cast(world: &World, pos: Pos, e: TExpr) -> Result<Operand, TypeError>
    ensures { Answers (λ out. out ≡ no_function_cast (world_of world.now) pos (texpr_tree e)) operand_tree (world_of world.now) result }
{
    let ty = e.ty()?;
    let target = unknown_function(world);
    Err(no_rule(
        world.alloc(),
        &world.structs.defs,
        pos,
        Op::Cast,
        target,
        Some(ty),
    ))
}
