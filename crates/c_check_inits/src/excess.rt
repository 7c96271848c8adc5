// Items that are one too many.
#![tactic(auto)]

ghost use Rattle.std.specs.Prelude.{◌≡◌, IfSome};
ghost use Rattle.c_syntax_written.specs.Written.{ExprTree};
ghost use Rattle.c_syntax_written.specs.WrittenDecl.{inits_tree};
ghost use Rattle.c_syntax_written.specs.WrittenParts.{expr_pos};
ghost use Rattle.c_syntax.specs.Types.{ctype_tree};
ghost use Rattle.c_syntax.specs.TypedExpr.{texpr_tree};
ghost use Rattle.c_typing.specs.Inits as inits;
ghost use Rattle.c_typing.specs.Typing.{Types, Valued};
ghost use Rattle.c_typing.specs.World as worlds;
ghost use Rattle.c_check_names.specs.Views.{Answers, Tells, refusal_of};
ghost use Rattle.c_check_names.specs.Worlds.{world_of};
ghost use Rattle.c_check_inits.specs.Forms.{ListInBraces, OneTooMany};

use c_check_declarators::no_init;
use c_check_exprs::value;
use c_check_names::{TypeError, World};
use c_syntax::{CType, Init, Inits, Pos, TExpr};

/// That an object of this type has no part for what stands at this place.
pub(crate) fn excess(world: &World, whole: &CType, at: Pos) -> TypeError
    ensures { Tells result (inits.excess (world_of world.now) (ctype_tree whole.now) at) }
{
    match whole.copy() {
        Err(_) => TypeError::NoMemory,
        Ok(whole) => no_init(world, at, whole),
    }
}

/// The refusal of an expression that is one item too many: its own, if it is refused, since it is typed before.
pub(crate) fn too_many(
    world: &World,
    whole: &CType,
    at: Pos,
    typed: Result<TExpr, TypeError>,
) -> TypeError
    ensures { (w : worlds.World) (e : ExprTree) → at ≡ expr_pos e → Answers (Valued (Types w e)) texpr_tree (world_of world.now) typed
        → IfSome (refusal_of result) (λ r. OneTooMany w (ctype_tree whole.now) e (worlds.Refused r)) }
{
    match typed {
        Err(error) => error,
        Ok(value) => {
            drop(value);
            excess(world, whole, at)
        }
    }
}

/// The refusal of a list in the braces of a scalar, which has its own: the first expression in it is one item too many.
pub(crate) fn list_in_braces(world: &mut World, whole: &CType, at: Pos, list: &Inits) -> TypeError
    ensures { IfSome (refusal_of result) (λ r. ListInBraces (world_of world.old) (ctype_tree whole.now) at (inits_tree list.now) (worlds.Refused r)) }
{
    match list.as_slice().split_first() {
        None => TypeError::NotConstant(at),
        Some((first, _rest)) => match first {
            Init::Braces { pos, items } => list_in_braces(world, whole, *pos, items),
            Init::Value { value: e } => {
                let typed = value(world, e);
                too_many(world, whole, e.pos(), typed)
            }
        },
    }
}
