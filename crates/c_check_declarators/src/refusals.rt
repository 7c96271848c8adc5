// Refusals of types, and how types are printed there.
#![tactic(auto)]

ghost use Rattle.std.specs.Prelude.{◌≡◌, IfOk};
ghost use Rattle.c_syntax.specs.Types as types;
ghost use Rattle.c_syntax.specs.Types.{ctype_tree};
ghost use Rattle.c_typing.specs.Declarators as declarators;
ghost use Rattle.c_typing.specs.World as worlds;
ghost use Rattle.c_check_names.specs.Views.{Tells};
ghost use Rattle.c_check_names.specs.Trees.{form_tree};
ghost use Rattle.c_check_names.specs.Worlds.{world_of};

use c_check_names::{Form, TypeError, World, no_rule};
use c_syntax::{CType, Op, Pos, Target};
use std::alloc::{AllocError as NoMemory, Global};
use std::rc::Rc;

/// That no row declares something of this type.
pub fn no_init(world: &World, pos: Pos, ty: CType) -> TypeError
    ensures { Tells result (worlds.no_rule (world_of world.now) pos Op.Init (ctype_tree ty) None) }
{
    no_rule(world.alloc(), &world.structs.defs, pos, Op::Init, ty, None)
}

/// The type of a function that the program does not have.
#[tactic(auto, using(c_syntax::proofs::Trees::the_trees))]
pub fn unknown_function(world: &World) -> CType
    ensures { ctype_tree result ≡ declarators.unknown_function (world_of world.now) }
{
    CType::Function(world.functions.as_slice().len() as u64)
}

/// A type as a declaration gives it, as refusals print it.
pub fn shown(world: &World, form: Form) -> Result<CType, NoMemory>
    ensures { IfOk result (λ ty. ctype_tree ty ≡ declarators.shown (world_of world.now) (form_tree form)) }
{
    match form {
        Form::Plain(ty, _is_const) => Ok(ty),
        Form::Unsized(of, is_const) => {
            let ty = array_of(world.alloc(), of, is_const, 0)?;
            Ok(ty)
        }
        Form::Callable(_params, _ret) => Ok(unknown_function(world)),
    }
}

/// An array of so many elements.
#[tactic(auto, using(c_syntax::proofs::Trees::the_trees))]
pub(crate) fn array_of(alloc: Global, ty: CType, is_const: bool, n: u64) -> Result<CType, NoMemory>
    ensures { IfOk result (λ array. ctype_tree array ≡ types.Array (ctype_tree ty) is_const n) }
{
    Ok(CType::Array(Rc::new(alloc, Target { ty, is_const })?, n))
}
