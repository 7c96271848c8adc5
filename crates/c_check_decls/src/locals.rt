// Objects of blocks.
#![tactic(auto)]

ghost use Rattle.std.specs.Prelude.{◌≡◌, Bool, false};
ghost use Rattle.c_syntax.specs.Types as types;
ghost use Rattle.c_syntax.specs.Types.{ctype_tree};
ghost use Rattle.c_typing.specs.Decls as decls;
ghost use Rattle.c_typing.specs.World as worlds;
ghost use Rattle.c_check_declarators.specs.Views.{name_tree};
ghost use Rattle.c_check_names.specs.Views.{Answers};
ghost use Rattle.c_check_names.specs.Trees.{form_tree};
ghost use Rattle.c_check_names.specs.Worlds.{world_of};
ghost use Rattle.c_check_decls.specs.DeclaredViews.{declares_tree};

use crate::declared_objects::{add_local, object_of};
use crate::declares::{Declares, ObjectNow};
use crate::limits::{check_limits, count};
use c_check_declarators::{DeclaredName, shown, size_or_refused};
use c_check_exprs::no_function;
use c_check_names::{Form, TypeError, World};
use c_syntax::{CType, Op};

/// An object of a block: automatic, or static without linkage (C11 6.2.2p6, 6.2.4p3 and p5). Once out of memory the
/// program is only dropped.
pub(crate) fn local_declared(
    world: &mut World,
    named: &DeclaredName,
    form: Form,
    is_static: bool,
    has_init: bool,
) -> Result<Declares, TypeError>
    ensures { Answers (λ out. out ≡ decls.local_declared (world_of world.old) (name_tree named.now) (form_tree form) is_static has_init)
        declares_tree (world_of world.new) result }
{
    match form {
        Form::Plain(ty, is_const) => local_sized(world, named, ty, is_const, is_static),
        Form::Unsized(of, is_const) => {
            let ty = shown(world, Form::Unsized(of, is_const))?;
            local_unsized(world, named, ty, is_static, has_init)
        }
        Form::Callable(_params, _target) => Err(no_function(world, named.pos, Op::Init)),
    }
}

// One whose type tells its size.
fn local_sized(
    world: &mut World,
    named: &DeclaredName,
    ty: CType,
    is_const: bool,
    is_static: bool,
) -> Result<Declares, TypeError>
    ensures { Answers (λ out. out ≡ decls.local_declared (world_of world.old) (name_tree named.now) (worlds.Plain (ctype_tree ty) is_const) is_static false)
        declares_tree (world_of world.new) result }
{
    let size = match size_or_refused(world, named.pos, &ty) {
        Err(error) => return Err(error),
        Ok(size) => size,
    };
    if let Some(first) = world.first_here(named.pos, named.name.as_slice()) {
        return Err(TypeError::Redeclared(named.pos, first));
    }
    match check_limits(world, named.pos, size) {
        Err(error) => Err(error),
        Ok(()) => {
            count(world, size);
            let object = object_of(named, ty.copy()?, is_const, size, is_static)?;
            let number = add_local(world, named, object)?;
            Ok(Declares::AnObject(ObjectNow {
                number,
                pos: named.pos,
                ty,
                is_static,
                in_block: true,
                measured: false,
            }))
        }
    }
}

// An array without size, which gets that of its initialiser.
fn local_unsized(
    world: &mut World,
    named: &DeclaredName,
    ty: CType,
    is_static: bool,
    has_init: bool,
) -> Result<Declares, TypeError>
    ensures { (of : types.CTypeTree) → (is_const : Bool) → ctype_tree ty ≡ types.Array of is_const 0
        → Answers (λ out. out ≡ decls.local_declared (world_of world.old) (name_tree named.now) (worlds.Unsized of is_const) is_static has_init)
        declares_tree (world_of world.new) result }
{
    if let Some(first) = world.first_here(named.pos, named.name.as_slice()) {
        return Err(TypeError::Redeclared(named.pos, first));
    }
    if !has_init {
        return Err(TypeError::NotConstant(named.pos));
    }
    let object = object_of(named, ty.copy()?, false, 0, is_static)?;
    let number = add_local(world, named, object)?;
    Ok(Declares::AnObject(ObjectNow {
        number,
        pos: named.pos,
        ty,
        is_static,
        in_block: true,
        measured: true,
    }))
}
