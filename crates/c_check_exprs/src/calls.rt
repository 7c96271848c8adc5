// Calls.
#![tactic(auto)]

ghost use Rattle.std.specs.Prelude.{◌≡◌, true, IfOk, map, option_map};
ghost use Rattle.c_typing.specs.Names as names;
ghost use Rattle.c_syntax.specs.Types.{ctype_tree};
ghost use Rattle.c_syntax.specs.Types as types;
ghost use Rattle.c_syntax.specs.TypedExpr.{texpr_tree, texprs_tree};
ghost use Rattle.c_syntax.specs.TypedExpr as trees;
ghost use Rattle.c_typing.specs.Nodes as nodes;
ghost use Rattle.c_check_operators.specs.OperandViews.{operand_tree};
ghost use Rattle.c_typing.specs.World as worlds;
ghost use Rattle.c_check_names.specs.Views.{Answers, Tells};
ghost use Rattle.c_check_names.specs.Trees.{meaning_tree};
ghost use Rattle.c_check_names.specs.Worlds.{world_of};

use crate::arguments::passed;
use crate::{input_read, told};
use c_check_names::{Meaning, TypeError, World, input_type, no_rule};
use c_check_nodes::object_place;
use c_check_operators::{Operand, value_type};
use c_syntax::{CType, IntType, Op, Pos, TExpr, TExprs};
use std::alloc::AllocError as NoMemory;

/// A call of a name with these arguments: of a function, of an input, of `__assume` or of `__assert`. What is no
/// function, another number of arguments than it takes, and an argument that its parameter does not take, are NoRule
/// at the name; a name that nothing declares, or that no value has, is Undeclared there.
pub fn called(world: &World, pos: Pos, name: &[u8], args: TExprs) -> Result<Operand, TypeError>
    ensures { Answers (λ out. out ≡ nodes.called (world_of world.now) pos name.now (texprs_tree args)) operand_tree (world_of world.now) result }
{
    if let Some(ty) = input_type(name) {
        input_read(world, pos, ty, &args)
    } else if is_assume(name) {
        told(world, pos, true, args)
    } else if is_assert(name) {
        told(world, pos, false, args)
    } else {
        call_named(world, pos, world.meaning_of(name), args)
    }
}

fn is_assume(name: &[u8]) -> bool
    ensures { result ≡ names.is_assume name.now }
{
    b"__assume".as_slice() == name
}

fn is_assert(name: &[u8]) -> bool
    ensures { result ≡ names.is_assert name.now }
{
    b"__assert".as_slice() == name
}

// A call of what a name stands for.
fn call_named(
    world: &World,
    pos: Pos,
    meaning: Option<&Meaning>,
    args: TExprs,
) -> Result<Operand, TypeError>
    ensures { Answers (λ out. out ≡ nodes.call_named (world_of world.now) pos (texprs_tree args) (option_map (λ m. meaning_tree m.now) meaning.entry))
        operand_tree (world_of world.now) result }
{
    match meaning {
        None => Err(TypeError::Undeclared(pos)),
        Some(meaning) => match meaning {
            Meaning::Function(n) => call_of(world, pos, *n, args),
            Meaning::Object(n) => {
                let ty = value_type_of(world, *n)?;
                Err(no_call(world, pos, ty))
            }
            Meaning::Parameter(_, ty, _) => {
                let ty = ty.copy()?;
                Err(no_call(world, pos, ty))
            }
            Meaning::Enumeration(_) => Err(no_call(world, pos, CType::Int(IntType::Int))),
            Meaning::Missing(_, _) => Err(TypeError::Undeclared(pos)),
            Meaning::TypeName(_) => Err(TypeError::Undeclared(pos)),
        },
    }
}

// That no row calls a value of this type.
fn no_call(world: &World, pos: Pos, ty: CType) -> TypeError
    ensures { Tells result (worlds.no_rule (world_of world.now) pos Op.Call (ctype_tree ty) None) }
{
    no_rule(world.alloc(), &world.structs.defs, pos, Op::Call, ty, None)
}

// A call of function number `n`.
fn call_of(world: &World, pos: Pos, n: u64, args: TExprs) -> Result<Operand, TypeError>
    ensures { Answers (λ out. out ≡ nodes.call_of (world_of world.now) pos n (nodes.result_of (world_of world.now) n)
        (nodes.params_of (world_of world.now) n) (texprs_tree args)) operand_tree (world_of world.now) result }
{
    let params = params_of(world, n);
    if params.len() != args.as_slice().len() {
        return Err(no_call(world, pos, CType::Function(n)));
    }
    let ty = result_of(world, n)?;
    match passed(world.alloc(), &world.structs.defs, pos, params, args) {
        Err(error) => Err(error),
        Ok(args) => Ok(Operand::Value(call_node(pos, n, ty, args))),
    }
}

#[tactic(auto, using(c_syntax::proofs::Trees::the_trees))]
fn call_node(pos: Pos, function: u64, ty: CType, args: TExprs) -> TExpr
    ensures { texpr_tree result ≡ trees.Call pos function (ctype_tree ty) true (texprs_tree args) }
{
    TExpr::Call {
        pos,
        function,
        ty,
        used: true,
        args,
    }
}

// The types of a function's parameters.
fn params_of(world: &World, n: u64) -> &[CType]
    ensures { map ctype_tree result.now ≡ nodes.params_of (world_of world.now) n }
{
    match world.signatures.get(n as usize) {
        None => &[],
        Some(params) => params.as_slice(),
    }
}

// The type of a function's result.
#[tactic(auto, using(c_syntax::proofs::Trees::the_trees))]
fn result_of(world: &World, n: u64) -> Result<CType, NoMemory>
    ensures { IfOk result (λ ty. ctype_tree ty ≡ nodes.result_of (world_of world.now) n) }
{
    match world.functions.get(n as usize) {
        None => Ok(CType::Void),
        Some(function) => {
            let ty = function.result.copy()?;
            Ok(ty)
        }
    }
}

// The type of an object's value.
#[tactic(auto, using(c_syntax::proofs::Trees::the_trees))]
fn value_type_of(world: &World, n: u64) -> Result<CType, NoMemory>
    ensures { IfOk result (λ ty. ctype_tree ty ≡ nodes.value_type_of (world_of world.now) n) }
{
    match world.objects.get(n as usize) {
        None => Ok(CType::Void),
        Some(object) => {
            let place = object_place(object, object.pos, n)?;
            let ty = value_type(world.alloc(), &Operand::Place(place))?;
            Ok(ty)
        }
    }
}
