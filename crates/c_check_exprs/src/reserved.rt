// Inputs, `__assume` and `__assert`.
#![tactic(auto)]

ghost use Rattle.std.specs.Prelude.{◌≡◌, IfOk, if◌then◌else◌};
ghost use Rattle.c_syntax.specs.TypedExpr.{texpr_tree, texprs_tree};
ghost use Rattle.c_syntax.specs.TypedExpr as trees;
ghost use Rattle.c_typing.specs.Declarators as declarators;
ghost use Rattle.c_typing.specs.Nodes as nodes;
ghost use Rattle.c_typing.specs.World as worlds;
ghost use Rattle.c_check_operators.specs.OperandViews.{operand_tree};
ghost use Rattle.c_check_names.specs.Views.{Answers, Tells};
ghost use Rattle.c_check_names.specs.Worlds.{world_of};

use c_check_declarators::unknown_function;
use c_check_names::{TypeError, World, no_rule};
use c_check_operators::{Operand, is_scalar};
use c_syntax::{IntType, Op, Pos, TExpr, TExprs};
use std::alloc::{AllocError as NoMemory, Global};

/// An input, which is read without arguments; with some it is NoRule, with a function's type left.
pub fn input_read(world: &World, pos: Pos, ty: IntType, args: &TExprs) -> Result<Operand, TypeError>
    ensures { Answers (λ out. out ≡ nodes.input_read (world_of world.now) pos ty (texprs_tree args.now)) operand_tree (world_of world.now) result }
{
    if args.as_slice().is_empty() {
        Ok(Operand::Value(TExpr::Any { pos, ty }))
    } else {
        Err(no_function(world, pos, Op::Call))
    }
}

/// `__assume`, or else `__assert`, of one scalar. Other numbers of arguments are NoRule with a function's type left,
/// and another type is NoRule with Op `test`.
pub fn told(world: &World, pos: Pos, assumes: bool, args: TExprs) -> Result<Operand, TypeError>
    ensures { Answers (λ out. out ≡ nodes.told (world_of world.now) pos (if assumes then trees.Assume pos else trees.Assert pos) (texprs_tree args))
        operand_tree (world_of world.now) result }
{
    let mut args = args.into_vec();
    if args.len() != 1 {
        return Err(no_function(world, pos, Op::Call));
    }
    match args.pop() {
        None => Err(no_function(world, pos, Op::Call)),
        Some(e) => scalar_told(world, pos, assumes, e),
    }
}

// The same, of one argument.
fn scalar_told(world: &World, pos: Pos, assumes: bool, e: TExpr) -> Result<Operand, TypeError>
    ensures { Answers (λ out. out ≡ nodes.told (world_of world.now) pos (if assumes then trees.Assume pos else trees.Assert pos)
        (trees.more (texpr_tree e) trees.none)) operand_tree (world_of world.now) result }
{
    let alloc = world.alloc();
    let ty = e.ty()?;
    if is_scalar(&ty) {
        let node = told_node(alloc, pos, assumes, e)?;
        Ok(Operand::Value(node))
    } else {
        Err(no_rule(alloc, &world.structs.defs, pos, Op::Test, ty, None))
    }
}

#[tactic(auto, using(c_syntax::proofs::Trees::the_trees))]
fn told_node(alloc: Global, pos: Pos, assumes: bool, e: TExpr) -> Result<TExpr, NoMemory>
    ensures { IfOk result (λ node. texpr_tree node ≡ (if assumes then trees.Assume pos (texpr_tree e) else trees.Assert pos (texpr_tree e))) }
{
    let operand = Box::new(alloc, e)?;
    if assumes {
        Ok(TExpr::Assume { pos, operand })
    } else {
        Ok(TExpr::Assert { pos, operand })
    }
}

/// That no row has a function that the program does not have.
pub fn no_function(world: &World, pos: Pos, op: Op) -> TypeError
    ensures { Tells result (worlds.no_rule (world_of world.now) pos op (declarators.unknown_function (world_of world.now)) None) }
{
    let function = unknown_function(world);
    no_rule(world.alloc(), &world.structs.defs, pos, op, function, None)
}
