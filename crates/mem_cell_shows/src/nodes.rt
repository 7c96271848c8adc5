// Expressions of numbers, node by node.
#![tactic(auto, using(machine_nums::proofs::Trees::mexpr_trees))]

ghost use Rattle.std.specs.Prelude.{◌≡◌, IfOk};
ghost use Rattle.machine_nums.specs.MExprs.{mexpr_tree};
ghost use Rattle.machine_nums.specs.MExprs as numbers;

use c_syntax::IntType;
use machine_nums::MExpr;
use num_api::NOp;
use std::alloc::{AllocError as NoMemory, Global};

/// An operator on one number.
pub fn unary_node(alloc: Global, op: NOp, ty: IntType, a: MExpr) -> Result<MExpr, NoMemory>
    ensures { IfOk result (λ m. mexpr_tree m ≡ numbers.Unary op ty (mexpr_tree a)) }
{
    Ok(MExpr::Unary(op, ty, Box::new(alloc, a)?))
}

/// An operator on two numbers.
pub fn binary_node(
    alloc: Global,
    op: NOp,
    ty: IntType,
    a: MExpr,
    b: MExpr,
) -> Result<MExpr, NoMemory>
    ensures { IfOk result (λ m. mexpr_tree m ≡ numbers.Binary op ty (mexpr_tree a) (mexpr_tree b)) }
{
    let left = Box::new(alloc, a)?;
    let right = Box::new(alloc, b)?;
    Ok(MExpr::Binary(op, ty, left, right))
}

/// A number that is converted.
pub fn convert_node(alloc: Global, ty: IntType, a: MExpr) -> Result<MExpr, NoMemory>
    ensures { IfOk result (λ m. mexpr_tree m ≡ numbers.Convert ty (mexpr_tree a)) }
{
    Ok(MExpr::Convert(ty, Box::new(alloc, a)?))
}
