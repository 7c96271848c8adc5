// The exact results at which checks of results look.
#![tactic(auto, using(csharp::proofs::CodeTrees::the_code_trees))]

ghost use Rattle.std.specs.Prelude.{◌≡◌, List, IfOk, IfSome};
ghost use Rattle.block_mem.specs.declared.types.Scalar.{Scalar as CScalar};
ghost use Rattle.machine_nums.specs.MExprs.{mexpr_tree};
ghost use Rattle.csharp.specs.Trees.{CsExprTree, csexpr_tree};
ghost use Rattle.csharp.specs.Trees as code;
ghost use Rattle.mem_cell_exprs.specs.Exprs.{IsNumberFor};
ghost use Rattle.mem_cell_shows.specs.Exacts.{IsExactFor, IsExactOperator};

use crate::nodes::{binary_node, unary_node};
use block_mem::Scalar;
use c_syntax::{Arithmetic, Shift, TBinaryOp, TUnaryOp};
use csharp::CsExpr;
use machine_nums::MExpr;
use mem_cell_exprs::number;
use num_api::NOp;
use std::alloc::{AllocError as NoMemory, Global};

// The operator that gives the exact result at which checks of an operator look: for a remainder the quotient. Of an
// operator on bits nothing is checked.
fn exact_operator(op: Arithmetic) -> Option<NOp>
    ensures { IfSome result (λ nop. IsExactOperator op nop) }
{
    match op {
        Arithmetic::Multiply => Some(NOp::Mul),
        Arithmetic::Divide => Some(NOp::Quot),
        Arithmetic::Remainder => Some(NOp::Quot),
        Arithmetic::Add => Some(NOp::Add),
        Arithmetic::Subtract => Some(NOp::Sub),
        Arithmetic::BitAnd | Arithmetic::BitXor | Arithmetic::BitOr => None,
    }
}

// The exact result of an operator on one number.
fn of_unary(alloc: Global, op: TUnaryOp, a: MExpr) -> Result<Option<MExpr>, NoMemory>
    ensures { IfOk result (λ found. IfSome found (λ m. (types : List CScalar) (e : CsExprTree)
        → IsNumberFor types e (mexpr_tree a) → IsExactFor types (code.Unary op e) (mexpr_tree m))) }
{
    match op {
        TUnaryOp::Minus(ty) => Ok(Some(unary_node(alloc, NOp::Neg, ty, a)?)),
        TUnaryOp::Plus(_) | TUnaryOp::Complement(_) | TUnaryOp::Not => Ok(None),
    }
}

// The exact result of an operator on two numbers.
fn of_binary(alloc: Global, op: TBinaryOp, a: MExpr, b: MExpr) -> Result<Option<MExpr>, NoMemory>
    ensures { IfOk result (λ found. IfSome found (λ m. (types : List CScalar) (e f : CsExprTree)
        → IsNumberFor types e (mexpr_tree a) → IsNumberFor types f (mexpr_tree b) → IsExactFor types (code.Binary op e f) (mexpr_tree m))) }
{
    match op {
        TBinaryOp::Arithmetic(op, ty) => match exact_operator(op) {
            Some(nop) => Ok(Some(binary_node(alloc, nop, ty, a, b)?)),
            None => Ok(None),
        },
        TBinaryOp::Shift(way, ty) => match way {
            Shift::Left => Ok(Some(binary_node(alloc, NOp::Shl, ty, a, b)?)),
            Shift::Right => Ok(None),
        },
        TBinaryOp::CompareInts(_, _)
        | TBinaryOp::ComparePointers(_)
        | TBinaryOp::PointerPlusInt { .. }
        | TBinaryOp::IntPlusPointer { .. }
        | TBinaryOp::PointerMinusInt { .. }
        | TBinaryOp::PointerMinusPointer { .. } => Ok(None),
    }
}

/// The numbers whose exact result is that of an expression's outermost operator, where it is one of numbers.
pub fn exact(alloc: Global, types: &[Scalar], e: &CsExpr) -> Result<Option<MExpr>, NoMemory>
    ensures { IfOk result (λ found. IfSome found (λ m. IsExactFor types.now (csexpr_tree e.now) (mexpr_tree m))) }
{
    match e {
        CsExpr::Unary { op, operand } => match number(alloc, types, operand)? {
            Some(a) => of_unary(alloc, *op, a),
            None => Ok(None),
        },
        CsExpr::Binary { op, left, right } => {
            let Some(a) = number(alloc, types, left)? else {
                return Ok(None);
            };
            let Some(b) = number(alloc, types, right)? else {
                return Ok(None);
            };
            of_binary(alloc, *op, a, b)
        }
        CsExpr::Const { .. }
        | CsExpr::Null
        | CsExpr::Temp { .. }
        | CsExpr::Address { .. }
        | CsExpr::Convert { .. } => Ok(None),
    }
}
