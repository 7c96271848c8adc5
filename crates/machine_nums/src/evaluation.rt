// Values of expressions of C in a state of a numeric domain.
#![tactic(auto, using(crate::proofs::Trees::mexpr_trees, num_api::proofs::Trees::nexpr_trees))]

ghost use Rattle.std.specs.Prelude.{◌≡◌, IfOk, ◌⊎◌};
ghost use Rattle.c_syntax_written.specs.declared.int_type.IntType.{IntType as CType};
ghost use Rattle.num_api.specs.declared.expr.NOp.TheVariants.{Mul};
ghost use Rattle.machine_nums.specs.MExprs.{MExprTree, Unary, Binary, mexpr_tree};
ghost use Rattle.machine_nums.specs.Parts.{IsTold, IsResult, IsValue};

use crate::MExpr;
use crate::operators::{typed_range, unary_range};
use crate::parts::{
    Part, are_kept, binary_expr, constant, like_product, unary_expr, variable, wrapped,
};
use crate::range_types::{is_bounded, meet};
use c_syntax_written::IntType;
use num_api::{NOp, NumDomain};
use std::alloc::{AllocError as NoMemory, Global};

// The part, its range cut by what the state knows of the expression.
fn told<D: NumDomain>(state: &D, part: Part) -> Part
    ensures { IsTold (D.admits state.now) D.exact (D.known state.now) (D.may_range state.now) part result }
{
    let range = meet(part.range, state.range(&part.plain));
    Part {
        plain: part.plain,
        range,
        is_kept: part.is_kept,
    }
}

// An operator of one operand on the value of a part.
fn unary<D: NumDomain>(alloc: Global, state: &D, op: NOp, a: Part) -> Result<Part, NoMemory>
    ensures { IfOk result (λ p. (t : CType) (e : MExprTree) → IsValue (D.admits state.now) D.exact (D.known state.now) (D.may_range state.now) e a
        → IsResult (D.admits state.now) D.exact (D.known state.now) (D.may_range state.now) (Unary op t e) p) }
{
    let range = unary_range(op, a.range);
    let plain = unary_expr(alloc, op, a.plain)?;
    let part = Part {
        plain,
        range,
        is_kept: a.is_kept,
    };
    Ok(told(state, part))
}

// An operator of two operands at a type on the values of two parts.
fn binary<D: NumDomain>(
    alloc: Global,
    state: &D,
    op: NOp,
    t: IntType,
    a: Part,
    b: Part,
) -> Result<Part, NoMemory>
    ensures { IfOk result (λ p. (d e : MExprTree) → IsValue (D.admits state.now) D.exact (D.known state.now) (D.may_range state.now) d a
        → IsValue (D.admits state.now) D.exact (D.known state.now) (D.may_range state.now) e b
        → IsResult (D.admits state.now) D.exact (D.known state.now) (D.may_range state.now) (Binary op t d e) p) }
{
    let range = typed_range(op, t, a.range, b.range);
    let is_kept = are_kept(&a, &b);
    let plain = binary_expr(alloc, op, a.plain, b.plain)?;
    let part = Part {
        plain,
        range,
        is_kept,
    };
    Ok(told(state, part))
}

// The value of a product: where the exact product need not be an `i128`, that of numbers that are like its
// factors.
fn product<D: NumDomain>(
    alloc: Global,
    state: &D,
    t: IntType,
    a: Part,
    b: Part,
) -> Result<Part, NoMemory>
    ensures { IfOk result (λ p. (d e : MExprTree) → IsValue (D.admits state.now) D.exact (D.known state.now) (D.may_range state.now) d a
        → IsValue (D.admits state.now) D.exact (D.known state.now) (D.may_range state.now) e b
        → IsValue (D.admits state.now) D.exact (D.known state.now) (D.may_range state.now) (Binary Mul t d e) p) }
{
    let like = like_product(alloc, &a, &b)?;
    let exact = binary(alloc, state, NOp::Mul, t, a, b)?;
    match like {
        None => wrapped(alloc, exact, t),
        Some(like) => {
            if is_bounded(exact.range) {
                wrapped(alloc, exact, t)
            } else {
                wrapped(alloc, like, t)
            }
        }
    }
}

// The value of an operator of two operands.
fn binary_value<D: NumDomain>(
    alloc: Global,
    state: &D,
    op: NOp,
    t: IntType,
    a: Part,
    b: Part,
) -> Result<Part, NoMemory>
    ensures { IfOk result (λ p. (d e : MExprTree) → IsValue (D.admits state.now) D.exact (D.known state.now) (D.may_range state.now) d a
        → IsValue (D.admits state.now) D.exact (D.known state.now) (D.may_range state.now) e b
        → IsValue (D.admits state.now) D.exact (D.known state.now) (D.may_range state.now) (Binary op t d e) p) }
{
    match op {
        NOp::Mul => product(alloc, state, t, a, b),
        _ => {
            let part = binary(alloc, state, op, t, a, b)?;
            wrapped(alloc, part, t)
        }
    }
}

// The value of the expression.
pub fn value<D: NumDomain>(alloc: Global, state: &D, e: &MExpr) -> Result<Part, NoMemory>
    ensures { IfOk result (IsValue (D.admits state.now) D.exact (D.known state.now) (D.may_range state.now) (mexpr_tree e.now)) }
{
    match e {
        MExpr::Const(t, n) => wrapped(alloc, told(state, constant(*n)), *t),
        MExpr::Read(x, t) => wrapped(alloc, told(state, variable(*x)), *t),
        MExpr::Convert(t, a) => {
            let inner = value(alloc, state, a)?;
            wrapped(alloc, inner, *t)
        }
        MExpr::Unary(op, t, a) => {
            let operand = value(alloc, state, a)?;
            let exact = unary(alloc, state, *op, operand)?;
            wrapped(alloc, exact, *t)
        }
        MExpr::Binary(op, t, a, b) => {
            let left = value(alloc, state, a)?;
            let right = value(alloc, state, b)?;
            binary_value(alloc, state, *op, *t, left, right)
        }
    }
}

// The exact result of the outermost node, over the values of its operands.
pub fn exact_result<D: NumDomain>(alloc: Global, state: &D, e: &MExpr) -> Result<Part, NoMemory>
    ensures { IfOk result (IsResult (D.admits state.now) D.exact (D.known state.now) (D.may_range state.now) (mexpr_tree e.now)) }
{
    match e {
        MExpr::Const(_, n) => Ok(told(state, constant(*n))),
        MExpr::Read(x, _) => Ok(told(state, variable(*x))),
        MExpr::Convert(_, a) => value(alloc, state, a),
        MExpr::Unary(op, _, a) => {
            let operand = value(alloc, state, a)?;
            unary(alloc, state, *op, operand)
        }
        MExpr::Binary(op, t, a, b) => {
            let left = value(alloc, state, a)?;
            let right = value(alloc, state, b)?;
            binary(alloc, state, *op, *t, left, right)
        }
    }
}
