// Exact results, before they are wrapped.
#![tactic(auto, using(csharp::proofs::CodeTrees::the_code_trees))]

ghost use Rattle.std.specs.Prelude.{◌≡◌, false, IsTrue};
ghost use Rattle.num_api.specs.declared.expr.NOp.TheVariants.{Shl};
ghost use Rattle.num_api.specs.Ranges.{NoWider, holds_some};
ghost use Rattle.c_syntax.specs.declared.operator.TBinaryOp.TheVariants.{Arithmetic as ArithmeticOp, Shift as ShiftOp};
ghost use Rattle.csharp.specs.Trees.{csexpr_tree};
ghost use Rattle.mem_temps.specs.Checks.{IsExactUnary, IsExact, IsExactOf};
ghost use Rattle.mem_temps.specs.Found.{IsFound};

use crate::Ranges;
use crate::expressions::value_range;
use crate::operators::amounts;
use c_syntax::{Arithmetic, IntType, Shift, TBinaryOp, TUnaryOp};
use csharp::CsExpr;
use machine_nums::{meet, typed_range, unary_range};
use num_api::{NOp, Range, no_numbers};

// The exact results of an operator of one operand.
fn exact_unary(op: TUnaryOp, r: Range) -> Range
    ensures { IsExactUnary op r result }
{
    match op {
        TUnaryOp::Minus(_) => unary_range(NOp::Neg, r),
        TUnaryOp::Plus(_) | TUnaryOp::Complement(_) | TUnaryOp::Not => Range::all(),
    }
}

// The exact results of an arithmetic operator at which a check looks: for a remainder the quotients.
fn exact_arithmetic(op: Arithmetic, t: IntType, r: Range, s: Range) -> Range
    ensures { IsExact (ArithmeticOp op t) r s result }
{
    match op {
        Arithmetic::Multiply => typed_range(NOp::Mul, t, r, s),
        Arithmetic::Divide => typed_range(NOp::Quot, t, r, s),
        Arithmetic::Remainder => typed_range(NOp::Quot, t, r, s),
        Arithmetic::Add => typed_range(NOp::Add, t, r, s),
        Arithmetic::Subtract => typed_range(NOp::Sub, t, r, s),
        Arithmetic::BitAnd | Arithmetic::BitXor | Arithmetic::BitOr => Range::all(),
    }
}

// The exact results of a shift by amounts from 0 to below the width. Where there is no such amount there is none.
fn exact_shift(way: Shift, t: IntType, r: Range, s: Range) -> Range
    ensures { IsExact (ShiftOp way t) r s result }
{
    match way {
        Shift::Left => shifted_left(t, r, meet(s, amounts(t))),
        Shift::Right => Range::all(),
    }
}

// The exact results of a shift to the left.
fn shifted_left(t: IntType, r: Range, s: Range) -> Range
    ensures some { IsTrue (holds_some s) → IsFound Shl t r s result }
    ensures none { holds_some s ≡ false → (x : Range) → NoWider result x }
{
    if s.holds_some() {
        typed_range(NOp::Shl, t, r, s)
    } else {
        no_numbers()
    }
}

// The exact results of an operator of two operands.
fn exact_binary(op: TBinaryOp, r: Range, s: Range) -> Range
    ensures { IsExact op r s result }
{
    match op {
        TBinaryOp::Arithmetic(op, t) => exact_arithmetic(op, t, r, s),
        TBinaryOp::Shift(way, t) => exact_shift(way, t, r, s),
        TBinaryOp::CompareInts(_, _)
        | TBinaryOp::ComparePointers(_)
        | TBinaryOp::PointerPlusInt { .. }
        | TBinaryOp::IntPlusPointer { .. }
        | TBinaryOp::PointerMinusInt { .. }
        | TBinaryOp::PointerMinusPointer { .. } => Range::all(),
    }
}

/// The exact results of an expression's outermost operator.
pub fn exact_range(ranges: &Ranges, e: &CsExpr) -> Range
    ensures { IsExactOf ranges.now (csexpr_tree e.now) result }
{
    match e {
        CsExpr::Unary { op, operand } => exact_unary(*op, value_range(ranges, operand)),
        CsExpr::Binary { op, left, right } => {
            let left = value_range(ranges, left);
            let right = value_range(ranges, right);
            exact_binary(*op, left, right)
        }
        CsExpr::Const { .. }
        | CsExpr::Null
        | CsExpr::Temp { .. }
        | CsExpr::Address { .. }
        | CsExpr::Convert { .. } => Range::all(),
    }
}
