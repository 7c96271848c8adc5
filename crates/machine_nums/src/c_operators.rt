// C's operators at their types.

ghost use Rattle.std.specs.Prelude.{◌≡◌, ℤ, List, neg_ℤ, Some, IfOk};
ghost use Rattle.c_syntax_written.specs.Integer.{wrapped};
ghost use Rattle.c_values.specs.Numbers as numbers;
ghost use Rattle.machine_nums.specs.MExprs.{mexpr_tree};
ghost use Rattle.machine_nums.specs.Machine.{machine_value};
ghost use Rattle.machine_nums.specs.Laws.{StandsForArithmetic, StandsForShift, StandsForComparison};

use crate::MExpr;
use c_syntax::{Arithmetic, Comparison, IntType, Shift};
use num_api::NOp;
use std::alloc::{AllocError as NoMemory, Global};

/// A comparison as an operator, and whether its operands change their places.
#[derive(Clone, Copy)]
pub struct Compared {
    pub op: NOp,
    pub is_turned: bool,
}

/// The operator that stands for an arithmetic one.
pub fn arithmetic_operator(op: Arithmetic) -> NOp
    ensures { StandsForArithmetic op result }
{
    match op {
        Arithmetic::Multiply => NOp::Mul,
        Arithmetic::Divide => NOp::Quot,
        Arithmetic::Remainder => NOp::Rem,
        Arithmetic::Add => NOp::Add,
        Arithmetic::Subtract => NOp::Sub,
        Arithmetic::BitAnd => NOp::And,
        Arithmetic::BitXor => NOp::Xor,
        Arithmetic::BitOr => NOp::Or,
    }
}

/// The operator that stands for a shift.
pub fn shift_operator(way: Shift) -> NOp
    ensures { StandsForShift way result }
{
    match way {
        Shift::Left => NOp::Shl,
        Shift::Right => NOp::Shr,
    }
}

/// The operator that stands for a comparison.
pub fn comparison_operator(c: Comparison) -> Compared
    ensures { StandsForComparison c result.op result.is_turned }
{
    let (op, is_turned) = match c {
        Comparison::Less => (NOp::Lt, false),
        Comparison::Greater => (NOp::Lt, true),
        Comparison::AtMost => (NOp::Le, false),
        Comparison::AtLeast => (NOp::Le, true),
        Comparison::Equal => (NOp::Eq, false),
        Comparison::Unequal => (NOp::Ne, false),
    };
    Compared { op, is_turned }
}

/// The negation of an expression at a type.
pub fn minus(alloc: Global, t: IntType, a: MExpr) -> Result<MExpr, NoMemory>
    ensures { IfOk result (λ e. (v : List ℤ) (n : ℤ) → machine_value v (mexpr_tree a) ≡ Some n → machine_value v (mexpr_tree e) ≡ Some (wrapped t (neg_ℤ n))) }
{
    Ok(MExpr::Unary(NOp::Neg, t, Box::new(alloc, a)?))
}

/// The bits of an expression at a type, each turned: -1 less the number.
pub fn complement(alloc: Global, t: IntType, a: MExpr) -> Result<MExpr, NoMemory>
    ensures { IfOk result (λ e. (v : List ℤ) (n : ℤ) → machine_value v (mexpr_tree a) ≡ Some n
        → machine_value v (mexpr_tree e) ≡ Some (numbers.complement t n)) }
{
    let ones = Box::new(alloc, MExpr::Const(IntType::Int, -1))?;
    Ok(MExpr::Binary(NOp::Sub, t, ones, Box::new(alloc, a)?))
}
