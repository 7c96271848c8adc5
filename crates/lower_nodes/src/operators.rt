// Operators: the types that they give, and which of them make checks.
#![tactic(auto, using(csharp::proofs::CodeTrees::the_code_trees))]

ghost use Rattle.std.specs.Prelude.{◌≡◌, Some};
ghost use Rattle.csharp.specs.Trees.{csexpr_tree};
ghost use Rattle.c_layout.specs.Checks.{binary_checks};
ghost use Rattle.c_steps.specs.Changes as changes;
ghost use Rattle.c_values.specs.Typed as typed;
ghost use Rattle.lower_trees.specs.LowerExpr as lowering;

use crate::terms::number;
use block_mem::Scalar;
use c_syntax::{Arithmetic, IntType, StepWay, Stride, TBinaryOp, TUnaryOp};
use csharp::CsExpr;

const INT: Scalar = Scalar::Int(IntType::Int);

const LONG: Scalar = Scalar::Int(IntType::Long);

/// The type of what an operator on two operands gives.
pub fn binary_scalar(op: TBinaryOp) -> Scalar
    ensures { result ≡ typed.binary_type op }
{
    match op {
        TBinaryOp::Arithmetic(_, t) | TBinaryOp::Shift(_, t) => Scalar::Int(t),
        TBinaryOp::CompareInts(_, _) | TBinaryOp::ComparePointers(_) => INT,
        TBinaryOp::PointerPlusInt { .. }
        | TBinaryOp::IntPlusPointer { .. }
        | TBinaryOp::PointerMinusInt { .. } => Scalar::Pointer,
        TBinaryOp::PointerMinusPointer { .. } => LONG,
    }
}

/// The type of what an operator on one operand gives.
pub fn unary_scalar(op: TUnaryOp) -> Scalar
    ensures { result ≡ typed.unary_type op }
{
    match op {
        TUnaryOp::Plus(t) | TUnaryOp::Minus(t) | TUnaryOp::Complement(t) => Scalar::Int(t),
        TUnaryOp::Not => INT,
    }
}

/// The type at which an `op=` takes what stands in its place, which is of the type given.
pub fn left_type(op: TBinaryOp, ty: Scalar) -> Option<Scalar>
    ensures { result ≡ changes.left_type op (Some ty) }
{
    match op {
        TBinaryOp::Arithmetic(_, t) | TBinaryOp::Shift(_, t) => Some(Scalar::Int(t)),
        TBinaryOp::CompareInts(_, _)
        | TBinaryOp::ComparePointers(_)
        | TBinaryOp::PointerPlusInt { .. }
        | TBinaryOp::IntPlusPointer { .. }
        | TBinaryOp::PointerMinusInt { .. }
        | TBinaryOp::PointerMinusPointer { .. } => Some(ty),
    }
}

/// `++` and `--` as `+` and `-`.
pub fn step_operator(way: StepWay, stride: Stride) -> TBinaryOp
    ensures { result ≡ changes.step_operator way stride }
{
    match stride {
        Stride::Int(t) => match way {
            StepWay::Up => TBinaryOp::Arithmetic(Arithmetic::Add, t),
            StepWay::Down => TBinaryOp::Arithmetic(Arithmetic::Subtract, t),
        },
        Stride::Element(element) => match way {
            StepWay::Up => TBinaryOp::PointerPlusInt { element },
            StepWay::Down => TBinaryOp::PointerMinusInt { element },
        },
    }
}

/// The right operand of a `++` or `--`.
pub fn step_one(stride: Stride) -> CsExpr
    ensures { csexpr_tree result ≡ lowering.step_one stride }
{
    match stride {
        Stride::Int(ty) => CsExpr::Const { ty, value: 1 },
        Stride::Element(_) => number(1),
    }
}

/// Whether an operator on two operands makes no check.
pub fn has_no_check(op: TBinaryOp) -> bool
    ensures { result ≡ lowering.has_no_check (binary_checks op) }
{
    match op {
        TBinaryOp::Arithmetic(op, t) => match op {
            Arithmetic::BitAnd | Arithmetic::BitXor | Arithmetic::BitOr => true,
            Arithmetic::Multiply | Arithmetic::Add | Arithmetic::Subtract => !t.is_signed(),
            Arithmetic::Divide | Arithmetic::Remainder => false,
        },
        TBinaryOp::CompareInts(_, _) => true,
        TBinaryOp::Shift(_, _)
        | TBinaryOp::ComparePointers(_)
        | TBinaryOp::PointerPlusInt { .. }
        | TBinaryOp::IntPlusPointer { .. }
        | TBinaryOp::PointerMinusInt { .. }
        | TBinaryOp::PointerMinusPointer { .. } => false,
    }
}

/// Whether the value of an operator on one operand stays an expression, since it makes no check of its result.
pub fn is_kept_alone(op: TUnaryOp) -> bool
    ensures { result ≡ lowering.is_kept_alone op }
{
    match op {
        TUnaryOp::Minus(t) => !t.is_signed(),
        TUnaryOp::Plus(_) | TUnaryOp::Complement(_) | TUnaryOp::Not => true,
    }
}
