// Of what scalar type a value, and what stands in a place, is.
#![tactic(auto, using(c_syntax::proofs::Trees::the_trees, c_machine_trees::proofs::SharedTrees::the_shared_trees))]

ghost use Rattle.std.specs.Prelude.{◌≡◌, Bool, Some};
ghost use Rattle.c_machine_trees.specs.Expressions.{expr_tree, place_tree};
ghost use Rattle.c_steps.specs.Expressions as rows;
ghost use Rattle.c_syntax.specs.TypedParts.{decayed, tlvalue_pos, tlvalue_type, unary_type};
ghost use Rattle.c_values.specs.Values as rules;

use block_mem::Scalar;
use c_machine_trees::{SharedExpr, SharedPlace};
use c_syntax::{CType, IntType, Pos, TBinaryOp, TUnaryOp};
use c_values::scalar_of;

const INT: Scalar = Scalar::Int(IntType::Int);

const LONG: Scalar = Scalar::Int(IntType::Long);

/// The scalar type of the expression's value; `None` for void and structs.
pub fn value_scalar(e: &SharedExpr) -> Option<Scalar>
    ensures { result ≡ rows.value_scalar (expr_tree e.now) }
{
    match e {
        SharedExpr::Const { ty, .. } | SharedExpr::Any { ty, .. } => Some(Scalar::Int(*ty)),
        SharedExpr::Null { ty, .. }
        | SharedExpr::Convert { ty, .. }
        | SharedExpr::Cond { ty, .. }
        | SharedExpr::Call { ty, .. } => scalar_of(ty),
        SharedExpr::Load { place, .. }
        | SharedExpr::Whole { place, .. }
        | SharedExpr::Assign { place, .. }
        | SharedExpr::AssignStruct { place, .. }
        | SharedExpr::Compound { place, .. }
        | SharedExpr::Step { place, .. } => place_scalar(place),
        SharedExpr::AddressOf { .. } => Some(Scalar::Pointer),
        SharedExpr::Decay { place, .. } => decayed_scalar(place),
        SharedExpr::Unary { op, .. } => Some(unary_scalar(*op)),
        SharedExpr::Binary {
            op,
            left,
            right,
            ..
        } => match op {
            TBinaryOp::PointerPlusInt { .. } | TBinaryOp::PointerMinusInt { .. } => value_scalar(
                left,
            ),
            TBinaryOp::IntPlusPointer { .. } => value_scalar(right),
            TBinaryOp::Arithmetic(_, ty) | TBinaryOp::Shift(_, ty) => Some(Scalar::Int(*ty)),
            TBinaryOp::CompareInts(_, _) | TBinaryOp::ComparePointers(_) => Some(INT),
            TBinaryOp::PointerMinusPointer { .. } => Some(LONG),
        },
        SharedExpr::And { .. } | SharedExpr::Or { .. } => Some(INT),
        SharedExpr::Comma { right, .. } => value_scalar(right),
        SharedExpr::Assume { .. } | SharedExpr::Assert { .. } => None,
    }
}

/// The scalar type of what stands in the place; `None` for arrays and structs.
pub fn place_scalar(place: &SharedPlace) -> Option<Scalar>
    ensures { result ≡ rows.place_scalar (place_tree place.now) }
{
    match place {
        SharedPlace::Var { ty, .. }
        | SharedPlace::Deref { ty, .. }
        | SharedPlace::Member { ty, .. } => scalar_of(ty),
    }
}

/// Where the place stands in the text.
pub fn place_pos(place: &SharedPlace) -> Pos
    ensures { result ≡ tlvalue_pos (place_tree place.now) }
{
    match place {
        SharedPlace::Var { pos, .. }
        | SharedPlace::Deref { pos, .. }
        | SharedPlace::Member { pos, .. } => *pos,
    }
}

// An array in a place is a pointer to its first element.
fn decayed_scalar(place: &SharedPlace) -> Option<Scalar>
    ensures { (is_const : Bool) → result ≡ rules.scalar_of (decayed (tlvalue_type (place_tree place.now)) is_const) }
{
    match place {
        SharedPlace::Var { ty, .. }
        | SharedPlace::Deref { ty, .. }
        | SharedPlace::Member { ty, .. } => match ty {
            CType::Array(_, _) => Some(Scalar::Pointer),
            CType::Void
            | CType::Int(_)
            | CType::Pointer(_)
            | CType::Struct(_)
            | CType::Function(_) => scalar_of(ty),
        },
    }
}

fn unary_scalar(op: TUnaryOp) -> Scalar
    ensures { rules.scalar_of (unary_type op) ≡ Some result }
{
    match op {
        TUnaryOp::Plus(ty) | TUnaryOp::Minus(ty) | TUnaryOp::Complement(ty) => Scalar::Int(ty),
        TUnaryOp::Not => INT,
    }
}
