// What the lowering asks of typed expressions, places and functions.
#![tactic(auto, using(c_syntax::proofs::Trees::the_trees))]

ghost use Rattle.std.specs.Prelude.{◌≡◌, Bool, Some, option_map};
ghost use Rattle.c_layout.specs.MainFunction.{is_main as is_main_of};
ghost use Rattle.c_syntax.specs.Program.{tprogram_tree};
ghost use Rattle.c_syntax.specs.TypedExpr.{texpr_tree, tlvalue_tree};
ghost use Rattle.c_syntax.specs.TypedParts.{decayed, tlvalue_type, unary_type};
ghost use Rattle.c_syntax.specs.Types.{ctype_tree};
ghost use Rattle.c_values.specs.Values as rules;
ghost use Rattle.lower_trees.specs.LowerExpr as lowering;
ghost use Rattle.lower_nodes.specs.Tested.{tested_type};

use crate::operators::{binary_scalar, has_no_check, unary_scalar};
use block_mem::Scalar;
use c_syntax::{CType, IntType, TBinaryOp, TExpr, TLvalue, TProgram};
use c_values::scalar_of;

const INT: Scalar = Scalar::Int(IntType::Int);

const LONG: Scalar = Scalar::Int(IntType::Long);

/// The scalar type of the expression's value; `None` for void and structs.
pub fn value_scalar(e: &TExpr) -> Option<Scalar>
    ensures { result ≡ lowering.value_scalar (texpr_tree e.now) }
{
    match e {
        TExpr::Const { ty, .. } | TExpr::Any { ty, .. } => Some(Scalar::Int(*ty)),
        TExpr::Null { ty, .. }
        | TExpr::Convert { ty, .. }
        | TExpr::Cond { ty, .. }
        | TExpr::Call { ty, .. } => scalar_of(ty),
        TExpr::Load { place, .. }
        | TExpr::Whole { place, .. }
        | TExpr::Assign { place, .. }
        | TExpr::AssignStruct { place, .. }
        | TExpr::Compound { place, .. }
        | TExpr::Step { place, .. } => scalar_of(place.ty()),
        TExpr::AddressOf { .. } => Some(Scalar::Pointer),
        TExpr::Decay { place, .. } => decayed_scalar(place.ty()),
        TExpr::Unary { op, .. } => Some(unary_scalar(*op)),
        TExpr::Binary {
            op,
            left,
            right,
            ..
        } => match op {
            TBinaryOp::PointerPlusInt { .. } | TBinaryOp::PointerMinusInt { .. } => value_scalar(
                left,
            ),
            TBinaryOp::IntPlusPointer { .. } => value_scalar(right),
            TBinaryOp::Arithmetic(_, ty) | TBinaryOp::Shift(_, ty) => Some(Scalar::Int(*ty)),
            TBinaryOp::CompareInts(_, _) | TBinaryOp::ComparePointers(_) => Some(INT),
            TBinaryOp::PointerMinusPointer { .. } => Some(LONG),
        },
        TExpr::And { .. } | TExpr::Or { .. } => Some(INT),
        TExpr::Comma { right, .. } => value_scalar(right),
        TExpr::Assume { .. } | TExpr::Assert { .. } => None,
    }
}

// An array in a place is a pointer to its first element.
fn decayed_scalar(ty: &CType) -> Option<Scalar>
    ensures { (is_const : Bool) → result ≡ rules.scalar_of (decayed (ctype_tree ty.now) is_const) }
{
    match ty {
        CType::Array(_, _) => Some(Scalar::Pointer),
        CType::Void | CType::Int(_) | CType::Pointer(_) | CType::Struct(_) | CType::Function(_) =>
            scalar_of(ty),
    }
}

/// The scalar type of what stands in the place; int for arrays and structs.
pub fn place_scalar(place: &TLvalue) -> Scalar
    ensures { result ≡ lowering.place_scalar (tlvalue_tree place.now) }
{
    scalar_or_int(place.ty())
}

/// The scalar that a type is, or int.
pub fn scalar_or_int(ty: &CType) -> Scalar
    ensures { result ≡ lowering.or_int (rules.scalar_of (ctype_tree ty.now)) }
{
    match scalar_of(ty) {
        Some(ty) => ty,
        None => INT,
    }
}

/// What an expression of a type stands for in a temporary: a struct by the address of its bytes.
pub fn held_scalar(ty: &CType) -> Option<Scalar>
    ensures { result ≡ lowering.held_scalar (ctype_tree ty.now) }
{
    match ty {
        CType::Struct(_) => Some(Scalar::Pointer),
        CType::Void | CType::Int(_) | CType::Pointer(_) | CType::Array(_, _) | CType::Function(_) =>
            scalar_of(ty),
    }
}

/// The type at which the value of an expression is tested.
pub fn tested_scalar(e: &TExpr) -> Option<Scalar>
    ensures { result ≡ tested_type (texpr_tree e.now) }
{
    match e {
        TExpr::Const { ty, .. } | TExpr::Any { ty, .. } => Some(Scalar::Int(*ty)),
        TExpr::Null { .. } | TExpr::AddressOf { .. } | TExpr::Decay { .. } => Some(Scalar::Pointer),
        TExpr::Load { place, .. }
        | TExpr::Assign { place, .. }
        | TExpr::Compound { place, .. }
        | TExpr::Step { place, .. } => scalar_of(place.ty()),
        TExpr::Convert { ty, .. } | TExpr::Call { ty, .. } => scalar_of(ty),
        TExpr::Cond { ty, .. } => held_scalar(ty),
        TExpr::Unary { op, .. } => Some(unary_scalar(*op)),
        TExpr::Binary { op, .. } => Some(binary_scalar(*op)),
        TExpr::And { .. } | TExpr::Or { .. } => Some(INT),
        TExpr::Comma { right, .. } => value_scalar(right),
        TExpr::Whole { .. }
        | TExpr::AssignStruct { .. }
        | TExpr::Assume { .. }
        | TExpr::Assert { .. } => None,
    }
}

fn is_array_use(e: &TExpr) -> bool
    ensures { result ≡ lowering.is_array_use (texpr_tree e.now) }
{
    match e {
        TExpr::Decay { .. } => true,
        TExpr::Const { .. }
        | TExpr::Null { .. }
        | TExpr::Load { .. }
        | TExpr::AddressOf { .. }
        | TExpr::Whole { .. }
        | TExpr::Unary { .. }
        | TExpr::Binary { .. }
        | TExpr::Convert { .. }
        | TExpr::Assign { .. }
        | TExpr::AssignStruct { .. }
        | TExpr::Compound { .. }
        | TExpr::Step { .. }
        | TExpr::And { .. }
        | TExpr::Or { .. }
        | TExpr::Cond { .. }
        | TExpr::Comma { .. }
        | TExpr::Call { .. }
        | TExpr::Any { .. }
        | TExpr::Assume { .. }
        | TExpr::Assert { .. } => false,
    }
}

/// Whether the value of an operator on two operands stays an expression: where it makes no check, and where it is an
/// index of an array.
pub fn is_kept(op: TBinaryOp, left: &TExpr, right: &TExpr) -> bool
    ensures { result ≡ lowering.is_kept op (texpr_tree left.now) (texpr_tree right.now) }
{
    match op {
        TBinaryOp::PointerPlusInt { .. } | TBinaryOp::PointerMinusInt { .. } => is_array_use(left),
        TBinaryOp::IntPlusPointer { .. } => is_array_use(right),
        TBinaryOp::Arithmetic(_, _)
        | TBinaryOp::Shift(_, _)
        | TBinaryOp::CompareInts(_, _)
        | TBinaryOp::ComparePointers(_)
        | TBinaryOp::PointerMinusPointer { .. } => has_no_check(op),
    }
}

/// Whether the function of this number is named main.
pub fn is_main(program: &TProgram, function: u64) -> bool
    ensures { result ≡ is_main_of (tprogram_tree program.now) function }
{
    match program.functions.as_slice().get(function as usize) {
        None => false,
        Some(function) => function.name.as_slice() == b"main".as_slice(),
    }
}
