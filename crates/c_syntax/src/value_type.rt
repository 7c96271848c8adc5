// The types of values.
#![tactic(auto, using(crate::proofs::Trees::the_trees))]

ghost use Rattle.std.specs.Prelude.{◌≡◌, IfOk};
ghost use Rattle.c_syntax.specs.TypedExpr.{texpr_tree, tlvalue_tree};
ghost use Rattle.c_syntax.specs.TypedParts.{binary_type, decayed, texpr_type, tlvalue_is_const, tlvalue_type, unary_type};
ghost use Rattle.c_syntax.specs.Types.{Int, Pointer, ctype_tree};

use crate::{CType, IntType, TBinaryOp, TExpr, TLvalue, TUnaryOp, Target};
use std::alloc::{AllocError as NoMemory, Global};
use std::rc::Rc;

impl TExpr {
    /// The type of the value: int for `a < b`, the place's type for `a = b`, void for an assertion.
    pub fn ty(&self) -> Result<CType, NoMemory>
        ensures { IfOk result (λ ty. ctype_tree ty ≡ texpr_type (texpr_tree self.now)) }
    {
        match self {
            TExpr::Const { ty, .. } | TExpr::Any { ty, .. } => Ok(CType::Int(*ty)),
            TExpr::Null { ty, .. }
            | TExpr::Convert { ty, .. }
            | TExpr::Cond { ty, .. }
            | TExpr::Call { ty, .. } => ty.copy(),
            TExpr::Load { place, .. }
            | TExpr::Whole { place, .. }
            | TExpr::Assign { place, .. }
            | TExpr::AssignStruct { place, .. }
            | TExpr::Compound { place, .. }
            | TExpr::Step { place, .. } => place.ty().copy(),
            TExpr::AddressOf { place, .. } => address_type(*Box::allocator(place), place),
            TExpr::Decay { place, .. } => decayed_type(*Box::allocator(place), place),
            TExpr::Unary { op, .. } => Ok(unary_type(*op)),
            TExpr::Binary {
                op,
                left,
                right,
                ..
            } => match op {
                TBinaryOp::PointerPlusInt { .. } | TBinaryOp::PointerMinusInt { .. } => left.ty(),
                TBinaryOp::IntPlusPointer { .. } => right.ty(),
                TBinaryOp::Arithmetic(_, ty) | TBinaryOp::Shift(_, ty) => Ok(CType::Int(*ty)),
                TBinaryOp::CompareInts(_, _) | TBinaryOp::ComparePointers(_) => Ok(CType::Int(
                    IntType::Int,
                )),
                TBinaryOp::PointerMinusPointer { .. } => Ok(CType::Int(IntType::Long)),
            },
            TExpr::And { .. } | TExpr::Or { .. } => Ok(CType::Int(IntType::Int)),
            TExpr::Comma { right, .. } => right.ty(),
            TExpr::Assume { .. } | TExpr::Assert { .. } => Ok(CType::Void),
        }
    }
}

fn unary_type(op: TUnaryOp) -> CType
    ensures { ctype_tree result ≡ unary_type op }
{
    match op {
        TUnaryOp::Plus(ty) | TUnaryOp::Minus(ty) | TUnaryOp::Complement(ty) => CType::Int(ty),
        TUnaryOp::Not => CType::Int(IntType::Int),
    }
}

fn pointer_to(alloc: Global, ty: CType, is_const: bool) -> Result<CType, NoMemory>
    ensures { IfOk result (λ pointer. ctype_tree pointer ≡ Pointer (ctype_tree ty) is_const) }
{
    let target = Target { ty, is_const };
    Ok(CType::Pointer(Rc::new(alloc, target)?))
}

fn address_type(alloc: Global, place: &TLvalue) -> Result<CType, NoMemory>
    ensures { IfOk result (λ ty. ctype_tree ty ≡ Pointer (tlvalue_type (tlvalue_tree place.now)) (tlvalue_is_const (tlvalue_tree place.now))) }
{
    let ty = place.ty().copy()?;
    pointer_to(alloc, ty, place.is_const())
}

fn decayed_type(alloc: Global, place: &TLvalue) -> Result<CType, NoMemory>
    ensures { IfOk result (λ ty. ctype_tree ty ≡ decayed (tlvalue_type (tlvalue_tree place.now)) (tlvalue_is_const (tlvalue_tree place.now))) }
{
    let is_const = place.is_const();
    let ty = place.ty();
    match ty {
        CType::Array(of, _) => {
            let element = of.ty.copy()?;
            pointer_to(alloc, element, of.is_const || is_const)
        }
        CType::Void | CType::Int(_) | CType::Pointer(_) | CType::Struct(_) | CType::Function(_) =>
            ty.copy(),
    }
}
