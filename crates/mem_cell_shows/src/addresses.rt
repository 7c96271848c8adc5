// Expressions whose values are pointers.
#![tactic(auto, using(csharp::proofs::CodeTrees::the_code_trees))]

ghost use Rattle.std.specs.Prelude.{◌≡◌, Some, IsTrue, slice_get};
ghost use Rattle.csharp.specs.Trees.{csexpr_tree};
ghost use Rattle.mem_cell_shows.specs.Addresses.{IsAddressFor, Moves, pointer_type};

use block_mem::Scalar;
use c_syntax::TBinaryOp;
use csharp::CsExpr;

// Whether a temporary is a pointer.
fn is_pointer(types: &[Scalar], temp: u64) -> bool
    ensures { IsTrue result → slice_get types.now temp ≡ Some pointer_type }
{
    if temp >= types.len() as u64 {
        return false;
    }
    match types[temp as usize] {
        Scalar::Pointer => true,
        Scalar::Int(_) => false,
    }
}

// Whether an operator moves a pointer.
fn moves(op: TBinaryOp) -> bool
    ensures { IsTrue result → Moves op }
{
    match op {
        TBinaryOp::PointerPlusInt { .. }
        | TBinaryOp::IntPlusPointer { .. }
        | TBinaryOp::PointerMinusInt { .. } => true,
        TBinaryOp::Arithmetic(_, _)
        | TBinaryOp::Shift(_, _)
        | TBinaryOp::CompareInts(_, _)
        | TBinaryOp::ComparePointers(_)
        | TBinaryOp::PointerMinusPointer { .. } => false,
    }
}

/// Whether the value of an expression, where it has one, is known to be a pointer.
pub fn is_address(types: &[Scalar], e: &CsExpr) -> bool
    ensures { IsTrue result → IsAddressFor types.now (csexpr_tree e.now) }
{
    match e {
        CsExpr::Null | CsExpr::Address { .. } => true,
        CsExpr::Temp { temp } => is_pointer(types, *temp),
        CsExpr::Binary { op, .. } => moves(*op),
        CsExpr::Const { .. } | CsExpr::Unary { .. } | CsExpr::Convert { .. } => false,
    }
}
