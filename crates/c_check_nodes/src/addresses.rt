// The addresses that expressions are.
#![tactic(auto, using(c_syntax::proofs::TypedExprTrees::typed_expr_trees, crate::proofs::Equations::the_addresses, c_syntax::proofs::Sizes::the_typed_sizes))]

ghost use Rattle.std.specs.Prelude.{◌≡◌, IfOk, map, option_map};
ghost use Rattle.c_syntax.specs.Types.{object_tree};
ghost use Rattle.c_syntax.specs.TypedExpr.{texpr_tree, tlvalue_tree};
ghost use Rattle.c_typing.specs.Constants as constants;
ghost use Rattle.c_check_nodes.specs.Views.{address_of};

use crate::moves::{Address, moved, moved_back, moved_forward, static_object};
use c_check_operators::{constant_value, is_pointer};
use c_syntax::{Object, TBinaryOp, TExpr, TLvalue};
use std::alloc::AllocError as NoMemory;

/// The static address that an expression is, with a constant offset (C11 6.6p9), or `None` where it is none.
#[cycle(addresses)]
pub fn static_address(objects: &[Object], e: &TExpr) -> Result<Option<Address>, NoMemory>
    ensures { IfOk result (λ address. option_map address_of address ≡ constants.static_address (map object_tree objects.now) (texpr_tree e.now)) }
{
    match e {
        TExpr::Null { .. } => Ok(Some(Address::Nowhere)),
        TExpr::AddressOf { place, .. } => { static_place(objects, place) }
        TExpr::Decay { place, .. } => { static_place(objects, place) }
        TExpr::Binary {
            op,
            left,
            right,
            ..
        } => { moved_address(objects, *op, left, right) }
        TExpr::Convert { ty, operand, .. } => {
            let address = static_address(objects, operand)?;
            if is_pointer(ty) {
                Ok(address)
            } else {
                Ok(None)
            }
        }
        TExpr::Const { .. }
        | TExpr::Load { .. }
        | TExpr::Whole { .. }
        | TExpr::Unary { .. }
        | TExpr::Assign { .. }
        | TExpr::AssignStruct { .. }
        | TExpr::Compound { .. }
        | TExpr::Step { .. }
        | TExpr::And { .. }
        | TExpr::Or { .. }
        | TExpr::Cond { .. }
        | TExpr::Comma { .. }
        | TExpr::Call { .. }
        | TExpr::Any { .. }
        | TExpr::Assume { .. }
        | TExpr::Assert { .. } => Ok(None),
    }
}

// An address that an operator moves.
#[cycle(addresses)]
fn moved_address(
    objects: &[Object],
    op: TBinaryOp,
    left: &TExpr,
    right: &TExpr,
) -> Result<Option<Address>, NoMemory>
    ensures { let all = map object_tree objects.now in IfOk result (λ address. option_map address_of address
        ≡ constants.moved_by all op (constants.static_address all (texpr_tree left.now)) (constants.static_address all (texpr_tree right.now))
        (constants.constant_value (texpr_tree left.now)) (constants.constant_value (texpr_tree right.now))) }
{
    match op {
        TBinaryOp::PointerPlusInt { element } => {
            let from = static_address(objects, left)?;
            let count = constant_value(right)?;
            Ok(moved_forward(objects, from, element, count))
        }
        TBinaryOp::IntPlusPointer { element } => {
            let from = static_address(objects, right)?;
            let count = constant_value(left)?;
            Ok(moved_forward(objects, from, element, count))
        }
        TBinaryOp::PointerMinusInt { element } => {
            let from = static_address(objects, left)?;
            let count = constant_value(right)?;
            Ok(moved_back(objects, from, element, count))
        }
        TBinaryOp::Arithmetic(_, _)
        | TBinaryOp::Shift(_, _)
        | TBinaryOp::CompareInts(_, _)
        | TBinaryOp::ComparePointers(_)
        | TBinaryOp::PointerMinusPointer { .. } => Ok(None),
    }
}

/// The static address of a place, or `None` where it has none.
#[cycle(addresses)]
pub fn static_place(objects: &[Object], place: &TLvalue) -> Result<Option<Address>, NoMemory>
    ensures { IfOk result (λ address. option_map address_of address ≡ constants.static_place (map object_tree objects.now) (tlvalue_tree place.now)) }
{
    match place {
        TLvalue::Var { object, .. } => Ok(static_object(objects, *object)),
        TLvalue::Deref { pointer, .. } => { static_address(objects, pointer) }
        TLvalue::Member { offset, place, .. } => {
            let address = static_place(objects, place)?;
            Ok(moved(objects, address, Some(i128::from(*offset))))
        }
    }
}
