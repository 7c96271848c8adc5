// The place of an lvalue.
#![tactic(auto, using(c_syntax::proofs::Trees::the_trees, c_syntax::proofs::Sizes::the_typed_sizes, crate::proofs::PlaceForms::the_places))]

ghost use Rattle.std.specs.Prelude.{◌≡◌, if◌then◌else◌, IfOk};
ghost use Rattle.c_syntax.specs.TypedExpr.{texpr_tree, tlvalue_tree};
ghost use Rattle.c_rules_effects.specs.declared.touch.Touch.TheVariants.{Mem};
ghost use Rattle.c_rules_effects.specs.Places.{array_of, element_of, extended, moves_left, place_of};

use crate::touch::{Part, Path, Touch};
use c_syntax::{DerefKind, TBinaryOp, TExpr, TLvalue};
use std::alloc::{AllocError as NoMemory, Global};

/// The place of an lvalue: an object with members and indices, or what is named through a pointer.
#[cycle(places)]
pub fn place_of(alloc: Global, place: &TLvalue) -> Result<Touch, NoMemory>
    ensures { IfOk result (λ touch. touch ≡ place_of (tlvalue_tree place.now)) }
{
    match place {
        TLvalue::Var { object, .. } => Ok(Touch::Object(*object, Path::new(alloc))),
        TLvalue::Member { member, place, .. } => extend(
            place_of(alloc, place)?,
            Part::Member(*member),
        ),
        TLvalue::Deref { kind, pointer, .. } => match kind {
            DerefKind::Index => element_of(alloc, pointer),
            DerefKind::Star => Ok(Touch::Mem),
            DerefKind::Arrow => Ok(Touch::Mem),
        },
    }
}

// The element that the sum of an array and an index points to.
#[cycle(places)]
fn element_of(alloc: Global, pointer: &TExpr) -> Result<Touch, NoMemory>
    ensures { IfOk result (λ touch. touch ≡ element_of (texpr_tree pointer.now)) }
{
    match pointer {
        TExpr::Binary { op, left, .. } => sum_of(alloc, *op, left),
        _ => Ok(Touch::Mem),
    }
}

#[cycle(places)]
fn sum_of(alloc: Global, op: TBinaryOp, left: &TExpr) -> Result<Touch, NoMemory>
    ensures { IfOk result (λ touch. touch ≡ (if moves_left op then array_of (texpr_tree left.now) else Mem)) }
{
    match op {
        TBinaryOp::PointerPlusInt { .. } => array_of(alloc, left),
        _ => Ok(Touch::Mem),
    }
}

// Any element of an array, by the pointer to its first.
#[cycle(places)]
fn array_of(alloc: Global, pointer: &TExpr) -> Result<Touch, NoMemory>
    ensures { IfOk result (λ touch. touch ≡ array_of (texpr_tree pointer.now)) }
{
    match pointer {
        TExpr::Decay { place, .. } => extend(place_of(alloc, place)?, Part::Index),
        _ => Ok(Touch::Mem),
    }
}

fn extend(touch: Touch, part: Part) -> Result<Touch, NoMemory>
    ensures { IfOk result (λ longer. longer ≡ extended touch part) }
{
    match touch {
        Touch::Mem => Ok(Touch::Mem),
        Touch::Object(number, path) => {
            let mut path = path;
            path.push(part)?;
            Ok(Touch::Object(number, path))
        }
    }
}
