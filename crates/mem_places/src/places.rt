// The object of an address, and an alignment of which its offset is a multiple.
#![tactic(auto, using(csharp::proofs::CodeTrees::the_code_trees))]

ghost use Rattle.std.specs.Prelude.{◌≡◌, ℕ, pos, IfSome, IsSomeAnd};
ghost use Rattle.num_api.specs.Fold.{IsAlignment};
ghost use Rattle.num_api.specs.Residues.{IsMultiple};
ghost use Rattle.csharp.specs.Trees.{csexpr_tree};
ghost use Rattle.mem_api.specs.Named.{IsNamed};
ghost use Rattle.mem_places.specs.Places.{constant_of, IsPlaceOf, IsUnitOf, IsMovedBy, IsCommonUnit, NamesPlace};

use crate::units::{product_unit, unit};
use c_syntax::TBinaryOp;
use csharp::CsExpr;

/// An address in an object, at an offset that is a multiple of an alignment.
#[derive(Clone, Copy)]
pub struct NamedPlace {
    pub object: u64,
    pub unit: i128,
}

// The number of a constant.
pub fn constant(e: &CsExpr) -> Option<i128>
    ensures { result ≡ constant_of (csexpr_tree e.now) }
{
    match e {
        CsExpr::Const { ty: _, value } => Some(*value),
        CsExpr::Null
        | CsExpr::Temp { .. }
        | CsExpr::Address { .. }
        | CsExpr::Unary { .. }
        | CsExpr::Binary { .. }
        | CsExpr::Convert { .. } => None,
    }
}

// The greatest alignment of which so many elements, each of so many bytes, are a multiple.
fn step_unit(size: u64, count: &CsExpr) -> i128
    ensures { IsUnitOf size (csexpr_tree count.now) result }
{
    match constant(count) {
        Some(n) => product_unit(size, n),
        None => unit(i128::from(size)),
    }
}

// The place once it is moved by multiples of an alignment.
fn moved(place: Option<NamedPlace>, step: i128) -> Option<NamedPlace>
    ensures { IsMovedBy place step result }
{
    let NamedPlace { object, unit } = place?;
    Some(NamedPlace {
        object,
        unit: lesser(unit, step),
    })
}

// The lesser of two alignments, which divides both.
fn lesser(a: i128, b: i128) -> i128
    ensures { IsCommonUnit a b result }
{
    if a <= b { a } else { b }
}

/// The object of an address that is moved by elements, and an alignment of which all steps are multiples.
pub fn named_place(e: &CsExpr) -> Option<NamedPlace>
    ensures place { IfSome result (λ p. IsPlaceOf (csexpr_tree e.now) p.object p.unit) }
    ensures named { NamesPlace (csexpr_tree e.now) result }
{
    match e {
        CsExpr::Address { object } => Some(NamedPlace {
            object: *object,
            unit: 8,
        }),
        CsExpr::Binary { op, left, right } => match op {
            TBinaryOp::PointerPlusInt { element } => {
                moved(named_place(left), step_unit(*element, right))
            }
            TBinaryOp::IntPlusPointer { element } => {
                moved(named_place(right), step_unit(*element, left))
            }
            TBinaryOp::PointerMinusInt { element } => {
                moved(named_place(left), step_unit(*element, right))
            }
            TBinaryOp::Arithmetic(_, _)
            | TBinaryOp::Shift(_, _)
            | TBinaryOp::CompareInts(_, _)
            | TBinaryOp::ComparePointers(_)
            | TBinaryOp::PointerMinusPointer { .. } => None,
        },
        CsExpr::Const { .. }
        | CsExpr::Null
        | CsExpr::Temp { .. }
        | CsExpr::Unary { .. }
        | CsExpr::Convert { .. } => None,
    }
}
