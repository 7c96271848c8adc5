// What is known of expressions of C in a state: expressions without types, with ranges of their values.
#![tactic(auto, using(num_api::proofs::Trees::nexpr_trees))]

ghost use Rattle.std.specs.Prelude.{◌≡◌, ◌^◌, ◌-◌, ◌*ℤ◌, ◌&&◌, ℤ, pos, List, true, false, Some, IfOk, IfSome, IfNone};
ghost use Rattle.std.specs.Int.RustNames.{FitsSigned};
ghost use mir.Syntax.{w128};
ghost use Rattle.ext_int.specs.declared.Ext.TheVariants.{Low, High};
ghost use Rattle.c_syntax_written.specs.Integer.{width, least};
ghost use Rattle.num_api.specs.Exprs.{nexpr_tree, Const, Read, Unary, Binary};
ghost use Rattle.num_api.specs.Ranges.{InRange, NoWider, all_numbers};
ghost use Rattle.num_api.specs.Spans.{point, range_of};
ghost use Rattle.num_api.specs.declared.expr.NOp.TheVariants.{Add, Sub, And};
ghost use Rattle.machine_nums.specs.Parts.{IsWrappedPart, IsLike};

use crate::operators::binary_range;
use crate::range_types::{is_bounded, mask};
use crate::wrapping::{Way, wrap_range};
use c_syntax_written::IntType;
use num_api::{NExpr, NOp, Range, Var};
use std::alloc::{AllocError as NoMemory, Global};

/// An expression without types, a range of its value, and whether it is an expression of C whose nodes have
/// lost their types and nothing else.
#[derive(Drop)]
pub struct Part {
    pub plain: NExpr,
    pub range: Range,
    pub is_kept: bool,
}

// A constant.
pub fn constant(n: i128) -> Part
    ensures tree { nexpr_tree result.plain ≡ Const n }
    ensures range { result.range ≡ range_of (point n) }
    ensures kept { result.is_kept ≡ true }
{
    Part {
        plain: NExpr::Const(n),
        range: Range::point(n),
        is_kept: true,
    }
}

// A variable, of which nothing is known.
pub fn variable(x: Var) -> Part
    ensures tree { nexpr_tree result.plain ≡ Read x.0 }
    ensures range { result.range ≡ all_numbers }
    ensures kept { result.is_kept ≡ true }
{
    Part {
        plain: NExpr::Read(x),
        range: Range::all(),
        is_kept: true,
    }
}

// The sum of the expression and the number.
fn plus(alloc: Global, plain: NExpr, shift: i128) -> Result<NExpr, NoMemory>
    ensures { IfOk result (λ p. nexpr_tree p ≡ Binary Add (nexpr_tree plain) (Const shift)) }
{
    let plain = Box::new(alloc, plain)?;
    let shift = Box::new(alloc, NExpr::Const(shift))?;
    Ok(NExpr::Binary(NOp::Add, plain, shift))
}

// The expression less the number.
fn less(alloc: Global, plain: NExpr, shift: i128) -> Result<NExpr, NoMemory>
    ensures { IfOk result (λ p. nexpr_tree p ≡ Binary Sub (nexpr_tree plain) (Const shift)) }
{
    let plain = Box::new(alloc, plain)?;
    let shift = Box::new(alloc, NExpr::Const(shift))?;
    Ok(NExpr::Binary(NOp::Sub, plain, shift))
}

// What the bits of the expression are as a number of the type.
fn bits_of(alloc: Global, plain: NExpr, t: IntType) -> Result<NExpr, NoMemory>
    ensures { IfOk result (λ p. nexpr_tree p ≡ Binary Add (Binary And (Binary Sub (nexpr_tree plain) (Const (least t)))
        (Const (pos (2 ^ width t - 1)))) (Const (least t))) }
{
    let above = Box::new(alloc, less(alloc, plain, t.least())?)?;
    let mask = Box::new(alloc, NExpr::Const(mask(t)))?;
    let bits = Box::new(alloc, NExpr::Binary(NOp::And, above, mask))?;
    let least = Box::new(alloc, NExpr::Const(t.least()))?;
    Ok(NExpr::Binary(NOp::Add, bits, least))
}

// An operator on the expression.
pub fn unary_expr(alloc: Global, op: NOp, a: NExpr) -> Result<NExpr, NoMemory>
    ensures { IfOk result (λ p. nexpr_tree p ≡ Unary op (nexpr_tree a)) }
{
    Ok(NExpr::Unary(op, Box::new(alloc, a)?))
}

// An operator on both expressions.
pub fn binary_expr(alloc: Global, op: NOp, a: NExpr, b: NExpr) -> Result<NExpr, NoMemory>
    ensures { IfOk result (λ p. nexpr_tree p ≡ Binary op (nexpr_tree a) (nexpr_tree b)) }
{
    let a = Box::new(alloc, a)?;
    let b = Box::new(alloc, b)?;
    Ok(NExpr::Binary(op, a, b))
}

// Whether both parts are kept.
pub fn are_kept(a: &Part, b: &Part) -> bool
    ensures { result ≡ (a.now.is_kept && b.now.is_kept) }
{
    a.is_kept && b.is_kept
}

// A part that is no expression of C without its types.
fn changed(plain: NExpr, range: Range) -> Part
    ensures tree { nexpr_tree result.plain ≡ nexpr_tree plain }
    ensures range { result.range ≡ range }
    ensures kept { result.is_kept ≡ false }
{
    Part {
        plain,
        range,
        is_kept: false,
    }
}

// The part wrapped into the type.
pub fn wrapped(alloc: Global, part: Part, t: IntType) -> Result<Part, NoMemory>
    ensures { IfOk result (IsWrappedPart t part) }
{
    let found = wrap_range(part.range, t);
    match found.way {
        Way::Kept => Ok(part),
        Way::Shifted(shift) => {
            let plain = plus(alloc, part.plain, shift)?;
            Ok(changed(plain, found.range))
        }
        Way::Only(n) => Ok(changed(NExpr::Const(n), found.range)),
        Way::ByBits => {
            let plain = bits_of(alloc, part.plain, t)?;
            Ok(changed(plain, found.range))
        }
    }
}

// A copy of the part.
fn copy(alloc: Global, part: &Part) -> Result<Part, NoMemory>
    ensures tree { IfOk result (λ p. nexpr_tree p.plain ≡ nexpr_tree part.now.plain) }
    ensures range { IfOk result (λ p. p.range ≡ part.now.range) }
{
    Ok(Part {
        plain: part.plain.copy(alloc)?,
        range: part.range,
        is_kept: part.is_kept,
    })
}

// The product of two numbers from -2^63 to 2^63 - 1 that are those of the parts up to multiples of 2^64, so
// that it is an `i128`; `None` only where each product of the parts' own numbers is one.
pub fn like_product(alloc: Global, left: &Part, right: &Part) -> Result<Option<Part>, NoMemory>
    ensures like { IfOk result (λ found. IfSome found (IsLike left.now right.now)) }
    ensures none { IfOk result (λ found. IfNone found ((x y : ℤ) → InRange left.now.range x → InRange right.now.range y → FitsSigned w128 (x *ℤ y))) }
{
    if is_bounded(binary_range(NOp::Mul, left.range, right.range)) {
        return Ok(None);
    }
    let first = copy(alloc, left)?;
    let a = wrapped(alloc, first, IntType::LLong)?;
    let second = copy(alloc, right)?;
    let b = wrapped(alloc, second, IntType::LLong)?;
    let range = binary_range(NOp::Mul, a.range, b.range);
    let plain = binary_expr(alloc, NOp::Mul, a.plain, b.plain)?;
    Ok(Some(changed(plain, range)))
}
