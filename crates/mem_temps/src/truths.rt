// Ranges behind a test.
#![tactic(auto, using(csharp::proofs::CodeTrees::the_code_trees))]

ghost use Rattle.std.specs.Prelude.{◌≡◌, ℤ};
ghost use Rattle.num_api.specs.Plain.{cut};
ghost use Rattle.num_api.specs.Ranges.{InRange, NoWider};
ghost use Rattle.num_api.specs.Spans.{Span, range_of};
ghost use Rattle.num_api.specs.Standings.{standing_of, Stands};
ghost use Rattle.csharp.specs.Trees.{csexpr_tree};
ghost use Rattle.mem_temps.specs.Cuts.{IsKeptIn, IsTestCut, AreSidesCut, IsComparisonCut};

use crate::expressions::value_range;
use crate::ranges::Ranges;
use crate::sides::side_temp;
use c_syntax::{Comparison, TBinaryOp, TUnaryOp};
use csharp::CsExpr;
use machine_nums::meet;
use num_api::{NOp, Range, Standing, compared, cut_range, no_numbers, turned};

// The numbers of the first range that stand so to some number of the second.
fn standing_cut(how: Standing, s: Range, t: Range) -> Range
    ensures holds { (x y : ℤ) → InRange s x → InRange t y → Stands (standing_of how) x y → InRange result x }
    ensures plain { (p q : Span) → NoWider s (range_of p) → NoWider t (range_of q) → NoWider result (range_of (cut (standing_of how) p q)) }
{
    if t.holds_some() {
        cut_range(how, s, t)
    } else {
        no_numbers()
    }
}

/// Keeps of a temporary, where there is one, what lies in the cut, and tells whether numbers are left.
pub fn cut_temp(ranges: &mut Ranges, temp: Option<u64>, cut: Range) -> bool
    ensures { IsKeptIn ranges.old temp cut result ranges.new }
{
    match temp {
        Some(temp) => {
            let left = meet(ranges.at(temp), cut);
            ranges.put(temp, left);
            left.holds_some()
        }
        None => true,
    }
}

// Keeps of both sides of an operator what a test of this truth leaves.
fn cut_sides(ranges: &mut Ranges, op: NOp, left: &CsExpr, right: &CsExpr, truth: bool) -> bool
    ensures { AreSidesCut ranges.old op (csexpr_tree left.now) (csexpr_tree right.now) truth result ranges.new }
{
    let how = match compared(op, truth) {
        Some(how) => how,
        None => return true,
    };
    let first = value_range(ranges, left);
    let second = value_range(ranges, right);
    let a = side_temp(ranges, left);
    let b = side_temp(ranges, right);
    let some_left = cut_temp(ranges, a, standing_cut(how, first, second));
    let some_right = cut_temp(ranges, b, standing_cut(turned(how), second, first));
    some_left && some_right
}

// Keeps of both sides of a comparison what a test of this truth leaves.
fn cut_comparison(
    ranges: &mut Ranges,
    c: Comparison,
    left: &CsExpr,
    right: &CsExpr,
    truth: bool,
) -> bool
    ensures { IsComparisonCut ranges.old c (csexpr_tree left.now) (csexpr_tree right.now) truth result ranges.new }
{
    match c {
        Comparison::Less => cut_sides(ranges, NOp::Lt, left, right, truth),
        Comparison::Greater => cut_sides(ranges, NOp::Lt, right, left, truth),
        Comparison::AtMost => cut_sides(ranges, NOp::Le, left, right, truth),
        Comparison::AtLeast => cut_sides(ranges, NOp::Le, right, left, truth),
        Comparison::Equal => cut_sides(ranges, NOp::Eq, left, right, truth),
        Comparison::Unequal => cut_sides(ranges, NOp::Ne, left, right, truth),
    }
}

/// Keeps what a test of this truth leaves of the temporaries that it compares, and tells whether numbers are left
/// of them. A negation follows its operand; a test that is no comparison cuts nothing.
pub fn cut_by_test(ranges: &mut Ranges, e: &CsExpr, truth: bool) -> bool
    ensures { IsTestCut ranges.old (csexpr_tree e.now) truth result ranges.new }
{
    match e {
        CsExpr::Unary { op, operand } => match op {
            TUnaryOp::Not => cut_by_test(ranges, operand, !truth),
            TUnaryOp::Plus(_) => true,
            TUnaryOp::Minus(_) => true,
            TUnaryOp::Complement(_) => true,
        },
        CsExpr::Binary { op, left, right } => match op {
            TBinaryOp::CompareInts(c, _) => cut_comparison(ranges, *c, left, right, truth),
            TBinaryOp::Arithmetic(_, _) => true,
            TBinaryOp::Shift(_, _) => true,
            TBinaryOp::ComparePointers(_) => true,
            TBinaryOp::PointerPlusInt { .. } => true,
            TBinaryOp::IntPlusPointer { .. } => true,
            TBinaryOp::PointerMinusInt { .. } => true,
            TBinaryOp::PointerMinusPointer { .. } => true,
        },
        CsExpr::Const { .. } => true,
        CsExpr::Null => true,
        CsExpr::Temp { .. } => true,
        CsExpr::Address { .. } => true,
        CsExpr::Convert { .. } => true,
    }
}
