// Ranges of expressions.
#![tactic(auto, using(csharp::proofs::CodeTrees::the_code_trees))]

ghost use Rattle.std.specs.Prelude.{◌≡◌};
ghost use Rattle.num_api.specs.Spans.{point, range_of};
ghost use Rattle.csharp.specs.Trees.{csexpr_tree};
ghost use Rattle.mem_temps.specs.Exprs.{IsRangeOf};

use crate::Ranges;
use crate::operators::{binary_value, unary_value};
use csharp::CsExpr;
use machine_nums::wrap_range;
use num_api::Range;

// The range of a constant.
fn constant(value: &i128) -> Range
    ensures { result ≡ range_of (point value.now) }
{
    let value = *value;
    Range::point(value)
}

/// The range of an expression's value: an integer, or 0 for the null pointer and 1 for any other.
pub fn value_range(ranges: &Ranges, e: &CsExpr) -> Range
    ensures { IsRangeOf ranges.now (csexpr_tree e.now) result }
{
    match e {
        CsExpr::Const { ty: _, value } => constant(value),
        CsExpr::Null => Range::point(0),
        CsExpr::Temp { temp } => ranges.at(*temp),
        CsExpr::Address { object: _ } => Range::point(1),
        CsExpr::Unary { op, operand } => unary_value(*op, value_range(ranges, operand)),
        CsExpr::Binary { op, left, right } => {
            let left = value_range(ranges, left);
            let right = value_range(ranges, right);
            binary_value(*op, left, right)
        }
        CsExpr::Convert { ty, operand } => wrap_range(value_range(ranges, operand), *ty).range,
    }
}
