// Sides of a comparison that are temporaries.
#![tactic(auto, using(csharp::proofs::CodeTrees::the_code_trees))]

ghost use Rattle.csharp.specs.Trees.{csexpr_tree};
ghost use Rattle.mem_temps.specs.Cuts.{IsSideOf};

use crate::expressions::value_range;
use crate::ranges::Ranges;
use c_syntax::TUnaryOp;
use csharp::CsExpr;
use machine_nums::lies_in;

/// The temporary whose number an expression has, by conversions that keep each number.
pub fn side_temp(ranges: &Ranges, e: &CsExpr) -> Option<u64>
    ensures { IsSideOf ranges.now (csexpr_tree e.now) result }
{
    match e {
        CsExpr::Temp { temp } => Some(*temp),
        CsExpr::Convert { ty, operand } => {
            if lies_in(value_range(ranges, operand), *ty) {
                side_temp(ranges, operand)
            } else {
                None
            }
        }
        CsExpr::Unary { op, operand } => match op {
            TUnaryOp::Plus(_) => side_temp(ranges, operand),
            TUnaryOp::Minus(_) => None,
            TUnaryOp::Complement(_) => None,
            TUnaryOp::Not => None,
        },
        CsExpr::Const { .. } => None,
        CsExpr::Null => None,
        CsExpr::Address { .. } => None,
        CsExpr::Binary { .. } => None,
    }
}
