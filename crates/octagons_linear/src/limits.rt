// Tests as limits of sums.
#![tactic(auto, using(num_api::proofs::Trees::nexpr_trees))]

ghost use Rattle.std.specs.Prelude.{◌≡◌, ℤ, pos, List, IsTrue, Some};
ghost use Rattle.num_api.specs.Exprs.{nexpr_tree};
ghost use Rattle.num_api.specs.Value.{value_of, has_truth};
ghost use Rattle.num_api.specs.Standings.{standing_of, Stands};
ghost use Rattle.octagons_linear.specs.Forms.{linear_value, Keeps};

use crate::forms::{Linear, difference, linear_of, negation, sum};
use num_api::{NExpr, NOp, Standing, compared};

/// At most two sums, each of which is at most 0.
#[derive(Clone, Copy)]
pub struct Limits {
    pub first: Option<Linear>,
    pub second: Option<Linear>,
}

// Nothing is known.
fn no_limits() -> Limits
    ensures { (v : List ℤ) → Keeps v result }
{
    Limits {
        first: None,
        second: None,
    }
}

// What a sum says that stands so to 0.
fn limits_at(sum_to_zero: Linear, how: Standing) -> Limits
    ensures { (v : List ℤ) → Stands (standing_of how) (linear_value v sum_to_zero) (pos 0) → Keeps v result }
{
    match how {
        Standing::Less => Limits {
            first: sum(sum_to_zero, Linear::Number(1)),
            second: None,
        },
        Standing::AtMost => Limits {
            first: Some(sum_to_zero),
            second: None,
        },
        Standing::Greater => Limits {
            first: difference(Linear::Number(1), sum_to_zero),
            second: None,
        },
        Standing::AtLeast => Limits {
            first: negation(sum_to_zero),
            second: None,
        },
        Standing::Same => Limits {
            first: Some(sum_to_zero),
            second: negation(sum_to_zero),
        },
        Standing::Other => no_limits(),
    }
}

// What a comparison says whose sides stand so.
fn compared_limits(a: &NExpr, b: &NExpr, how: Standing) -> Limits
    ensures { (v : List ℤ) (x y : ℤ) → value_of v (nexpr_tree a.now) ≡ Some x → value_of v (nexpr_tree b.now) ≡ Some y → Stands (standing_of how) x y → Keeps v result }
{
    let (Some(left), Some(right)) = (linear_of(a), linear_of(b)) else {
        return no_limits();
    };
    match difference(left, right) {
        Some(sum_to_zero) => limits_at(sum_to_zero, how),
        None => no_limits(),
    }
}

// What an expression says that is 0, or is not.
fn truth_limits(e: &NExpr, truth: bool) -> Limits
    ensures { (v : List ℤ) (n : ℤ) → value_of v (nexpr_tree e.now) ≡ Some n → IsTrue (has_truth truth n) → Keeps v result }
{
    if truth {
        return no_limits();
    }
    match linear_of(e) {
        Some(zero) => limits_at(zero, Standing::Same),
        None => no_limits(),
    }
}

/// What a test says that has this truth.
pub fn limits_of(e: &NExpr, truth: bool) -> Limits
    ensures { (v : List ℤ) (n : ℤ) → value_of v (nexpr_tree e.now) ≡ Some n → IsTrue (has_truth truth n) → Keeps v result }
{
    match e {
        NExpr::Unary(op, a) => match op {
            NOp::Not => limits_of(a, !truth),
            _ => truth_limits(e, truth),
        },
        NExpr::Binary(op, a, b) => match compared(*op, truth) {
            Some(how) => compared_limits(a, b, how),
            None => truth_limits(e, truth),
        },
        NExpr::Const(_) => truth_limits(e, truth),
        NExpr::Read(_) => truth_limits(e, truth),
    }
}
