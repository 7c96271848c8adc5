// Sums and differences of two variables, as they are written.
#![tactic(auto, using(num_api::proofs::Trees::nexpr_trees))]

ghost use Rattle.std.specs.Prelude.{◌≡◌, ℕ, ℤ, List, ◌+ℤ◌, IfSome, IfNone, Some, None};
ghost use Rattle.ext_int.specs.Valuation.{value_at};
ghost use Rattle.num_api.specs.declared.expr.NOp.TheVariants as operators;
ghost use Rattle.num_api.specs.Exprs.{Read, Binary, nexpr_tree};
ghost use Rattle.num_api.specs.Value.{value_of, binary_value};
ghost use Rattle.octagons_linear.specs.Forms.{signed_value};
ghost use Rattle.octagons_told.specs.Ranges as ranges;

use num_api::{NExpr, NOp, Var};
use octagons_linear::Signed;

/// Two variables, each with its sign.
#[derive(Clone, Copy)]
pub(crate) struct Two {
    pub first: Signed,
    pub second: Signed,
}

// A variable as it is.
pub(crate) fn plus(x: Var) -> Signed
    ensures { result ≡ ranges.plus x.0 }
{
    Signed {
        var: x.0,
        negated: false,
    }
}

// The negation of a variable.
fn minus(x: Var) -> Signed
    ensures { result ≡ ranges.minus x.0 }
{
    Signed {
        var: x.0,
        negated: true,
    }
}

// The sum that an operator makes of two variables.
fn made(op: NOp, x: Var, y: Var) -> Option<Two>
    ensures value { IfSome result (λ p. (v : List ℤ) (n : ℤ) → binary_value op (value_at v x.0) (value_at v y.0) ≡ Some n → n ≡ (signed_value v p.first +ℤ signed_value v p.second)) }
    ensures sum { op ≡ operators.Add → result ≡ Some (record { first = ranges.plus x.0; second = ranges.plus y.0 }) }
    ensures difference { op ≡ operators.Sub → result ≡ Some (record { first = ranges.plus x.0; second = ranges.minus y.0 }) }
{
    match op {
        NOp::Add => Some(Two {
            first: plus(x),
            second: plus(y),
        }),
        NOp::Sub => Some(Two {
            first: plus(x),
            second: minus(y),
        }),
        _ => None,
    }
}

// The variable that an expression is.
fn variable(e: &NExpr) -> Option<Var>
    ensures some { IfSome result (λ x. nexpr_tree e.now ≡ Read x.0) }
    ensures none { IfNone result ((x : ℕ) → nexpr_tree e.now ≡ Read x → ⊥) }
{
    match e {
        NExpr::Read(x) => Some(*x),
        NExpr::Const(_) => None,
        NExpr::Unary(_, _) => None,
        NExpr::Binary(_, _, _) => None,
    }
}

// The sum that an operator makes of two expressions, where both are variables.
fn of_operands(op: NOp, a: &NExpr, b: &NExpr) -> Option<Two>
    ensures value { IfSome result (λ p. (v : List ℤ) (n : ℤ) → value_of v (Binary op (nexpr_tree a.now) (nexpr_tree b.now)) ≡ Some n → n ≡ (signed_value v p.first +ℤ signed_value v p.second)) }
    ensures sum { (x y : ℕ) → op ≡ operators.Add → nexpr_tree a.now ≡ Read x → nexpr_tree b.now ≡ Read y → result ≡ Some (record { first = ranges.plus x; second = ranges.plus y }) }
    ensures difference { (x y : ℕ) → op ≡ operators.Sub → nexpr_tree a.now ≡ Read x → nexpr_tree b.now ≡ Read y → result ≡ Some (record { first = ranges.plus x; second = ranges.minus y }) }
{
    match (variable(a), variable(b)) {
        (Some(x), Some(y)) => made(op, x, y),
        _ => None,
    }
}

// The sum that an expression is, where it is written as a sum or a difference of two variables.
pub(crate) fn read_two(e: &NExpr) -> Option<Two>
    ensures value { IfSome result (λ p. (v : List ℤ) (n : ℤ) → value_of v (nexpr_tree e.now) ≡ Some n → n ≡ (signed_value v p.first +ℤ signed_value v p.second)) }
    ensures sum { (x y : ℕ) → nexpr_tree e.now ≡ Binary operators.Add (Read x) (Read y) → result ≡ Some (record { first = ranges.plus x; second = ranges.plus y }) }
    ensures difference { (x y : ℕ) → nexpr_tree e.now ≡ Binary operators.Sub (Read x) (Read y) → result ≡ Some (record { first = ranges.plus x; second = ranges.minus y }) }
    ensures other { (x : ℕ) → nexpr_tree e.now ≡ Read x → result ≡ None }
{
    match e {
        NExpr::Binary(op, a, b) => of_operands(*op, a, b),
        NExpr::Const(_) => None,
        NExpr::Read(_) => None,
        NExpr::Unary(_, _) => None,
    }
}
