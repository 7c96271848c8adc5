// Expressions as sums.
#![tactic(auto, using(num_api::proofs::Trees::nexpr_trees))]

ghost use Rattle.std.specs.Prelude.{◌≡◌, ℤ, List, ◌+ℤ◌, neg_ℤ, IfSome, Some};
ghost use Rattle.num_api.specs.Exprs.{nexpr_tree};
ghost use Rattle.num_api.specs.Value.{unary_value, binary_value};
ghost use Rattle.octagons_linear.specs.Forms.{signed_value, linear_value, IsLinear};

use num_api::{NExpr, NOp};

/// A variable, or its negation.
#[derive(Clone, Copy, PartialEq, Eq)]
pub struct Signed {
    pub var: u64,
    pub negated: bool,
}

/// A sum of at most two variables, each with its sign, and a number.
#[derive(Clone, Copy)]
pub enum Linear {
    Number(i128),
    One(Signed, i128),
    Two(Signed, Signed, i128),
}

/// The variable with the other sign.
pub fn turned(s: Signed) -> Signed
    ensures { (v : List ℤ) → signed_value v result ≡ neg_ℤ (signed_value v s) }
{
    Signed {
        var: s.var,
        negated: !s.negated,
    }
}

/// The sum of both; `None` where it has more than two variables, or a number that is no `i128`.
pub fn sum(a: Linear, b: Linear) -> Option<Linear>
    ensures { IfSome result (λ l. (v : List ℤ) → linear_value v l ≡ linear_value v a +ℤ linear_value v b) }
{
    match (a, b) {
        (Linear::Number(m), Linear::Number(n)) => Some(Linear::Number(m.checked_add(n)?)),
        (Linear::Number(m), Linear::One(s, n)) => Some(Linear::One(s, m.checked_add(n)?)),
        (Linear::One(s, m), Linear::Number(n)) => Some(Linear::One(s, m.checked_add(n)?)),
        (Linear::Number(m), Linear::Two(s, t, n)) => Some(Linear::Two(s, t, m.checked_add(n)?)),
        (Linear::Two(s, t, m), Linear::Number(n)) => Some(Linear::Two(s, t, m.checked_add(n)?)),
        (Linear::One(s, m), Linear::One(t, n)) => Some(Linear::Two(s, t, m.checked_add(n)?)),
        _ => None,
    }
}

/// The negated sum; `None` where its number is no `i128`.
pub fn negation(a: Linear) -> Option<Linear>
    ensures { IfSome result (λ l. (v : List ℤ) → linear_value v l ≡ neg_ℤ (linear_value v a)) }
{
    match a {
        Linear::Number(n) => Some(Linear::Number(n.checked_neg()?)),
        Linear::One(s, n) => Some(Linear::One(turned(s), n.checked_neg()?)),
        Linear::Two(s, t, n) => Some(Linear::Two(turned(s), turned(t), n.checked_neg()?)),
    }
}

/// The first sum less the second.
pub fn difference(a: Linear, b: Linear) -> Option<Linear>
    ensures { IfSome result (λ l. (v : List ℤ) → linear_value v l ≡ linear_value v a +ℤ neg_ℤ (linear_value v b)) }
{
    sum(a, negation(b)?)
}

// What an operator of one operand makes of a sum.
fn unary_sum(op: NOp, a: Linear) -> Option<Linear>
    ensures { IfSome result (λ l. (v : List ℤ) (n : ℤ) → unary_value op (linear_value v a) ≡ Some n → n ≡ linear_value v l) }
{
    match op {
        NOp::Neg => negation(a),
        _ => None,
    }
}

// What an operator makes of two sums.
fn binary_sum(op: NOp, a: Linear, b: Linear) -> Option<Linear>
    ensures { IfSome result (λ l. (v : List ℤ) (n : ℤ) → binary_value op (linear_value v a) (linear_value v b) ≡ Some n → n ≡ linear_value v l) }
{
    match op {
        NOp::Add => sum(a, b),
        NOp::Sub => difference(a, b),
        _ => None,
    }
}

/// The expression as a sum, where it is one of at most two variables.
pub fn linear_of(e: &NExpr) -> Option<Linear>
    ensures { IfSome result (IsLinear (nexpr_tree e.now)) }
{
    match e {
        NExpr::Const(n) => Some(Linear::Number(*n)),
        NExpr::Read(x) => Some(Linear::One(
            Signed {
                var: x.0,
                negated: false,
            },
            0,
        )),
        NExpr::Unary(op, a) => {
            let operand = linear_of(a)?;
            unary_sum(*op, operand)
        }
        NExpr::Binary(op, a, b) => {
            let left = linear_of(a)?;
            let right = linear_of(b)?;
            binary_sum(*op, left, right)
        }
    }
}
