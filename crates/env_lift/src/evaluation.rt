// The value of an expression, part by part.
#![tactic(auto, using(num_api::proofs::Trees::nexpr_trees))]

ghost use Rattle.std.specs.Prelude.{◌≡◌, ℕ, ℤ, pos, List, true, false, IfSome, IfNone};
ghost use Rattle.num_api.specs.Exprs.{nexpr_tree};
ghost use Rattle.num_api.specs.Ranges.{IsPoint, NoWider};
ghost use Rattle.num_api.specs.Spans.{IsNotByZero};
ghost use Rattle.ext_int.specs.Valuation.{value_at};
ghost use Rattle.num_api.specs.declared.expr.NOp.TheVariants.{Quot};
ghost use Rattle.env_lift.specs.States.{AllAdmit, known_in};
ghost use Rattle.env_lift.specs.Evaluation.{IsValue, IsNoValue};

use crate::VarMap;
use ext_int::Ext;
use num_api::{NExpr, NOp, Range, ValueDomain, Var};

// The value of a variable.
fn variable<V: ValueDomain>(state: &VarMap<V>, x: Var) -> V
    ensures holds { (v : List ℤ) → AllAdmit V.admits state.now v → V.admits result (value_at v x.0) }
    ensures known { NoWider (V.known result) (known_in V.known state.now x.0) }
    ensures zero { IsPoint (V.known result) (pos 0) → IsPoint (known_in V.known state.now x.0) (pos 0) }
{
    match state.get(x) {
        Some(value) => value,
        None => V::top(),
    }
}

// Whether the value is known to be 0.
fn is_zero<V: ValueDomain>(value: &V) -> bool
    ensures yes { result ≡ true → IsPoint (V.known value.now) (pos 0) }
    ensures no { result ≡ false → IsPoint (V.known value.now) (pos 0) → ⊥ }
{
    let r = value.range();
    r.lo == Ext::Fin(0) && r.hi == Ext::Fin(0)
}

// Whether the operator is a quotient, and its divisor is known to be 0.
fn divides_by_zero<V: ValueDomain>(op: NOp, divisor: &V) -> bool
    ensures yes { result ≡ true → (op ≡ Quot) × IsPoint (V.known divisor.now) (pos 0) }
    ensures no { result ≡ false → IsNotByZero op (V.known divisor.now) }
{
    match op {
        NOp::Quot => is_zero(divisor),
        _ => false,
    }
}

/// A value that admits each number which the expression has in a valuation of the state; `None` only where
/// it has none. It takes a step for each node of the expression, and looks up the variables that it reads.
pub fn eval<V: ValueDomain>(state: &VarMap<V>, e: &NExpr) -> Option<V>
    ensures some { IfSome result (IsValue V.admits V.known V.class V.exact V.folds state.now (nexpr_tree e.now)) }
    ensures none { IfNone result (IsNoValue V.admits V.known V.exact state.now (nexpr_tree e.now)) }
{
    match e {
        NExpr::Const(n) => V::within(Range::point(*n)),
        NExpr::Read(x) => Some(variable(state, *x)),
        NExpr::Unary(op, a) => {
            let a = eval(state, a)?;
            Some(V::unary(*op, &a))
        }
        NExpr::Binary(op, a, b) => {
            let a = eval(state, a)?;
            let b = eval(state, b)?;
            if divides_by_zero(*op, &b) {
                return None;
            }
            Some(V::binary(*op, &a, &b))
        }
    }
}
