// Tests and messages that hold.
#![tactic(auto, using(num_api::proofs::Trees::nexpr_trees))]

ghost use Rattle.std.specs.Prelude.{◌≡◌, ℤ, List, ◌≤ℤ◌, ◌+ℤ◌, ◌*ℤ◌, IfOk, OnOk, IfSome, IsTrue, Some, false};
ghost use Rattle.ext_int.specs.Valuation.{value_at};
ghost use Rattle.num_api.specs.Exprs.{nexpr_tree};
ghost use Rattle.num_api.specs.Lives.{is_live};
ghost use Rattle.num_api.specs.Messages.{Holds, IsProper, IsSign};
ghost use Rattle.num_api.specs.Ranges.{InRange};
ghost use Rattle.num_api.specs.Value.{value_of, has_truth};
ghost use Rattle.octagons_linear.specs.Forms.{signed_value, IsUpToZero, Keeps};
ghost use Rattle.octagons_changes.specs.States.{Admits};
ghost use Rattle.octagons_changes.specs.Lowerings.{sum_bound, IsTold, is_minus};
ghost use Rattle.ext_int.specs.Ext.{AtMost};
ghost use Rattle.bound_matrix.specs.Bound.{cut};

use crate::lowering::{limit_lowering, own_lowering, sum_lowering};
use crate::relations::Relations;
use ext_int::{Ext, neg_high};
use num_api::{Live, Message, NExpr, Oracle, Range, Unknowing, Var};
use octagons_linear::{Limits, Linear, Signed, difference, limits_of, linear_of, negation, turned};
use std::alloc::AllocError as NoMemory;

// A variable as it is.
fn plain(x: Var) -> Signed
    ensures value { (v : List ℤ) → signed_value v result ≡ value_at v x.0 }
    ensures parts { result ≡ record { var = x.0; negated = false } }
{
    Signed {
        var: x.0,
        negated: false,
    }
}

// A variable with a sign of 1 or -1.
fn with_sign(sign: i8, x: Var) -> Signed
    requires { IsSign sign }
    ensures value { (v : List ℤ) → signed_value v result ≡ (sign *ℤ value_at v x.0) }
    ensures parts { result ≡ record { var = x.0; negated = is_minus sign } }
{
    Signed {
        var: x.0,
        negated: sign < 0,
    }
}

// The two variables of a sum that has two.
fn two_of(l: Option<Linear>) -> Option<(u64, u64)> {
    match l {
        Some(Linear::Two(s, t, _)) => Some((s.var, t.var)),
        _ => None,
    }
}

// Whether a variable is one of the two that were used latest.
fn is_near(pack: &[u64], x: u64) -> bool {
    pack.iter().take(2).any(|z| *z == x)
}

// That the variable has the value of the expression, as limits.
fn equal_limits(x: Var, e: &NExpr) -> Option<Limits>
    ensures { IfSome result (λ l. (v : List ℤ) → value_of v (nexpr_tree e.now) ≡ Some (value_at v x.0) → Keeps v l) }
{
    let sum = difference(Linear::One(plain(x), 0), linear_of(e)?)?;
    Some(Limits {
        first: Some(sum),
        second: negation(sum),
    })
}

impl Relations {
    // Makes two variables of the pack the ones that were used latest.
    fn bring_forward(&mut self, x: u64, y: u64) -> Result<(), NoMemory>
        ensures { OnOk result ((v : List ℤ) → Admits self.old v → Admits self.new v) }
    {
        if is_near(self.pack(), x) && is_near(self.pack(), y) {
            return Ok(());
        }
        let pack = self.two_first(x, y)?;
        self.redraw(pack, None)
    }

    // Brings in the variables of a sum that has two.
    fn bring_two<O: Oracle>(&mut self, l: Option<Linear>, ask: &O) -> Result<(), NoMemory>
        ensures { OnOk result ((v : List ℤ) → Admits self.old v → O.admits ask.now v → Admits self.new v) }
    {
        match two_of(l) {
            Some((x, y)) if self.has(x) && self.has(y) => self.bring_forward(x, y),
            Some((x, y)) => {
                self.bring_known(y, ask)?;
                self.bring_known(x, ask)
            }
            None => Ok(()),
        }
    }

    // Keeps the valuations in which a sum is at most 0.
    fn limit(&mut self, l: Option<Linear>) -> Result<Live, NoMemory>
        ensures { IfOk result (λ live. (v : List ℤ) → Admits self.old v → IfSome l (IsUpToZero v) → IsTrue (is_live live) × Admits self.new v) }
    {
        match l {
            Some(l) => self.lower(limit_lowering(self.pack(), l)),
            None => Ok(Live::Live),
        }
    }

    // Keeps the valuations in which limits hold.
    fn meet<O: Oracle>(&mut self, limits: Limits, ask: &O) -> Result<Live, NoMemory>
        ensures { IfOk result (λ live. (v : List ℤ) → Admits self.old v → O.admits ask.now v → Keeps v limits → IsTrue (is_live live) × Admits self.new v) }
    {
        self.bring_two(limits.first, ask)?;
        match self.limit(limits.first)? {
            Live::Dead => Ok(Live::Dead),
            Live::Live => self.limit(limits.second),
        }
    }

    /// Keeps the valuations in which a test has this truth.
    pub fn assume<O: Oracle>(&mut self, e: &NExpr, truth: bool, ask: &O) -> Result<Live, NoMemory>
        ensures { IfOk result (λ live. (v : List ℤ) (n : ℤ) → Admits self.old v → O.admits ask.now v → value_of v (nexpr_tree e.now) ≡ Some n → IsTrue (has_truth truth n) → IsTrue (is_live live) × Admits self.new v) }
    {
        self.meet(limits_of(e, truth), ask)
    }

    // Keeps the valuations in which a variable lies in a range.
    fn accept_between(&mut self, x: Var, r: Range) -> Result<Live, NoMemory>
        ensures { IfOk result (λ live. (v : List ℤ) → Admits self.old v → InRange r (value_at v x.0) → IsTrue (is_live live) × Admits self.new v) }
    {
        match self.lower(own_lowering(self.pack(), plain(x), r.hi))? {
            Live::Dead => Ok(Live::Dead),
            Live::Live => {
                self.lower(own_lowering(self.pack(), turned(plain(x)), neg_high(r.lo)))
            }
        }
    }

    // Keeps the valuations in which the sum of two variables, each with its sign, is at most a bound.
    fn accept_sum(&mut self, s: Signed, t: Signed, bound: i128) -> Result<Live, NoMemory>
        ensures entry { OnOk result (AtMost (sum_bound self.new s t) (cut (Ext.Fin bound))) }
        ensures points { IfOk result (λ live. (v : List ℤ) → Admits self.old v → (signed_value v s +ℤ signed_value v t) ≤ℤ bound → IsTrue (is_live live) × Admits self.new v) }
    {
        self.bring_known(t.var, &Unknowing)?;
        self.bring_known(s.var, &Unknowing)?;
        let live = self.lower(sum_lowering(self.pack(), s, t, Ext::Fin(bound)))?;
        Ok(live)
    }

    // Keeps the valuations in which a variable has the value of an expression.
    fn accept_equal(&mut self, x: Var, e: &NExpr) -> Result<Live, NoMemory>
        ensures { IfOk result (λ live. (v : List ℤ) → Admits self.old v → value_of v (nexpr_tree e.now) ≡ Some (value_at v x.0) → IsTrue (is_live live) × Admits self.new v) }
    {
        match equal_limits(x, e) {
            Some(limits) => self.meet(limits, &Unknowing),
            None => Ok(Live::Live),
        }
    }

    /// Keeps the valuations in which a message holds. The variables of a bound on two come in.
    pub fn accept(&mut self, m: &Message) -> Result<Live, NoMemory>
        requires { IsProper m.now }
        ensures entry { OnOk result (IsTold self.new m.now) }
        ensures points { IfOk result (λ live. (v : List ℤ) → Admits self.old v → Holds v m.now → IsTrue (is_live live) × Admits self.new v) }
    {
        match m {
            Message::Between(x, r) => self.accept_between(*x, *r),
            Message::Class(_, _) => Ok(Live::Live),
            Message::Equal(x, e) => self.accept_equal(*x, e),
            Message::AtMost {
                sx,
                x,
                sy,
                y,
                bound,
            } => self.accept_sum(with_sign(*sx, *x), with_sign(*sy, *y), *bound),
        }
    }
}
