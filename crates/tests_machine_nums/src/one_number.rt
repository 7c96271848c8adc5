// A small numeric domain.
#![tactic(auto, using(num_api::proofs::Trees::nexpr_trees))]

ghost use Rattle.std.specs.Prelude.{◌≡◌, ◌≢◌, ℤ, List, IsTrue, true, false, Some, IfSome, IfNone, refl};
ghost use Rattle.ext_int.specs.Valuation.{value_at};
ghost use Rattle.num_api.specs.Exprs.{nexpr_tree};
ghost use Rattle.num_api.specs.Ranges.{InRange, all_numbers};
ghost use Rattle.num_api.specs.Residues.{InResidue};
ghost use Rattle.num_api.specs.Valuation.{SetTo};
ghost use Rattle.num_api.specs.Value.{value_of};
ghost use Rattle.num_api.specs.Messages.{Holds};
ghost use Rattle.num_api.specs.Lives.{is_live};
ghost use Rattle.intervals.specs.Interval as intervals;
ghost use Rattle.tests_machine_nums.specs.OneNumber.{Admits, knows_no_more, known_count};

use intervals::Interval;
use num_api::{
    Live, Message, Messages, NExpr, NumDomain, NumFacts, Oracle, Ramp, Range, Residue, Steps,
    ValueDomain, Var, may_be, number,
};
use std::alloc::{AllocError as NoMemory, Global};

/// What is known of a valuation: nothing, or the number of one variable. What is learnt last is kept.
#[derive(Clone, Copy, PartialEq, Eq)]
pub enum OneNumber {
    Anything,
    Known(Var, i128),
}

// The numbers that a variable may have.
fn numbers_of(state: OneNumber, x: Var) -> Interval
    ensures { (v : List ℤ) → Admits state v → intervals.Admits result (value_at v x.0) }
{
    match state {
        OneNumber::Known(y, n) if y.0 == x.0 => Interval::point(n),
        _ => Interval::top(),
    }
}

// The numbers that an expression may have.
fn interval_of(state: OneNumber, e: &NExpr) -> Interval
    ensures { (v : List ℤ) (n : ℤ) → Admits state v → value_of v (nexpr_tree e.now) ≡ Some n → intervals.Admits result n }
{
    match e {
        NExpr::Const(n) => Interval::point(*n),
        NExpr::Read(x) => numbers_of(state, *x),
        NExpr::Unary(op, a) => Interval::unary(*op, &interval_of(state, a)),
        NExpr::Binary(op, a, b) => {
            Interval::binary(*op, &interval_of(state, a), &interval_of(state, b))
        }
    }
}

// What is still known once the variable has another number.
fn without(state: OneNumber, x: Var) -> OneNumber
    ensures { (v w : List ℤ) (n : ℤ) → Admits state v → SetTo x.0 n v w → Admits result w }
{
    match state {
        OneNumber::Known(y, _) if y.0 == x.0 => OneNumber::Anything,
        _ => state,
    }
}

// What is known once the variable has a number of the range.
fn with_range(state: OneNumber, x: Var, r: Range) -> OneNumber
    ensures { (v w : List ℤ) (n : ℤ) → Admits state v → InRange r n → SetTo x.0 n v w → Admits result w }
{
    match number(r) {
        Some(n) => OneNumber::Known(x, n),
        None => without(state, x),
    }
}

// What is known where the variable's number lies in the range too; `None` only where it can't.
fn within(state: OneNumber, x: Var, r: Range) -> Option<OneNumber>
    ensures some { IfSome result (λ s. (v : List ℤ) → Admits state v → InRange r (value_at v x.0) → Admits s v) }
    ensures none { IfNone result ((v : List ℤ) → Admits state v → InRange r (value_at v x.0) → ⊥) }
{
    let left = numbers_of(state, x).meet(&Interval::within(r)?)?;
    Some(match number(left.range()) {
        Some(n) => OneNumber::Known(x, n),
        None => state,
    })
}

impl Oracle for OneNumber {
    ghost admits = { Admits };

    ghost exact = { false };

    ghost known = { λ s x. all_numbers };

    ghost known_holds = { λ s v x a. record { low = tt; high = tt } };

    ghost known_some = { λ s x claimed. refl };

    ghost may_range = { λ s e r. Unit {0} };

    ghost may_residue = { λ s e r. Unit {0} };

    ghost may_be_same = { λ s x e. Unit {0} };

    fn range(&self, e: &NExpr) -> Range {
        interval_of(*self, e).range()
    }

    fn residue(&self, e: &NExpr) -> Residue {
        interval_of(*self, e).residue()
    }

    fn same(&self, _x: Var) -> Option<&NExpr> {
        None
    }
}

impl NumDomain for OneNumber {
    ghost holds = { knows_no_more };

    ghost weight = { λ steps s. known_count s };

    fn top(_alloc: Global) -> Self {
        OneNumber::Anything
    }

    fn copy(&self) -> Result<Self, NoMemory> {
        Ok(*self)
    }

    fn assign<O: Oracle>(
        &mut self,
        x: Var,
        e: &NExpr,
        _ask: &O,
        _out: &mut Messages,
    ) -> Result<(), NoMemory> {
        *self = with_range(*self, x, self.range(e));
        Ok(())
    }

    fn havoc(&mut self, x: Var, r: Range) -> Result<(), NoMemory> {
        *self = with_range(*self, x, r);
        Ok(())
    }

    fn forget(&mut self, x: Var) -> Result<(), NoMemory> {
        *self = without(*self, x);
        Ok(())
    }

    fn assume<O: Oracle>(
        &mut self,
        e: &NExpr,
        truth: bool,
        _ask: &O,
        _out: &mut Messages,
    ) -> Result<Live, NoMemory> {
        Ok(if may_be(self.range(e), truth) {
            Live::Live
        } else {
            Live::Dead
        })
    }

    fn accept(&mut self, m: &Message) -> Result<Live, NoMemory> {
        let Message::Between(x, r) = m else {
            return Ok(Live::Live);
        };
        let Some(left) = within(*self, *x, *r) else {
            return Ok(Live::Dead);
        };
        *self = left;
        Ok(Live::Live)
    }

    fn join(&mut self, other: &Self) -> Result<(), NoMemory> {
        if !self.covers(other) {
            *self = OneNumber::Anything;
        }
        Ok(())
    }

    fn widen<U: Fn(i128) -> Option<i128>, S: Steps>(
        &mut self,
        next: &Self,
        _ramp: &Ramp<U>,
    ) -> Result<(), NoMemory> {
        if !self.covers(next) {
            *self = OneNumber::Anything;
        }
        Ok(())
    }

    fn covers(&self, other: &Self) -> bool {
        match (*self, *other) {
            (OneNumber::Anything, _) => true,
            (OneNumber::Known(_, _), OneNumber::Anything) => false,
            (OneNumber::Known(x, n), OneNumber::Known(y, m)) => x.0 == y.0 && n == m,
        }
    }

    fn facts(&self, out: &mut NumFacts) -> Result<(), NoMemory> {
        match *self {
            OneNumber::Anything => Ok(()),
            OneNumber::Known(x, n) => out.push(Message::Between(x, Range::point(n))),
        }
    }
}
