// The state and its calls.

ghost use Rattle.std.specs.Prelude.{◌≡◌, ◌&&◌, ℕ, ℤ, List, IsTrue};
ghost use Rattle.env_lift.specs.States.{AllAdmit, known_in};
ghost use Rattle.env_lift.specs.Passes.{all_met};
ghost use Rattle.env_lift.specs.Laws.{total_weight, known_holds_in, known_some_in, first_flag, both_flags};

use crate::changes::{accepted, met};
use crate::cuts::may_hold;
use crate::evaluation::eval;
use crate::map::VarMap;
use crate::merges::{covers_all, joined, widened};
use crate::rounds::keep_rounds;
use crate::told::{put_facts, tell, tell_read};
use num_api::{
    Exact, ExactValue, Live, Message, Messages, NExpr, NumDomain, NumFacts, Oracle, Ramp, Range,
    Residue, Steps, ValueDomain, Var, may_be, no_numbers,
};
use std::alloc::{AllocError as NoMemory, Global};
use std::marker::Model;

/// A value for some of the variables; each other may be anything. A contract sees the list of the variables
/// with their values, by rising variable.
#[derive(Drop)]
pub struct Env<V> {
    alloc: Global,
    state: VarMap<V>,
}

impl<V> Model for Env<V> {
    ghost use Rattle.std.specs.Prelude.{List};
    ghost use Rattle.env_lift.specs.declared.entries.Entry.{Entry};

    ghost Value = { List (Entry V) };

    ghost view = { λ s. s.state };
}

impl<V: ValueDomain> Oracle for Env<V> {
    ghost admits = { AllAdmit V.admits };

    ghost exact = { V.exact && V.folds };

    ghost known = { known_in V.known };

    ghost known_holds = { known_holds_in V.admits V.known V.known_holds };

    ghost known_some = { λ s x claimed. known_some_in V.known (λ a. V.known_some a (first_flag V.exact V.folds claimed)) s x };

    ghost may_range = { λ s e r. Unit {0} };

    ghost may_residue = { λ s e r. Unit {0} };

    ghost may_be_same = { λ s x e. Unit {0} };

    /// The range of the expression's value; one that holds no number where it has no value.
    fn range(&self, e: &NExpr) -> Range {
        match eval(&self.state, e) {
            Some(value) => value.range(),
            None => no_numbers(),
        }
    }

    /// The class of the expression's value; that of 0 where it has no value.
    fn residue(&self, e: &NExpr) -> Residue {
        match eval(&self.state, e) {
            Some(value) => value.residue(),
            None => Residue { rem: 0, modulus: 0 },
        }
    }

    /// None is known.
    fn same(&self, _x: Var) -> Option<&NExpr> {
        None
    }
}

impl<V: ValueDomain> NumDomain for Env<V> {
    ghost holds = { all_met V.holds };

    ghost weight = { λ steps s. total_weight (V.weight steps) s };

    fn top(alloc: Global) -> Self {
        Env {
            alloc,
            state: VarMap::new(alloc),
        }
    }

    fn copy(&self) -> Result<Self, NoMemory> {
        Ok(Env {
            alloc: self.alloc,
            state: self.state.copy(self.alloc)?,
        })
    }

    fn assign<O: Oracle>(
        &mut self,
        x: Var,
        e: &NExpr,
        ask: &O,
        out: &mut Messages,
    ) -> Result<(), NoMemory> {
        let Some(value) = eval(&self.state, e) else {
            self.state.remove(x);
            return Ok(());
        };
        let value = met(value, ask.range(e), ask.residue(e));
        self.state.set(x, value)?;
        tell(x, &value, out)?;
        Ok(())
    }

    fn havoc(&mut self, x: Var, r: Range) -> Result<(), NoMemory> {
        match V::within(r) {
            Some(value) => self.state.set(x, value)?,
            None => self.state.remove(x),
        }
        Ok(())
    }

    fn forget(&mut self, x: Var) -> Result<(), NoMemory> {
        self.state.remove(x);
        Ok(())
    }

    fn assume<O: Oracle>(
        &mut self,
        e: &NExpr,
        truth: bool,
        ask: &O,
        out: &mut Messages,
    ) -> Result<Live, NoMemory> {
        if !may_hold(&self.state, e, truth) || !may_be(ask.range(e), truth) {
            return Ok(Live::Dead);
        }
        match keep_rounds(self.alloc, &mut self.state, e, truth)? {
            Live::Dead => return Ok(Live::Dead),
            Live::Live => {}
        }
        tell_read(&self.state, e, out)?;
        Ok(Live::Live)
    }

    fn accept(&mut self, m: &Message) -> Result<Live, NoMemory> {
        accepted(&mut self.state, m)
    }

    fn join(&mut self, other: &Self) -> Result<(), NoMemory> {
        self.state = joined(self.alloc, &self.state, &other.state)?;
        Ok(())
    }

    fn widen<U: Fn(i128) -> Option<i128>, S: Steps>(
        &mut self,
        next: &Self,
        ramp: &Ramp<U>,
    ) -> Result<(), NoMemory> {
        self.state = widened::<V, U, S>(self.alloc, &self.state, &next.state, ramp)?;
        Ok(())
    }

    fn covers(&self, other: &Self) -> bool {
        covers_all(&self.state, &other.state)
    }

    fn facts(&self, out: &mut NumFacts) -> Result<(), NoMemory> {
        put_facts(self.state.entries(), out)
    }
}

/// The sharp and the plain laws hold where the values keep theirs.
impl<V: ExactValue> Exact for Env<V> {
    ghost is_exact = { both_flags V.exact V.folds V.is_exact.0 V.is_exact.1 };
}
