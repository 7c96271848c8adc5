// Octagons as a numeric domain.
#![tactic(auto, using(num_api::proofs::Trees::nexpr_trees))]

ghost use Rattle.std.specs.Prelude.{◌≡◌, ◌↔◌, ℤ, List, IsTrue, IfOk, OnOk, Some};
ghost use Rattle.num_api.specs.Lives.{is_live};
ghost use Rattle.num_api.specs.Messages.{Holds, IsProper};
ghost use Rattle.octagons_changes.specs.States.{Admits, includes};
ghost use Rattle.octagons.specs.Entries.{Covers};
ghost use Rattle.octagons_changes.specs.Lowerings.{IsTold};

use num_api::{
    Live, Message, Messages, NExpr, NumDomain, NumFacts, Oracle, Ramp, Range, Residue, Steps, Var,
};
use octagons_changes::Relations;
use octagons_told::{range, tell_all, tell_changes};
use std::alloc::{AllocError as NoMemory, Global};
use std::marker::Model;

/// Bounds of the sums and differences of the variables of a pack. Copies share them until they are changed.
#[derive(Drop)]
pub struct Octagon {
    known: Relations,
}

impl Model for Octagon {
    ghost use Rattle.octagons_changes.specs.States.{OctagonView};

    ghost Value = { OctagonView };

    ghost view = { λ s. s.known };
}

impl Oracle for Octagon {
    ghost use Rattle.std.specs.Prelude.{false, refl};
    ghost use Rattle.num_api.specs.Ranges.{all_numbers};
    ghost use Rattle.octagons_changes.specs.States.{Admits};
    ghost use Rattle.octagons_told.specs.Ranges.{IsRead};

    ghost admits = { Admits };

    ghost exact = { false };

    ghost known = { λ s x. all_numbers };

    ghost known_holds = { λ s v x a. record { low = tt; high = tt } };

    ghost known_some = { λ s x e. refl };

    ghost may_range = { IsRead };

    ghost may_residue = { λ s e r. Unit {0} };

    ghost may_be_same = { λ s x e. Unit {0} };

    /// The range of a sum of at most two variables, by their bounds; of others all numbers.
    fn range(&self, e: &NExpr) -> Range {
        range(&self.known, e)
    }

    /// The class of all numbers.
    fn residue(&self, _e: &NExpr) -> Residue {
        Residue { rem: 0, modulus: 1 }
    }

    /// None.
    fn same(&self, _x: Var) -> Option<&NExpr> {
        None
    }
}

impl NumDomain for Octagon {
    ghost use Rattle.octagons_changes.specs.States.{includes, openness};

    ghost holds = { includes };

    ghost weight = { openness };

    fn top(alloc: Global) -> Self {
        Octagon {
            known: Relations::none(alloc),
        }
    }

    fn copy(&self) -> Result<Self, NoMemory> {
        Ok(Octagon {
            known: self.known.copy()?,
        })
    }

    fn assign<O: Oracle>(
        &mut self,
        x: Var,
        e: &NExpr,
        ask: &O,
        out: &mut Messages,
    ) -> Result<(), NoMemory> {
        let before = self.known.copy()?;
        self.known.assign(x.0, e, ask)?;
        tell_changes(&self.known, &before, Some(x.0), out)?;
        Ok(())
    }

    fn havoc(&mut self, x: Var, r: Range) -> Result<(), NoMemory> {
        self.known.set_within(x.0, r)
    }

    fn forget(&mut self, x: Var) -> Result<(), NoMemory> {
        self.known.forget(x.0)
    }

    fn assume<O: Oracle>(
        &mut self,
        e: &NExpr,
        truth: bool,
        ask: &O,
        out: &mut Messages,
    ) -> Result<Live, NoMemory> {
        let before = self.known.copy()?;
        match self.known.assume(e, truth, ask)? {
            Live::Dead => Ok(Live::Dead),
            Live::Live => {
                tell_changes(&self.known, &before, None, out)?;
                Ok(Live::Live)
            }
        }
    }

    /// Keeps the valuations in which the message holds. A bound on two variables brings both in, and theirs is no
    /// greater afterwards.
    fn accept(&mut self, m: &Message) -> Result<Live, NoMemory>
        requires { IsProper m.now }
        ensures after { IfOk result (λ live. (v : List ℤ) → Admits self.old v → Holds v m.now → IsTrue (is_live live) × Admits self.new v) }
        ensures entry { OnOk result (IsTold self.new m.now) }
    {
        self.known.accept(m)
    }

    fn join(&mut self, other: &Self) -> Result<(), NoMemory> {
        self.known.join(&other.known)
    }

    fn widen<U: Fn(i128) -> Option<i128>, S: Steps>(
        &mut self,
        next: &Self,
        ramp: &Ramp<U>,
    ) -> Result<(), NoMemory> {
        self.known.widen::<U, S>(&next.known, ramp)
    }

    /// Whether each bound is at or above that of the other, looked up by variable. No bounds are closed for it.
    fn covers(&self, other: &Self) -> bool
        ensures value { result ≡ includes self.now other.now }
        ensures included { IsTrue result → (v : List ℤ) → Admits other.now v → Admits self.now v }
        ensures entries { IsTrue result ↔ Covers self.now other.now }
    {
        self.known.covers(&other.known)
    }

    fn facts(&self, out: &mut NumFacts) -> Result<(), NoMemory> {
        tell_all(&self.known, out)
    }
}
