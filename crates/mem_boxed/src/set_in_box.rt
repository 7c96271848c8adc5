// A set in a box and its laws.

ghost use Rattle.std.specs.Prelude.{◌≡◌, IfOk};

use block_mem::Scalar;
use c_syntax::{Facts, IntType, Shown};
use csharp::{CsCheck, CsExpr, CsProgram};
use ext_int::Live;
use mem_api::{Exact, MemDomain};
use num_api::{Ramp, Steps};
use std::alloc::{AllocError as NoMemory, Global};
use std::marker::Model;

/// A set of states in a box of its own. A contract sees the set.
#[derive(Drop)]
pub struct Boxed<M> {
    alloc: Global,
    set: Box<M>,
}

impl<M> Model for Boxed<M> {
    ghost Value = { M };

    ghost coded = { M.code };

    ghost view = { λ b. b.set.value };
}

impl<M: Drop> Boxed<M> {
    /// Puts a set into a box.
    pub fn new(alloc: Global, set: M) -> Result<Boxed<M>, NoMemory>
        ensures { IfOk result (λ b. b ≡ set) }
    {
        Ok(Boxed {
            alloc,
            set: Box::new(alloc, set)?,
        })
    }
}

impl<M: MemDomain> MemDomain for Boxed<M> {
    ghost is_for = { M.is_for };

    ghost stands = { M.stands };

    ghost sharp = { M.sharp };

    ghost exact = { M.exact };

    ghost under = { M.under };

    ghost weight = { M.weight };

    fn start(alloc: Global, program: &CsProgram) -> Result<Self, NoMemory> {
        let set = M::start(alloc, program)?;
        Boxed::new(alloc, set)
    }

    fn copy(&self) -> Result<Self, NoMemory> {
        let set = self.set.copy()?;
        Boxed::new(self.alloc, set)
    }

    fn set(&mut self, temp: u64, value: &CsExpr) -> Result<(), NoMemory> {
        self.set.set(temp, value)
    }

    fn load(&mut self, temp: u64, address: &CsExpr, ty: Scalar) -> Result<(), NoMemory> {
        self.set.load(temp, address, ty)
    }

    fn store(&mut self, address: &CsExpr, ty: Scalar, value: &CsExpr) -> Result<(), NoMemory> {
        self.set.store(address, ty, value)
    }

    fn copy_bytes(&mut self, to: &CsExpr, from: &CsExpr, size: u64) -> Result<(), NoMemory> {
        self.set.copy_bytes(to, from, size)
    }

    fn undefine(&mut self, object: u64) -> Result<(), NoMemory> {
        self.set.undefine(object)
    }

    fn input(&mut self, temp: u64, ty: IntType) -> Result<(), NoMemory> {
        self.set.input(temp, ty)
    }

    fn enter(&mut self, names: &[u64]) -> Result<(), NoMemory> {
        self.set.enter(names)
    }

    fn leave(&mut self, names: &[u64]) -> Result<(), NoMemory> {
        self.set.leave(names)
    }

    fn assume(&mut self, condition: &CsExpr, truth: bool) -> Result<Live, NoMemory> {
        self.set.assume(condition, truth)
    }

    fn show(&self, check: &CsCheck) -> Result<Shown, NoMemory> {
        self.set.show(check)
    }

    fn pass(&mut self, check: &CsCheck) -> Result<Live, NoMemory> {
        self.set.pass(check)
    }

    fn join(&mut self, other: &Self) -> Result<(), NoMemory> {
        self.set.join(&other.set)
    }

    fn widen<U: Fn(i128) -> Option<i128>, S: Steps>(
        &mut self,
        next: &Self,
        ramp: &Ramp<U>,
    ) -> Result<bool, NoMemory> {
        self.set.widen::<U, S>(&next.set, ramp)
    }

    fn covers(&self, other: &Self) -> Result<bool, NoMemory> {
        self.set.covers(&other.set)
    }

    fn facts(&self, out: &mut Facts) -> Result<(), NoMemory> {
        self.set.facts(out)
    }

    ghost sharp_stands = { λ m s h. M.sharp_stands m s h };

    ghost sharp_alone = { λ m s t h stands. M.sharp_alone m s t h stands };

    ghost under_left = { λ m p q h. M.under_left m p q h };

    ghost under_right = { λ m p q h. M.under_right m p q h };
}

impl<M: Exact> Exact for Boxed<M> {
    ghost is_exact = { λ q. M.is_exact q };
}
