// Two sides and their laws.
#![tactic(auto, using(csharp::proofs::CodeTrees::the_code_trees))]

ghost use Rattle.std.specs.Prelude.{◌+◌};

use block_mem::Scalar;
use c_syntax::{Facts, IntType, Shown};
use csharp::{CsCheck, CsExpr, CsProgram};
use ext_int::Live;
use mem_api::{Exact, MemDomain};
use mem_narrowed::narrowed;
use num_api::{Ramp, Steps};
use std::alloc::{AllocError as NoMemory, Global};

/// The states that both sides have.
#[derive(Drop)]
pub struct Paired<M, N> {
    alloc: Global,
    first: M,
    second: N,
}

impl<M: MemDomain, N: MemDomain> MemDomain for Paired<M, N> {
    ghost is_for = { λ m q. M.is_for m.first q × N.is_for m.second q };

    ghost stands = { λ m s. M.stands m.first s × N.stands m.second s };

    ghost sharp = { λ m s. M.sharp m.first s × N.stands m.second s };

    ghost exact = { λ q. M.exact q };

    ghost under = { λ m p. M.under m.first p };

    ghost weight = { λ steps m. M.weight steps m.first + N.weight steps m.second };

    fn start(alloc: Global, program: &CsProgram) -> Result<Self, NoMemory> {
        let first = M::start(alloc, program)?;
        let second = N::start(alloc, program)?;
        Ok(Paired {
            alloc,
            first,
            second,
        })
    }

    fn copy(&self) -> Result<Self, NoMemory> {
        let first = self.first.copy()?;
        let second = self.second.copy()?;
        Ok(Paired {
            alloc: self.alloc,
            first,
            second,
        })
    }

    fn set(&mut self, temp: u64, value: &CsExpr) -> Result<(), NoMemory> {
        self.first.set(temp, value)?;
        self.second.set(temp, value)
    }

    fn load(&mut self, temp: u64, address: &CsExpr, ty: Scalar) -> Result<(), NoMemory> {
        self.first.load(temp, address, ty)?;
        self.second.load(temp, address, ty)
    }

    fn store(&mut self, address: &CsExpr, ty: Scalar, value: &CsExpr) -> Result<(), NoMemory> {
        self.first.store(address, ty, value)?;
        self.second.store(address, ty, value)
    }

    fn copy_bytes(&mut self, to: &CsExpr, from: &CsExpr, size: u64) -> Result<(), NoMemory> {
        self.first.copy_bytes(to, from, size)?;
        self.second.copy_bytes(to, from, size)
    }

    fn undefine(&mut self, object: u64) -> Result<(), NoMemory> {
        self.first.undefine(object)?;
        self.second.undefine(object)
    }

    fn input(&mut self, temp: u64, ty: IntType) -> Result<(), NoMemory> {
        self.first.input(temp, ty)?;
        self.second.input(temp, ty)
    }

    fn enter(&mut self, names: &[u64]) -> Result<(), NoMemory> {
        self.first.enter(names)?;
        self.second.enter(names)
    }

    fn leave(&mut self, names: &[u64]) -> Result<(), NoMemory> {
        self.first.leave(names)?;
        self.second.leave(names)
    }

    fn assume(&mut self, condition: &CsExpr, truth: bool) -> Result<Live, NoMemory> {
        match self.first.assume(condition, truth)? {
            Live::Dead => Ok(Live::Dead),
            Live::Live => self.second.assume(condition, truth),
        }
    }

    fn show(&self, check: &CsCheck) -> Result<Shown, NoMemory> {
        let first = self.first.show(check)?;
        let second = self.second.show(check)?;
        narrowed(self.alloc, &first, &second)
    }

    fn pass(&mut self, check: &CsCheck) -> Result<Live, NoMemory> {
        match self.first.pass(check)? {
            Live::Dead => Ok(Live::Dead),
            Live::Live => self.second.pass(check),
        }
    }

    fn join(&mut self, other: &Self) -> Result<(), NoMemory> {
        self.first.join(&other.first)?;
        self.second.join(&other.second)
    }

    fn widen<U: Fn(i128) -> Option<i128>, S: Steps>(
        &mut self,
        next: &Self,
        ramp: &Ramp<U>,
    ) -> Result<bool, NoMemory> {
        let first = self.first.widen::<U, S>(&next.first, ramp)?;
        let second = self.second.widen::<U, S>(&next.second, ramp)?;
        Ok(first || second)
    }

    fn covers(&self, other: &Self) -> Result<bool, NoMemory> {
        if !self.first.covers(&other.first)? {
            return Ok(false);
        }
        self.second.covers(&other.second)
    }

    fn facts(&self, out: &mut Facts) -> Result<(), NoMemory> {
        self.first.facts(out)?;
        self.second.facts(out)
    }

    ghost sharp_stands = { λ m s h. (M.sharp_stands m.first s h.0, h.1) };

    ghost sharp_alone = { λ m s t h stands. M.sharp_alone m.first s t h.0 stands.0 };

    ghost under_left = { λ m p q h. M.under_left m.first p q h };

    ghost under_right = { λ m p q h. M.under_right m.first p q h };
}

impl<M: Exact, N: MemDomain> Exact for Paired<M, N> {
    ghost is_exact = { λ q. M.is_exact q };
}
