// The sets of states.
#![tactic(auto, using(csharp::proofs::CodeTrees::the_code_trees))]

ghost use Rattle.std.specs.Prelude.{◌≡◌, false, map};
ghost use Rattle.c_syntax.specs.Types.{object_tree};
ghost use Rattle.mem_cell_exprs.specs.Known.{StandsFor};
ghost use Rattle.mem_cell_domain.specs.Heavy.{known_weight};

use crate::bits::initials_have_eight_bits;
use crate::changes::{input, set, type_at};
use crate::declared::Declared;
use crate::initial::put_initials;
use crate::joins::{copy, covers, join, widen};
use crate::lives::{enter, leave, size_at};
use crate::start::first_known;
use block_mem::Scalar;
use c_syntax::{Facts, IntType, Shown};
use csharp::{CsCheck, CsExpr, CsProgram};
use csharp_typed_laws::{first_states_are_typed, values_are_typed};
use ext_int::Live;
use mem_api::MemDomain;
use mem_cell_exprs::Known;
use mem_cell_grid::Grid;
use mem_cell_loads::load;
use mem_cell_shows::{assume, pass, show};
use mem_cell_stores::{copy_bytes, store, undefine};
use num_api::{NumDomain, Ramp, Steps};
use std::alloc::{AllocError as NoMemory, Global};

/// The states of a program of these objects in which all that is known is so.
#[derive(Drop)]
pub struct CellStates<D> {
    objects: Declared,
    known: Known<D>,
}

impl<D: NumDomain> MemDomain for CellStates<D> {
    ghost is_for = { λ m q. (map object_tree m.objects ≡ q.objects) × (m.known.types ≡ q.temps) };

    ghost stands = { λ m s. StandsFor D.admits (map object_tree m.objects) m.known s };

    ghost sharp = { λ m s. ⊥ };

    ghost exact = { λ q. false };

    ghost under = { λ m p. ⊥ };

    ghost weight = { λ steps m. known_weight (D.weight steps) m.known };

    fn start(alloc: Global, program: &CsProgram) -> Result<Self, NoMemory> {
        first_states_are_typed();
        let initials = program.initial.as_slice();
        initials_have_eight_bits(initials);
        let objects = Declared::of(alloc, &program.objects)?;
        let mut grid = Grid::nothing(alloc, objects.as_slice().len())?;
        put_initials(alloc, &mut grid, initials)?;
        let temps = program.temps.as_slice();
        let known = first_known(alloc, temps, grid)?;
        Ok(CellStates { objects, known })
    }

    fn copy(&self) -> Result<Self, NoMemory> {
        Ok(CellStates {
            objects: self.objects.share()?,
            known: copy(&self.known)?,
        })
    }

    fn set(&mut self, temp: u64, value: &CsExpr) -> Result<(), NoMemory> {
        values_are_typed();
        let ty = type_at(self.known.types.as_slice(), temp);
        set(&mut self.known, temp, ty, value)
    }

    fn load(&mut self, temp: u64, address: &CsExpr, ty: Scalar) -> Result<(), NoMemory> {
        load(&mut self.known, temp, address, ty)
    }

    fn store(&mut self, address: &CsExpr, ty: Scalar, value: &CsExpr) -> Result<(), NoMemory> {
        values_are_typed();
        store(&mut self.known, address, ty, value)
    }

    fn copy_bytes(&mut self, to: &CsExpr, _from: &CsExpr, size: u64) -> Result<(), NoMemory> {
        copy_bytes(&mut self.known, to, size)
    }

    fn undefine(&mut self, object: u64) -> Result<(), NoMemory> {
        let size = size_at(self.objects.as_slice(), object);
        undefine(&mut self.known, object, size)
    }

    fn input(&mut self, temp: u64, ty: IntType) -> Result<(), NoMemory> {
        input(&mut self.known, temp, ty)
    }

    fn enter(&mut self, names: &[u64]) -> Result<(), NoMemory> {
        enter(&mut self.known, self.objects.as_slice(), names)
    }

    fn leave(&mut self, names: &[u64]) -> Result<(), NoMemory> {
        leave(&mut self.known, names)
    }

    fn assume(&mut self, condition: &CsExpr, truth: bool) -> Result<Live, NoMemory> {
        assume(&mut self.known, condition, truth)
    }

    fn show(&self, check: &CsCheck) -> Result<Shown, NoMemory> {
        show(&self.known, self.objects.as_slice().len() as u64, check)
    }

    fn pass(&mut self, check: &CsCheck) -> Result<Live, NoMemory> {
        pass(&mut self.known, self.objects.as_slice(), check)
    }

    fn join(&mut self, other: &Self) -> Result<(), NoMemory> {
        join(&mut self.known, &other.known)
    }

    fn widen<U: Fn(i128) -> Option<i128>, S: Steps>(
        &mut self,
        next: &Self,
        ramp: &Ramp<U>,
    ) -> Result<bool, NoMemory> {
        widen::<D, U, S>(&mut self.known, &next.known, ramp)
    }

    fn covers(&self, other: &Self) -> Result<bool, NoMemory> {
        covers(&self.known, &other.known)
    }

    fn facts(&self, _out: &mut Facts) -> Result<(), NoMemory> {
        Ok(())
    }

    ghost sharp_stands = { λ m s h. absurd h };

    ghost sharp_alone = { λ m s t h stands. absurd h };

    ghost under_left = { λ m p q h. h };

    ghost under_right = { λ m p q h. h };
}
