//! A matrix that keeps one of two mirrored bounds.
ghost use Rattle.std.specs.Prelude.{◌≡◌, ℕ, ◌≤◌, ◌<◌, ◌+◌, ◌*◌, IfOk};
ghost use Rattle.ext_int.specs.declared.Ext.TheVariants.{High};
ghost use Rattle.bound_matrix.specs.Bound.{bar, bound_at, InRange, AllInRange, LowersTo, RaisesTo, IsKept};

use crate::counting::Steps;
use crate::kept::{lower_kept, raise_kept, read_kept};
use ext_int::Ext;
use std::alloc::{AllocError as NoMemory, Global};
use std::marker::Model;
use std::sync::ledger::Ledger;

/// Upper bounds of the differences of signed variables, of which half are kept. Variable k stands
/// as `V(2k) = v(k)` and `V(2k + 1) = -v(k)`, and the bound of `i` and `j` is one of `V(j) - V(i)`.
#[derive(Drop)]
pub struct Half {
    vars: u32,
    kept: Vec<Ext>,
}

impl Model for Half {
    ghost use Rattle.bound_matrix.specs.Bound.{MatrixView, IsKept};

    ghost Value = { MatrixView };

    ghost view = { λ s. record { vars = s.vars; kept = s.kept.items } };

    ghost invariant = { λ s. IsKept s.vars s.kept.items };
}

impl Half {
    /// A matrix for so many variables, at most 24, with no bound.
    pub fn new(alloc: Global, vars: u32) -> Result<Half, NoMemory>
        requires { vars ≤ 24 }
        ensures vars { IfOk result (λ m. m.vars ≡ vars) }
        ensures none { IfOk result (λ m. (i j : ℕ) → bound_at m i j ≡ High) }
    {
        let size = 2 * vars as usize * (vars as usize + 1);
        let kept = vec![in alloc; Ext::High; size]?;
        Ok(Half { vars, kept })
    }

    /// How many indices there are: two for each variable.
    pub(crate) fn indices(&self) -> u32
        ensures value { result ≡ self.now.vars + self.now.vars }
        ensures few { result ≤ 48 }
        ensures range { AllInRange (bound_at self.now) }
    {
        self.vars + self.vars
    }

    /// A matrix for no variables. It takes no memory.
    pub fn empty(alloc: Global) -> Half
        ensures { result.vars ≡ 0 }
    {
        Half {
            vars: 0,
            kept: Vec::new(alloc),
        }
    }

    /// How many variables there are.
    pub fn vars(&self) -> u32
        ensures value { result ≡ self.now.vars }
        ensures kept { IsKept self.now.vars self.now.kept }
    {
        self.vars
    }

    /// How many bounds are kept.
    pub fn stored(&self) -> u32
        ensures { result ≡ 2 * self.now.vars * (self.now.vars + 1) }
    {
        2 * self.vars * (self.vars + 1)
    }

    /// The bound of `V(j) - V(i)`: `High` where there is none, and else at most 2^100 in size. The
    /// indices are below `2 * vars`. It counts one step.
    pub fn get<L: Ledger>(&self, i: u32, j: u32, steps: &mut Steps<L>) -> Ext
        requires row { i < 2 * self.now.vars }
        requires column { j < 2 * self.now.vars }
        ensures value { result ≡ bound_at self.now i j }
        ensures coherent { result ≡ bound_at self.now (bar j) (bar i) }
        ensures range { InRange result }
        ensures step { steps.new ≡ steps.old + 1 }
    {
        steps.tick();
        read_kept(&self.kept, self.vars as usize, i as usize, j as usize)
    }

    /// Lowers the bound of `V(j) - V(i)`, and with it that of `V(i xor 1) - V(j xor 1)`, to `bound`
    /// where that is less. A bound above 2^100 says nothing, and one below -2^100 is raised to it.
    /// The indices are below `2 * vars`. It counts one step.
    pub fn lower<L: Ledger>(&mut self, i: u32, j: u32, bound: Ext, steps: &mut Steps<L>)
        requires row { i < 2 * self.old.vars }
        requires column { j < 2 * self.old.vars }
        ensures vars { self.new.vars ≡ self.old.vars }
        ensures lowered { LowersTo i j bound (bound_at self.old) (bound_at self.new) }
        ensures step { steps.new ≡ steps.old + 1 }
    {
        steps.tick();
        lower_kept(
            &mut self.kept,
            self.vars as usize,
            i as usize,
            j as usize,
            bound,
        );
    }

    /// Raises the bound of `V(j) - V(i)`, and with it its mirror image, to `bound` where that is greater.
    pub fn raise<L: Ledger>(&mut self, i: u32, j: u32, bound: Ext, steps: &mut Steps<L>)
        requires row { i < 2 * self.old.vars }
        requires column { j < 2 * self.old.vars }
        ensures vars { self.new.vars ≡ self.old.vars }
        ensures raised { RaisesTo i j bound (bound_at self.old) (bound_at self.new) }
        ensures step { steps.new ≡ steps.old + 1 }
    {
        steps.tick();
        raise_kept(
            &mut self.kept,
            self.vars as usize,
            i as usize,
            j as usize,
            bound,
        );
    }

    /// The same bounds once more.
    pub fn copy(&self) -> Result<Half, NoMemory>
        ensures { IfOk result (λ m. m ≡ self.now) }
    {
        Ok(Half {
            vars: self.vars,
            kept: self.kept.clone()?,
        })
    }
}
