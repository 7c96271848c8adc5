// A pack of variables and the bounds of their sums and differences.

ghost use Rattle.std.specs.Prelude.{◌≡◌, ℤ, List, ◌≤◌, ◌<◌, ◌*◌, ◌+ℤ◌, neg_ℤ, length, IfOk, IsTrue};
ghost use Rattle.ext_int.specs.Ext.{Above, AtMost};
ghost use Rattle.bound_matrix.specs.Bound.{bound_at, cut, InRange};
ghost use Rattle.bound_matrix.specs.Points.{signed};
ghost use Rattle.num_api.specs.Lives.{is_live};
ghost use Rattle.octagons_pack.specs.Packs.{picked};
ghost use Rattle.octagons_pack.specs.Changes.{Changes};
ghost use Rattle.octagons_changes.specs.States.{Admits, IsPack, no_relations};

use ext_int::{Ext, Live};
use octagons_bounds::Bounds;
use octagons_pack::{Change, sources};
use std::alloc::{AllocError as NoMemory, Global};
use std::marker::Model;

/// The variables of a pack, in the order of their use, and the bounds of their sums and differences.
#[derive(Drop)]
pub(crate) struct Related {
    pub(crate) pack: Vec<u64>,
    pub(crate) bounds: Bounds,
}

impl Model for Related {
    ghost use Rattle.octagons_changes.specs.States.{OctagonView, IsPack};

    ghost Value = { OctagonView };

    ghost view = { λ s. record { pack = s.pack.items; matrix = s.bounds } };

    ghost invariant = { λ s. IsPack s.pack.items s.bounds.vars };
}

impl Related {
    // Nothing is known of any variable. It takes no memory.
    pub(crate) fn none(alloc: Global) -> Related
        ensures { result ≡ no_relations }
    {
        Related {
            pack: Vec::new(alloc),
            bounds: Bounds::empty(alloc),
        }
    }

    // The same once more.
    pub(crate) fn copy(&self) -> Result<Related, NoMemory>
        ensures { IfOk result (λ r. r ≡ self.now) }
    {
        Ok(Related {
            pack: self.pack.clone()?,
            bounds: self.bounds.copy()?,
        })
    }

    // The variables.
    pub(crate) fn pack(&self) -> &[u64]
        ensures value { result.now ≡ self.now.pack }
        ensures few { IsPack result.now self.now.matrix.vars }
    {
        self.pack.as_slice()
    }

    // What is known of the variables of another pack, where one variable may be set.
    pub(crate) fn redrawn(
        &self,
        alloc: Global,
        pack: Vec<u64>,
        change: Option<Change>,
    ) -> Result<Related, NoMemory>
        requires { length pack.items ≤ 24 }
        ensures pack { IfOk result (λ r. r.pack ≡ pack.items) }
        ensures points { IfOk result (λ r. (v w : List ℤ) → Changes change self.now.pack v w → Admits self.now v → Admits r w) }
    {
        let from = sources(self.pack.as_slice(), pack.as_slice(), change);
        let bounds = self.bounds.drawn(alloc, pack.len() as u32, &from)?;
        Ok(Related { pack, bounds })
    }

    // The bound of `V(j) - V(i)`: `High` where there is none.
    pub(crate) fn bound(&self, i: u32, j: u32) -> Ext
        ensures value { result ≡ bound_at self.now.matrix i j }
        ensures range { InRange result }
    {
        let indices = 2 * self.bounds.vars();
        if i < indices && j < indices {
            self.bounds.get(i, j)
        } else {
            Ext::High
        }
    }

    // Lowers a bound, and closes the bounds again.
    pub(crate) fn lower(&mut self, i: u32, j: u32, bound: Ext) -> Live
        requires row { i < 2 * length self.old.pack }
        requires column { j < 2 * length self.old.pack }
        ensures pack { self.new.pack ≡ self.old.pack }
        ensures lowered { AtMost (bound_at self.new.matrix i j) (cut bound) }
        ensures points { (v : List ℤ) → Admits self.old v → Above bound (signed (picked v self.old.pack) j +ℤ neg_ℤ (signed (picked v self.old.pack) i)) → IsTrue (is_live result) × Admits self.new v }
    {
        self.bounds.lower(i, j, bound)
    }
}
