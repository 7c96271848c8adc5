// Relations that copies share.

ghost use Rattle.std.specs.Prelude.{◌≡◌, ℤ, List, ◌≤◌, ◌<◌, ◌*◌, ◌+ℤ◌, neg_ℤ, length, IfOk, OnOk, IsTrue};
ghost use Rattle.ext_int.specs.Ext.{Above, AtMost};
ghost use Rattle.bound_matrix.specs.Bound.{bound_at, cut, InRange};
ghost use Rattle.bound_matrix.specs.Points.{signed};
ghost use Rattle.num_api.specs.Lives.{is_live};
ghost use Rattle.octagons_pack.specs.Packs.{picked};
ghost use Rattle.octagons_pack.specs.Changes.{Changes};
ghost use Rattle.octagons_changes.specs.States.{Admits, IsPack, no_relations, includes};
ghost use Rattle.octagons_changes.specs.Lowerings.{IsMet, IsWithin, IsLowered};

use crate::lowering::Lowering;
use crate::related::Related;
use ext_int::{Ext, Live, cmp};
use octagons_pack::Change;
use std::alloc::{AllocError as NoMemory, Global};
use std::cmp::Ordering;
use std::marker::Model;
use std::rc::Rc;

/// The variables of a pack and the bounds of their sums and differences. Copies share them until they are changed.
#[derive(Drop)]
pub struct Relations {
    pub(crate) alloc: Global,
    shared: Option<Rc<Related>>,
}

impl Model for Relations {
    ghost use Rattle.std.specs.Option.{option_map};
    ghost use Rattle.octagons_changes.specs.States.{OctagonView, IsPack, shared_or};

    ghost Value = { OctagonView };

    ghost view = { λ s. shared_or (option_map (λ rc. rc.value) s.shared) };
}

impl Relations {
    /// Nothing is known of any variable. It takes no memory.
    pub fn none(alloc: Global) -> Relations
        ensures { result ≡ no_relations }
    {
        Relations {
            alloc,
            shared: None,
        }
    }

    /// The same once more. It takes no memory.
    pub fn copy(&self) -> Result<Relations, NoMemory>
        ensures { IfOk result (λ r. r ≡ self.now) }
    {
        let shared = match &self.shared {
            Some(known) => Some(known.clone()?),
            None => None,
        };
        Ok(Relations {
            alloc: self.alloc,
            shared,
        })
    }

    /// The variables, the one that was used latest first; at most 24.
    pub fn pack(&self) -> &[u64]
        ensures value { result.now ≡ self.now.pack }
        ensures size { IsPack result.now self.now.matrix.vars }
    {
        match &self.shared {
            Some(known) => known.pack(),
            None => &[],
        }
    }

    /// The bound of `V(j) - V(i)`: `High` where there is none.
    pub fn bound(&self, i: u32, j: u32) -> Ext
        ensures value { result ≡ bound_at self.now.matrix i j }
        ensures range { InRange result }
    {
        match &self.shared {
            Some(known) => known.bound(i, j),
            None => Ext::High,
        }
    }

    /// Whether each bound is at or above that of the other, by variables.
    pub fn covers(&self, other: &Relations) -> bool
        ensures value { result ≡ includes self.now other.now }
        ensures included { IsTrue result → (v : List ℤ) → Admits other.now v → Admits self.now v }
    {
        match (&self.shared, &other.shared) {
            (Some(own), Some(theirs)) => own.covers(theirs),
            (Some(own), None) => own.covers(&Related::none(self.alloc)),
            (None, _) => true,
        }
    }

    // The same, shared with no copy.
    pub(crate) fn owned(&self) -> Result<Related, NoMemory>
        ensures { IfOk result (λ r. r ≡ self.now) }
    {
        match &self.shared {
            Some(known) => known.copy(),
            None => Ok(Related::none(self.alloc)),
        }
    }

    // Knows this from now on.
    pub(crate) fn keep(&mut self, related: Related) -> Result<(), NoMemory>
        ensures { OnOk result (self.new ≡ related) }
    {
        self.shared = Some(Rc::new(self.alloc, related)?);
        Ok(())
    }

    // Goes over to another pack, where one variable may be set.
    pub(crate) fn redraw(&mut self, pack: Vec<u64>, change: Option<Change>) -> Result<(), NoMemory>
        requires { length pack.items ≤ 24 }
        ensures pack { OnOk result (self.new.pack ≡ pack.items) }
        ensures points { OnOk result ((v w : List ℤ) → Changes change self.old.pack v w → Admits self.old v → Admits self.new w) }
    {
        let next = match &self.shared {
            Some(known) => known.redrawn(self.alloc, pack, change)?,
            None => Related::none(self.alloc).redrawn(self.alloc, pack, change)?,
        };
        self.keep(next)
    }

    // Lowers a bound. No valuation is lost that meets it, and `Dead` says that there is none.
    pub(crate) fn lower(&mut self, lowering: Lowering) -> Result<Live, NoMemory>
        requires { IsWithin (length self.old.pack) lowering }
        ensures pack { OnOk result (self.new.pack ≡ self.old.pack) }
        ensures lowered { OnOk result (IsLowered (bound_at self.new.matrix) lowering) }
        ensures points { IfOk result (λ live. (v : List ℤ) → Admits self.old v → IsMet (picked v self.old.pack) lowering → IsTrue (is_live live) × Admits self.new v) }
    {
        match lowering {
            Lowering::Nothing => Ok(Live::Live),
            Lowering::Impossible => Ok(Live::Dead),
            Lowering::Entry { from, to, bound } => self.lower_entry(from, to, bound),
        }
    }

    // Lowers the bound of two indices.
    fn lower_entry(&mut self, from: u32, to: u32, bound: Ext) -> Result<Live, NoMemory>
        requires row { from < 2 * length self.old.pack }
        requires column { to < 2 * length self.old.pack }
        ensures pack { OnOk result (self.new.pack ≡ self.old.pack) }
        ensures lowered { OnOk result (AtMost (bound_at self.new.matrix from to) (cut bound)) }
        ensures points { IfOk result (λ live. (v : List ℤ) → Admits self.old v → Above bound (signed (picked v self.old.pack) to +ℤ neg_ℤ (signed (picked v self.old.pack) from)) → IsTrue (is_live live) × Admits self.new v) }
    {
        if is_at_most(self.bound(from, to), bound) {
            return Ok(Live::Live);
        }
        let mut own = self.owned()?;
        let live = own.lower(from, to, bound);
        self.keep(own)?;
        Ok(live)
    }
}

// Whether the first end is at or below the second.
fn is_at_most(a: Ext, b: Ext) -> bool
    ensures { IsTrue result → AtMost a b }
{
    cmp(a, b) != Ordering::Greater
}
