// Sets of what a pointer may point to, shared by their copies.

ghost use Rattle.std.specs.Prelude.{◌≡◌, IsTrue, [], List, ℕ, false, IfOk};
ghost use Rattle.pointsets.specs.Targets.{Among, BaseSet, covers_set, has_base, joined};
ghost use Rattle.mem_cell_bytes.specs.Ends.{killed_all};

use pointsets::{Base, Targets};
use std::alloc::{AllocError as NoMemory, Global};
use std::marker::Model;
use std::rc::Rc;

/// What a pointer may point to. A copy takes no memory, and neither does the set of nothing.
#[derive(Drop)]
pub struct SharedSet {
    set: Option<Rc<Targets>>,
}

impl Model for SharedSet {
    ghost use Rattle.std.specs.Prelude.{false, [], option_map, unwrap_or};
    ghost use Rattle.pointsets.specs.Targets.{Among, BaseSet};

    ghost Value = { BaseSet };

    ghost view = { λ s. unwrap_or (option_map (λ r. r.value) s.set) (Among [] false false) };
}

// A set after these objects have ended, one after another.
fn killed_each(set: Targets, gone: &[u64]) -> Targets
    ensures { result ≡ killed_all set gone.now }
{
    let mut left = set;
    for x in gone {
        left.kill(&[*x]);
    }
    left
}

impl SharedSet {
    /// The set of nothing.
    pub fn none() -> SharedSet
        ensures { result ≡ Among [] false false }
    {
        SharedSet { set: None }
    }

    /// Whether this is the set of nothing and takes no memory.
    pub fn is_none(&self) -> bool
        ensures { IsTrue result → self.now ≡ Among [] false false }
    {
        self.set.is_none()
    }

    /// This set.
    pub fn of(alloc: Global, set: Targets) -> Result<SharedSet, NoMemory>
        ensures { IfOk result (λ s. s ≡ set) }
    {
        Ok(SharedSet {
            set: Some(Rc::new(alloc, set)?),
        })
    }

    /// The same set.
    pub fn share(&self) -> Result<SharedSet, NoMemory>
        ensures { IfOk result (λ s. s ≡ self.now) }
    {
        match &self.set {
            None => Ok(SharedSet { set: None }),
            Some(set) => Ok(SharedSet {
                set: Some(set.clone()?),
            }),
        }
    }

    /// A copy of the set, to be changed.
    pub fn to_targets(&self, alloc: Global) -> Targets
        ensures { result ≡ self.now }
    {
        match &self.set {
            None => Targets::new(alloc),
            Some(set) => set.copy(),
        }
    }

    /// Whether the set has the base, or is that of anything.
    pub fn holds(&self, b: Base) -> bool
        ensures { result ≡ has_base self.now b }
    {
        match &self.set {
            None => false,
            Some(set) => set.holds(b),
        }
    }

    /// The set after these objects have ended, one after another.
    pub fn killed(&self, alloc: Global, gone: &[u64]) -> Result<SharedSet, NoMemory>
        ensures { IfOk result (λ s. s ≡ killed_all self.now gone.now) }
    {
        match &self.set {
            None => Ok(SharedSet { set: None }),
            Some(set) => SharedSet::of(alloc, killed_each(set.copy(), gone)),
        }
    }

    /// What either set has.
    pub fn joined(&self, alloc: Global, other: &SharedSet) -> Result<SharedSet, NoMemory>
        ensures { IfOk result (λ s. s ≡ joined self.now other.now) }
    {
        let mut all = self.to_targets(alloc);
        let more = other.to_targets(alloc);
        all.join(&more);
        SharedSet::of(alloc, all)
    }

    /// Whether the set is known to have all that the other has.
    pub fn covers(&self, alloc: Global, other: &SharedSet) -> bool
        ensures { result ≡ covers_set self.now other.now }
    {
        match (&self.set, &other.set) {
            (Some(set), Some(more)) => set.covers(more),
            (None, Some(more)) => Targets::new(alloc).covers(more),
            (_, None) => true,
        }
    }
}
