// Joining, widening and comparing.

ghost use Rattle.std.specs.Prelude.{◌≡◌, ℤ, List, ◌≤◌, ◌<◌, OnOk, IsTrue, false};
ghost use Rattle.num_api.specs.Told.{Keeps};
ghost use Rattle.octagons_changes.specs.States.{Admits, includes, openness};

use crate::related::Related;
use crate::relations::Relations;
use num_api::{Ramp, Steps};
use octagons_pack::{common, places_in};
use std::alloc::AllocError as NoMemory;

impl Related {
    // Raises each bound to that of the other, where that has the variables. Both are closed first.
    fn join(&mut self, other: &mut Related)
        ensures left { (v : List ℤ) → Admits self.old v → Admits self.new v }
        ensures right { (v : List ℤ) → Admits other.old v → Admits self.new v }
    {
        let _live = self.bounds.close();
        let _live = other.bounds.close();
        let places = places_in(self.pack(), other.pack());
        self.bounds.join(&places, &other.bounds);
    }

    // Raises each bound that is below that of the next to a step of the ramp. The bounds are not closed first.
    fn widen<U: Fn(i128) -> Option<i128>, S: Steps>(&mut self, next: &Related, ramp: &Ramp<U>)
        requires told { Keeps U.pre U.post ramp.now S.list }
        ensures left { (v : List ℤ) → Admits self.old v → Admits self.new v }
        ensures right { (v : List ℤ) → Admits next.now v → Admits self.new v }
        ensures no_rise { openness S.list self.new ≤ openness S.list self.old }
        ensures falls { includes self.old next.now ≡ false → openness S.list self.new < openness S.list self.old }
    {
        let places = places_in(self.pack(), next.pack());
        self.bounds.widen::<U, S>(&places, &next.bounds, ramp);
    }

    // Whether each bound is at or above that of the other.
    pub(crate) fn covers(&self, other: &Related) -> bool
        ensures value { result ≡ includes self.now other.now }
        ensures included { IsTrue result → (v : List ℤ) → Admits other.now v → Admits self.now v }
    {
        let places = places_in(self.pack(), other.pack());
        self.bounds.covers(&places, &other.bounds)
    }
}

impl Relations {
    // Raises each bound to that of the other, where that has the variables.
    fn raise(&mut self, other: &Relations) -> Result<(), NoMemory>
        ensures left { OnOk result ((v : List ℤ) → Admits self.old v → Admits self.new v) }
        ensures right { OnOk result ((v : List ℤ) → Admits other.now v → Admits self.new v) }
    {
        let mut own = self.owned()?;
        let mut theirs = other.owned()?;
        own.join(&mut theirs);
        self.keep(own)
    }

    /// Admits what either admits, over the variables that both have.
    pub fn join(&mut self, other: &Relations) -> Result<(), NoMemory>
        ensures left { OnOk result ((v : List ℤ) → Admits self.old v → Admits self.new v) }
        ensures right { OnOk result ((v : List ℤ) → Admits other.now v → Admits self.new v) }
    {
        let pack = common(self.alloc, self.pack(), other.pack())?;
        if pack.len() < self.pack().len() {
            self.redraw(pack, None)?;
        }
        self.raise(other)
    }

    /// Admits what either admits, by steps of the ramp. The bounds are not closed before.
    pub fn widen<U: Fn(i128) -> Option<i128>, S: Steps>(
        &mut self,
        next: &Relations,
        ramp: &Ramp<U>,
    ) -> Result<(), NoMemory>
        requires told { Keeps U.pre U.post ramp.now S.list }
        ensures left { OnOk result ((v : List ℤ) → Admits self.old v → Admits self.new v) }
        ensures right { OnOk result ((v : List ℤ) → Admits next.now v → Admits self.new v) }
        ensures no_rise { OnOk result (openness S.list self.new ≤ openness S.list self.old) }
        ensures falls { OnOk result (includes self.old next.now ≡ false → openness S.list self.new < openness S.list self.old) }
    {
        let mut own = self.owned()?;
        let theirs = next.owned()?;
        own.widen::<U, S>(&theirs, ramp);
        self.keep(own)
    }
}
