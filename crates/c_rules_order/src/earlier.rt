// What the sides of a node do that were looked at so far, as sets, so that a further side is compared with all of them at once.
#![tactic(auto)]

ghost use Rattle.std.specs.Prelude.{◌≡◌, ◌++◌, ◌||◌, List, [], IfOk, OnOk};
ghost use Rattle.std.specs.List.{list_any};
ghost use Rattle.c_rules_effects.specs.declared.touch.Touch.{Touch as Touching};
ghost use Rattle.c_rules_effects.specs.Held.{Holds};
ghost use Rattle.c_rules_effects.specs.Met.{met};

use crate::clash::{insert_all, one_met};
use c_rules_effects::{Effects, TouchSet};
use std::alloc::{AllocError as NoMemory, Global};

// What they write, and all that they touch.
#[derive(Drop)]
pub(crate) struct Earlier {
    writes: TouchSet,
    touches: TouchSet,
}

impl Earlier {
    ghost use Rattle.c_rules_order.specs.Earlier.{HasDone};
    ghost use Rattle.std.specs.Prelude.{Bool};

    pub(crate) fn new(alloc: Global) -> Earlier
        ensures { (taken : List Bool) → HasDone result taken [] [] }
    {
        Earlier {
            writes: TouchSet::new(alloc),
            touches: TouchSet::new(alloc),
        }
    }

    // Whether one writes what the other touches: they, or a side with these effects.
    pub(crate) fn clashes(&self, taken: &[bool], effects: &Effects) -> bool
        ensures { (writes touches : List Touching) → HasDone self.now taken.now writes touches
            → result ≡ list_any (λ s. list_any (met taken.now s) touches) effects.now.writes
            || list_any (λ s. list_any (met taken.now s) writes) effects.now.reads }
    {
        let forth = one_met(taken, effects.writes.as_slice(), &self.touches);
        let back = one_met(taken, effects.reads.as_slice(), &self.writes);
        forth || back
    }

    // And a side with these effects.
    pub(crate) fn add(&mut self, taken: &[bool], effects: &Effects) -> Result<(), NoMemory>
        ensures { OnOk result ((writes touches : List Touching) → HasDone self.old taken.now writes touches
            → HasDone self.new taken.now (writes ++ effects.now.writes) (touches ++ (effects.now.reads ++ effects.now.writes))) }
    {
        insert_all(taken, effects.writes.as_slice(), &mut self.writes)?;
        insert_all(taken, effects.reads.as_slice(), &mut self.touches)?;
        insert_all(taken, effects.writes.as_slice(), &mut self.touches)?;
        Ok(())
    }
}
