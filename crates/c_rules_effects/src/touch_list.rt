// A list of touches in which none stands twice.
#![tactic(auto)]

use crate::touch_set::TouchSet;
use crate::{Touch, Touches, copy_touch};
use std::alloc::{AllocError as NoMemory, Global};
use std::marker::Model;

/// A list of touches into which each is put once.
#[derive(Drop)]
pub struct TouchList {
    alloc: Global,
    set: TouchSet,
    touches: Touches,
}

impl Model for TouchList {
    ghost use Rattle.std.specs.Prelude.{List, []};
    ghost use Rattle.c_rules_effects.specs.declared.touch.Touch.{Touch};
    ghost use Rattle.c_rules_effects.specs.Held.{Holds};

    ghost Value = { List Touch };

    ghost view = { λ l. l.touches };

    ghost invariant = { λ l. Holds l.set [] l.touches };
}

impl TouchList {
    ghost use Rattle.std.specs.Prelude.{◌≡◌, [], IfOk};
    ghost use Rattle.c_rules_effects.specs.Held.{Adds};

    /// Nothing.
    pub fn new(alloc: Global) -> TouchList
        ensures { result ≡ [] }
    {
        TouchList {
            alloc,
            set: TouchSet::new(alloc),
            touches: Touches::new(alloc),
        }
    }

    /// With a copy of one touch more, unless it is there.
    pub fn with(self, touch: &Touch) -> Result<TouchList, NoMemory>
        ensures { IfOk result (λ list. Adds self touch.now list) }
    {
        if self.set.has(touch) {
            return Ok(self);
        }
        self.with_new(touch)
    }

    fn with_new(self, touch: &Touch) -> Result<TouchList, NoMemory>
        ensures { IfOk result (λ list. Adds self touch.now list) }
    {
        let TouchList {
            alloc,
            mut set,
            mut touches,
        } = self;
        set.insert(&[], touch)?;
        touches.push(copy_touch(alloc, touch)?)?;
        Ok(TouchList {
            alloc,
            set,
            touches,
        })
    }

    /// The touches.
    pub fn into_touches(self) -> Touches
        ensures { result ≡ self }
    {
        let TouchList {
            alloc: _,
            set: _set,
            touches,
        } = self;
        touches
    }
}
