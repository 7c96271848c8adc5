// Touches, and the paths in them.
#![tactic(auto)]

use std::alloc::{AllocError as NoMemory, Global};
use std::marker::Model;

/// A step into a part of an object.
#[derive(Clone, Copy, PartialEq, Eq, Drop)]
pub enum Part {
    /// Member k of a struct: `.m`
    Member(u64),
    /// Any element of an array: `[i]`
    Index,
}

/// Steps into parts of an object, from the outside in.
#[derive(Drop)]
pub struct Path {
    items: Vec<Part>,
}

/// What is touched.
#[derive(Drop)]
pub enum Touch {
    /// Whatever is named through a pointer: `*p`
    Mem,
    /// A part of the object of this number: `s.a[i]`
    Object(u64, Path),
}

impl Model for Path {
    ghost use Rattle.std.specs.Prelude.{List};
    ghost use Rattle.c_rules_effects.specs.declared.touch.Part.{Part};

    ghost Value = { List Part };

    ghost view = { λ l. l.items.items };
}

impl Path {
    ghost use Rattle.std.specs.Prelude.{◌≡◌, [], ◌∷◌, ◌++◌, OnOk};

    /// The whole object.
    pub fn new(alloc: Global) -> Path
        ensures { result ≡ [] }
    {
        Path {
            items: Vec::new(alloc),
        }
    }

    /// The steps, from the outside in.
    pub fn as_slice(&self) -> &[Part]
        ensures { result.now ≡ self.now }
    {
        self.items.as_slice()
    }

    /// With one step more, further in.
    pub fn push(&mut self, part: Part) -> Result<(), NoMemory>
        ensures { OnOk result (self.new ≡ self.old ++ part ∷ []) }
    {
        self.items.push(part)?;
        Ok(())
    }
}
