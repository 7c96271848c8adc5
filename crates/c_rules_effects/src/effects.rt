// Effects, and lists of touches.
#![tactic(auto, using(crate::proofs::Joins::the_joins))]

ghost use Rattle.std.specs.Prelude.{◌≡◌, IfOk};

use crate::{Path, Touch};
use std::alloc::{AllocError as NoMemory, Global};
use std::marker::Model;

/// What is touched, one touch after the other.
#[derive(Drop)]
pub struct Touches {
    items: Vec<Touch>,
}

/// What is read and what is written.
#[derive(Drop)]
pub struct Effects {
    pub reads: Touches,
    pub writes: Touches,
}

impl Model for Touches {
    ghost use Rattle.std.specs.Prelude.{List};
    ghost use Rattle.c_rules_effects.specs.declared.touch.Touch.{Touch};

    ghost Value = { List Touch };

    ghost view = { λ l. l.items.items };
}

impl Touches {
    ghost use Rattle.std.specs.Prelude.{◌≡◌, [], ◌∷◌, ◌++◌, OnOk};

    /// Nothing.
    pub fn new(alloc: Global) -> Touches
        ensures { result ≡ [] }
    {
        Touches {
            items: Vec::new(alloc),
        }
    }

    /// The touches, in their order.
    pub fn as_slice(&self) -> &[Touch]
        ensures { result.now ≡ self.now }
    {
        self.items.as_slice()
    }

    /// With one touch more, at the end.
    pub fn push(&mut self, touch: Touch) -> Result<(), NoMemory>
        ensures { OnOk result (self.new ≡ self.old ++ touch ∷ []) }
    {
        self.items.push(touch)?;
        Ok(())
    }

    /// With copies of these, behind those that are there.
    pub fn push_all(&mut self, alloc: Global, touches: &Touches) -> Result<(), NoMemory>
        ensures { OnOk result (self.new ≡ self.old ++ touches.now) }
    {
        for touch in touches.as_slice() {
            self.push(copy_touch(alloc, touch)?)?;
        }
        Ok(())
    }
}

impl Effects {
    ghost use Rattle.std.specs.Prelude.{◌≡◌, OnOk};
    ghost use Rattle.c_rules_effects.specs.declared.touch.Touch.{Touch};
    ghost use Rattle.c_rules_effects.specs.Joined.{change_at, joined, nothing, read_at, write_at};

    /// No effects.
    pub fn new(alloc: Global) -> Effects
        ensures { result ≡ nothing }
    {
        Effects {
            reads: Touches::new(alloc),
            writes: Touches::new(alloc),
        }
    }

    /// With copies of these, behind those that are there.
    pub fn join(&mut self, alloc: Global, other: &Effects) -> Result<(), NoMemory>
        ensures { OnOk result (self.new ≡ joined self.old other.now) }
    {
        self.reads.push_all(alloc, &other.reads)?;
        self.writes.push_all(alloc, &other.writes)?;
        Ok(())
    }

    // With one read more.
    pub(crate) fn read(&mut self, touch: Touch) -> Result<(), NoMemory>
        ensures { OnOk result (self.new ≡ joined self.old (read_at touch)) }
    {
        self.reads.push(touch)?;
        Ok(())
    }

    // With one write more.
    pub(crate) fn write(&mut self, touch: Touch) -> Result<(), NoMemory>
        ensures { OnOk result (self.new ≡ joined self.old (write_at touch)) }
    {
        self.writes.push(touch)?;
        Ok(())
    }

    // With a read and a write more.
    pub(crate) fn change(&mut self, alloc: Global, touch: Touch) -> Result<(), NoMemory>
        ensures { OnOk result (self.new ≡ joined self.old (change_at touch)) }
    {
        self.reads.push(copy_touch(alloc, &touch)?)?;
        self.writes.push(touch)?;
        Ok(())
    }
}

/// The same touch once more.
pub fn copy_touch(alloc: Global, touch: &Touch) -> Result<Touch, NoMemory>
    ensures { IfOk result (λ copy. copy ≡ touch.now) }
{
    match touch {
        Touch::Mem => Ok(Touch::Mem),
        Touch::Object(number, path) => Ok(Touch::Object(*number, copy_path(alloc, path)?)),
    }
}

fn copy_path(alloc: Global, path: &Path) -> Result<Path, NoMemory>
    ensures { IfOk result (λ copy. copy ≡ path.now) }
{
    let mut copy = Path::new(alloc);
    for part in path.as_slice() {
        copy.push(*part)?;
    }
    Ok(copy)
}
