// A set of touches.
#![tactic(auto)]

ghost use Rattle.std.specs.Prelude.{◌≡◌, Bool, List, [], ◌∷◌, ◌++◌, Contains, MatchBool, OnOk};
ghost use Rattle.std.specs.List.{list_any};
ghost use Rattle.c_rules_effects.specs.declared.touch.Touch.{Touch as Touching};
ghost use Rattle.c_rules_effects.specs.Met.{met};

use crate::{Part, Touch, Touches, copy_touch, meet};
use std::alloc::{AllocError as NoMemory, Global};
use std::collections::BTreeMap;

/// A set of touches. Calls are promised of the touches that were put in, whichever they are.
#[derive(Drop)]
pub struct TouchSet {
    alloc: Global,
    has_mem: bool,
    meets_mem: bool,
    groups: BTreeMap<u64, Touches>,
}

impl TouchSet {
    ghost use Rattle.c_rules_effects.specs.Held.{Holds, Keeps, group_of, is_of};
    ghost use Rattle.c_rules_effects.specs.Met.{met};
    ghost use Rattle.std.specs.Prelude.{◌&&◌, ℕ};
    ghost use Rattle.c_rules_effects.specs.declared.touch.Touch.TheVariants.{Mem};

    /// No touches.
    pub fn new(alloc: Global) -> TouchSet
        ensures { (taken : List Bool) → Holds result taken [] }
    {
        TouchSet {
            alloc,
            has_mem: false,
            meets_mem: false,
            groups: BTreeMap::new(alloc),
        }
    }

    /// With one touch more, where this tells of each object whether its address is taken.
    pub fn insert(&mut self, taken: &[bool], touch: &Touch) -> Result<(), NoMemory>
        ensures { OnOk result ((touches : List Touching) → Holds self.old taken.now touches → Holds self.new taken.now (touches ++ touch.now ∷ [])) }
    {
        if self.has(touch) {
            return Ok(());
        }
        self.put(taken, touch)
    }

    /// Whether the touch is in the set.
    pub fn has(&self, touch: &Touch) -> bool
        ensures { (taken : List Bool) (touches : List Touching) → Holds self.now taken touches
            → MatchBool result (Contains touches touch.now) (Contains touches touch.now → ⊥) }
    {
        match touch {
            Touch::Mem => self.has_mem,
            Touch::Object(number, _) => is_in(touch, self.group(*number)),
        }
    }

    /// Whether the touch meets one of the set, where this tells of each object whether its address is taken.
    pub fn meets(&self, taken: &[bool], touch: &Touch) -> bool
        ensures { (touches : List Touching) → Holds self.now taken.now touches → result ≡ list_any (met taken.now touch.now) touches }
    {
        match touch {
            Touch::Mem => self.meets_mem,
            Touch::Object(number, _) => {
                if self.meets_through_mem(taken, touch) {
                    true
                } else {
                    meets_one(taken, touch, self.group(*number))
                }
            }
        }
    }

    // Whether Mem is in the set, and the touch meets it.
    fn meets_through_mem(&self, taken: &[bool], touch: &Touch) -> bool
        ensures { result ≡ self.now.has_mem && met taken.now touch.now Mem }
    {
        self.has_mem && is_met(taken, touch, &Touch::Mem)
    }

    // The touches of one object.
    fn group(&self, number: u64) -> &[Touch]
        ensures { result.now ≡ group_of self.now number }
    {
        match self.groups.get(&number) {
            Some(group) => group.as_slice(),
            None => &[],
        }
    }

    // With a touch that is not in the set.
    fn put(&mut self, taken: &[bool], touch: &Touch) -> Result<(), NoMemory>
        ensures { OnOk result ((kept : List Touching) → Keeps self.old taken.now kept → Keeps self.new taken.now (kept ++ touch.now ∷ [])) }
    {
        self.meets_mem = self.meets_mem || meet(taken, &Touch::Mem, touch);
        match touch {
            Touch::Mem => {
                self.has_mem = true;
                Ok(())
            }
            Touch::Object(number, _) => self.put_by(*number, touch),
        }
    }

    // Into the touches of its object.
    fn put_by(&mut self, number: u64, touch: &Touch) -> Result<(), NoMemory>
        ensures marks { (self.new.has_mem ≡ self.old.has_mem) × (self.new.meets_mem ≡ self.old.meets_mem) }
        ensures here { OnOk result (group_of self.new number ≡ group_of self.old number ++ touch.now ∷ []) }
        ensures elsewhere { OnOk result ((n : ℕ) → (n ≡ number → ⊥) → group_of self.new n ≡ group_of self.old n) }
    {
        let mut group = match self.groups.remove(&number) {
            Some(group) => group,
            None => Touches::new(self.alloc),
        };
        group.push(copy_touch(self.alloc, touch)?)?;
        self.groups.insert(number, group)?;
        Ok(())
    }
}

fn is_in(touch: &Touch, group: &[Touch]) -> bool
    ensures { MatchBool result (Contains group.now touch.now) (Contains group.now touch.now → ⊥) }
{
    for other in group {
        if is_same(touch, other) {
            return true;
        }
    }
    false
}

fn is_same(touch: &Touch, other: &Touch) -> bool
    ensures { MatchBool result (other.now ≡ touch.now) (other.now ≡ touch.now → ⊥) }
{
    match (touch, other) {
        (Touch::Mem, Touch::Mem) => true,
        (Touch::Mem, Touch::Object(_, _)) => false,
        (Touch::Object(_, _), Touch::Mem) => false,
        (Touch::Object(m, path), Touch::Object(n, other)) => {
            m == n && is_same_path(path.as_slice(), other.as_slice())
        }
    }
}

fn is_same_path(path: &[Part], other: &[Part]) -> bool
    ensures { MatchBool result (other.now ≡ path.now) (other.now ≡ path.now → ⊥) }
{
    if path.len() != other.len() {
        return false;
    }
    for at in 0..path.len() {
        if path[at] != other[at] {
            return false;
        }
    }
    true
}

fn is_met(taken: &[bool], a: &Touch, b: &Touch) -> bool
    ensures { result ≡ met taken.now a.now b.now }
{
    meet(taken, a, b)
}

fn meets_one(taken: &[bool], touch: &Touch, group: &[Touch]) -> bool
    ensures { result ≡ list_any (met taken.now touch.now) group.now }
{
    for other in group {
        if is_met(taken, touch, other) {
            return true;
        }
    }
    false
}
