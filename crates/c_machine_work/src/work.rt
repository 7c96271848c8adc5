// The work that is left.
#![tactic(auto, using(crate::proofs::Lists::the_lists))]

use crate::items::Item;
use std::alloc::{AllocError as NoMemory, Global};

/// Work items; the last one of the list is the next.
#[derive(Drop)]
pub struct Work {
    items: Vec<Item>,
}

impl Work {
    ghost use Rattle.std.specs.Prelude.{◌≡◌, [], ◌∷◌, OnOk, MatchOption};
    ghost use Rattle.c_machine_work.specs.Views.{in_front, item_of};
    ghost use Rattle.c_machine_work.specs.Works.{work_of};

    /// No work.
    pub fn new(alloc: Global) -> Work
        ensures { work_of result ≡ [] }
    {
        Work {
            items: Vec::new(alloc),
        }
    }

    /// The items, of which the last one is the next.
    pub fn as_slice(&self) -> &[Item]
        ensures { in_front result.now [] ≡ work_of self.now }
    {
        self.items.as_slice()
    }

    /// One item in front.
    pub fn put(&mut self, item: Item) -> Result<(), NoMemory>
        ensures { OnOk result (work_of self.new ≡ item_of item ∷ work_of self.old) }
    {
        self.items.push(item)?;
        Ok(())
    }

    /// Two items in front, of which the first one is the next.
    pub fn put_two(&mut self, first: Item, second: Item) -> Result<(), NoMemory>
        ensures { OnOk result (work_of self.new ≡ item_of first ∷ item_of second ∷ work_of self.old) }
    {
        self.put(second)?;
        self.put(first)
    }

    /// Three items in front, likewise.
    pub fn put_three(&mut self, first: Item, second: Item, third: Item) -> Result<(), NoMemory>
        ensures { OnOk result (work_of self.new ≡ item_of first ∷ item_of second ∷ item_of third ∷ work_of self.old) }
    {
        self.put(third)?;
        self.put_two(first, second)
    }

    /// The next item, taken off.
    pub fn take(&mut self) -> Option<Item>
        ensures { MatchOption result ((work_of self.old ≡ []) × (work_of self.new ≡ [])) (λ item. work_of self.old ≡ item_of item ∷ work_of self.new) }
    {
        self.items.pop()
    }
}
