// The inputs of a run.

use std::alloc::{AllocError as NoMemory, Global};
use std::marker::Model;

/// The inputs of a run, in the order in which they are read.
#[derive(Drop)]
pub struct Inputs {
    items: Vec<i64>,
}

impl Model for Inputs {
    ghost use Rattle.std.specs.Prelude.{List, ℤ};

    ghost Value = { List ℤ };

    ghost view = { λ l. l.items.items };
}

impl Inputs {
    ghost use Rattle.std.specs.Prelude.{◌≡◌, [], IfOk};

    /// The list with nothing in it.
    pub fn new(alloc: Global) -> Inputs
        ensures { result ≡ [] }
    {
        Inputs {
            items: Vec::new(alloc),
        }
    }

    /// The list of these items.
    pub fn from_vec(items: Vec<i64>) -> Inputs
        ensures { result ≡ items.items }
    {
        Inputs { items }
    }

    /// The items, given back without taking memory.
    pub fn into_vec(self) -> Vec<i64>
        ensures { result.items ≡ self }
    {
        let Inputs { items } = self;
        items
    }

    /// The inputs, in their order.
    pub fn as_slice(&self) -> &[i64]
        ensures { result.now ≡ self.now }
    {
        self.items.as_slice()
    }

    /// The same inputs once more.
    pub fn copy(&self) -> Result<Inputs, NoMemory>
        ensures { IfOk result (λ copy. copy ≡ self.now) }
    {
        let items = self.items.clone()?;
        Ok(Inputs { items })
    }
}
