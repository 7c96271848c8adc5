// Small lists. Contracts see each as the plain list of its items.

use crate::Pos;
use std::alloc::{AllocError as NoMemory, Global};
use std::marker::Model;

/// A text, as its bytes.
#[derive(Drop)]
pub struct Name {
    items: Vec<u8>,
}

impl Model for Name {
    ghost use Rattle.std.specs.Prelude.{List, ℕ};

    ghost Value = { List ℕ };

    ghost view = { λ l. l.items.items };
}

impl Name {
    ghost use Rattle.std.specs.Prelude.{◌≡◌, [], IfOk};

    /// The list with nothing in it.
    pub fn new(alloc: Global) -> Name
        ensures { result ≡ [] }
    {
        Name {
            items: Vec::new(alloc),
        }
    }

    /// The list of these items.
    pub fn from_vec(items: Vec<u8>) -> Name
        ensures { result ≡ items.items }
    {
        Name { items }
    }

    /// The items, given back without taking memory.
    pub fn into_vec(self) -> Vec<u8>
        ensures { result.items ≡ self }
    {
        let Name { items } = self;
        items
    }

    /// The bytes, in their order.
    pub fn as_slice(&self) -> &[u8]
        ensures { result.now ≡ self.now }
    {
        self.items.as_slice()
    }

    /// The same text once more.
    pub fn copy(&self) -> Result<Name, NoMemory>
        ensures { IfOk result (λ copy. copy ≡ self.now) }
    {
        let items = self.items.clone()?;
        Ok(Name { items })
    }
}

/// Bytes, as those of a file or of a report.
#[derive(Drop)]
pub struct Bytes {
    items: Vec<u8>,
}

impl Model for Bytes {
    ghost use Rattle.std.specs.Prelude.{List, ℕ};

    ghost Value = { List ℕ };

    ghost view = { λ l. l.items.items };
}

impl Bytes {
    ghost use Rattle.std.specs.Prelude.{◌≡◌, [], IfOk};

    /// The list with nothing in it.
    pub fn new(alloc: Global) -> Bytes
        ensures { result ≡ [] }
    {
        Bytes {
            items: Vec::new(alloc),
        }
    }

    /// The list of these items.
    pub fn from_vec(items: Vec<u8>) -> Bytes
        ensures { result ≡ items.items }
    {
        Bytes { items }
    }

    /// The items, given back without taking memory.
    pub fn into_vec(self) -> Vec<u8>
        ensures { result.items ≡ self }
    {
        let Bytes { items } = self;
        items
    }

    /// The bytes, in their order.
    pub fn as_slice(&self) -> &[u8]
        ensures { result.now ≡ self.now }
    {
        self.items.as_slice()
    }

    /// The same bytes once more.
    pub fn copy(&self) -> Result<Bytes, NoMemory>
        ensures { IfOk result (λ copy. copy ≡ self.now) }
    {
        let items = self.items.clone()?;
        Ok(Bytes { items })
    }
}

/// Numbers of objects, functions and the like.
#[derive(Drop)]
pub struct Numbers {
    items: Vec<u64>,
}

impl Model for Numbers {
    ghost use Rattle.std.specs.Prelude.{List, ℕ};

    ghost Value = { List ℕ };

    ghost view = { λ l. l.items.items };
}

impl Numbers {
    ghost use Rattle.std.specs.Prelude.{◌≡◌, [], IfOk};

    /// The list with nothing in it.
    pub fn new(alloc: Global) -> Numbers
        ensures { result ≡ [] }
    {
        Numbers {
            items: Vec::new(alloc),
        }
    }

    /// The list of these items.
    pub fn from_vec(items: Vec<u64>) -> Numbers
        ensures { result ≡ items.items }
    {
        Numbers { items }
    }

    /// The items, given back without taking memory.
    pub fn into_vec(self) -> Vec<u64>
        ensures { result.items ≡ self }
    {
        let Numbers { items } = self;
        items
    }

    /// The numbers, in their order.
    pub fn as_slice(&self) -> &[u64]
        ensures { result.now ≡ self.now }
    {
        self.items.as_slice()
    }

    /// The same numbers once more.
    pub fn copy(&self) -> Result<Numbers, NoMemory>
        ensures { IfOk result (λ copy. copy ≡ self.now) }
    {
        let items = self.items.clone()?;
        Ok(Numbers { items })
    }
}

/// Places, as the calls that lead to an alarm.
#[derive(Drop)]
pub struct Places {
    items: Vec<Pos>,
}

impl Model for Places {
    ghost use Rattle.std.specs.Prelude.{List};
    ghost use Rattle.c_syntax_written.specs.declared.place.Pos.{Pos};

    ghost Value = { List Pos };

    ghost view = { λ l. l.items.items };
}

impl Places {
    ghost use Rattle.std.specs.Prelude.{◌≡◌, [], IfOk};

    /// The list with nothing in it.
    pub fn new(alloc: Global) -> Places
        ensures { result ≡ [] }
    {
        Places {
            items: Vec::new(alloc),
        }
    }

    /// The list of these items.
    pub fn from_vec(items: Vec<Pos>) -> Places
        ensures { result ≡ items.items }
    {
        Places { items }
    }

    /// The items, given back without taking memory.
    pub fn into_vec(self) -> Vec<Pos>
        ensures { result.items ≡ self }
    {
        let Places { items } = self;
        items
    }

    /// The places, in their order.
    pub fn as_slice(&self) -> &[Pos]
        ensures { result.now ≡ self.now }
    {
        self.items.as_slice()
    }

    /// The same places once more.
    pub fn copy(&self) -> Result<Places, NoMemory>
        ensures { IfOk result (λ copy. copy ≡ self.now) }
    {
        let items = self.items.clone()?;
        Ok(Places { items })
    }
}

/// Texts, as the tags of structs.
#[derive(Drop)]
pub struct Names {
    items: Vec<Name>,
}

impl Model for Names {
    ghost use Rattle.std.specs.Prelude.{List, ℕ};

    ghost Value = { List (List ℕ) };

    ghost view = { λ l. l.items.items };
}

impl Names {
    ghost use Rattle.std.specs.Prelude.{◌≡◌, [], IfOk};

    /// The list with nothing in it.
    pub fn new(alloc: Global) -> Names
        ensures { result ≡ [] }
    {
        Names {
            items: Vec::new(alloc),
        }
    }

    /// The list of these items.
    pub fn from_vec(items: Vec<Name>) -> Names
        ensures { result ≡ items.items }
    {
        Names { items }
    }

    /// The items, given back without taking memory.
    pub fn into_vec(self) -> Vec<Name>
        ensures { result.items ≡ self }
    {
        let Names { items } = self;
        items
    }

    /// The names, in their order.
    pub fn as_slice(&self) -> &[Name]
        ensures { result.now ≡ self.now }
    {
        self.items.as_slice()
    }

    /// The same names once more.
    pub fn copy(&self) -> Result<Names, NoMemory>
        ensures { IfOk result (λ copy. copy ≡ self.now) }
    {
        let mut items = Vec::new(*self.items.allocator());
        for name in &self.items {
            items.push(name.copy()?)?;
        }
        Ok(Names { items })
    }
}
