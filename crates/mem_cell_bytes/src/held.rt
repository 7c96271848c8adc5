// What is known of one object, shared by the copies of a set.

ghost use Rattle.std.specs.Prelude.{◌≡◌, IfOk};

use crate::{Entry, Stretch};
use std::alloc::{AllocError as NoMemory, Global};
use std::marker::Model;
use std::rc::Rc;

/// Cells and stretches of one object.
#[derive(Drop)]
struct Lists {
    cells: Vec<Entry>,
    stretches: Vec<Stretch>,
}

/// What is known of the bytes of one object. A copy takes no memory, and neither does knowing nothing.
#[derive(Drop)]
pub struct Held {
    lists: Option<Rc<Lists>>,
}

impl Model for Held {
    ghost use Rattle.std.specs.Prelude.{option_map, unwrap_or};
    ghost use Rattle.mem_cell_bytes.specs.Contents.{Contents, contents, nothing};

    ghost Value = { Contents };

    ghost view = { λ h. unwrap_or (option_map (λ r. contents r.value.cells.items r.value.stretches.items) h.lists) nothing };
}

impl Held {
    ghost use Rattle.mem_cell_bytes.specs.Contents.{contents, nothing};

    /// Nothing is known.
    pub fn nothing() -> Held
        ensures { result ≡ nothing }
    {
        Held { lists: None }
    }

    /// These cells and stretches are known.
    pub fn of(alloc: Global, cells: Vec<Entry>, stretches: Vec<Stretch>) -> Result<Held, NoMemory>
        ensures { IfOk result (λ h. h ≡ contents cells.items stretches.items) }
    {
        let lists = Lists { cells, stretches };
        Ok(Held {
            lists: Some(Rc::new(alloc, lists)?),
        })
    }

    /// The same.
    pub fn share(&self) -> Result<Held, NoMemory>
        ensures { IfOk result (λ h. h ≡ self.now) }
    {
        match &self.lists {
            None => Ok(Held { lists: None }),
            Some(lists) => Ok(Held {
                lists: Some(lists.clone()?),
            }),
        }
    }

    /// The cells.
    pub fn cells(&self) -> &[Entry]
        ensures { result.now ≡ self.now.cells }
    {
        match &self.lists {
            None => &[],
            Some(lists) => lists.cells.as_slice(),
        }
    }

    /// The stretches.
    pub fn stretches(&self) -> &[Stretch]
        ensures { result.now ≡ self.now.stretches }
    {
        match &self.lists {
            None => &[],
            Some(lists) => lists.stretches.as_slice(),
        }
    }
}
