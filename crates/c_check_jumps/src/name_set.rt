// Lists of names that are asked by name.
#![tactic(auto)]

use c_check_names::{Named, Table};
use c_syntax_written::Name;
use std::alloc::{AllocError as NoMemory, Global};
use std::marker::Model;

// A name that the text has.
#[derive(Drop)]
struct TextName {
    name: Name,
}

impl Named for TextName {
    ghost name_of = { λ n. n.name };

    fn name(&self) -> &[u8] {
        self.name.as_slice()
    }
}

/// A list of names, as contracts see it. A look by name does not depend on how long it is.
#[derive(Drop)]
pub struct NameSet {
    names: Table<TextName>,
}

impl Model for NameSet {
    ghost use Rattle.std.specs.Prelude.{List, ℕ, map};

    ghost Value = { List (List ℕ) };

    ghost view = { λ s. map (λ n. n.name) s.names };
}

impl NameSet {
    ghost use Rattle.std.specs.Prelude.{◌≡◌, [], ◌∷◌, ◌++◌, OnOk, position};
    ghost use Rattle.std.specs.Str.{bytes_eq};
    ghost use Rattle.c_typing.specs.Context as contexts;

    /// No names.
    pub fn new(alloc: Global) -> NameSet
        ensures { result ≡ [] }
    {
        NameSet {
            names: Table::new(alloc),
        }
    }

    /// Puts a name at the end. Once out of memory the list is only dropped.
    pub fn push(&mut self, name: &Name) -> Result<(), NoMemory>
        ensures { OnOk result (self.new ≡ self.old ++ name.now ∷ []) }
    {
        let name = name.copy()?;
        self.names.push(TextName { name })
    }

    /// Whether the name is there.
    pub fn has(&self, name: &[u8]) -> bool
        ensures { result ≡ contexts.has_name self.now name.now }
    {
        self.names.first_from(name, 0).is_some()
    }

    /// The first place of the name.
    pub fn place(&self, name: &[u8]) -> Option<u64>
        ensures { result ≡ position (λ n. bytes_eq n name.now) self.now }
    {
        match self.names.place_from(name, 0) {
            None => None,
            Some(place) => Some(place as u64),
        }
    }
}
