// The typedef names in force.

ghost use Rattle.std.specs.Prelude.{◌≡◌};

use std::alloc::{AllocError, Global};
use std::collections::BTreeSet;
use std::marker::Model;
use std::snapshot::Snapshot;

/// The typedef names in force. Contracts see the list of them, in the order in which they were
/// declared; what is kept is the set of the names in that list, so that a look takes log n steps.
#[derive(Drop)]
pub struct TypeNames {
    known: BTreeSet<Vec<u8>>,
    /// The list, which takes no memory: only contracts read it.
    told: Vec<Snapshot<Vec<u8>>>,
}

impl Model for TypeNames {
    ghost use Rattle.std.specs.Prelude.{List, ℕ, map};
    ghost use Rattle.c_parser_steps.specs.SameNames.{HaveSameNames};

    ghost Value = { List (List ℕ) };

    ghost view = { λ t. map (λ s. s.value.items) t.told.items };

    ghost invariant = { λ t. HaveSameNames (map (λ k. k.items) t.known.keys) (map (λ s. s.value.items) t.told.items) };
}

impl TypeNames {
    ghost use Rattle.std.specs.Prelude.{◌≡◌, [], ◌∷◌, ◌++◌, IfOk};
    ghost use Rattle.std.specs.List.{list_any};
    ghost use Rattle.std.specs.Str.{bytes_eq};

    /// No names.
    pub fn new(alloc: Global) -> TypeNames
        ensures { result ≡ [] }
    {
        TypeNames {
            known: BTreeSet::new(alloc),
            told: Vec::new(alloc),
        }
    }

    /// Whether the name is one of them.
    pub fn contains(&self, name: &[u8]) -> bool
        ensures { result ≡ list_any (bytes_eq name.now) self.now }
    {
        self.known.contains(name)
    }

    /// The names with one more, declared last.
    pub fn with(self, name: Vec<u8>) -> Result<TypeNames, AllocError>
        ensures { IfOk result (λ names. names ≡ self ++ name.items ∷ []) }
    {
        let TypeNames {
            mut known,
            mut told,
        } = self;
        told.push(Snapshot::of(&name))?;
        known.insert(name)?;
        Ok(TypeNames { known, told })
    }
}
