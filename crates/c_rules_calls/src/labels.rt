// Labels, and those of the blocks around a statement.
#![tactic(auto)]

use std::alloc::{AllocError, Global};
use std::collections::BTreeSet;
use std::marker::Model;
use std::snapshot::Snapshot;

// The labels among the items of a block. Contracts see the list of them; what is kept is the set.
#[derive(Drop)]
pub(crate) struct Labels {
    known: BTreeSet<u64>,
    told: Vec<Snapshot<u64>>,
}

impl Model for Labels {
    ghost use Rattle.std.specs.Prelude.{List, ℕ, map};
    ghost use Rattle.c_rules_calls.specs.Labels.{AreKnown};

    ghost Value = { List ℕ };

    ghost view = { λ t. map (λ s. s.value) t.told.items };

    ghost invariant = { λ t. AreKnown t.known.keys (map (λ s. s.value) t.told.items) };
}

impl Labels {
    ghost use Rattle.std.specs.Prelude.{◌≡◌, ◌==◌, [], ◌∷◌, ◌++◌, IfOk};
    ghost use Rattle.std.specs.List.{list_any};

    pub(crate) fn new(alloc: Global) -> Labels
        ensures { result ≡ [] }
    {
        Labels {
            known: BTreeSet::new(alloc),
            told: Vec::new(alloc),
        }
    }

    pub(crate) fn contains(&self, label: u64) -> bool
        ensures { result ≡ list_any (λ x. x == label) self.now }
    {
        self.known.contains(&label)
    }

    // With one label more, at the end.
    pub(crate) fn with(self, label: u64) -> Result<Labels, AllocError>
        ensures { IfOk result (λ labels. labels ≡ self ++ label ∷ []) }
    {
        let Labels {
            mut known,
            mut told,
        } = self;
        told.push(Snapshot::of(&label))?;
        known.insert(label)?;
        Ok(Labels { known, told })
    }
}
