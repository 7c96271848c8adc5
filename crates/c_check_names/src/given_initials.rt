// The initial values that objects were given, looked up by object.

use c_syntax::Initial;
use std::alloc::{AllocError as NoMemory, Global};
use std::collections::HashSet;
use std::marker::Model;
use std::mem;

/// The initial values that objects were given so far, in the order in which they were given, as contracts
/// see them. Which objects have one is kept beside them, so that this is told without a search.
#[derive(Drop)]
pub struct GivenInitials {
    alloc: Global,
    objects: HashSet<u64>,
    items: Vec<Initial>,
}

impl Model for GivenInitials {
    ghost use Rattle.std.specs.Prelude.{List};
    ghost use Rattle.c_check_names.specs.Firsts.{HasInitialised};
    ghost use Rattle.c_syntax.specs.declared.program.Initial.{Initial};

    ghost Value = { List Initial };

    ghost view = { λ t. t.items.items };

    ghost invariant = { λ t. HasInitialised t.objects t.items.items };
}

impl GivenInitials {
    ghost use Rattle.std.specs.Prelude.{◌≡◌, [], ◌∷◌, ◌++◌, IfOk, OnOk};
    ghost use Rattle.c_check_names.specs.Firsts.{is_initialised};

    /// No initial values.
    pub fn new(alloc: Global) -> GivenInitials
        ensures { result ≡ [] }
    {
        GivenInitials {
            alloc,
            objects: HashSet::new(alloc),
            items: Vec::new(alloc),
        }
    }

    /// Whether the object of this number has an initial value.
    pub fn has(&self, object: u64) -> bool
        ensures { result ≡ is_initialised object self.now }
    {
        self.objects.contains(&object)
    }

    /// The initial values with one more, which stands last.
    pub fn with(self, initial: Initial) -> Result<GivenInitials, NoMemory>
        ensures { IfOk result (λ all. all ≡ self ++ initial ∷ []) }
    {
        let GivenInitials {
            alloc,
            mut objects,
            mut items,
        } = self;
        objects.insert(initial.object)?;
        items.push(initial)?;
        Ok(GivenInitials {
            alloc,
            objects,
            items,
        })
    }

    /// Puts one more at the end. Once out of memory the initial values are only dropped.
    pub fn push(&mut self, initial: Initial) -> Result<(), NoMemory>
        ensures { OnOk result (self.new ≡ self.old ++ initial ∷ []) }
    {
        let empty = GivenInitials::new(self.alloc);
        let all = mem::replace(self, empty);
        *self = all.with(initial)?;
        Ok(())
    }

    /// The list without what is kept beside it.
    pub fn into_vec(self) -> Vec<Initial>
        ensures { result.items ≡ self }
    {
        let GivenInitials {
            alloc: _,
            objects: _objects,
            items,
        } = self;
        items
    }
}
