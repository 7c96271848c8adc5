// The cases of a switch, looked up by value.

ghost use Rattle.std.specs.Prelude.{List, [], ◌∷◌, ◌++◌, IfOk};
ghost use Rattle.c_check_names.specs.Firsts.{HasFirstCases};

use crate::types::CaseAt;
use c_syntax_written::Pos;
use std::alloc::{AllocError as NoMemory, Global};
use std::collections::HashMap;
use std::marker::Model;
use std::mem;
use std::snapshot::Snapshot;

/// The cases of a switch so far, in the order of the text, as contracts see them. What is kept is the
/// place of the first case of each value, so that a look does not depend on how many cases there are.
#[derive(Drop)]
pub struct Cases {
    alloc: Global,
    places: HashMap<i128, Pos>,
    /// The list, which takes no memory: only contracts read it.
    items: Vec<Snapshot<CaseAt>>,
}

impl Model for Cases {
    ghost use Rattle.std.specs.Prelude.{List, map};
    ghost use Rattle.c_check_names.specs.Firsts.{HasFirstCases};
    ghost use Rattle.c_check_names.specs.declared.types.CaseAt.{CaseAt};

    ghost Value = { List CaseAt };

    ghost view = { λ t. map (λ s. s.value) t.items.items };

    ghost invariant = { λ t. HasFirstCases t.places (map (λ s. s.value) t.items.items) };
}

impl Cases {
    ghost use Rattle.std.specs.Prelude.{◌≡◌, [], ◌∷◌, ◌++◌, IfOk, OnOk};
    ghost use Rattle.c_check_names.specs.Firsts.{first_case};

    /// No cases.
    pub fn new(alloc: Global) -> Cases
        ensures { result ≡ [] }
    {
        Cases {
            alloc,
            places: HashMap::new(alloc),
            items: Vec::new(alloc),
        }
    }

    /// The place of the first case of this value.
    pub fn first(&self, value: i128) -> Option<Pos>
        ensures { result ≡ first_case value self.now }
    {
        self.places.get(&value).copied()
    }

    /// The cases with one more, which stands last.
    pub fn with(self, case: CaseAt) -> Result<Cases, NoMemory>
        ensures { IfOk result (λ cases. cases ≡ self ++ case ∷ []) }
    {
        let Cases {
            alloc,
            places,
            mut items,
        } = self;
        items.push(Snapshot::of(&case))?;
        let places = with_case(places, case)?;
        Ok(Cases {
            alloc,
            places,
            items,
        })
    }

    /// Puts one more at the end. Once out of memory the cases are only dropped.
    pub fn push(&mut self, case: CaseAt) -> Result<(), NoMemory>
        ensures { OnOk result (self.new ≡ self.old ++ case ∷ []) }
    {
        let empty = Cases::new(self.alloc);
        let cases = mem::replace(self, empty);
        *self = cases.with(case)?;
        Ok(())
    }
}

// The places with that of a case that stands behind all others, unless its value has one.
fn with_case(mut places: HashMap<i128, Pos>, case: CaseAt) -> Result<HashMap<i128, Pos>, NoMemory>
    ensures { IfOk result (λ after. (cases : List CaseAt) → HasFirstCases places cases → HasFirstCases after (cases ++ case ∷ [])) }
{
    if places.contains_key(&case.value) {
        return Ok(places);
    }
    places.insert(case.value, case.pos)?;
    Ok(places)
}
