// Where each name of a list stands.

ghost use Rattle.std.specs.Prelude.{◌≡◌, ℕ, List, [], ◌∷◌, ◌++◌, length, IfOk};
ghost use Rattle.c_check_names.specs.Kept.{IsIndexOf};

use std::alloc::{AllocError as NoMemory, Global};
use std::collections::HashMap;
use std::marker::Model;
use std::snapshot::Snapshot;

/// Where each name of a list stands. Contracts see the list of the names; what is kept is a map from
/// each name to its places, so that a look does not depend on how long the list is.
#[derive(Drop)]
pub struct NameIndex {
    places: HashMap<Vec<u8>, Vec<usize>>,
    /// The list, which takes no memory: only contracts read it.
    names: Vec<Snapshot<Vec<u8>>>,
}

impl Model for NameIndex {
    ghost use Rattle.std.specs.Prelude.{List, ℕ, map};
    ghost use Rattle.c_check_names.specs.Kept.{IsIndexOf};

    ghost Value = { List (List ℕ) };

    ghost view = { λ t. map (λ s. s.value.items) t.names.items };

    ghost invariant = { λ t. IsIndexOf t.places (map (λ s. s.value.items) t.names.items) };
}

impl NameIndex {
    ghost use Rattle.std.specs.Prelude.{◌≡◌, ℕ, List, [], ◌∷◌, ◌++◌, IfOk};
    ghost use Rattle.c_check_names.specs.Places.{first_place, last_place};

    /// No names.
    pub fn new(alloc: Global) -> NameIndex
        ensures { result ≡ [] }
    {
        NameIndex {
            places: HashMap::new(alloc),
            names: Vec::new(alloc),
        }
    }

    /// The last place of a name.
    pub fn last(&self, name: &[u8]) -> Option<usize>
        ensures { result ≡ last_place name.now self.now }
    {
        self.places.get(name)?.last().copied()
    }

    /// The first place of a name that is not below another place.
    pub fn first_from(&self, name: &[u8], from: usize) -> Option<usize>
        ensures { result ≡ first_place from name.now self.now }
    {
        let places = self.places.get(name)?;
        let at = places.partition_point(|place| *place < from);
        places.get(at).copied()
    }

    /// The names with one more, which stands last.
    pub fn with(self, name: Vec<u8>) -> Result<NameIndex, NoMemory>
        ensures { IfOk result (λ index. index ≡ self ++ name.items ∷ []) }
    {
        let NameIndex { places, mut names } = self;
        let place = names.len();
        names.push(Snapshot::of(&name))?;
        let places = with_place(places, name, place)?;
        Ok(NameIndex { places, names })
    }

    /// Takes away the last name, which is this.
    pub fn pop(&mut self, name: &[u8])
        requires { (front : List (List ℕ)) × (self.old ≡ front ++ name.now ∷ []) }
        ensures { (front : List (List ℕ)) → self.old ≡ front ++ name.now ∷ [] → self.new ≡ front }
    {
        self.names.pop();
        pop_place(&mut self.places, name);
    }
}

// The places with one more, of a name that stands behind all others.
fn with_place(
    mut places: HashMap<Vec<u8>, Vec<usize>>,
    name: Vec<u8>,
    place: usize,
) -> Result<HashMap<Vec<u8>, Vec<usize>>, NoMemory>
    ensures { IfOk result (λ after. (names : List (List ℕ)) → IsIndexOf places names → place ≡ length names → IsIndexOf after (names ++ name.items ∷ [])) }
{
    if let Some(there) = places.get_mut(name.as_slice()) {
        there.push(place)?;
        return Ok(places);
    }
    let mut alone = Vec::new(*name.allocator());
    alone.push(place)?;
    places.insert(name, alone)?;
    Ok(places)
}

// The places without the last, which is one of this name.
fn pop_place(places: &mut HashMap<Vec<u8>, Vec<usize>>, name: &[u8])
    ensures { (front : List (List ℕ)) → IsIndexOf places.old (front ++ name.now ∷ []) → IsIndexOf places.new front }
{
    if let Some(there) = places.get_mut(name) {
        there.pop();
    }
}
