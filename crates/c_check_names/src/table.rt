// Lists of named things, in the order in which they were put in.

ghost use Rattle.std.specs.Prelude.{◌≡◌, List, ℕ};

use crate::name_index::NameIndex;
use std::alloc::{AllocError as NoMemory, Global};
use std::marker::Model;
use std::mem;

/// What has a name.
pub trait Named: Drop {
    ghost name_of: { Self → List ℕ };

    /// The name.
    fn name(&self) -> &[u8]
        ensures { result.now ≡ name_of self.now };
}

/// A list of named things, in the order in which they were put in, as contracts see it. A look by name
/// does not depend on how long the list is.
#[derive(Drop)]
pub struct Table<T: Named> {
    alloc: Global,
    index: NameIndex,
    items: Vec<T>,
}

impl<T: Named> Model for Table<T> {
    ghost use Rattle.std.specs.Prelude.{◌≡◌, List, map};

    ghost Value = { List T };

    ghost view = { λ t. t.items.items };

    ghost invariant = { λ t. t.index ≡ map T.name_of t.items.items };
}

impl<T: Named> Table<T> {
    ghost use Rattle.std.specs.Prelude.{◌≡◌, [], ◌∷◌, ◌++◌, ◌<◌, length, map, take, drop, reverse, find, slice_get, slice_set, Some, IfSome, IfOk, OnOk};
    ghost use Rattle.c_check_names.specs.Places.{first_place};
    ghost use Rattle.std.specs.Option.{option_copied};
    ghost use Rattle.std.specs.Str.{bytes_eq};

    /// Nothing.
    pub fn new(alloc: Global) -> Table<T>
        ensures { result ≡ [] }
    {
        Table {
            alloc,
            index: NameIndex::new(alloc),
            items: Vec::new(alloc),
        }
    }

    /// How many there are.
    pub fn len(&self) -> usize
        ensures { result ≡ length self.now }
    {
        self.items.len()
    }

    /// The last one that has the name.
    pub fn last(&self, name: &[u8]) -> Option<&T>
        ensures { option_copied result ≡ find (λ item. bytes_eq (T.name_of item) name.now) (reverse self.now) }
    {
        let place = self.index.last(name)?;
        self.items.get(place)
    }

    /// The first one from a place on that has the name.
    pub fn first_from(&self, name: &[u8], from: usize) -> Option<&T>
        ensures { option_copied result ≡ find (λ item. bytes_eq (T.name_of item) name.now) (drop from self.now) }
    {
        let place = self.index.first_from(name, from)?;
        self.items.get(place)
    }

    /// The place of the first one from a place on that has the name.
    pub fn place_from(&self, name: &[u8], from: usize) -> Option<usize>
        ensures place { result ≡ first_place from name.now (map T.name_of self.now) }
        ensures small { IfSome result (λ place. place < usize.MAX) }
    {
        self.index.first_from(name, from)
    }

    /// The one at a place.
    pub fn get(&self, place: usize) -> &T
        requires { place < length self.now }
        ensures { slice_get self.now place ≡ Some result.now }
    {
        &self.items[place]
    }

    /// Puts another one of the same name at a place.
    pub fn replace(&mut self, place: usize, item: T)
        requires inside { place < length self.old }
        requires same_name { IfSome (slice_get self.old place) (λ old. T.name_of item ≡ T.name_of old) }
        ensures { self.new ≡ slice_set self.old place item }
    {
        self.items[place] = item;
    }

    /// The list with one more at its end.
    pub fn with(self, item: T) -> Result<Table<T>, NoMemory>
        ensures { IfOk result (λ table. table ≡ self ++ item ∷ []) }
    {
        let Table {
            alloc,
            index,
            mut items,
        } = self;
        let name = Vec::from_slice(alloc, item.name())?;
        let index = index.with(name)?;
        items.push(item)?;
        Ok(Table {
            alloc,
            index,
            items,
        })
    }

    /// Puts one more at the end. Once out of memory the list is only dropped.
    pub fn push(&mut self, item: T) -> Result<(), NoMemory>
        ensures { OnOk result (self.new ≡ self.old ++ item ∷ []) }
    {
        let empty = Table::new(self.alloc);
        let table = mem::replace(self, empty);
        *self = table.with(item)?;
        Ok(())
    }

    /// Takes away all behind the first `count`.
    pub fn truncate(&mut self, count: usize)
        ensures { self.new ≡ take count self.old }
    {
        while self.items.len() > count {
            if let Some(last) = self.items.pop() {
                self.index.pop(last.name());
            }
        }
    }

    /// All behind the first `count`, in their order, which are taken away. Once out of memory the list is only
    /// dropped.
    pub fn split_off(&mut self, count: usize) -> Result<Vec<T>, NoMemory>
        ensures rest { OnOk result (self.new ≡ take count self.old) }
        ensures taken { IfOk result (λ items. items.items ≡ drop count self.old) }
    {
        let mut taken = Vec::new(self.alloc);
        'behind: while self.items.len() > count {
            if let Some(last) = self.items.pop() {
                self.index.pop(last.name());
                taken.push(last)?;
            }
        }
        taken.reverse();
        Ok(taken)
    }

    /// The list, in its order.
    pub fn as_slice(&self) -> &[T]
        ensures { result.now ≡ self.now }
    {
        self.items.as_slice()
    }

    /// The list without its index.
    pub fn into_vec(self) -> Vec<T>
        ensures { result.items ≡ self }
    {
        let Table {
            alloc: _,
            index: _index,
            items,
        } = self;
        items
    }
}
