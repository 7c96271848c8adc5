// The map.

use crate::Entry;
use crate::entries::{all_pass, copy_entries, merged, place_of, put_value, remove_value};
use num_api::Var;
use std::alloc::{AllocError as NoMemory, Global};
use std::marker::Model;

/// A value for some of the variables. A contract sees the list of its entries, by rising variable.
#[derive(Drop)]
pub struct VarMap<T> {
    entries: Vec<Entry<T>>,
}

impl<T> Model for VarMap<T> {
    ghost use Rattle.std.specs.Prelude.{List};
    ghost use Rattle.env_lift.specs.declared.entries.Entry.{Entry};
    ghost use Rattle.env_lift.specs.Entries.{IsRising};

    ghost Value = { List (Entry T) };

    ghost view = { λ m. m.entries.items };

    ghost invariant = { λ m. IsRising m.entries.items };
}

impl<T: Copy> VarMap<T> {
    ghost use Rattle.std.specs.Prelude.{◌≡◌, ℕ, Bool, true, [], length, if◌then◌else◌, nat_eq, Some, None, IsTrue, OnOk, OnErr, IfOk};
    ghost use Rattle.env_lift.specs.Entries.{value_in, IsRising};
    ghost use Rattle.env_lift.specs.Passes.{IsMerged, AllMet, all_met, Computes};

    /// The map in which no variable has a value.
    pub fn new(alloc: Global) -> VarMap<T>
        ensures { result ≡ [] }
    {
        VarMap {
            entries: Vec::new(alloc),
        }
    }

    /// How many variables have a value.
    pub fn len(&self) -> usize
        ensures { result ≡ length self.now }
    {
        self.entries.len()
    }

    /// The entries, by rising variable.
    pub fn entries(&self) -> &[Entry<T>]
        ensures value { result.now ≡ self.now }
        ensures rising { IsRising self.now }
    {
        self.entries.as_slice()
    }

    /// The value of the variable, or `None` where it has none.
    pub fn get(&self, x: Var) -> Option<T>
        ensures { result ≡ value_in self.now x.0 }
    {
        match place_of(&self.entries, x) {
            Ok(at) => Some(self.entries[at].value),
            Err(_) => None,
        }
    }

    /// Gives the variable this value, and leaves the others theirs. Where there is no memory, the map is
    /// as it was.
    pub fn set(&mut self, x: Var, value: T) -> Result<(), NoMemory>
        ensures ok { OnOk result ((y : ℕ) → value_in self.new y ≡ (if nat_eq y x.0 then Some value else value_in self.old y)) }
        ensures err { OnErr result (self.new ≡ self.old) }
    {
        put_value(&mut self.entries, x, value)
    }

    /// Takes the variable's value away, and leaves the others theirs.
    pub fn remove(&mut self, x: Var)
        ensures { (y : ℕ) → value_in self.new y ≡ (if nat_eq y x.0 then None else value_in self.old y) }
    {
        remove_value(&mut self.entries, x);
    }

    /// A map that equals this one.
    pub fn copy(&self, alloc: Global) -> Result<VarMap<T>, NoMemory>
        ensures { IfOk result (λ m. m ≡ self.now) }
    {
        Ok(VarMap {
            entries: copy_entries(alloc, &self.entries)?,
        })
    }

    /// The variables that have a value in both maps, each with what the function gives of the two. It goes
    /// over both maps once.
    pub fn merge<F: Fn(T, T) -> T>(
        &self,
        other: &VarMap<T>,
        alloc: Global,
        f: F,
    ) -> Result<VarMap<T>, NoMemory>
        requires { F.IsAlwaysCallable f }
        ensures { IfOk result (λ m. IsMerged (F.post f) self.now other.now m) }
    {
        Ok(VarMap {
            entries: merged(alloc, &self.entries, &other.entries, &f)?,
        })
    }

    /// Whether the other map has each variable of this one, with a value that passes the test beside the
    /// one here. It goes over both maps once.
    pub fn all_met<F: Fn(T, T) -> bool>(&self, other: &VarMap<T>, test: F) -> bool
        requires { F.IsAlwaysCallable test }
        ensures value { (t : T → T → Bool) → Computes (F.post test) t → result ≡ all_met t self.now other.now }
        ensures met { IsTrue result → AllMet (λ a b. F.post test a b true) self.now other.now }
    {
        all_pass(&self.entries, &other.entries, &test)
    }
}
