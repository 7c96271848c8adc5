//! Sets of what a pointer may point to. No call takes memory.
//!
//! A set is All, of which nothing is known, or the numbers of at most 16 objects with two marks: Null, and
//! Dead for an object that has ended. A seventeenth object makes it All. For example, the join of {1, Null}
//! and {2} is {1, 2, Null}; after object 1 has ended, `kill` makes it {2, Null, Dead}.
//!
//! `specs/Targets.antt` states each call, as a function on `BaseSet`; `bases_are_kept` and
//! `joins_weigh_less` are laws for the layers above.
#![tactic(auto)]

ghost use Rattle.std.specs.Prelude.{◌≡◌, ℕ, ◌≤◌, ◌<◌, List, [], length, insert, filter, not, true, false, IsTrue, ◌↔◌, MatchOption};
ghost use Rattle.std.specs.List.{list_any, list_all};
ghost use Rattle.std.specs.List.Sorted.{IsStrictlyIncreasing};
ghost use Rattle.pointsets.specs.Targets.{BaseSet, has_base, has_name, put, joined, killed, covers_set, set_weight};

use smallvec::SmallVec;
use std::alloc::Global;
use std::marker::Model;

/// How many objects a set tells apart.
const ROOM: usize = 16;

/// What a pointer may point to: nothing, an object that has ended, or the object of this number.
#[derive(Clone, Copy, PartialEq, Eq)]
pub enum Base {
    Null,
    Dead,
    Object(u64),
}

/// The bases that a pointer may have: at most 16 objects, Null and Dead, or all.
#[derive(Drop)]
pub struct Targets {
    names: SmallVec<u64, 16>,
    null: bool,
    dead: bool,
    all: bool,
}

impl Model for Targets {
    ghost use Rattle.std.specs.Prelude.{if◌then◌else◌};
    ghost use Rattle.pointsets.specs.Targets.{BaseSet, Any, Among, IsKept};

    ghost Value = { BaseSet };

    ghost view = { λ t. (if t.all then Any else Among t.names.items t.null t.dead) };

    ghost invariant = { λ t. IsKept t.names.capacity t.names.items t.all };
}

impl Targets {
    ghost use Rattle.pointsets.specs.Targets.{Any, Among, has_base, names_of, with_base, joined, killed, Covers, covers_set, with_objects};

    /// The set of nothing.
    pub fn new(alloc: Global) -> Targets
        ensures { result ≡ Among [] false false }
    {
        Targets {
            names: SmallVec::new(alloc),
            null: false,
            dead: false,
            all: false,
        }
    }

    /// The same set once more.
    pub fn copy(&self) -> Targets
        ensures { result ≡ self.now }
    {
        Targets {
            names: without(*self.names.allocator(), self.names.as_slice(), &[]),
            null: self.null,
            dead: self.dead,
            all: self.all,
        }
    }

    /// Whether the set is All: nothing is known of the pointer.
    pub fn is_all(&self) -> bool
        ensures { IsTrue result ↔ (self.now ≡ Any) }
    {
        self.all
    }

    /// The numbers of the set's objects, in rising order: none where the set is All.
    pub fn names(&self) -> &[u64]
        ensures names { result.now ≡ names_of self.now }
        ensures rising { IsStrictlyIncreasing result.now }
        ensures few { length result.now ≤ 16 }
    {
        self.names.as_slice()
    }

    /// Whether the set is All or has the base.
    pub fn holds(&self, b: Base) -> bool
        ensures { result ≡ has_base self.now b }
    {
        if self.all {
            return true;
        }
        match b {
            Base::Null => self.null,
            Base::Dead => self.dead,
            Base::Object(n) => is_among(self.names.as_slice(), n),
        }
    }

    /// Adds a base. A seventeenth object makes the set All.
    pub fn with(&mut self, b: Base)
        ensures { self.new ≡ with_base self.old b }
    {
        if self.all {
            return;
        }
        match b {
            Base::Null => self.null = true,
            Base::Dead => self.dead = true,
            Base::Object(n) => self.with_object(n),
        }
    }

    /// Adds the bases of another set. A seventeenth object makes the set All.
    pub fn join(&mut self, other: &Targets)
        ensures { self.new ≡ joined self.old other.now }
    {
        if self.all {
            return;
        }
        if other.all {
            self.make_all();
            return;
        }
        let null = self.null || other.null;
        let dead = self.dead || other.dead;
        self.null = null;
        self.dead = dead;
        self.with_objects(other.names.as_slice());
    }

    /// Whether self is All, or the other is not and each of its bases is in self.
    pub fn covers(&self, other: &Targets) -> bool
        ensures covers { IsTrue result ↔ Covers self.now other.now }
        ensures test { result ≡ covers_set self.now other.now }
    {
        if self.all {
            return true;
        }
        if other.all {
            return false;
        }
        if other.null && !self.null {
            return false;
        }
        if other.dead && !self.dead {
            return false;
        }
        are_among(self.names.as_slice(), other.names.as_slice())
    }

    /// Takes these objects out, since they have ended, and adds Dead where one of them was there.
    /// All stays All.
    pub fn kill(&mut self, names: &[u64])
        ensures { self.new ≡ killed self.old names.now }
    {
        if self.all {
            return;
        }
        let dead = self.dead || is_any_among(names, self.names.as_slice());
        let left = without(*self.names.allocator(), self.names.as_slice(), names);
        self.dead = dead;
        self.names = left;
    }

    /// Makes the set All.
    fn make_all(&mut self)
        ensures { self.new ≡ Any }
    {
        self.names.clear();
        self.all = true;
    }

    /// Adds an object.
    fn with_object(&mut self, n: u64)
        ensures { self.new ≡ with_base self.old (Base.Object n) }
    {
        if self.all {
            return;
        }
        match place(self.names.as_slice(), n) {
            None => {}
            Some(at) => self.put_at(at, n),
        }
    }

    /// Adds an object at its place.
    fn put_at(&mut self, at: usize, n: u64)
        requires place { at ≤ length (names_of self.old) }
        requires is_place { put (names_of self.old) n ≡ insert (names_of self.old) at n }
        ensures { self.new ≡ with_base self.old (Base.Object n) }
    {
        if self.all {
            return;
        }
        if self.names.len() == ROOM {
            self.make_all();
            return;
        }
        let _room_was_there = self.names.insert(at, n);
    }

    /// Adds objects.
    fn with_objects(&mut self, names: &[u64])
        ensures { self.new ≡ with_objects self.old names.now }
    {
        for n in names {
            self.with_object(*n);
        }
    }
}

/// What joined, covered and killed sets have. A base of either set is in the join. A set that covers
/// another has its bases. An object that has ended is dead, and all other bases stay.
pub fn bases_are_kept()
    ensures left { (s t : BaseSet) (b : Base) → IsTrue (has_base s b) → IsTrue (has_base (joined s t) b) }
    ensures right { (s t : BaseSet) (b : Base) → IsTrue (has_base t b) → IsTrue (has_base (joined s t) b) }
    ensures covered { (s t : BaseSet) (b : Base) → IsTrue (covers_set s t) → IsTrue (has_base t b) → IsTrue (has_base s b) }
    ensures others { (s : BaseSet) (gone : List ℕ) (n : ℕ) → has_name gone n ≡ false → IsTrue (has_base s (Base.Object n))
        → IsTrue (has_base (killed s gone) (Base.Object n)) }
    ensures ended { (s : BaseSet) (gone : List ℕ) (n : ℕ) → IsTrue (has_name gone n) → IsTrue (has_base s (Base.Object n))
        → IsTrue (has_base (killed s gone) Base.Dead) }
    ensures dead { (s : BaseSet) (gone : List ℕ) → IsTrue (has_base s Base.Dead) → IsTrue (has_base (killed s gone) Base.Dead) }
    ensures null { (s : BaseSet) (gone : List ℕ) → IsTrue (has_base s Base.Null) → IsTrue (has_base (killed s gone) Base.Null) }
{}

/// The weight of a set never rises by a join, and falls where the other set was not covered.
pub fn joins_weigh_less()
    ensures never_more { (s t : BaseSet) → set_weight (joined s t) ≤ set_weight s }
    ensures falls { (s t : BaseSet) → covers_set s t ≡ false → set_weight (joined s t) < set_weight s }
{}

/// Whether a number stands in a list.
fn is_among(names: &[u64], n: u64) -> bool
    ensures { result ≡ has_name names.now n }
{
    names.contains(&n)
}

/// Whether each number of the second list stands in the first.
fn are_among(names: &[u64], others: &[u64]) -> bool
    ensures { result ≡ list_all (has_name names.now) others.now }
{
    others.iter().all(|n| is_among(names, *n))
}

/// Whether some number of the second list stands in the first.
fn is_any_among(names: &[u64], others: &[u64]) -> bool
    ensures { result ≡ list_any (has_name names.now) others.now }
{
    others.iter().any(|n| is_among(names, *n))
}

/// The place of a new number in a rising list, or None where it stands there.
fn place(names: &[u64], n: u64) -> Option<usize>
    requires { IsStrictlyIncreasing names.now }
    ensures { MatchOption result (put names.now n ≡ names.now)
        (λ at. (at ≤ length names.now) × (put names.now n ≡ insert names.now at n)) }
{
    names.binary_search(&n).err()
}

/// The numbers of the first list that do not stand in the second.
fn without(alloc: Global, names: &[u64], gone: &[u64]) -> SmallVec<u64, 16>
    requires { length names.now ≤ 16 }
    ensures items { result.items ≡ filter (λ n. not (has_name gone.now n)) names.now }
    ensures in_place { result.capacity ≡ 16 }
    ensures few { length result.items ≤ length names.now }
{
    let mut left = SmallVec::new(alloc);
    for n in names {
        if !is_among(gone, *n) {
            left.push_reserved(*n);
        }
    }
    left
}
