// Sets of what pointers may point to, cut.
#![tactic(auto)]

ghost use Rattle.std.specs.Prelude.{◌≡◌, ◌≢◌, ◌<◌, ℕ, false, true, IfSome, IsTrue, slice_index_or};
ghost use Rattle.pointsets.specs.declared.Base.{Base as CBase};
ghost use Rattle.pointsets.specs.declared.Base.TheVariants.{Dead, Null, Object};
ghost use Rattle.pointsets.specs.Targets.{has_base, has_name};
ghost use Rattle.mem_cell_shows.specs.Changes.{IsCommon, bad_base};

use pointsets::{Base, Targets};
use std::alloc::Global;

// The set of one base.
fn only(alloc: Global, b: Base) -> Targets
    ensures { has_base result b ≡ true }
{
    let mut set = Targets::new(alloc);
    set.with(b);
    set
}

// A set with one more base, where it is asked for.
fn marked(alloc: Global, set: Targets, b: Base, is: bool) -> Targets
    ensures old { (x : CBase) → has_base set x ≡ true → has_base result x ≡ true }
    ensures new { IsTrue is → has_base result b ≡ true }
{
    if !is {
        return set;
    }
    let mut all = set;
    all.join(&only(alloc, b));
    all
}

// The objects of these names that are in a set.
fn named_within(alloc: Global, names: &[u64], within: &Targets) -> Targets
    ensures { (n : ℕ) → has_name names.now n ≡ true → has_base within.now (Object n) ≡ true → has_base result (Object n) ≡ true }
{
    let mut left = Targets::new(alloc);
    for n in names {
        left = marked(
            alloc,
            left,
            Base::Object(*n),
            within.holds(Base::Object(*n)),
        );
    }
    left
}

/// What both sets have; of null and of dead pointers only where they are asked for.
pub fn common(alloc: Global, set: &Targets, within: &Targets, null: bool, dead: bool) -> Targets
    ensures { IsCommon set.now within.now null dead result }
{
    if set.is_all() {
        return within.copy();
    }
    let objects = named_within(alloc, set.names(), within);
    let with_null = marked(alloc, objects, Base::Null, null);
    marked(alloc, with_null, Base::Dead, dead)
}

/// What a set has but null.
pub fn without_null(alloc: Global, set: &Targets) -> Targets
    ensures { (b : CBase) → has_base set.now b ≡ true → b ≢ Null → has_base result b ≡ true }
{
    common(alloc, set, set, false, set.holds(Base::Dead))
}

// What a set has but dead pointers.
fn without_dead(alloc: Global, set: &Targets) -> Targets
    ensures { (b : CBase) → has_base set.now b ≡ true → b ≢ Dead → has_base result b ≡ true }
{
    common(alloc, set, set, set.holds(Base::Null), false)
}

/// What a set has but dead pointers, or but null.
pub fn without(alloc: Global, set: &Targets, dead: bool) -> Targets
    ensures { (b : CBase) → has_base set.now b ≡ true → b ≢ bad_base dead → has_base result b ≡ true }
{
    if dead {
        without_dead(alloc, set)
    } else {
        without_null(alloc, set)
    }
}

/// The null pointer alone, where it is in a set.
pub fn null_of(alloc: Global, set: &Targets) -> Targets
    ensures { has_base set.now Null ≡ true → has_base result Null ≡ true }
{
    marked(
        alloc,
        Targets::new(alloc),
        Base::Null,
        set.holds(Base::Null),
    )
}

/// Whether nothing is in a set.
pub fn is_nothing(set: &Targets) -> bool
    ensures { IsTrue result → (b : CBase) → has_base set.now b ≡ true → ⊥ }
{
    if set.is_all() || set.holds(Base::Null) || set.holds(Base::Dead) {
        return false;
    }
    set.names().is_empty()
}

/// Whether a set has no pointer but null.
pub fn is_null(set: &Targets) -> bool
    ensures { IsTrue result → (b : CBase) → has_base set.now b ≡ true → b ≡ Null }
{
    if set.is_all() || set.holds(Base::Dead) {
        return false;
    }
    set.names().is_empty()
}

/// The one object of a set that has nothing else.
pub fn only_object(set: &Targets) -> Option<u64>
    ensures { IfSome result (λ o. (b : CBase) → has_base set.now b ≡ true → b ≡ Object o) }
{
    if set.is_all() || set.holds(Base::Null) || set.holds(Base::Dead) {
        return None;
    }
    match set.names() {
        [o] => Some(*o),
        _ => None,
    }
}
