// The hull of two shown values.

ghost use Rattle.std.specs.Prelude.{◌≡◌, ◌||◌, IfOk, OnOk};
ghost use Rattle.c_syntax.specs.Admission.{IsProper, IsProperSet};
ghost use Rattle.mem_shown.specs.Hulls.{AreFlags, AreOfOneForm, HasOffsets, HoldsBoth, HoldsSets, IsHull, IsProperBounds, IsUnion, bounds_of, has_objects, with_name, with_names};

use crate::bounds::Bounds;
use c_syntax::{Numbers, Pointers, Shown};
use std::alloc::AllocError as NoMemory;

// Puts another name behind the names, where it is not among them.
fn add_name(names: &mut Vec<u64>, name: u64) -> Result<(), NoMemory>
    ensures { OnOk result (names.new.items ≡ with_name names.old.items name) }
{
    if names.contains(&name) {
        return Ok(());
    }
    names.push(name)?;
    Ok(())
}

// Puts behind the names those others that are not among them.
fn add_names(names: &mut Vec<u64>, others: &[u64]) -> Result<(), NoMemory>
    ensures { OnOk result (names.new.items ≡ with_names names.old.items others.now) }
{
    for name in others {
        add_name(names, *name)?;
    }
    Ok(())
}

// The names of both sets.
fn names_of_both(a: &Numbers, b: &Numbers) -> Result<Numbers, NoMemory>
    ensures { IfOk result (λ names. names ≡ with_names a.now b.now) }
{
    let mut names = a.copy()?.into_vec();
    add_names(&mut names, b.as_slice())?;
    Ok(Numbers::from_vec(names))
}

// Whether the set has pointers into objects.
fn names_some(set: &Pointers) -> bool
    ensures { result ≡ has_objects set.now }
{
    set.any || !set.names.as_slice().is_empty()
}

// The offsets of both sets; of one that has none, nothing is taken.
fn offsets_of_both(a: &Pointers, b: &Pointers) -> Bounds
    requires left { IsProperSet a.now }
    requires right { IsProperSet b.now }
    ensures offsets { HasOffsets (has_objects a.now) (has_objects b.now) (bounds_of a.now) (bounds_of b.now) result }
    ensures proper { IsProperBounds result }
{
    if !names_some(a) {
        return Bounds::of(b);
    }
    if !names_some(b) {
        return Bounds::of(a);
    }
    Bounds::of(a).hull(Bounds::of(b))
}

// Whether one of them is set.
fn either(a: bool, b: bool) -> bool
    ensures { result ≡ (a || b) }
{
    a || b
}

/// The set of the pointers of both sets: all names and marks of both, and the least ends and the least class of
/// their offsets. A set of no object adds nothing to these.
pub fn pointers_hull(a: &Pointers, b: &Pointers) -> Result<Pointers, NoMemory>
    requires left { IsProperSet a.now }
    requires right { IsProperSet b.now }
    ensures union { IfOk result (λ set. IsUnion a.now b.now set) }
    ensures holds { IfOk result (λ set. HoldsSets a.now b.now set) }
{
    let names = names_of_both(&a.names, &b.names)?;
    let offsets = offsets_of_both(a, b);
    let any = either(a.any, b.any);
    let null = either(a.null, b.null);
    let dead = either(a.dead, b.dead);
    Ok(offsets.of_pointers(any, null, dead, names))
}

// The marks of both loads, or the ends of both calls.
fn flags_hull(a: &Shown, b: &Shown) -> Shown
    requires { AreFlags a.now b.now }
    ensures hull { IsHull a.now b.now result }
    ensures proper { IsProper result }
{
    match (a, b) {
        (
            Shown::Marks {
                undef,
                value,
                broken,
            },
            Shown::Marks {
                undef: other_undef,
                value: other_value,
                broken: other_broken,
            },
        ) => Shown::Marks {
            undef: either(*undef, *other_undef),
            value: either(*value, *other_value),
            broken: either(*broken, *other_broken),
        },
        (
            Shown::Ends { value, none },
            Shown::Ends {
                value: other_value,
                none: other_none,
            },
        ) => Shown::Ends {
            value: either(*value, *other_value),
            none: either(*none, *other_none),
        },
        _ => unreachable!(),
    }
}

/// What holds the operands of both shown values, which are of one form: the least ends of their numbers or
/// offsets, the least class where its modulus is at most 2^100, and all names, marks and ends of both.
pub fn shown_hull(a: &Shown, b: &Shown) -> Result<Shown, NoMemory>
    requires form { AreOfOneForm a.now b.now }
    requires left { IsProper a.now }
    requires right { IsProper b.now }
    ensures hull { IfOk result (λ w. IsHull a.now b.now w) }
    ensures holds { IfOk result (λ w. HoldsBoth a.now b.now w) }
{
    match (a, b) {
        (
            Shown::Number {
                lo,
                hi,
                modulus,
                rem,
            },
            Shown::Number {
                lo: low,
                hi: high,
                modulus: step,
                rem: rest,
            },
        ) => {
            let left = Bounds::new(*lo, *hi, *modulus, *rem);
            let right = Bounds::new(*low, *high, *step, *rest);
            Ok(left.hull(right).shown())
        }
        (Shown::One(left), Shown::One(right)) => Ok(Shown::One(pointers_hull(left, right)?)),
        (Shown::Pair(left, right), Shown::Pair(other_left, other_right)) => Ok(Shown::Pair(
            pointers_hull(left, other_left)?,
            pointers_hull(right, other_right)?,
        )),
        _ => Ok(flags_hull(a, b)),
    }
}
