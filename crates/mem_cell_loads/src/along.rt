// Readings of several places.

ghost use Rattle.std.specs.Prelude.{◌≡◌, ◌||◌, ℤ, Some, IfOk, IfSome};
ghost use Rattle.num_api.specs.Ranges.{InRange};
ghost use Rattle.pointsets.specs.Targets.{BaseSet, joined};
ghost use Rattle.mem_cell_loads.specs.Found.{AllowsAll, AreEither};
ghost use Rattle.mem_cell_loads.specs.Places.{IsReadAlong, IsReadIn};

use crate::reach::{Reach, place_at};
use crate::reading::{Marks, Reading, reading_at};
use block_mem::Scalar;
use ext_int::{max, min};
use mem_cell_bytes::SharedSet;
use mem_cell_exprs::Known;
use num_api::{NumDomain, Range, no_numbers};
use std::alloc::{AllocError as NoMemory, Global};

// A range that holds all numbers of two.
fn hull(a: Range, b: Range) -> Range
    ensures first { (n : ℤ) → InRange a n → InRange result n }
    ensures second { (n : ℤ) → InRange b n → InRange result n }
{
    Range {
        lo: min(a.lo, b.lo),
        hi: max(a.hi, b.hi),
    }
}

// What either of two pointers may point to, where it is known of both.
fn joined_set(
    alloc: Global,
    a: &Option<SharedSet>,
    b: &Option<SharedSet>,
) -> Result<Option<SharedSet>, NoMemory>
    ensures { IfOk result (λ set. IfSome set (λ s. (x y : BaseSet) × (a.now ≡ Some x) × (b.now ≡ Some y) × (s ≡ joined x y))) }
{
    match (a, b) {
        (Some(x), Some(y)) => Ok(Some(x.joined(alloc, y)?)),
        _ => Ok(None),
    }
}

// Whether one of two marks is set.
fn either(a: bool, b: bool) -> bool
    ensures { result ≡ (a || b) }
{
    a || b
}

// Marks that one of two readings has.
fn joined_marks(a: Marks, b: Marks) -> Marks
    ensures { AreEither a b result }
{
    Marks {
        undef: either(a.undef, b.undef),
        value: either(a.value, b.value),
        broken: either(a.broken, b.broken),
    }
}

// What either of two readings may find.
fn joined(alloc: Global, a: &Reading, b: &Reading) -> Result<Reading, NoMemory>
    ensures first { IfOk result (λ all. AllowsAll a.now all) }
    ensures second { IfOk result (λ all. AllowsAll b.now all) }
{
    Ok(Reading {
        range: hull(a.range, b.range),
        set: joined_set(alloc, &a.set, &b.set)?,
        marks: joined_marks(a.marks, b.marks),
    })
}

// Nothing was read yet.
fn nothing_read() -> Reading {
    Reading {
        range: no_numbers(),
        set: Some(SharedSet::none()),
        marks: Marks {
            undef: false,
            value: false,
            broken: false,
        },
    }
}

// What a load may find at places of one object, from one on to below another.
fn read_along<D: NumDomain>(
    known: &Known<D>,
    object: u64,
    reach: &Reach,
    ty: Scalar,
) -> Result<Reading, NoMemory>
    ensures { IfOk result (λ r. IsReadAlong D.admits known.now object reach.now.first reach.now.end reach.now.step ty r) }
{
    let mut all = nothing_read();
    for i in reach.first..reach.end {
        let next = reading_at(known, object, place_at(i, reach.step), ty)?;
        all = joined(known.alloc, &all, &next)?;
    }
    Ok(all)
}

// What a load may find at places of several objects.
fn read_each<D: NumDomain>(
    known: &Known<D>,
    objects: &[u64],
    reach: &Reach,
    ty: Scalar,
) -> Result<Reading, NoMemory>
    ensures { IfOk result (λ r. IsReadIn D.admits known.now objects.now reach.now.first reach.now.end reach.now.step ty r) }
{
    let mut all = nothing_read();
    for object in objects {
        let next = read_along(known, *object, reach, ty)?;
        all = joined(known.alloc, &all, &next)?;
    }
    Ok(all)
}

/// What a load may find at the places where a pointer leads.
pub fn read_all<D: NumDomain>(
    known: &Known<D>,
    reach: &Reach,
    ty: Scalar,
) -> Result<Reading, NoMemory>
    ensures { IfOk result (λ r. IsReadIn D.admits known.now reach.now.objects.items reach.now.first reach.now.end reach.now.step ty r) }
{
    read_each(known, reach.objects.as_slice(), reach, ty)
}
