// Sets of pointers.

ghost use Rattle.std.specs.Prelude.{◌≡◌, ◌&&◌, ◌||◌, IfOk};
ghost use Rattle.c_syntax.specs.Admission.{IsProperSet};
ghost use Rattle.mem_narrowed.specs.Narrowed.{IsNarrowedSet, common, names_of_both};

use crate::bounds::Bounds;
use c_syntax::{Numbers, Pointers};
use std::alloc::{AllocError as NoMemory, Global};

// Those of the names that are among the others.
fn common_names(alloc: Global, names: &[u64], others: &[u64]) -> Result<Vec<u64>, NoMemory>
    ensures { IfOk result (λ found. found.items ≡ common names.now others.now) }
{
    let mut found = Vec::new(alloc);
    for name in names {
        if others.contains(name) {
            found.push(*name)?;
        }
    }
    Ok(found)
}

// The names of the objects that both sets may have. A set of any pointer has each name.
fn names_in_both(alloc: Global, a: &Pointers, b: &Pointers) -> Result<Numbers, NoMemory>
    ensures { IfOk result (λ names. names ≡ names_of_both a.now.any b.now.any a.now.names b.now.names) }
{
    if a.any && !b.any {
        return b.names.copy();
    }
    if b.any && !a.any {
        return a.names.copy();
    }
    let found = common_names(alloc, a.names.as_slice(), b.names.as_slice())?;
    Ok(Numbers::from_vec(found))
}

/// Whether both are set.
pub fn both(a: bool, b: bool) -> bool
    ensures { result ≡ (a && b) }
{
    a && b
}

// Whether a mark that each set of any pointer has is in both.
fn mark_in_both(a_any: bool, a: bool, b_any: bool, b: bool) -> bool
    ensures { result ≡ ((a_any || a) && (b_any || b)) }
{
    (a_any || a) && (b_any || b)
}

/// The set of the pointers that are in both sets, as the first shows them: the common names and marks, and of the offsets
/// those of both. Where an offset of the first is known, it stays, and so does a common divisor of its modulus and
/// remainder. Objects that the second set names are taken to be objects of the program.
pub fn pointers_narrowed(alloc: Global, a: &Pointers, b: &Pointers) -> Result<Pointers, NoMemory>
    requires left { IsProperSet a.now }
    requires right { IsProperSet b.now }
    ensures { IfOk result (λ set. IsNarrowedSet a.now b.now set) }
{
    let names = names_in_both(alloc, a, b)?;
    let offsets = Bounds::of(a).narrowed(Bounds::of(b));
    let any = both(a.any, b.any);
    let null = mark_in_both(a.any, a.null, b.any, b.null);
    let dead = mark_in_both(a.any, a.dead, b.any, b.dead);
    Ok(offsets.of_pointers(any, null, dead, names))
}
