// What temporaries may point to.

ghost use Rattle.std.specs.Prelude.{◌≡◌, [], List, None, Some, Option, IfOk, MatchOption, length, map, option_map, replicate, slice_get, slice_index_or, slice_set};
ghost use Rattle.pointsets.specs.Targets.{BaseSet};
ghost use Rattle.mem_cell_bytes.specs.Ends.{killed_all};
ghost use Rattle.mem_cell_bytes.specs.Weights.{pointer_weight};
ghost use Rattle.mem_cell_grid.specs.Endings.{ended_pointers};
ghost use Rattle.mem_cell_grid.specs.Meetings.{AreMet, IsPointerMet};

use crate::flags::both;
use mem_cell_bytes::SharedSet;
use std::alloc::{AllocError as NoMemory, Global};
use std::marker::Model;

/// What each temporary may point to, where it is known, by its number.
#[derive(Drop)]
pub struct Pointers {
    sets: Vec<Option<SharedSet>>,
}

impl Model for Pointers {
    ghost use Rattle.std.specs.Prelude.{List, Option};
    ghost use Rattle.pointsets.specs.Targets.{BaseSet};

    ghost Value = { List (Option BaseSet) };

    ghost view = { λ p. p.sets.items };
}

/// What two sides both say, and whether the first says no more than the second.
#[derive(Drop)]
pub struct PointerMeeting {
    pub pointers: Pointers,
    pub kept: bool,
}

// What one temporary may point to on both sides, and whether the first loses nothing.
#[derive(Drop)]
struct SetMeeting {
    set: Option<SharedSet>,
    kept: bool,
}

// What both sides say of one temporary.
fn meet_set(
    alloc: Global,
    set: &Option<SharedSet>,
    other: &Option<SharedSet>,
) -> Result<SetMeeting, NoMemory>
    ensures { IfOk result (λ m. IsPointerMet set.now other.now m.set m.kept) }
{
    match (set, other) {
        (None, _) => Ok(SetMeeting {
            set: None,
            kept: true,
        }),
        (Some(_), None) => Ok(SetMeeting {
            set: None,
            kept: false,
        }),
        (Some(first), Some(second)) => {
            if first.covers(alloc, second) {
                Ok(SetMeeting {
                    set: Some(first.share()?),
                    kept: true,
                })
            } else {
                Ok(SetMeeting {
                    set: Some(first.joined(alloc, second)?),
                    kept: false,
                })
            }
        }
    }
}

// What stands at a place, or else this.
fn at_or<'a>(
    sets: &'a [Option<SharedSet>],
    d: usize,
    none: &'a Option<SharedSet>,
) -> &'a Option<SharedSet>
    ensures { result.now ≡ slice_index_or sets.now d none.now }
{
    match sets.get(d) {
        Some(set) => set,
        None => none,
    }
}

// Of a temporary nothing is known.
fn unknown_set() -> Option<SharedSet>
    ensures { result ≡ None }
{
    None
}

// What two lists both say, and whether the first loses nothing.
#[derive(Drop)]
struct AllMeeting {
    sets: Vec<Option<SharedSet>>,
    kept: bool,
}

// What both lists say of each temporary of the first.
fn meet_all(
    alloc: Global,
    sets: &[Option<SharedSet>],
    others: &[Option<SharedSet>],
) -> Result<AllMeeting, NoMemory>
    ensures { IfOk result (λ m. AreMet pointer_weight None IsPointerMet sets.now others.now m.sets.items m.kept) }
{
    let none = unknown_set();
    let mut all = Vec::new(alloc);
    let mut kept = true;
    for (d, set) in sets.iter().enumerate() {
        let met = meet_set(alloc, set, at_or(others, d, &none))?;
        kept = both(kept, met.kept);
        all.push(met.set)?;
    }
    Ok(AllMeeting { sets: all, kept })
}

// One set once more.
fn shared(set: &Option<SharedSet>) -> Result<Option<SharedSet>, NoMemory>
    ensures { IfOk result (λ s. s ≡ set.now) }
{
    match set {
        None => Ok(None),
        Some(set) => Ok(Some(set.share()?)),
    }
}

// The same once more.
fn shared_all(alloc: Global, sets: &[Option<SharedSet>]) -> Result<Vec<Option<SharedSet>>, NoMemory>
    ensures { IfOk result (λ all. all.items ≡ sets.now) }
{
    let mut all = Vec::new(alloc);
    for set in sets {
        all.push(shared(set)?)?;
    }
    Ok(all)
}

// One set once these objects have ended.
fn killed_set(
    alloc: Global,
    set: &Option<SharedSet>,
    gone: &[u64],
) -> Result<Option<SharedSet>, NoMemory>
    ensures { IfOk result (λ s. s ≡ option_map (λ t. killed_all t gone.now) set.now) }
{
    match set {
        None => Ok(None),
        Some(set) => Ok(Some(set.killed(alloc, gone)?)),
    }
}

// All sets once these objects have ended.
fn killed_all(
    alloc: Global,
    sets: &[Option<SharedSet>],
    gone: &[u64],
) -> Result<Vec<Option<SharedSet>>, NoMemory>
    ensures { IfOk result (λ all. all.items ≡ ended_pointers gone.now sets.now) }
{
    let mut all = Vec::new(alloc);
    for set in sets {
        all.push(killed_set(alloc, set, gone)?)?;
    }
    Ok(all)
}

// Of so many temporaries nothing is known.
fn unknown(alloc: Global, count: usize) -> Result<Vec<Option<SharedSet>>, NoMemory>
    ensures { IfOk result (λ all. all.items ≡ replicate count None) }
{
    let mut all = Vec::new(alloc);
    for _d in 0..count {
        all.push(None)?;
    }
    Ok(all)
}

// Puts a set in its place, if there is one.
fn put_at(sets: &mut [Option<SharedSet>], d: u64, set: Option<SharedSet>)
    ensures { sets.new ≡ slice_set sets.old d set }
{
    if d < sets.len() as u64 {
        sets[d as usize] = set;
    }
}

impl Pointers {
    /// Of so many temporaries nothing is known.
    pub fn unknown(alloc: Global, count: usize) -> Result<Pointers, NoMemory>
        ensures { IfOk result (λ p. p ≡ replicate count None) }
    {
        Ok(Pointers {
            sets: unknown(alloc, count)?,
        })
    }

    /// What equals this.
    pub fn copy(&self, alloc: Global) -> Result<Pointers, NoMemory>
        ensures { IfOk result (λ p. p ≡ self.now) }
    {
        Ok(Pointers {
            sets: shared_all(alloc, &self.sets)?,
        })
    }

    /// What a temporary may point to, where it is known.
    pub fn get(&self, d: u64) -> Option<&SharedSet>
        ensures { MatchOption result ((s : BaseSet) → slice_get self.now d ≡ Some (Some s) → ⊥) (λ s. slice_get self.now d ≡ Some (Some s.now)) }
    {
        match self.sets.get(d as usize) {
            Some(Some(set)) => Some(set),
            Some(None) | None => None,
        }
    }

    /// Puts what is known of a temporary in the place of what was known of it.
    pub fn put(&mut self, d: u64, set: Option<SharedSet>)
        ensures { self.new ≡ slice_set self.old d set }
    {
        put_at(&mut self.sets, d, set);
    }

    /// What both sides say of each temporary, and whether this one says no more than the other.
    pub fn meet(&self, alloc: Global, other: &Pointers) -> Result<PointerMeeting, NoMemory>
        ensures { IfOk result (λ m. AreMet pointer_weight None IsPointerMet self.now other.now m.pointers m.kept) }
    {
        let met = meet_all(alloc, &self.sets, &other.sets)?;
        Ok(PointerMeeting {
            pointers: Pointers { sets: met.sets },
            kept: met.kept,
        })
    }

    /// What is known once these objects have ended.
    pub fn ended(&self, alloc: Global, gone: &[u64]) -> Result<Pointers, NoMemory>
        ensures { IfOk result (λ p. p ≡ ended_pointers gone.now self.now) }
    {
        Ok(Pointers {
            sets: killed_all(alloc, &self.sets, gone)?,
        })
    }
}
