// What is left of what is known once objects have ended.

ghost use Rattle.std.specs.Prelude.{◌≡◌, [], IsTrue, IfOk, OnOk, false, slice_set};
ghost use Rattle.pointsets.specs.Targets.{Among};
ghost use Rattle.mem_cell_bytes.specs.declared.entry.Entry.{Entry as Cell};
ghost use Rattle.mem_cell_bytes.specs.Ends.{killed_all};
ghost use Rattle.mem_cell_bytes.specs.Stands.{Has};
ghost use Rattle.mem_cell_grid.specs.Endings.{AreAllKilled, AreKilled, IsKilled, cleared};

use mem_cell_bytes::{Entry, Held};
use std::alloc::{AllocError as NoMemory, Global};

// Whether no cell may be a pointer.
fn are_numbers(cells: &[Entry]) -> bool
    ensures { IsTrue result → (e : Cell) → Has cells.now e → e.targets ≡ Among [] false false }
{
    for e in cells {
        if !e.targets.is_none() {
            return false;
        }
    }
    true
}

// A cell once these objects have ended.
fn killed_cell(alloc: Global, e: &Entry, gone: &[u64]) -> Result<Entry, NoMemory>
    ensures { IfOk result (λ d. d ≡ record e.now { targets = killed_all e.now.targets gone.now }) }
{
    Ok(Entry {
        offset: e.offset,
        ty: e.ty,
        undef: e.undef,
        value: e.value,
        targets: e.targets.killed(alloc, gone)?,
    })
}

// Cells once these objects have ended.
fn killed_cells(alloc: Global, cells: &[Entry], gone: &[u64]) -> Result<Vec<Entry>, NoMemory>
    ensures { IfOk result (λ left. AreKilled gone.now cells.now left.items) }
{
    let mut left = Vec::new(alloc);
    for e in cells {
        left.push(killed_cell(alloc, e, gone)?)?;
    }
    Ok(left)
}

// What is known of an object once these others have ended.
fn killed_held(alloc: Global, held: &Held, gone: &[u64]) -> Result<Held, NoMemory>
    ensures { IfOk result (λ h. IsKilled gone.now held.now h) }
{
    if are_numbers(held.cells()) {
        return held.share();
    }
    let cells = killed_cells(alloc, held.cells(), gone)?;
    let stretches = Vec::from_slice(alloc, held.stretches())?;
    Held::of(alloc, cells, stretches)
}

/// What is known of all objects once these have ended, of which what was known stays.
pub fn all_killed(alloc: Global, objects: &[Held], gone: &[u64]) -> Result<Vec<Held>, NoMemory>
    ensures { IfOk result (λ left. AreAllKilled gone.now objects.now left.items) }
{
    let mut left = Vec::new(alloc);
    for held in objects {
        left.push(killed_held(alloc, held, gone)?)?;
    }
    Ok(left)
}

/// Forgets what is known of these objects.
pub fn clear(objects: &mut [Held], gone: &[u64])
    ensures { objects.new ≡ cleared objects.old gone.now }
{
    for x in gone {
        put_at(objects, *x, Held::nothing());
    }
}

/// Puts what is known of an object in its place, if there is one.
pub fn put_at(objects: &mut [Held], x: u64, held: Held)
    ensures { objects.new ≡ slice_set objects.old x held }
{
    if x < objects.len() as u64 {
        objects[x as usize] = held;
    }
}
