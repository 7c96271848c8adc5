// What is left of cells and stretches beside some bytes.

ghost use Rattle.std.specs.Prelude.{◌≡◌, ◌⊎◌, ◌↔◌, ℕ, ◌+◌, ◌<◌, ◌≤◌, IsTrue, IfOk, OnOk, length};
ghost use Rattle.mem_cell_bytes.specs.Cells.{size_of};
ghost use Rattle.mem_cell_bytes.specs.Stores.{AreBeside, AreLeft, AreBytesLeft};
ghost use Rattle.mem_cell_grid.specs.Lefts.{AddsStretch, AreStored, IsEndsOf};

use mem_cell_bytes::{Entry, Held, Stretch, size_in};
use std::alloc::{AllocError as NoMemory, Global};

// Whether so many bytes from one on end before a byte.
fn end_before(from: u64, count: u64, at: u64) -> bool
    ensures { IsTrue result → from + count ≤ at }
{
    count <= at && from <= at - count
}

// Whether a cell has none of so many bytes.
fn is_beside(e: &Entry, at: u64, count: u64) -> bool
    ensures { IsTrue result → AreBeside e.now.offset (size_of e.now) at count }
{
    end_before(e.offset, size_in(e.ty), at) || end_before(at, count, e.offset)
}

// The cells beside so many bytes.
fn cells_left(alloc: Global, cells: &[Entry], at: u64, count: u64) -> Result<Vec<Entry>, NoMemory>
    ensures { IfOk result (λ left. AreLeft cells.now at count left.items) }
{
    let mut left = Vec::new(alloc);
    for e in cells {
        if is_beside(e, at, count) {
            left.push(e.copy()?)?;
        }
    }
    Ok(left)
}

// Puts a stretch behind others, if it has a byte.
pub fn push_some(stretches: &mut Vec<Stretch>, f: Stretch) -> Result<(), NoMemory>
    ensures { OnOk result (AddsStretch stretches.old.items f stretches.new.items) }
{
    if f.from < f.to {
        stretches.push(f)?;
    }
    Ok(())
}

// Puts the two ends of a stretch beside so many bytes behind others.
fn push_ends(stretches: &mut Vec<Stretch>, f: Stretch, at: u64, count: u64) -> Result<(), NoMemory>
    ensures { OnOk result (IsEndsOf stretches.old.items f at count stretches.new.items) }
{
    let low = Stretch {
        from: f.from,
        to: f.to.min(at),
        byte: f.byte,
    };
    let high = Stretch {
        from: f.from.max(at.saturating_add(count)),
        to: f.to,
        byte: f.byte,
    };
    push_some(stretches, low)?;
    push_some(stretches, high)
}

// The stretches beside so many bytes.
fn stretches_left(
    alloc: Global,
    stretches: &[Stretch],
    at: u64,
    count: u64,
) -> Result<Vec<Stretch>, NoMemory>
    ensures { IfOk result (λ left. AreBytesLeft stretches.now at count left.items) }
{
    let mut left = Vec::new(alloc);
    for f in stretches {
        push_ends(&mut left, *f, at, count)?;
    }
    Ok(left)
}

/// What is left of an object beside so many bytes from one on.
pub fn left(alloc: Global, held: &Held, at: u64, count: u64) -> Result<Held, NoMemory>
    ensures cells { IfOk result (λ h. AreLeft held.now.cells at count h.cells) }
    ensures bytes { IfOk result (λ h. AreBytesLeft held.now.stretches at count h.stretches) }
{
    let cells = cells_left(alloc, held.cells(), at, count)?;
    let stretches = stretches_left(alloc, held.stretches(), at, count)?;
    Held::of(alloc, cells, stretches)
}

// How many cells begin before an offset.
fn count_before(cells: &[Entry], offset: u64) -> usize
    ensures { result ≤ length cells.now }
{
    let mut count: usize = 0;
    for e in cells {
        if e.offset < offset {
            count += 1;
        }
    }
    count
}

/// What is known of an object once the bytes of a cell are stored: that cell, and what is beside it.
pub fn stored(alloc: Global, held: &Held, cell: Entry) -> Result<Held, NoMemory>
    ensures cells { IfOk result (λ h. AreStored held.now.cells cell h.cells) }
    ensures bytes { IfOk result (λ h. AreBytesLeft held.now.stretches cell.offset (size_of cell) h.stretches) }
{
    let at = cell.offset;
    let size = size_in(cell.ty);
    let mut cells = cells_left(alloc, held.cells(), at, size)?;
    let stretches = stretches_left(alloc, held.stretches(), at, size)?;
    let place = count_before(cells.as_slice(), at);
    cells.insert(place, cell)?;
    Held::of(alloc, cells, stretches)
}
