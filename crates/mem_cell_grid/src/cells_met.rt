// Cells that two sides know.

ghost use Rattle.std.specs.Prelude.{◌≡◌, ◌≤◌, IsTrue, IfOk, IfSome, length};
ghost use Rattle.mem_cell_bytes.specs.Weights.{covers_entry, joined_entry};
ghost use Rattle.mem_cell_grid.specs.Meetings.{AreCellsMet, IsAtPlace, IsCellMet};

use crate::flags::both;
use mem_cell_bytes::Entry;
use std::alloc::{AllocError as NoMemory, Global};

/// The cells that both sides know, and whether the first side loses nothing.
#[derive(Drop)]
pub struct CellMeeting {
    pub cells: Vec<Entry>,
    pub kept: bool,
}

// What either of two cells at one place may be.
fn joined(alloc: Global, e: &Entry, d: &Entry) -> Result<Entry, NoMemory>
    ensures { IfOk result (λ j. j ≡ joined_entry e.now d.now) }
{
    Ok(Entry {
        offset: e.offset,
        ty: e.ty,
        undef: e.undef || d.undef,
        value: e.value || d.value,
        targets: e.targets.joined(alloc, &d.targets)?,
    })
}

// Whether a cell may be all that another may be.
fn covers(alloc: Global, e: &Entry, d: &Entry) -> bool
    ensures { result ≡ covers_entry e.now d.now }
{
    (e.undef || !d.undef) && ((e.value || !d.value) && e.targets.covers(alloc, &d.targets))
}

// The first place from one on at which a cell does not begin before an offset.
fn seek(cells: &[Entry], from: usize, offset: u64) -> usize
    requires { from ≤ length cells.now }
    ensures { result ≤ length cells.now }
{
    let mut at = from;
    while at < cells.len() && cells[at].offset < offset {
        at += 1;
    }
    at
}

// The cell at this place of a list, if it has the offset and the type of another.
fn same_place<'a>(cells: &'a [Entry], at: usize, e: &Entry) -> Option<&'a Entry>
    ensures { IfSome result (λ d. IsAtPlace cells.now e.now d.now) }
{
    let d = cells.get(at)?;
    if d.offset == e.offset && d.ty == e.ty {
        Some(d)
    } else {
        None
    }
}

// Puts what a cell is on both sides behind others, and tells whether it loses nothing.
fn meet_cell(
    alloc: Global,
    met: &mut Vec<Entry>,
    e: &Entry,
    others: &[Entry],
    at: usize,
) -> Result<bool, NoMemory>
    ensures { IfOk result (λ kept. IsCellMet others.now e.now met.old.items met.new.items kept) }
{
    match same_place(others, at, e) {
        None => Ok(false),
        Some(d) => {
            if covers(alloc, e, d) {
                met.push(e.copy()?)?;
                Ok(true)
            } else {
                met.push(joined(alloc, e, d)?)?;
                Ok(false)
            }
        }
    }
}

/// The cells that are in both lists, each in order of offsets.
pub fn meet_cells(alloc: Global, cells: &[Entry], others: &[Entry]) -> Result<CellMeeting, NoMemory>
    ensures { IfOk result (λ m. AreCellsMet cells.now others.now m.cells.items m.kept) }
{
    let mut met = Vec::new(alloc);
    let mut kept = true;
    let mut at = 0;
    for e in cells {
        at = seek(others, at, e.offset);
        let keeps = meet_cell(alloc, &mut met, e, others, at)?;
        kept = both(kept, keeps);
    }
    Ok(CellMeeting { cells: met, kept })
}
