// Stores at one of several places: cells that may be hit.

ghost use Rattle.std.specs.Prelude.{◌≡◌, ◌⊎◌, ◌%◌, ◌+◌, ◌<◌, ◌≤◌, ◌∷◌, [], IsTrue, IfOk, IfSome, List, OnOk};
ghost use Rattle.mem_cell_bytes.specs.declared.entry.Entry.{Entry as Cell};
ghost use Rattle.mem_cell_bytes.specs.Cells.{size_of};
ghost use Rattle.mem_cell_bytes.specs.Joins.{IsWider};
ghost use Rattle.mem_cell_bytes.specs.Stands.{Has};
ghost use Rattle.mem_cell_bytes.specs.Stores.{AreBeside};
ghost use Rattle.mem_cell_bytes.specs.Weights.{joined_entry};
ghost use Rattle.mem_cell_stores.specs.Changes.{IsCellFor};
ghost use Rattle.mem_cell_stores.specs.Hits.{AreAmong, AreWeakCells, AreWeakened};

use crate::values::cell_for;
use block_mem::Scalar;
use mem_cell_bytes::{Entry, Held, size_in};
use mem_cell_grid::{Grid, left};
use mem_cell_loads::{Content, cell_variable};
use std::alloc::{AllocError as NoMemory, Global};

/// So many bytes from one on, and of how many bytes a place is a multiple.
#[derive(Clone, Copy)]
pub struct Bytes {
    pub at: u64,
    pub count: u64,
    pub step: u8,
}

// Whether so many bytes from one on end before a byte.
fn end_before(from: u64, count: u64, at: u64) -> bool
    ensures { IsTrue result → from + count ≤ at }
{
    count <= at && from <= at - count
}

// Whether a cell has none of some bytes.
fn is_beside(e: &Entry, bytes: Bytes) -> bool
    ensures { IsTrue result → AreBeside e.now.offset (size_of e.now) bytes.at bytes.count }
{
    end_before(e.offset, size_in(e.ty), bytes.at) || end_before(bytes.at, bytes.count, e.offset)
}

// What either of two cells at one place may be.
fn joined(alloc: Global, e: &Entry, d: &Entry) -> Result<Entry, NoMemory>
    ensures { IfOk result (λ j. j ≡ joined_entry e.now d.now) }
{
    Ok(Entry {
        offset: e.offset,
        ty: e.ty,
        undef: e.undef || d.undef,
        value: e.value || d.value,
        targets: e.targets.joined(alloc, &d.targets)?,
    })
}

// What a cell may be behind a store that may put a value in its place; none where it cannot be said.
fn weak_cell(
    alloc: Global,
    e: &Entry,
    step: u8,
    ty: Scalar,
    content: &Content,
) -> Result<Option<Entry>, NoMemory>
    requires { 1 ≤ step }
    ensures wider { IfOk result (λ found. IfSome found (λ w. IsWider e.now w)) }
    ensures fits { IfOk result (λ found. IfSome found (λ w. IsCellFor w.offset ty content.now w)) }
    ensures place { IfOk result (λ found. IfSome found (λ w. w.offset % step ≡ 0)) }
{
    if e.offset % u64::from(step) != 0 {
        return Ok(None);
    }
    let Some(cell) = cell_for(e.offset, ty, content)? else {
        return Ok(None);
    };
    if e.ty == cell.ty {
        Ok(Some(joined(alloc, e, &cell)?))
    } else {
        Ok(None)
    }
}

// Puts a cell as it is behind a store behind others, and its variable behind others where it may be hit.
fn push_weak(
    alloc: Global,
    cells: &mut Vec<Entry>,
    variables: &mut Vec<u64>,
    object: u64,
    bytes: Bytes,
    ty: Scalar,
    content: &Content,
    e: &Entry,
) -> Result<(), NoMemory>
    requires { 1 ≤ bytes.step }
    ensures among { OnOk result (AreAmong variables.old.items variables.new.items) }
    ensures cells { OnOk result ((all : List Cell) → Has all e.now → AreWeakCells object bytes ty content.now variables.old.items all cells.old.items
        → AreWeakCells object bytes ty content.now variables.new.items all cells.new.items) }
{
    if is_beside(e, bytes) {
        cells.push(e.copy()?)?;
        return Ok(());
    }
    let Some(w) = weak_cell(alloc, e, bytes.step, ty, content)? else {
        return Ok(());
    };
    let Some(x) = cell_variable(object, &w) else {
        return Ok(());
    };
    variables.push(x.0)?;
    cells.push(w)?;
    Ok(())
}

// The cells of an object as they are behind a store.
fn weak_cells(
    alloc: Global,
    cells: &[Entry],
    variables: &mut Vec<u64>,
    object: u64,
    bytes: Bytes,
    ty: Scalar,
    content: &Content,
) -> Result<Vec<Entry>, NoMemory>
    requires { 1 ≤ bytes.step }
    ensures among { OnOk result (AreAmong variables.old.items variables.new.items) }
    ensures cells { IfOk result (λ weak. AreWeakCells object bytes ty content.now variables.new.items cells.now weak.items) }
{
    let mut weak = Vec::new(alloc);
    for e in cells {
        push_weak(alloc, &mut weak, variables, object, bytes, ty, content, e)?;
    }
    Ok(weak)
}

// Weakens what is known of an object as a store does that may put a value there.
fn weaken_at(
    alloc: Global,
    grid: &mut Grid,
    variables: &mut Vec<u64>,
    object: u64,
    bytes: Bytes,
    ty: Scalar,
    content: &Content,
) -> Result<(), NoMemory>
    requires { 1 ≤ bytes.step }
    ensures among { OnOk result (AreAmong variables.old.items variables.new.items) }
    ensures weak { OnOk result (AreWeakened (object ∷ []) bytes ty content.now variables.new.items grid.old grid.new) }
{
    let Some(held) = grid.get(object) else {
        return Ok(());
    };
    let cells = weak_cells(alloc, held.cells(), variables, object, bytes, ty, content)?;
    let rest = left(alloc, held, bytes.at, bytes.count)?;
    let stretches = Vec::from_slice(alloc, rest.stretches())?;
    let weak = Held::of(alloc, cells, stretches)?;
    grid.put(object, weak);
    Ok(())
}

/// Weakens what is known of each of these objects as a store does that may put a value there, and gives the variables of
/// cells that may be hit.
pub fn weaken_in(
    alloc: Global,
    grid: &mut Grid,
    objects: &[u64],
    bytes: Bytes,
    ty: Scalar,
    content: &Content,
) -> Result<Vec<u64>, NoMemory>
    requires { 1 ≤ bytes.step }
    ensures { IfOk result (λ ys. AreWeakened objects.now bytes ty content.now ys.items grid.old grid.new) }
{
    let mut variables = Vec::new(alloc);
    for object in objects {
        weaken_at(alloc, grid, &mut variables, *object, bytes, ty, content)?;
    }
    Ok(variables)
}
