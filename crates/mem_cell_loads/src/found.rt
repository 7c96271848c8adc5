// What is known at a place of an object.

ghost use Rattle.std.specs.Prelude.{◌≡◌, ◌+◌, ◌<◌, ◌≤◌, IsTrue, IfOk, IfSome};
ghost use Rattle.block_mem.specs.Bytes.{size_of as size_of_scalar};
ghost use Rattle.mem_cell_bytes.specs.Cells.{size_of, var_of};
ghost use Rattle.mem_cell_loads.specs.Found.{AreFilled, HasBytes, IsFound};

use block_mem::Scalar;
use mem_cell_bytes::{Entry, FillByte, Stretch, size_in};
use mem_cell_grid::Grid;
use num_api::Var;
use std::alloc::AllocError as NoMemory;

/// What is known of some bytes: one cell has them all, or they are all one byte.
#[derive(Drop)]
pub enum Found {
    Cell(Entry),
    Fill(FillByte),
    Nothing,
}

/// How many bytes a value has.
pub fn scalar_size(ty: Scalar) -> u64
    ensures value { result ≡ size_of_scalar ty }
    ensures some { 1 ≤ result }
    ensures few { result ≤ 8 }
{
    match ty {
        Scalar::Int(ty) => size_in(ty),
        Scalar::Pointer => 8,
    }
}

/// The variable of a cell; none where the object's number or the offset is too great for one.
pub fn cell_variable(object: u64, e: &Entry) -> Option<Var>
    ensures variable { IfSome result (λ x. x.0 ≡ var_of object e.now) }
    ensures small { IfSome result (λ x. e.now.offset < 65536) }
{
    if object >= 1_099_511_627_776 {
        return None;
    }
    let at = e.offset;
    if at >= 65536 {
        return None;
    }
    let size = size_in(e.ty);
    Some(Var(2 * (16 * (65536 * object + at) + size) + 1))
}

// Whether so many bytes from one on lie among others.
fn lie_within(from: u64, size: u64, at: u64, count: u64) -> bool
    ensures low { IsTrue result → from ≤ at }
    ensures high { IsTrue result → at + count ≤ from + size }
{
    from <= at && count <= size && at - from <= size - count
}

// Whether a cell has so many bytes from one on.
fn has_bytes(e: &Entry, at: u64, count: u64) -> bool
    ensures low { IsTrue result → e.now.offset ≤ at }
    ensures high { IsTrue result → at + count ≤ e.now.offset + size_of e.now }
    ensures small { IsTrue result → e.now.offset < 65536 }
{
    e.offset < 65536 && lie_within(e.offset, size_in(e.ty), at, count)
}

// A cell that has so many bytes from one on.
fn cell_with(cells: &[Entry], at: u64, count: u64) -> Option<&Entry>
    ensures { IfSome result (λ e. HasBytes cells.now e.now at count) }
{
    for e in cells {
        if has_bytes(e, at, count) {
            return Some(e);
        }
    }
    None
}

// Whether a stretch has so many bytes from one on.
fn has_all(f: Stretch, at: u64, count: u64) -> bool
    ensures low { IsTrue result → f.from ≤ at }
    ensures high { IsTrue result → at + count ≤ f.to }
{
    f.from <= at && at <= f.to && count <= f.to - at
}

// What so many bytes from one on all are.
fn fill_with(stretches: &[Stretch], at: u64, count: u64) -> Option<FillByte>
    ensures { IfSome result (λ x. AreFilled stretches.now at count x) }
{
    for f in stretches {
        if has_all(*f, at, count) {
            return Some(f.byte);
        }
    }
    None
}

/// What is known of so many bytes of an object from one on.
pub fn find(grid: &Grid, object: u64, at: u64, count: u64) -> Result<Found, NoMemory>
    ensures { IfOk result (λ found. IsFound grid.now object at count found) }
{
    let Some(held) = grid.get(object) else {
        return Ok(Found::Nothing);
    };
    if let Some(e) = cell_with(held.cells(), at, count) {
        return Ok(Found::Cell(e.copy()?));
    }
    match fill_with(held.stretches(), at, count) {
        Some(x) => Ok(Found::Fill(x)),
        None => Ok(Found::Nothing),
    }
}
