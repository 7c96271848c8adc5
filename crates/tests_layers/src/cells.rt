// Tables of cells by their numbers, and what overlaps and splits give.

ghost use Rattle.std.specs.Prelude.{◌≡◌, ℕ, ◌<◌, length, Some, IsTrue, slice_index};
ghost use Rattle.cell_table.specs.Cells.{cell_at};

use c_syntax::{Cell, Numbers};
use cell_table::Cells;
use std::alloc::{AllocError as NoMemory, Global};
use std::process::Abort;

/// A part of an object: the object, and two numbers of bytes.
type Part = (u64, u64, u64);

/// Whether these are all numbers of this one cell.
fn is_only(cells: &Cells, numbers: &[u64], c: Cell) -> bool
    ensures { IsTrue result → (k : ℕ) → k < length numbers.now
        → cell_at cells.now.slots (slice_index numbers.now k) ≡ Some c }
{
    for n in numbers {
        if *n >= cells.count() || cells.cell(*n) != c {
            return false;
        }
    }
    true
}

/// The number of a cell that shares no byte with another one in use.
fn number(
    rt: &impl Abort,
    alloc: Global,
    cells: &mut Cells,
    (object, offset, size): Part,
) -> Result<u64, NoMemory> {
    assert!(rt; 1 <= size && size <= 8 && offset <= 100);
    let c = Cell {
        object,
        offset,
        size,
    };
    let mut near = Numbers::new(alloc);
    cells.overlapping(object, offset, offset + size, &mut near)?;
    assert!(rt; is_only(cells, near.as_slice(), c));
    cells.number(c)
}

/// Takes a cell in use out of use.
fn retire(rt: &impl Abort, cells: &mut Cells, n: u64) {
    assert!(rt; n < cells.count());
    assert!(rt; cells.in_use(n));
    cells.retire(n);
}

/// The numbers of the bytes that take the place of a cell in use.
fn split(rt: &impl Abort, alloc: Global, cells: &mut Cells, n: u64) -> Result<Numbers, NoMemory> {
    assert!(rt; n < cells.count());
    assert!(rt; cells.in_use(n));
    let mut bytes = Numbers::new(alloc);
    cells.split(n, &mut bytes)?;
    Ok(bytes)
}

/// Asserts the number that a cell gets or has.
fn is_numbered(
    rt: &impl Abort,
    alloc: Global,
    cells: &mut Cells,
    cell: Part,
    want: u64,
) -> Result<(), NoMemory> {
    let n = number(rt, alloc, cells, cell)?;
    assert_eq!(rt; n, want);
    Ok(())
}

/// Asserts the numbers of the cells in use that share a byte with a part of an object, from one byte to another.
fn are_overlapping(
    rt: &impl Abort,
    alloc: Global,
    cells: &Cells,
    (object, from, to): Part,
    want: &[u64],
) -> Result<(), NoMemory> {
    let mut out = Numbers::new(alloc);
    cells.overlapping(object, from, to, &mut out)?;
    assert_eq!(rt; out.as_slice(), want, "from {from} to {to} of {object}");
    Ok(())
}

static NUMBERED: [(Part, u64); 5] = [
    ((5, 0, 4), 0),
    ((5, 4, 4), 1),
    ((6, 0, 4), 2),
    ((5, 0, 4), 0),
    ((5, 8, 1), 3),
];

// A cell keeps its number, whether it is in use or not, and a copy is a table of its own.
#[test]
fn cells_keep_their_numbers(rt: HostRuntime) -> Result<(), NoMemory> {
    keep_their_numbers(&rt, rt.alloc(), &mut Cells::new(rt.alloc()))
}

fn keep_their_numbers(rt: &impl Abort, alloc: Global, cells: &mut Cells) -> Result<(), NoMemory> {
    for (cell, n) in &NUMBERED {
        is_numbered(rt, alloc, cells, *cell, *n)?;
    }
    retire(rt, cells, 0);
    let mut copy = cells.copy()?;
    are_two_tables(rt, alloc, cells, &mut copy)
}

fn are_two_tables(
    rt: &impl Abort,
    alloc: Global,
    cells: &mut Cells,
    copy: &mut Cells,
) -> Result<(), NoMemory> {
    is_numbered(rt, alloc, cells, (5, 0, 2), 4)?;
    is_numbered(rt, alloc, copy, (5, 0, 4), 0)?;
    assert_eq!(rt; cells.count(), 5);
    assert_eq!(rt; copy.count(), 4);
    assert!(rt; !cells.in_use(0) && cells.in_use(4) && copy.in_use(0));
    let third = Cell {
        object: 6,
        offset: 0,
        size: 4,
    };
    assert!(rt; cells.cell(2) == third);
    Ok(())
}

static CELLS: [Part; 6] = [
    (5, 8, 4),
    (5, 0, 4),
    (6, 0, 4),
    (5, 4, 4),
    (6, 4, 2),
    (4, 0, 8),
];

static OVERLAPPING: [(Part, &[u64]); 14] = [
    ((5, 4, 8), &[3]),
    ((5, 3, 4), &[1]),
    ((5, 0, 1), &[1]),
    ((5, 4, 4), &[]),
    ((5, 8, 3), &[]),
    ((5, 3, 5), &[1, 3]),
    ((5, 7, 9), &[3, 0]),
    ((5, 0, 12), &[1, 3, 0]),
    ((5, 12, 20), &[]),
    ((6, 0, 8), &[2]),
    ((6, 4, 8), &[]),
    ((4, 7, 8), &[5]),
    ((7, 0, 8), &[]),
    ((5, 0, 18446744073709551615), &[1, 3, 0]),
];

// A part of an object, and the numbers of the cells in use that share a byte with it.
#[test]
fn cells_overlap(rt: HostRuntime) -> Result<(), NoMemory> {
    overlap(&rt, rt.alloc(), &mut Cells::new(rt.alloc()))
}

fn overlap(rt: &impl Abort, alloc: Global, cells: &mut Cells) -> Result<(), NoMemory> {
    for cell in &CELLS {
        number(rt, alloc, cells, *cell)?;
    }
    retire(rt, cells, 4);
    for (part, want) in &OVERLAPPING {
        are_overlapping(rt, alloc, cells, *part, want)?;
    }
    Ok(())
}

/// Splits the first cell of an empty table, and has it back once its bytes are out of use.
fn split_and_back(
    rt: &impl Abort,
    alloc: Global,
    cells: &mut Cells,
    size: u64,
    want: &[u64],
) -> Result<(), NoMemory> {
    number(rt, alloc, cells, (5, 16, size))?;
    split_one(rt, alloc, cells, want)?;
    assert!(rt; 0 < cells.count());
    assert_eq!(rt; cells.in_use(0), size == 1);
    are_overlapping(rt, alloc, cells, (5, 0, 100), want)?;
    for n in want {
        retire(rt, cells, *n);
    }
    is_numbered(rt, alloc, cells, (5, 16, size), 0)
}

/// Asserts the numbers of the bytes that the first cell is split into.
fn split_one(
    rt: &impl Abort,
    alloc: Global,
    cells: &mut Cells,
    want: &[u64],
) -> Result<(), NoMemory> {
    let bytes = split(rt, alloc, cells, 0)?;
    assert_eq!(rt; bytes.as_slice(), want);
    Ok(())
}

static BYTES: [(u64, &[u64]); 4] = [
    (1, &[0]),
    (2, &[1, 2]),
    (4, &[1, 2, 3, 4]),
    (8, &[1, 2, 3, 4, 5, 6, 7, 8]),
];

// The size of a cell, and the numbers of its bytes. Once these are out of use, the cell comes back.
#[test]
fn cells_split(rt: HostRuntime) -> Result<(), NoMemory> {
    for (size, want) in &BYTES {
        split_and_back(&rt, rt.alloc(), &mut Cells::new(rt.alloc()), *size, want)?;
    }
    Ok(())
}
