//! Cells, which are some bytes of an object each, by number.
//!
//! A cell gets its number at its first use and keeps it; no two cells in use share a byte. For example, a
//! store of two bytes into a cell of four takes it out of use: `overlapping` finds it, and `split` brings
//! its four one-byte cells into use in its place.
//!
//! `specs/Cells.antt` states each call, on the list of slots (`Table`), and what every table keeps
//! (`IsTable`); the calls of `Cells` promise it.
#![tactic(auto)]

ghost use Rattle.std.specs.Prelude.{◌≡◌};
ghost use Rattle.cell_table.specs.Cells.{number_of};
ghost use Rattle.cell_table.specs.Kept.{slots_of, cell_of};

mod places;

use c_syntax::{Cell, Numbers};
use indexmap::IndexMap;
use places::Place;
use std::alloc::{AllocError as NoMemory, Global};
use std::collections::BTreeMap;
use std::marker::Model;
use std::mem;

/// Cells with numbers from 0 on, in the order of their first use. A cell keeps its number. No two
/// cells in use share a byte.
#[derive(Drop)]
pub struct Cells {
    /// Whether each cell is in use, by object, offset and size. Its place is its number.
    cells: IndexMap<(u64, u64, u64), bool>,
    /// The cells in use, by object and offset.
    places: BTreeMap<(u64, u64), Place>,
}

impl Model for Cells {
    ghost use Rattle.cell_table.specs.Cells.{Table};

    ghost Value = { Table };

    ghost use Rattle.cell_table.specs.Kept.{slots_of, IsKept};

    ghost view = { λ t. record { slots = slots_of t.cells.entries } };

    ghost invariant = { λ t. IsKept (slots_of t.cells.entries) t.places };
}

impl Cells {
    ghost use Rattle.std.specs.Prelude.{◌≡◌, ℕ, ◌+◌, ◌^◌, ◌<◌, ◌≤◌, ◌++◌, [], length, Some, true, IfOk, OnOk};
    ghost use Rattle.cell_table.specs.Cells.{cell_at, used_at, number_of, in_use_with, in_use_without, in_use_with_all, numbers_of, byte_cells, IsApartFrom, IsTable, AppendsOverlapping, HasNumberInUse};

    /// A table of no cells.
    pub fn new(alloc: Global) -> Cells
        ensures { result.slots ≡ [] }
    {
        Cells {
            cells: IndexMap::new(alloc),
            places: BTreeMap::new(alloc),
        }
    }

    /// The same table once more.
    pub fn copy(&self) -> Result<Cells, NoMemory>
        ensures { IfOk result (λ copy. copy ≡ self.now) }
    {
        Ok(Cells {
            cells: self.cells.clone()?,
            places: self.places.clone()?,
        })
    }

    /// How many cells have a number.
    pub fn count(&self) -> u64
        ensures count { result ≡ length self.now.slots }
        ensures table { IsTable self.now.slots }
    {
        self.cells.len() as u64
    }

    /// The cell with this number.
    pub fn cell(&self, n: u64) -> Cell
        requires { n < length self.now.slots }
        ensures cell { cell_at self.now.slots n ≡ Some result }
        ensures table { IsTable self.now.slots }
    {
        let (key, _) = self.cells.get_index(n as usize).unwrap();
        let (object, offset, size) = *key;
        Cell {
            object,
            offset,
            size,
        }
    }

    /// Whether the cell with this number is in use.
    pub fn in_use(&self, n: u64) -> bool
        requires { n < length self.now.slots }
        ensures { used_at self.now.slots n ≡ Some result }
    {
        self.cells[n as usize]
    }

    /// Takes a cell in use out of use.
    pub fn retire(&mut self, n: u64)
        requires { used_at self.old.slots n ≡ Some true }
        ensures { self.new.slots ≡ in_use_without self.old.slots n }
    {
        let (key, _) = self.cells.get_index(n as usize).unwrap();
        let place = (key.0, key.1);
        self.cells[n as usize] = false;
        self.places.remove(&place);
    }

    /// The number of a cell, which is in use afterwards. Once out of memory the table is only
    /// dropped.
    pub fn number(&mut self, c: Cell) -> Result<u64, NoMemory>
        requires some_bytes { 1 ≤ c.size }
        requires end { c.offset + c.size < 2 ^ 64 }
        requires apart { IsApartFrom self.old.slots c }
        ensures number { IfOk result (λ n. n ≡ number_of self.old.slots c) }
        ensures slots { OnOk result (self.new.slots ≡ in_use_with self.old.slots c) }
    {
        let key = (c.object, c.offset, c.size);
        self.cells.reserve(1)?;
        let n = number_for(&self.cells, key);
        let place = Place {
            number: n,
            size: c.size,
        };
        self.places.insert((c.object, c.offset), place)?;
        let _room_was_there = self.cells.insert(key, true);
        Ok(n)
    }

    /// Appends the numbers of the cells in use that share a byte with `[from, to)` of an object, by
    /// rising offset. Once out of memory `out` is only dropped.
    pub fn overlapping(
        &self,
        object: u64,
        from: u64,
        to: u64,
        out: &mut Numbers,
    ) -> Result<(), NoMemory>
        ensures { OnOk result (AppendsOverlapping self.now.slots object from to out.old out.new) }
    {
        let mut numbers = mem::replace(out, Numbers::new(*self.cells.allocator())).into_vec();
        places::push_overlapping(&self.places, object, from, to, &mut numbers)?;
        *out = Numbers::from_vec(numbers);
        Ok(())
    }

    /// Takes a cell in use out of use, and puts its one-byte cells in its place, whose numbers are
    /// appended by rising offset. A cell of one byte stays in use, and its number is appended. After
    /// out of memory the table and `out` are only dropped.
    pub fn split(&mut self, n: u64, out: &mut Numbers) -> Result<(), NoMemory>
        requires { used_at self.old.slots n ≡ Some true }
        ensures slots { OnOk result ((c : Cell) → cell_at self.old.slots n ≡ Some c
            → self.new.slots
            ≡ in_use_with_all (in_use_without self.old.slots n) (byte_cells c.object c.offset c.size)) }
        ensures numbers { OnOk result ((c : Cell) → cell_at self.old.slots n ≡ Some c
            → out.new
            ≡ out.old ++ numbers_of (in_use_without self.old.slots n) (byte_cells c.object c.offset c.size)) }

        // It follows that each byte has its own cell, which is in use, and that a cell of one byte stays.
        ensures each { OnOk result ((c : Cell) (i : ℕ) → cell_at self.old.slots n ≡ Some c → i < c.size
            → HasNumberInUse self.new.slots out.new (length out.old + i) (record { object = c.object; offset = c.offset + i; size = 1 })) }
        ensures one_byte { OnOk result ((c : Cell) → cell_at self.old.slots n ≡ Some c
            → c.size ≡ 1 → self.new.slots ≡ self.old.slots) }
    {
        let mut numbers = mem::replace(out, Numbers::new(*self.cells.allocator())).into_vec();
        let whole = self.cell(n);
        self.retire(n);
        for offset in whole.offset..whole.offset + whole.size {
            let byte = Cell {
                object: whole.object,
                offset,
                size: 1,
            };
            numbers.push(self.number(byte)?)?;
        }
        *out = Numbers::from_vec(numbers);
        Ok(())
    }
}

/// The number that the cell of this object, offset and size has or gets.
fn number_for(cells: &IndexMap<(u64, u64, u64), bool>, key: (u64, u64, u64)) -> u64
    ensures { result ≡ number_of (slots_of cells.now.entries) (cell_of key) }
{
    match cells.get_index_of(&key) {
        Some(there) => there as u64,
        None => cells.len() as u64,
    }
}
