//! Between a matrix that keeps half of its bounds and a table of all of them.
ghost use Rattle.std.specs.Prelude.{◌≡◌, ℕ, ◌≤◌, ◌<◌, ◌+◌, ◌*◌};
ghost use Rattle.bound_matrix.specs.Bound.{reach, row_start, bound_at, AllInRange};
ghost use Rattle.bound_matrix.specs.Cells.{IsTable, cell, RowStored, Stored};

use crate::counting::Steps;
use crate::halves::Half;
use crate::kept::columns;
use crate::table::{read, write};
use ext_int::Ext;
use std::sync::ledger::Ledger;

/// Copies the row of `i` into the table.
fn load_row<L: Ledger>(m: &Half, n: u32, i: u32, cells: &mut [Ext], steps: &mut Steps<L>)
    requires size { n ≡ m.now.vars + m.now.vars }
    requires table { IsTable n cells.old }
    requires row { i < n }
    ensures table { IsTable n cells.new }
    ensures row { (q : ℕ) → q < n → cell n cells.new i q ≡ bound_at m.now i q }
    ensures others { (p q : ℕ) → (p ≡ i → ⊥) → cell n cells.new p q ≡ cell n cells.old p q }
    ensures cost { steps.new ≡ steps.old + n }
{
    for j in 0..n {
        let e = m.get(i, j, steps);
        write(cells, n as usize, i as usize, j as usize, e);
    }
}

/// Copies the matrix into the table.
pub fn load<L: Ledger>(m: &Half, n: u32, cells: &mut [Ext], steps: &mut Steps<L>)
    requires size { n ≡ m.now.vars + m.now.vars }
    requires table { IsTable n cells.old }
    ensures table { IsTable n cells.new }
    ensures same { (p q : ℕ) → cell n cells.new p q ≡ bound_at m.now p q }
    ensures cost { steps.new ≡ steps.old + n * n }
{
    for i in 0..n {
        load_row(m, n, i, cells, steps);
    }
}

/// Lowers the bounds that the row of `i` keeps to those of the table.
fn store_row<L: Ledger>(m: &mut Half, n: u32, i: u32, cells: &[Ext], steps: &mut Steps<L>)
    requires size { n ≡ m.old.vars + m.old.vars }
    requires table { IsTable n cells.now }
    requires row { i < n }
    requires range { AllInRange (bound_at m.old) }
    requires cells { AllInRange (cell n cells.now) }
    ensures vars { m.new.vars ≡ m.old.vars }
    ensures stored { RowStored i (reach i) (cell n cells.now) (bound_at m.old) (bound_at m.new) }
    ensures cost { steps.new ≡ steps.old + reach i }
{
    for j in 0..columns(i as usize) as u32 {
        let e = read(cells, n as usize, i as usize, j as usize);
        m.lower(i, j, e, steps);
    }
}

/// Lowers the bounds that are kept to those of the table.
pub fn store<L: Ledger>(m: &mut Half, n: u32, cells: &[Ext], steps: &mut Steps<L>)
    requires size { n ≡ m.old.vars + m.old.vars }
    requires table { IsTable n cells.now }
    requires range { AllInRange (bound_at m.old) }
    requires cells { AllInRange (cell n cells.now) }
    ensures vars { m.new.vars ≡ m.old.vars }
    ensures stored { Stored n (cell n cells.now) (bound_at m.old) (bound_at m.new) }
    ensures cost { steps.new ≤ steps.old + row_start n }
{
    for i in 0..n {
        store_row(m, n, i, cells, steps);
    }
}
