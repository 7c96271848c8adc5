//! Closing of half matrices, by way of a table of all bounds.
ghost use Rattle.std.specs.Prelude.{◌≡◌, ℕ, ℤ, List, ◌≤◌, ◌<◌, ◌+◌, ◌*◌, ◌↔◌};
ghost use Rattle.ext_int.specs.Ext.{AtMost};
ghost use Rattle.bound_matrix.specs.Bound.{bound_at};
ghost use Rattle.bound_matrix.specs.Points.{IsPoint, IsSmall, IsTight, WasTight};

use crate::counting::Steps;
use crate::halves::Half;
use crate::table::{CELLS, close_cells, close_lowered};
use crate::transfer::{load, store};
use ext_int::{Ext, Live};
use std::sync::ledger::Ledger;

/// Closes a matrix tightly.
pub fn close_counted<L: Ledger>(m: &mut Half, steps: &mut Steps<L>) -> Live
    ensures vars { m.new.vars ≡ m.old.vars }
    ensures lower { (i j : ℕ) → AtMost (bound_at m.new i j) (bound_at m.old i j) }
    ensures points { (v : List ℤ) → IsPoint v m.old ↔ IsPoint v m.new }
    ensures dead { result ≡ Live.Dead → (v : List ℤ) → IsPoint v m.old → ⊥ }
    ensures tight { result ≡ Live.Live → IsSmall (bound_at m.old) → IsTight (m.old.vars + m.old.vars) (bound_at m.new) }
{
    let n = m.indices();
    let mut cells = [Ext::High; CELLS];
    load(m, n, &mut cells, steps);
    if !close_cells(&mut cells, n as usize) {
        return Live::Dead;
    }
    store(m, n, &cells, steps);
    Live::Live
}

/// Closes a matrix again of which one bound, that of `i` and `j`, was lowered since it was tightly
/// closed. It promises what `close` promises. For n variables it takes at most
/// `6 * n * n + 40 * n + 20` steps, and it allocates nothing.
pub fn close_one_counted<L: Ledger>(m: &mut Half, i: u32, j: u32, steps: &mut Steps<L>) -> Live
    requires row { i < 2 * m.old.vars }
    requires column { j < 2 * m.old.vars }
    requires lowered { WasTight i j m.old }
    ensures vars { m.new.vars ≡ m.old.vars }
    ensures lower { (p q : ℕ) → AtMost (bound_at m.new p q) (bound_at m.old p q) }
    ensures points { (v : List ℤ) → IsPoint v m.old ↔ IsPoint v m.new }
    ensures dead { result ≡ Live.Dead → (v : List ℤ) → IsPoint v m.old → ⊥ }
    ensures tight { result ≡ Live.Live → IsSmall (bound_at m.old) → IsTight (m.old.vars + m.old.vars) (bound_at m.new) }
    ensures cost { steps.new ≤ steps.old + (6 * m.old.vars * m.old.vars + 40 * m.old.vars + 20) }
{
    let n = m.indices();
    let mut cells = [Ext::High; CELLS];
    load(m, n, &mut cells, steps);
    if !close_lowered(&mut cells, n as usize, i as usize, j as usize) {
        return Live::Dead;
    }
    store(m, n, &cells, steps);
    Live::Live
}
