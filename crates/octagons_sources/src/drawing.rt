// Matrices that are drawn from others.

ghost use Rattle.std.specs.Prelude.{◌≡◌, ℕ, ℤ, ◌<◌, ◌≤◌, ◌+◌, ◌*◌, ◌⊎◌, List, IsTrue, IfOk, Bool};
ghost use Rattle.bound_matrix.specs.Bound.{bound_at, InRange, bar};
ghost use Rattle.bound_matrix.specs.Points.{IsPoint, IsTight};
ghost use Rattle.ext_int.specs.declared.Ext.{Ext as End};
ghost use Rattle.ext_int.specs.declared.Ext.TheVariants.{High};
ghost use Rattle.octagons_sources.specs.Sources.{AllDrawn, IsWide, source_at, most_added, index_from};
ghost use Rattle.octagons_sources.specs.Drawn.{drawn, drawn_whole, DrawsRow, DrawsRows, between};

use crate::between::find;
use crate::source::{Source, is_wide};
use bound_matrix::Matrix;
use std::alloc::{AllocError as NoMemory, Global};

/// A matrix that was drawn from another one.
#[derive(Drop)]
pub struct Drawing {
    pub matrix: Matrix,
    /// Whether no bound had to be cut: then a matrix that was tightly closed gave a tightly closed one.
    pub is_exact: bool,
}

// Draws the bounds of a row, and says whether none was cut.
fn draw_row(new: &mut Matrix, from: &[Source], m: &Matrix, i: u32) -> bool
    requires row { i < 2 * new.old.vars }
    ensures vars { new.new.vars ≡ new.old.vars }
    ensures points { (v w : List ℤ) → IsPoint v m.now → AllDrawn from.now new.old.vars v w → IsPoint w new.old → IsPoint w new.new }
    ensures whole { IsTrue result → DrawsRow from.now i (2 * new.old.vars) (bound_at m.now) (bound_at new.old) (bound_at new.new) }
{
    let mut is_exact = true;
    for j in 0..2 * new.vars() {
        let found = find(from, m, i, j);
        new.lower(i, j, found.bound);
        is_exact = is_exact && found.is_exact;
    }
    is_exact
}

// Draws all bounds, and says whether none was cut.
fn draw_rows(new: &mut Matrix, from: &[Source], m: &Matrix) -> bool
    requires none { (p q : ℕ) → bound_at new.old p q ≡ High }
    ensures vars { new.new.vars ≡ new.old.vars }
    ensures points { (v w : List ℤ) → IsPoint v m.now → AllDrawn from.now new.old.vars v w → IsPoint w new.new }
    ensures whole { IsTrue result → (p q : ℕ) → p < 2 * new.new.vars → q < 2 * new.new.vars → bound_at new.new p q ≡ drawn_whole from.now (bound_at m.now) p q }
{
    let mut is_exact = true;
    for i in 0..2 * new.vars() {
        let is_whole = draw_row(new, from, m, i);
        is_exact = is_exact && is_whole;
    }
    is_exact
}

// Whether the range of each source is known to hold a number.
fn all_wide(from: &[Source]) -> bool
    ensures { IsTrue result → (k : ℕ) → IsWide (source_at from.now k) }
{
    for source in from {
        if !is_wide(source) {
            return false;
        }
    }
    true
}

/// A matrix for so many variables, at most 24, whose bounds follow from those of the sources: each
/// valuation that is drawn from a point of the first matrix is one of its points. A bound that no matrix
/// keeps is cut.
pub fn draw(alloc: Global, vars: u32, from: &[Source], m: &Matrix) -> Result<Drawing, NoMemory>
    requires { vars ≤ 24 }
    ensures vars { IfOk result (λ d. d.matrix.vars ≡ vars) }
    ensures points { IfOk result (λ d. (v w : List ℤ) → IsPoint v m.now → AllDrawn from.now vars v w → IsPoint w d.matrix) }
    ensures tight { IfOk result (λ d. IsTrue d.is_exact → IsTight (m.now.vars + m.now.vars) (bound_at m.now) → IsTight (vars + vars) (bound_at d.matrix)) }
{
    let mut matrix = Matrix::new(alloc, vars)?;
    let is_whole = draw_rows(&mut matrix, from, m);
    let is_exact = is_whole && all_wide(from);
    Ok(Drawing { matrix, is_exact })
}
