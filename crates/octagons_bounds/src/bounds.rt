// Bounds with what is known of them.

ghost use Rattle.std.specs.Prelude.{◌≡◌, ℕ, ℤ, List, ◌<◌, ◌≤◌, ◌+◌, ◌*◌, ◌+ℤ◌, neg_ℤ, IsTrue, IfOk, OnOk, false, true};
ghost use Rattle.ext_int.specs.Ext.{Above, AtMost};
ghost use Rattle.ext_int.specs.declared.Live.TheVariants as lives;
ghost use Rattle.bound_matrix.specs.Bound.{bound_at, cut, InRange};
ghost use Rattle.bound_matrix.specs.Points.{IsPoint, IsSmall, IsTight, WasTight, signed};
ghost use Rattle.num_api.specs.Told.{Keeps};
ghost use Rattle.num_api.specs.Lives.{is_live};
ghost use Rattle.octagons_sources.specs.Sources.{AllDrawn};
ghost use Rattle.octagons_sources.specs.Seen.{seen, AllSeen};
ghost use Rattle.octagons_bounds.specs.Passes.{all_cover, all_weight};
ghost use Rattle.octagons_bounds.specs.Flags.{IsFlagged, no_bounds};

use crate::lattice::{at_most, covers_all, raise_all};
use crate::sizes::all_small;
use crate::widening::widen_all;
use bound_matrix::{Live, Matrix, close, close_one};
use ext_int::Ext;
use num_api::{Ramp, Steps};
use octagons_sources::{Source, draw};
use std::alloc::{AllocError as NoMemory, Global};
use std::marker::Model;

/// Bounds of the sums and differences of variables at places, and whether they are known to be tightly
/// closed. Contracts see the matrix alone.
#[derive(Drop)]
pub struct Bounds {
    matrix: Matrix,
    is_tight: bool,
}

impl Model for Bounds {
    ghost use Rattle.bound_matrix.specs.Bound.{MatrixView};
    ghost use Rattle.octagons_bounds.specs.Flags.{IsFlagged};

    ghost Value = { MatrixView };

    ghost view = { λ s. s.matrix };

    ghost invariant = { λ s. IsFlagged s.is_tight s.matrix };
}

impl Bounds {
    ghost use Rattle.bound_matrix.specs.Bound.{IsKept};

    /// The bounds of no variable. It takes no memory.
    pub fn empty(alloc: Global) -> Bounds
        ensures { result ≡ no_bounds }
    {
        let matrix = Matrix::empty(alloc);
        let _none = matrix.vars();
        Bounds {
            matrix,
            is_tight: false,
        }
    }

    /// The same bounds once more.
    pub fn copy(&self) -> Result<Bounds, NoMemory>
        ensures { IfOk result (λ b. b ≡ self.now) }
    {
        Ok(Bounds {
            matrix: self.matrix.copy()?,
            is_tight: self.is_tight,
        })
    }

    /// How many variables there are: at most 24.
    pub fn vars(&self) -> u32
        ensures value { result ≡ self.now.vars }
        ensures few { result ≤ 24 }
        ensures kept { IsKept self.now.vars self.now.kept }
    {
        self.matrix.vars()
    }

    /// The bound of `V(j) - V(i)`: `High` where there is none. The indices are below `2 * vars`.
    pub fn get(&self, i: u32, j: u32) -> Ext
        requires row { i < 2 * self.now.vars }
        requires column { j < 2 * self.now.vars }
        ensures value { result ≡ bound_at self.now i j }
        ensures range { InRange result }
    {
        self.matrix.get(i, j)
    }

    /// Closes the bounds, where that is not done yet. No point is lost; `Dead` says that there is none.
    pub fn close(&mut self) -> Live
        ensures vars { self.new.vars ≡ self.old.vars }
        ensures lower { (i j : ℕ) → AtMost (bound_at self.new i j) (bound_at self.old i j) }
        ensures points { (v : List ℤ) → IsPoint v self.old → IsTrue (is_live result) × IsPoint v self.new }
    {
        if self.is_tight {
            return Live::Live;
        }
        let is_small = all_small(&self.matrix);
        let live = close(&mut self.matrix);
        self.is_tight = is_small && live == Live::Live;
        live
    }

    /// Lowers one bound and closes the bounds again: in time quadratic in the variables where they
    /// were tightly closed, else in cubic time. No point is lost that meets the bound, and `Dead` says
    /// that there is none.
    pub fn lower(&mut self, i: u32, j: u32, bound: Ext) -> Live
        requires row { i < 2 * self.old.vars }
        requires column { j < 2 * self.old.vars }
        ensures vars { self.new.vars ≡ self.old.vars }
        ensures entry { AtMost (bound_at self.new i j) (cut bound) }
        ensures lower { (p q : ℕ) → AtMost (bound_at self.new p q) (bound_at self.old p q) }
        ensures points { (v : List ℤ) → IsPoint v self.old → Above bound (signed v j +ℤ neg_ℤ (signed v i)) → IsTrue (is_live result) × IsPoint v self.new }
    {
        if self.is_tight && at_most(self.matrix.get(i, j), bound) {
            return Live::Live;
        }
        lower_closed(self, i, j, bound)
    }

    /// Bounds for so many variables, at most 24, that follow from these by the sources: each valuation
    /// that is drawn from a point is one of their points.
    pub fn drawn(&self, alloc: Global, vars: u32, from: &[Source]) -> Result<Bounds, NoMemory>
        requires { vars ≤ 24 }
        ensures vars { IfOk result (λ b. b.vars ≡ vars) }
        ensures points { IfOk result (λ b. (v w : List ℤ) → IsPoint v self.now → AllDrawn from.now vars v w → IsPoint w b) }
    {
        if self.is_tight {
            return drawn_from(alloc, vars, from, &self.matrix, true);
        }
        let mut closed = self.copy()?;
        let _live = closed.close();
        drawn_from(alloc, vars, from, &closed.matrix, closed.is_tight)
    }

    /// Raises each bound to that of the others, in which the variable at each place stands at another
    /// one, or has no bound.
    pub fn join(&mut self, places: &[Option<u8>], other: &Bounds)
        ensures vars { self.new.vars ≡ self.old.vars }
        ensures left { (v : List ℤ) → IsPoint v self.old → IsPoint v self.new }
        ensures right { (v w : List ℤ) → IsPoint v other.now → AllSeen places.now self.old.vars v w → IsPoint w self.new }
    {
        raise_all(&mut self.matrix, places, &other.matrix);
        self.is_tight = false;
    }

    /// Raises each bound that is below that of the others to a step of the ramp. These bounds are not
    /// closed first: what can still rise would not fall.
    pub fn widen<U: Fn(i128) -> Option<i128>, S: Steps>(
        &mut self,
        places: &[Option<u8>],
        next: &Bounds,
        ramp: &Ramp<U>,
    )
        requires told { Keeps U.pre U.post ramp.now S.list }
        ensures vars { self.new.vars ≡ self.old.vars }
        ensures left { (v : List ℤ) → IsPoint v self.old → IsPoint v self.new }
        ensures right { (v w : List ℤ) → IsPoint v next.now → AllSeen places.now self.old.vars v w → IsPoint w self.new }
        ensures no_rise { all_weight S.list (2 * self.new.vars) (2 * self.new.vars) (bound_at self.new) ≤ all_weight S.list (2 * self.old.vars) (2 * self.old.vars) (bound_at self.old) }
        ensures falls { all_cover (2 * self.old.vars) (2 * self.old.vars) (bound_at self.old) (seen places.now (bound_at next.now)) ≡ false → all_weight S.list (2 * self.new.vars) (2 * self.new.vars) (bound_at self.new) < all_weight S.list (2 * self.old.vars) (2 * self.old.vars) (bound_at self.old) }
    {
        widen_all::<U, S>(&mut self.matrix, places, &next.matrix, ramp);
        self.is_tight = false;
    }

    /// Whether each bound is at or above that of the others.
    pub fn covers(&self, places: &[Option<u8>], other: &Bounds) -> bool
        ensures value { result ≡ all_cover (2 * self.now.vars) (2 * self.now.vars) (bound_at self.now) (seen places.now (bound_at other.now)) }
        ensures included { IsTrue result → (v w : List ℤ) → IsPoint v other.now → AllSeen places.now self.now.vars v w → IsPoint w self.now }
    {
        covers_all(&self.matrix, places, &other.matrix)
    }
}

// Lowers one bound and closes the bounds again.
fn lower_closed(bounds: &mut Bounds, i: u32, j: u32, bound: Ext) -> Live
    requires row { i < 2 * bounds.old.vars }
    requires column { j < 2 * bounds.old.vars }
    ensures vars { bounds.new.vars ≡ bounds.old.vars }
    ensures entry { AtMost (bound_at bounds.new i j) (cut bound) }
    ensures lower { (p q : ℕ) → AtMost (bound_at bounds.new p q) (bound_at bounds.old p q) }
    ensures points { (v : List ℤ) → IsPoint v bounds.old → Above bound (signed v j +ℤ neg_ℤ (signed v i)) → IsTrue (is_live result) × IsPoint v bounds.new }
{
    bounds.matrix.lower(i, j, bound);
    let is_small = all_small(&bounds.matrix);
    let live = close_again(&mut bounds.matrix, i, j, bounds.is_tight);
    bounds.is_tight = is_small && live == Live::Live;
    live
}

// Closes a matrix of which one bound was lowered: by that bound alone where it was tightly closed before.
fn close_again(m: &mut Matrix, i: u32, j: u32, was_tight: bool) -> Live
    requires row { i < 2 * m.old.vars }
    requires column { j < 2 * m.old.vars }
    requires lowered { IsTrue was_tight → WasTight i j m.old }
    ensures vars { m.new.vars ≡ m.old.vars }
    ensures lower { (p q : ℕ) → AtMost (bound_at m.new p q) (bound_at m.old p q) }
    ensures points { (v : List ℤ) → IsPoint v m.old → IsTrue (is_live result) × IsPoint v m.new }
    ensures tight { result ≡ lives.Live → IsSmall (bound_at m.old) → IsTight (m.old.vars + m.old.vars) (bound_at m.new) }
{
    if was_tight {
        close_one(m, i, j)
    } else {
        close(m)
    }
}

// Bounds that follow from those of a matrix by the sources.
fn drawn_from(
    alloc: Global,
    vars: u32,
    from: &[Source],
    m: &Matrix,
    is_tight: bool,
) -> Result<Bounds, NoMemory>
    requires few { vars ≤ 24 }
    requires flagged { IsFlagged is_tight m.now }
    ensures vars { IfOk result (λ b. b.vars ≡ vars) }
    ensures points { IfOk result (λ b. (v w : List ℤ) → IsPoint v m.now → AllDrawn from.now vars v w → IsPoint w b) }
{
    let drawing = draw(alloc, vars, from, m)?;
    Ok(Bounds {
        matrix: drawing.matrix,
        is_tight: is_tight && drawing.is_exact,
    })
}
