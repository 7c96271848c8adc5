//! Matrices of bounds, whose accesses nobody counts.
ghost use Rattle.std.specs.Prelude.{◌≡◌, ℕ, ℤ, List, ◌≤◌, ◌<◌, ◌+◌, ◌*◌, ◌↔◌, IfOk};
ghost use Rattle.ext_int.specs.Ext.{AtMost};
ghost use Rattle.ext_int.specs.declared.Ext.TheVariants.{High};
ghost use Rattle.bound_matrix.specs.Bound.{bar, bound_at, InRange, LowersTo, RaisesTo, IsKept};
ghost use Rattle.bound_matrix.specs.Points.{IsPoint, IsSmall, IsTight, WasTight};

use crate::counting::Steps;
use crate::halves::Half;
use crate::tighten::{close_counted, close_one_counted};
use ext_int::{Ext, Live};
use std::alloc::{AllocError as NoMemory, Global};
use std::marker::{Brand, Model};
use std::sync::ledger::{Blank, Ledger};

/// Upper bounds of the differences of signed variables. Variable k stands as `V(2k) = v(k)` and
/// `V(2k + 1) = -v(k)`, and the bound of `i` and `j` is one of `V(j) - V(i)`.
#[derive(Drop)]
pub struct Matrix {
    half: Half,
}

impl Model for Matrix {
    ghost use Rattle.bound_matrix.specs.Bound.{MatrixView};

    ghost Value = { MatrixView };

    ghost view = { λ s. s.half };
}

impl Matrix {
    /// A matrix for so many variables, at most 24, with no bound.
    pub fn new(alloc: Global, vars: u32) -> Result<Matrix, NoMemory>
        requires { vars ≤ 24 }
        ensures vars { IfOk result (λ m. m.vars ≡ vars) }
        ensures none { IfOk result (λ m. (i j : ℕ) → bound_at m i j ≡ High) }
    {
        Ok(Matrix {
            half: Half::new(alloc, vars)?,
        })
    }

    /// The bound of `V(j) - V(i)`: `High` where there is none, and else at most 2^100 in size. The
    /// indices are below `2 * vars`.
    pub fn get(&self, i: u32, j: u32) -> Ext
        requires row { i < 2 * self.now.vars }
        requires column { j < 2 * self.now.vars }
        ensures value { result ≡ bound_at self.now i j }
        ensures coherent { result ≡ bound_at self.now (bar j) (bar i) }
        ensures range { InRange result }
    {
        get_uncounted::<Brand>(&self.half, i, j, Blank::new(1))
    }

    /// Lowers the bound of `V(j) - V(i)`, and with it that of `V(i xor 1) - V(j xor 1)`, to `bound`
    /// where that is less. A bound above 2^100 says nothing, and one below -2^100 is raised to it.
    /// The indices are below `2 * vars`.
    pub fn lower(&mut self, i: u32, j: u32, bound: Ext)
        requires row { i < 2 * self.old.vars }
        requires column { j < 2 * self.old.vars }
        ensures vars { self.new.vars ≡ self.old.vars }
        ensures lowered { LowersTo i j bound (bound_at self.old) (bound_at self.new) }
    {
        lower_uncounted::<Brand>(&mut self.half, i, j, bound, Blank::new(1))
    }

    /// Raises the bound of `V(j) - V(i)`, and with it that of `V(i xor 1) - V(j xor 1)`, to `bound`
    /// where that is greater. A bound above 2^100 says nothing, and one below -2^100 is raised to it.
    /// The indices are below `2 * vars`.
    pub fn raise(&mut self, i: u32, j: u32, bound: Ext)
        requires row { i < 2 * self.old.vars }
        requires column { j < 2 * self.old.vars }
        ensures vars { self.new.vars ≡ self.old.vars }
        ensures raised { RaisesTo i j bound (bound_at self.old) (bound_at self.new) }
    {
        raise_uncounted::<Brand>(&mut self.half, i, j, bound, Blank::new(1))
    }

    /// The same matrix once more.
    pub fn copy(&self) -> Result<Matrix, NoMemory>
        ensures { IfOk result (λ m. m ≡ self.now) }
    {
        Ok(Matrix {
            half: self.half.copy()?,
        })
    }

    /// A matrix for no variables. It takes no memory.
    pub fn empty(alloc: Global) -> Matrix
        ensures { result.vars ≡ 0 }
    {
        Matrix {
            half: Half::empty(alloc),
        }
    }

    /// How many variables there are: at most 24.
    pub fn vars(&self) -> u32
        ensures value { result ≡ self.now.vars }
        ensures few { result ≤ 24 }
        ensures kept { IsKept self.now.vars self.now.kept }
    {
        self.half.vars()
    }

    /// How many bounds are kept.
    pub fn stored(&self) -> u32
        ensures { result ≡ 2 * self.now.vars * (self.now.vars + 1) }
    {
        self.half.stored()
    }
}

/// Closes a matrix tightly: the integer points stay, and no bound is raised. `Dead` says that there
/// is no integer point. Where every finite bound was at most 2^90 in size, a `Live` answer leaves
/// each bound the least that follows. It allocates nothing.
pub fn close(m: &mut Matrix) -> Live
    ensures vars { m.new.vars ≡ m.old.vars }
    ensures lower { (i j : ℕ) → AtMost (bound_at m.new i j) (bound_at m.old i j) }
    ensures points { (v : List ℤ) → IsPoint v m.old ↔ IsPoint v m.new }
    ensures dead { result ≡ Live.Dead → (v : List ℤ) → IsPoint v m.old → ⊥ }
    ensures tight { result ≡ Live.Live → IsSmall (bound_at m.old) → IsTight (m.old.vars + m.old.vars) (bound_at m.new) }
{
    close_uncounted::<Brand>(&mut m.half, Blank::new(1))
}

/// Closes a matrix again of which one bound, that of `i` and `j`, was lowered since it was tightly
/// closed. It promises what `close` promises, and takes time quadratic in the variables.
pub fn close_one(m: &mut Matrix, i: u32, j: u32) -> Live
    requires row { i < 2 * m.old.vars }
    requires column { j < 2 * m.old.vars }
    requires lowered { WasTight i j m.old }
    ensures vars { m.new.vars ≡ m.old.vars }
    ensures lower { (p q : ℕ) → AtMost (bound_at m.new p q) (bound_at m.old p q) }
    ensures points { (v : List ℤ) → IsPoint v m.old ↔ IsPoint v m.new }
    ensures dead { result ≡ Live.Dead → (v : List ℤ) → IsPoint v m.old → ⊥ }
    ensures tight { result ≡ Live.Live → IsSmall (bound_at m.old) → IsTight (m.old.vars + m.old.vars) (bound_at m.new) }
{
    close_one_uncounted::<Brand>(&mut m.half, i, j, Blank::new(1))
}

/// The bound, on a count that ends with the call.
fn get_uncounted<L: Ledger>(m: &Half, i: u32, j: u32, blank: Blank) -> Ext
    requires row { i < 2 * m.now.vars }
    requires column { j < 2 * m.now.vars }
    requires name { blank.name ≡ L.name }
    requires parts { blank.parts ≡ L.parts }
    requires some_part { 0 < blank.parts }
    ensures value { result ≡ bound_at m.now i j }
    ensures coherent { result ≡ bound_at m.now (bar j) (bar i) }
    ensures range { InRange result }
{
    m.get(i, j, &mut Steps::<L>::start(blank))
}

/// Lowers a bound, on a count that ends with the call.
fn lower_uncounted<L: Ledger>(m: &mut Half, i: u32, j: u32, bound: Ext, blank: Blank)
    requires row { i < 2 * m.old.vars }
    requires column { j < 2 * m.old.vars }
    requires name { blank.name ≡ L.name }
    requires parts { blank.parts ≡ L.parts }
    requires some_part { 0 < blank.parts }
    ensures vars { m.new.vars ≡ m.old.vars }
    ensures lowered { LowersTo i j bound (bound_at m.old) (bound_at m.new) }
{
    m.lower(i, j, bound, &mut Steps::<L>::start(blank))
}

/// Raises a bound, on a count that ends with the call.
fn raise_uncounted<L: Ledger>(m: &mut Half, i: u32, j: u32, bound: Ext, blank: Blank)
    requires row { i < 2 * m.old.vars }
    requires column { j < 2 * m.old.vars }
    requires name { blank.name ≡ L.name }
    requires parts { blank.parts ≡ L.parts }
    requires some_part { 0 < blank.parts }
    ensures vars { m.new.vars ≡ m.old.vars }
    ensures raised { RaisesTo i j bound (bound_at m.old) (bound_at m.new) }
{
    m.raise(i, j, bound, &mut Steps::<L>::start(blank))
}

/// Closes a matrix, on a count that ends with the call.
fn close_uncounted<L: Ledger>(m: &mut Half, blank: Blank) -> Live
    requires name { blank.name ≡ L.name }
    requires parts { blank.parts ≡ L.parts }
    requires some_part { 0 < blank.parts }
    ensures vars { m.new.vars ≡ m.old.vars }
    ensures lower { (i j : ℕ) → AtMost (bound_at m.new i j) (bound_at m.old i j) }
    ensures points { (v : List ℤ) → IsPoint v m.old ↔ IsPoint v m.new }
    ensures dead { result ≡ Live.Dead → (v : List ℤ) → IsPoint v m.old → ⊥ }
    ensures tight { result ≡ Live.Live → IsSmall (bound_at m.old) → IsTight (m.old.vars + m.old.vars) (bound_at m.new) }
{
    close_counted(m, &mut Steps::<L>::start(blank))
}

/// Closes a matrix after one bound was lowered, on a count that ends with the call.
fn close_one_uncounted<L: Ledger>(m: &mut Half, i: u32, j: u32, blank: Blank) -> Live
    requires row { i < 2 * m.old.vars }
    requires column { j < 2 * m.old.vars }
    requires lowered { WasTight i j m.old }
    requires name { blank.name ≡ L.name }
    requires parts { blank.parts ≡ L.parts }
    requires some_part { 0 < blank.parts }
    ensures vars { m.new.vars ≡ m.old.vars }
    ensures lower { (p q : ℕ) → AtMost (bound_at m.new p q) (bound_at m.old p q) }
    ensures points { (v : List ℤ) → IsPoint v m.old ↔ IsPoint v m.new }
    ensures dead { result ≡ Live.Dead → (v : List ℤ) → IsPoint v m.old → ⊥ }
    ensures tight { result ≡ Live.Live → IsSmall (bound_at m.old) → IsTight (m.old.vars + m.old.vars) (bound_at m.new) }
{
    close_one_counted(m, i, j, &mut Steps::<L>::start(blank))
}
