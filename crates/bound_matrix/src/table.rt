//! Closing the bounds of a whole matrix, in place and without allocating.
ghost use Rattle.std.specs.Prelude.{◌≤◌, ◌%◌, ◌≡◌, ℕ, ℤ, ◌+ℤ◌, ◌≤ℤ◌, pos, ◌<◌, false, true, length, slice_index};
ghost use Rattle.ext_int.specs.Ext.{Above};
ghost use Rattle.bound_matrix.specs.Bound.{InRange, AllInRange};
ghost use Rattle.bound_matrix.specs.Points.{IsUpTo, Meets, IsSmall};
ghost use Rattle.bound_matrix.specs.Entry.{Near, Relaxed, Staged, Bounds};
ghost use Rattle.bound_matrix.specs.Rel.{NotBelowZero};
ghost use Rattle.bound_matrix.specs.Cells.{IsTable, cell, SameBut, NearAt, Lowered, RowStaged, PivotUp, IsClosed, IsLeast, IsHalf, HalvesAbove, IsHalves, NearHalves, RowHalved, HalvesOf, IsSigned, IsMirrored, IsTightly, IsReady, ComposesBut, WasTightly};

use crate::kept::{cut_bound, partner};
use ext_int::{Ext, half_floor, min};

/// How many indices a matrix has at most: two for each of 24 variables.
pub const SIDE: usize = 48;

/// How many cells a table has.
pub const CELLS: usize = SIDE * SIDE;

/// The lesser of `e` and the sum of `a` and `b`.
fn relax(a: Ext, b: Ext, e: Ext) -> Ext
    requires first { InRange a }
    requires second { InRange b }
    requires third { InRange e }
    ensures range { InRange result }
    ensures lower { (x : ℤ) → IsUpTo e x → IsUpTo result x }
    ensures sound { (w y z : ℤ) → Above a y → Above b z → Above e w → w ≤ℤ (y +ℤ z) → Above result w }
    ensures exact { Near a → Near b → Relaxed a b e result }
{
    match (a, b) {
        (Ext::Fin(x), Ext::Fin(y)) => min(e, cut_bound(Ext::Fin(x + y))),
        _ => e,
    }
}

/// The bound of `i` and `j`.
pub fn read(cells: &[Ext], n: usize, i: usize, j: usize) -> Ext
    requires table { IsTable n cells.now }
    requires row { i < n }
    requires column { j < n }
    ensures { result ≡ cell n cells.now i j }
{
    cells[i * SIDE + j]
}

/// Writes the bound of `i` and `j`.
pub fn write(cells: &mut [Ext], n: usize, i: usize, j: usize, e: Ext)
    requires table { IsTable n cells.old }
    requires row { i < n }
    requires column { j < n }
    ensures table { IsTable n cells.new }
    ensures here { cell n cells.new i j ≡ e }
    ensures others { SameBut i j (cell n cells.old) (cell n cells.new) }
{
    cells[i * SIDE + j] = e;
}

/// Lowers the row of `i` by the bounds through `k`.
fn row(cells: &mut [Ext], n: usize, k: usize, i: usize)
    requires table { IsTable n cells.old }
    requires pivot { k < n }
    requires row { i < n }
    requires range { AllInRange (cell n cells.old) }
    ensures table { IsTable n cells.new }
    ensures range { AllInRange (cell n cells.new) }
    ensures lower { Lowered (cell n cells.old) (cell n cells.new) }
    ensures sound { (v : ℕ → ℤ) → Meets v (cell n cells.old) → Meets v (cell n cells.new) }
    ensures others { (p q : ℕ) → (p ≡ i → ⊥) → cell n cells.new p q ≡ cell n cells.old p q }
    ensures staged { NearAt (cell n cells.old) k → RowStaged n k i (cell n cells.old) (cell n cells.new) }
{
    let a = read(cells, n, i, k);
    for j in 0..n {
        let b = read(cells, n, k, j);
        let e = read(cells, n, i, j);
        write(cells, n, i, j, relax(a, b, e));
    }
}

/// Lowers each bound by the bounds through `k`.
pub fn stage(cells: &mut [Ext], n: usize, k: usize)
    requires table { IsTable n cells.old }
    requires pivot { k < n }
    requires range { AllInRange (cell n cells.old) }
    ensures table { IsTable n cells.new }
    ensures range { AllInRange (cell n cells.new) }
    ensures lower { Lowered (cell n cells.old) (cell n cells.new) }
    ensures sound { (v : ℕ → ℤ) → Meets v (cell n cells.old) → Meets v (cell n cells.new) }
    ensures staged { NearAt (cell n cells.old) k → PivotUp (cell n cells.old) k → (p q : ℕ) → Staged (cell n cells.old) (cell n cells.new) k p q }
{
    for i in 0..n {
        row(cells, n, k, i);
    }
}

/// Whether the bound is below zero.
fn is_negative(e: Ext) -> bool
    ensures yes { result ≡ true → Above e (pos 0) → ⊥ }
    ensures no { result ≡ false → (x : ℤ) → IsUpTo e x → pos 0 ≤ℤ x }
{
    match e {
        Ext::Low => true,
        Ext::Fin(x) => x < 0,
        Ext::High => false,
    }
}

/// Whether some bound from an index to itself is below zero.
pub fn below_zero(cells: &[Ext], n: usize) -> bool
    requires table { IsTable n cells.now }
    ensures yes { result ≡ true → (v : ℕ → ℤ) → Meets v (cell n cells.now) → ⊥ }
    ensures no { result ≡ false → NotBelowZero (Bounds (cell n cells.now)) }
{
    for i in 0..n {
        if is_negative(read(cells, n, i, i)) {
            return true;
        }
    }
    false
}

/// Bounds each index by zero from itself.
pub fn diagonal(cells: &mut [Ext], n: usize)
    requires table { IsTable n cells.old }
    requires range { AllInRange (cell n cells.old) }
    ensures table { IsTable n cells.new }
    ensures range { AllInRange (cell n cells.new) }
    ensures lower { Lowered (cell n cells.old) (cell n cells.new) }
    ensures sound { (v : ℕ → ℤ) → Meets v (cell n cells.old) → Meets v (cell n cells.new) }
    ensures zero { (i : ℕ) → i < n → IsUpTo (cell n cells.new i i) (pos 0) }
    ensures small { IsSmall (cell n cells.old) → IsSmall (cell n cells.new) }
    ensures least { IsLeast n (cell n cells.old) (cell n cells.new) }
{
    for i in 0..n {
        let e = read(cells, n, i, i);
        write(cells, n, i, i, min(e, Ext::Fin(0)));
    }
}

/// Closes the bounds by composing them: false where they clash.
fn close_paths(cells: &mut [Ext], n: usize) -> bool
    requires table { IsTable n cells.old }
    requires range { AllInRange (cell n cells.old) }
    ensures table { IsTable n cells.new }
    ensures range { AllInRange (cell n cells.new) }
    ensures lower { Lowered (cell n cells.old) (cell n cells.new) }
    ensures sound { (v : ℕ → ℤ) → Meets v (cell n cells.old) → Meets v (cell n cells.new) }
    ensures dead { result ≡ false → (v : ℕ → ℤ) → Meets v (cell n cells.old) → ⊥ }
    ensures live { result ≡ true → NotBelowZero (Bounds (cell n cells.new)) }
    ensures closed { result ≡ true → IsSmall (cell n cells.old) → IsClosed n (cell n cells.new) }
    ensures near { result ≡ true → IsSmall (cell n cells.old) → (i j : ℕ) → Near (cell n cells.new i j) }
    ensures least { result ≡ true → IsSmall (cell n cells.old) → IsLeast n (cell n cells.old) (cell n cells.new) }
{
    diagonal(cells, n);
    if below_zero(cells, n) {
        return false;
    }
    for k in 0..n {
        stage(cells, n, k);
        if below_zero(cells, n) {
            return false;
        }
    }
    true
}

/// Half of the bound, rounded down.
fn half_of(e: Ext) -> Ext
    requires { InRange e }
    ensures range { InRange result }
    ensures half { IsHalf e result }
    ensures near { Near e → Near result }
{
    half_floor(e)
}

/// Lowers the row of `i` by the sums of halves.
fn halve_row(cells: &mut [Ext], n: usize, i: usize, halves: &[Ext])
    requires table { IsTable n cells.old }
    requires row { i < n }
    requires range { AllInRange (cell n cells.old) }
    requires halves { IsHalves n halves.now }
    ensures table { IsTable n cells.new }
    ensures range { AllInRange (cell n cells.new) }
    ensures lower { Lowered (cell n cells.old) (cell n cells.new) }
    ensures others { (p q : ℕ) → (p ≡ i → ⊥) → cell n cells.new p q ≡ cell n cells.old p q }
    ensures sound { (v : ℕ → ℤ) → HalvesAbove n v halves.now → Meets v (cell n cells.old) → Meets v (cell n cells.new) }
    ensures halved { NearHalves halves.now → RowHalved n i halves.now (cell n cells.old) (cell n cells.new) }
{
    let a = halves[i];
    for j in 0..n {
        let b = halves[partner(j)];
        let e = read(cells, n, i, j);
        write(cells, n, i, j, relax(a, b, e));
    }
}

/// The halves of the bounds from each index to its partner.
fn take_halves(cells: &[Ext], n: usize) -> [Ext; SIDE]
    requires table { IsTable n cells.now }
    requires even { n % 2 ≡ 0 }
    requires range { AllInRange (cell n cells.now) }
    ensures { HalvesOf n (cell n cells.now) result }
{
    let mut halves = [Ext::High; SIDE];
    for i in 0..n {
        halves[i] = half_of(read(cells, n, i, partner(i)));
    }
    halves
}

/// Lowers each bound by the sum of halves.
fn halve(cells: &mut [Ext], n: usize, halves: &[Ext])
    requires table { IsTable n cells.old }
    requires range { AllInRange (cell n cells.old) }
    requires halves { IsHalves n halves.now }
    ensures table { IsTable n cells.new }
    ensures range { AllInRange (cell n cells.new) }
    ensures lower { Lowered (cell n cells.old) (cell n cells.new) }
    ensures sound { (v : ℕ → ℤ) → HalvesAbove n v halves.now → Meets v (cell n cells.old) → Meets v (cell n cells.new) }
    ensures halved { NearHalves halves.now → (p : ℕ) → p < n → RowHalved n p halves.now (cell n cells.old) (cell n cells.new) }
{
    for i in 0..n {
        halve_row(cells, n, i, halves);
    }
}

/// Lowers bounds that are closed under composing by the sums of their halves: false where these
/// clash.
fn close_halves(cells: &mut [Ext], n: usize) -> bool
    requires table { IsTable n cells.old }
    requires even { n % 2 ≡ 0 }
    requires range { AllInRange (cell n cells.old) }
    ensures table { IsTable n cells.new }
    ensures range { AllInRange (cell n cells.new) }
    ensures lower { Lowered (cell n cells.old) (cell n cells.new) }
    ensures sound { (v : ℕ → ℤ) → IsSigned v → Meets v (cell n cells.old) → Meets v (cell n cells.new) }
    ensures dead { result ≡ false → (v : ℕ → ℤ) → IsSigned v → Meets v (cell n cells.old) → ⊥ }
    ensures tight { result ≡ true → IsReady n (cell n cells.old) → IsTightly n (cell n cells.new) }
{
    let halves = take_halves(cells, n);
    halve(cells, n, &halves);
    let clash = below_zero(cells, n);
    !clash
}

/// Closes the bounds: false where there is no point.
pub fn close_cells(cells: &mut [Ext], n: usize) -> bool
    requires table { IsTable n cells.old }
    requires even { n % 2 ≡ 0 }
    requires range { AllInRange (cell n cells.old) }
    ensures table { IsTable n cells.new }
    ensures range { AllInRange (cell n cells.new) }
    ensures lower { Lowered (cell n cells.old) (cell n cells.new) }
    ensures sound { (v : ℕ → ℤ) → IsSigned v → Meets v (cell n cells.old) → Meets v (cell n cells.new) }
    ensures dead { result ≡ false → (v : ℕ → ℤ) → IsSigned v → Meets v (cell n cells.old) → ⊥ }
    ensures tight { result ≡ true → IsSmall (cell n cells.old) → IsMirrored n (cell n cells.old) → IsTightly n (cell n cells.new) }
{
    if !close_paths(cells, n) {
        return false;
    }
    close_halves(cells, n)
}

/// Closes bounds that compose through every other index: false where they clash.
fn close_through(cells: &mut [Ext], n: usize, pivots: &[usize]) -> bool
    requires table { IsTable n cells.old }
    requires range { AllInRange (cell n cells.old) }
    requires few { length pivots.now ≤ 4 }
    requires inside { (k : ℕ) → k < length pivots.now → slice_index pivots.now k < n }
    ensures table { IsTable n cells.new }
    ensures range { AllInRange (cell n cells.new) }
    ensures lower { Lowered (cell n cells.old) (cell n cells.new) }
    ensures sound { (v : ℕ → ℤ) → Meets v (cell n cells.old) → Meets v (cell n cells.new) }
    ensures dead { result ≡ false → (v : ℕ → ℤ) → Meets v (cell n cells.old) → ⊥ }
    ensures live { result ≡ true → NotBelowZero (Bounds (cell n cells.new)) }
    ensures closed { result ≡ true → IsSmall (cell n cells.old) → ComposesBut n pivots.now (cell n cells.old) → IsClosed n (cell n cells.new) }
    ensures near { result ≡ true → IsSmall (cell n cells.old) → (i j : ℕ) → Near (cell n cells.new i j) }
    ensures least { result ≡ true → IsSmall (cell n cells.old) → IsLeast n (cell n cells.old) (cell n cells.new) }
{
    if below_zero(cells, n) {
        return false;
    }
    for at in 0..pivots.len() {
        stage(cells, n, pivots[at]);
        if below_zero(cells, n) {
            return false;
        }
    }
    true
}

/// Closes bounds of which that of `i` and `j`, and its mirror image, was lowered since they were
/// tightly closed: false where there is no point.
pub fn close_lowered(cells: &mut [Ext], n: usize, i: usize, j: usize) -> bool
    requires table { IsTable n cells.old }
    requires even { n % 2 ≡ 0 }
    requires range { AllInRange (cell n cells.old) }
    requires row { i < n }
    requires column { j < n }
    ensures table { IsTable n cells.new }
    ensures range { AllInRange (cell n cells.new) }
    ensures lower { Lowered (cell n cells.old) (cell n cells.new) }
    ensures sound { (v : ℕ → ℤ) → IsSigned v → Meets v (cell n cells.old) → Meets v (cell n cells.new) }
    ensures dead { result ≡ false → (v : ℕ → ℤ) → IsSigned v → Meets v (cell n cells.old) → ⊥ }
    ensures tight { result ≡ true → IsSmall (cell n cells.old) → IsMirrored n (cell n cells.old)
        → WasTightly n i j (cell n cells.old) → IsTightly n (cell n cells.new) }
{
    if !close_through(cells, n, &[i, j, partner(i), partner(j)]) {
        return false;
    }
    close_halves(cells, n)
}
