// Sums that are taken so that partial sums stay small.

ghost use Rattle.std.specs.Prelude.{◌≡◌, ◌≤◌, ℤ, pos, ◌+ℤ◌, ◌*ℤ◌, ◌≤ℤ◌, neg_ℤ, ◌^◌, IfSome, IfNone, OnOk};
ghost use Rattle.std.specs.Int.RustNames.{FitsSigned};
ghost use mir.Syntax.{w128};
ghost use Rattle.mem_places.specs.Totals.{total, AreSigned, IsHalf};
ghost use Rattle.mem_places.specs.Sides.{IsNext};

use std::alloc::{AllocError as NoMemory, Global};
use std::marker::Model;

/// A sum of whole numbers.
#[derive(Drop)]
pub struct Sum {
    up: Vec<i128>,
    down: Vec<i128>,
}

impl Model for Sum {
    ghost use Rattle.std.specs.Prelude.{ℤ, ◌+ℤ◌};
    ghost use Rattle.mem_places.specs.Totals.{total, AreSigned};

    ghost Value = { ℤ };

    ghost view = { λ s. total s.up.items +ℤ total s.down.items };

    ghost invariant = { λ s. AreSigned s.up.items s.down.items };
}

impl Sum {
    /// The sum of nothing.
    pub fn new(alloc: Global) -> Sum
        ensures { result ≡ pos 0 }
    {
        Sum {
            up: Vec::new(alloc),
            down: Vec::new(alloc),
        }
    }

    /// Adds a number.
    pub fn add(&mut self, n: i128) -> Result<(), NoMemory>
        ensures { OnOk result (self.new ≡ self.old +ℤ n) }
    {
        if n >= 0 {
            self.up.push(n)?;
        } else {
            self.down.push(n)?;
        }
        Ok(())
    }

    /// Adds so many times a number. The product need not be an `i128`.
    pub fn add_times(&mut self, count: u64, n: i128) -> Result<(), NoMemory>
        requires low { neg_ℤ (pos (2 ^ 64)) ≤ℤ n }
        requires high { n ≤ℤ pos (2 ^ 64) }
        ensures { OnOk result (self.new ≡ self.old +ℤ (pos count *ℤ n)) }
    {
        let (half, rest) = halves(n);
        self.add(times(count, half))?;
        self.add(times(count, rest))
    }

    /// The sum, where it is an `i128`.
    pub fn total(&self) -> Option<i128>
        ensures value { IfSome result (λ n. n ≡ self.now) }
        ensures none { IfNone result (FitsSigned w128 self.now → ⊥) }
    {
        balanced(&self.up, &self.down)
    }
}

// Two numbers whose sum is this one.
fn halves(n: i128) -> (i128, i128)
    requires low { neg_ℤ (pos (2 ^ 64)) ≤ℤ n }
    requires high { n ≤ℤ pos (2 ^ 64) }
    ensures sum { (result.0 +ℤ result.1) ≡ n }
    ensures first { IsHalf result.0 }
    ensures second { IsHalf result.1 }
{
    let half = n / 2;
    (half, n - half)
}

// So many times the number.
fn times(count: u64, n: i128) -> i128
    requires { IsHalf n }
    ensures { result ≡ (pos count *ℤ n) }
{
    i128::from(count) * n
}

// The sum of numbers from 0 on and of numbers up to 0, where it is an `i128`.
fn balanced(up: &[i128], down: &[i128]) -> Option<i128>
    requires { AreSigned up.now down.now }
    ensures value { IfSome result (λ n. n ≡ (total up.now +ℤ total down.now)) }
    ensures none { IfNone result (FitsSigned w128 (total up.now +ℤ total down.now) → ⊥) }
{
    let mut sum: i128 = 0;
    let mut ups = 0;
    let mut downs = 0;
    loop {
        match next_side(ups, up.len(), downs, down.len(), sum) {
            Side::Up => {
                sum = sum_of(sum, up[ups])?;
                ups += 1;
            }
            Side::Down => {
                sum = sum_of(sum, down[downs])?;
                downs += 1;
            }
            Side::Neither => return Some(sum),
        }
    }
}

// The side that the next number is taken from.
enum Side {
    Up,
    Down,
    Neither,
}

// A side of which not all was taken: where both have more, the one that leads the sum towards 0.
fn next_side(ups: usize, up: usize, downs: usize, down: usize, sum: i128) -> Side
    requires up { ups ≤ up }
    requires down { downs ≤ down }
    ensures { IsNext ups up downs down sum result }
{
    if ups == up {
        if downs == down {
            Side::Neither
        } else {
            Side::Down
        }
    } else if downs == down || sum <= 0 {
        Side::Up
    } else {
        Side::Down
    }
}

// The sum of two numbers, where it is an `i128`.
fn sum_of(a: i128, b: i128) -> Option<i128>
    ensures value { IfSome result (λ n. n ≡ (a +ℤ b)) }
    ensures none { IfNone result (FitsSigned w128 (a +ℤ b) → ⊥) }
{
    a.checked_add(b)
}
