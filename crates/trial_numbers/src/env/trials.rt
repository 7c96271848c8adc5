// Answers beside all valuations of a box.

ghost use Rattle.std.specs.Prelude.{◌≤ℤ◌};

use super::State;
use super::exprs::{VARIABLES, comparison, expression, small, value};
use crate::boxes::{Bounds, numbers_of, valuations_in};
use crate::random::below;
use crate::tally::Tally;
use num_api::{Live, Messages, NExpr, NumDomain, Oracle, Unknowing, Var};
use rand_pcg::Pcg32;
use std::alloc::{AllocError as NoMemory, Global};
use trial_boxes::{Valuation, all_in, hull};

/// What the trials came to.
#[derive(Clone, Copy)]
pub struct Told {
    pub held: Tally,
    pub least: Tally,
    pub kept: Tally,
    pub cut: Tally,
}

fn some_bounds(random: &mut Pcg32) -> Bounds
    ensures { result.lo ≤ℤ result.hi }
{
    let lo = small(random);
    Bounds {
        lo,
        hi: lo.saturating_add(i128::from(below(random, 5))),
    }
}

fn state_of(alloc: Global, bounds: &[Bounds; 3]) -> Result<State, NoMemory> {
    let mut state = State::top(alloc);
    for (x, bound) in bounds.iter().enumerate() {
        let range = bound.range();
        if range.holds_some() {
            state.havoc(Var(x as u64), range)?;
        }
    }
    Ok(state)
}

// Whether the answers for the expression hold all its values, and whether the range is the least.
fn try_value(state: &State, e: &NExpr, values: &[i128], told: &mut Told) {
    let (r, c) = (state.range(e), state.residue(e));
    told.held.count(all_in(values, r, c));
    match hull(values) {
        Some(least) => told.least.count(r == least),
        None => told.least.count(!r.holds_some()),
    }
}

// Whether the state holds each valuation that passed, and whether each variable's range is the least.
fn try_test(
    alloc: Global,
    state: &State,
    passed: &[Valuation],
    told: &mut Told,
) -> Result<(), NoMemory> {
    let mut kept = true;
    for x in 0..VARIABLES {
        let e = NExpr::Read(Var(x));
        let (r, c) = (state.range(&e), state.residue(&e));
        let numbers = numbers_of(alloc, passed, x as usize)?;
        kept = kept && all_in(&numbers, r, c);
        told.cut.count(hull(&numbers) == Some(r));
    }
    told.kept.count(kept);
    Ok(())
}

// One expression, and one test.
fn try_once(alloc: Global, random: &mut Pcg32, told: &mut Told) -> Result<(), NoMemory> {
    let bounds = [
        some_bounds(random),
        some_bounds(random),
        some_bounds(random),
    ];
    let all = valuations_in(alloc, &bounds)?;
    let mut state = state_of(alloc, &bounds)?;
    let e = expression(alloc, random, 3)?;
    let mut values = Vec::new(alloc);
    for valuation in &all {
        if let Some(n) = value(&e, valuation) {
            values.push(n)?;
        }
    }
    try_value(&state, &e, &values, told);
    let test = comparison(alloc, random)?;
    let mut passed = Vec::new(alloc);
    for valuation in &all {
        if matches!(value(&test, valuation), Some(n) if n != 0) {
            passed.push(*valuation)?;
        }
    }
    let mut out = Messages::new(alloc);
    match state.assume(&test, true, &Unknowing, &mut out)? {
        Live::Live => try_test(alloc, &state, &passed, told),
        Live::Dead => {
            told.kept.count(passed.is_empty());
            told.cut.count(passed.is_empty());
            Ok(())
        }
    }
}

/// What so many trials come to.
pub fn tried(alloc: Global, trials: u64) -> Result<Told, NoMemory> {
    let mut random = Pcg32::new(2026, 11);
    let mut told = Told {
        held: Tally::new(),
        least: Tally::new(),
        kept: Tally::new(),
        cut: Tally::new(),
    };
    for _ in 0..trials {
        try_once(alloc, &mut random, &mut told)?;
    }
    Ok(told)
}
