// Answers beside all valuations of a box.

use super::State;
use super::exprs::{Expr, machine_expr};
use super::outcomes::{evaluate, exact};
use super::random::{Types, comparison, expression, some_bounds, some_type};
use crate::boxes::{Bounds, numbers_of, valuations_in};
use crate::tally::Tally;
use c_syntax::IntType;
use machine_nums::MExpr;
use num_api::{Live, Message, Range, Var};
use rand_pcg::Pcg32;
use std::alloc::{AllocError as NoMemory, Global};
use trial_boxes::{Valuation, all_in, hull};

/// The variable that is given the value of an expression.
const VALUE: Var = Var(3);

/// What the trials came to.
#[derive(Drop)]
pub struct Told {
    /// The expressions of which every value and every exact result was held.
    pub held: Tally,
    /// The tests that kept every valuation which passes.
    pub kept: Tally,
    /// The ranges that are the least that hold the exact results, the values, and what a test leaves.
    pub least: Tally,
    pub values: Tally,
    pub cut: Tally,
    /// What was lost.
    pub lost: Vec<String>,
}

/// Variables of small ranges: a type and a range for each, and all valuations.
#[derive(Drop)]
struct Boxed {
    types: Types,
    bounds: [Bounds; 3],
    all: Vec<Valuation>,
}

fn some_box(alloc: Global, random: &mut Pcg32) -> Result<Boxed, NoMemory> {
    let types = [some_type(random), some_type(random), some_type(random)];
    let bounds = [
        some_bounds(random, types[0]),
        some_bounds(random, types[1]),
        some_bounds(random, types[2]),
    ];
    let all = valuations_in(alloc, &bounds)?;
    Ok(Boxed { types, bounds, all })
}

// The machine that knows the range of each variable.
fn state_of(alloc: Global, bounds: &[Bounds; 3]) -> Result<State, NoMemory> {
    let mut state = State::top(alloc);
    for (x, bound) in bounds.iter().enumerate() {
        state.accept(&Message::Between(Var(x as u64), bound.range()))?;
    }
    Ok(state)
}

// Whether the range is the least that holds the numbers, where there are some.
fn count_least(tally: &mut Tally, numbers: &[i128], r: Range) {
    if let Some(least) = hull(numbers) {
        tally.count(r == least);
    }
}

// Whether all exact results are held of the expression, and all values of a variable that is given it.
fn try_value(
    alloc: Global,
    state: &State,
    tried: &Boxed,
    t: IntType,
    e: &Expr,
    told: &mut Told,
) -> Result<bool, NoMemory> {
    let mut results = Vec::new(alloc);
    let mut values = Vec::new(alloc);
    for valuation in &tried.all {
        if let Some(n) = exact(e, valuation) {
            results.push(n)?;
        }
        if let Some(n) = evaluate(e, valuation).number() {
            values.push(n)?;
        }
    }
    let expr = machine_expr(alloc, e)?;
    let (r, c) = state.check_range(&expr)?;
    count_least(&mut told.least, &results, r);
    let mut behind = state.copy()?;
    behind.set(VALUE, &expr)?;
    let (s, d) = behind.check_range(&MExpr::Read(VALUE, t))?;
    count_least(&mut told.values, &values, s);
    Ok(all_in(&results, r, c) && all_in(&values, s, d))
}

// Whether the machine holds each of these valuations, and whether each variable's range is the least.
fn holds_all(
    alloc: Global,
    state: &State,
    types: &Types,
    all: &[Valuation],
    told: &mut Told,
) -> Result<bool, NoMemory> {
    let mut kept = true;
    for (x, t) in types.iter().enumerate() {
        let numbers = numbers_of(alloc, all, x)?;
        let (r, c) = state.check_range(&MExpr::Read(Var(x as u64), *t))?;
        count_least(&mut told.cut, &numbers, r);
        kept = kept && all_in(&numbers, r, c);
    }
    Ok(kept)
}

// Whether the test keeps each valuation in which the comparison is true.
fn try_test(
    alloc: Global,
    mut state: State,
    tried: &Boxed,
    e: &Expr,
    told: &mut Told,
) -> Result<bool, NoMemory> {
    let mut passed = Vec::new(alloc);
    for valuation in &tried.all {
        if evaluate(e, valuation).number() == Some(1) {
            passed.push(*valuation)?;
        }
    }
    match state.test(&machine_expr(alloc, e)?, true)? {
        Live::Live => holds_all(alloc, &state, &tried.types, &passed, told),
        Live::Dead => Ok(passed.is_empty()),
    }
}

// The expression and the ranges of its variables.
fn lost_text(alloc: Global, tried: &Boxed, e: &Expr) -> Result<String, NoMemory> {
    format!(in alloc; "{e:?} over {:?}", tried.bounds)
}

// One expression, and one test.
fn try_once(alloc: Global, random: &mut Pcg32, told: &mut Told) -> Result<(), NoMemory> {
    let tried = some_box(alloc, random)?;
    let state = state_of(alloc, &tried.bounds)?;
    let t = some_type(random);
    let e = expression(alloc, random, &tried.types, t, 3)?;
    let held = try_value(alloc, &state, &tried, t, &e, told)?;
    told.held.count(held);
    if !held {
        told.lost.push(lost_text(alloc, &tried, &e)?)?;
    }
    let test = comparison(alloc, random, &tried.types)?;
    let kept = try_test(alloc, state, &tried, &test, told)?;
    told.kept.count(kept);
    if !kept {
        told.lost.push(lost_text(alloc, &tried, &test)?)?;
    }
    Ok(())
}

/// What so many trials come to.
pub fn tried(alloc: Global, trials: u64) -> Result<Told, NoMemory> {
    let mut random = Pcg32::new(2026, 11);
    let mut told = Told {
        held: Tally::new(),
        kept: Tally::new(),
        least: Tally::new(),
        values: Tally::new(),
        cut: Tally::new(),
        lost: Vec::new(alloc),
    };
    for _ in 0..trials {
        try_once(alloc, &mut random, &mut told)?;
    }
    Ok(told)
}
