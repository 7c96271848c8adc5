//! Assigns or tests over and over, to be timed: with `linked` a state of 1,000 variables, each with a range and a class, and 64
//! equalities beside them, and else the same without equalities. With `tests` a variable of which all equalities speak is tested.
//! A number says how often.
#![tactic(auto)]

use channels::Linked;
use env_lift::Env;
use equalities::Equalities;
use ext_int::Ext;
use intervals::Interval;
use num_api::{Messages, NExpr, NOp, NumDomain, Range, Unknowing, Var};
use residues::{Class, Pair};
use std::alloc::{AllocError as NoMemory, Global};
use std::{env, io};

/// Variables of the state.
const VARIABLES: u64 = 1000;

/// Those of them that are assigned in turn; the others are read.
const ASSIGNED: u64 = 500;

/// How often, where no number is given.
const TURNS: u64 = 1000;

type Ranges = Env<Pair<Interval, Class>>;

/// What is done over and over.
#[derive(Clone, Copy)]
struct Work {
    tests: bool,
    turns: u64,
}

fn main(rt: HostRuntime) -> io::Result<()> {
    let mut linked = false;
    let mut work = Work {
        tests: false,
        turns: TURNS,
    };
    for word in env::args(&rt)? {
        match word.as_str() {
            "linked" => linked = true,
            "tests" => work.tests = true,
            word => work.turns = word.parse::<u64>().unwrap_or(work.turns),
        }
    }
    let done = if linked {
        done::<Linked<Ranges, Equalities>>(rt.alloc(), work)?
    } else {
        done::<Ranges>(rt.alloc(), work)?
    };
    println!(rt; "{done} times")
}

// A state in which each variable has a range.
fn state<D: NumDomain>(alloc: Global) -> Result<D, NoMemory> {
    let mut state = D::top(alloc);
    let range = Range {
        lo: Ext::Fin(0),
        hi: Ext::Fin(255),
    };
    for x in 0..VARIABLES {
        state.havoc(Var(x), range)?;
    }
    Ok(state)
}

// The sum of a variable and 1.
fn next(alloc: Global, y: Var) -> Result<NExpr, NoMemory> {
    let y = Box::new(alloc, NExpr::Read(y))?;
    let one = Box::new(alloc, NExpr::Const(1))?;
    Ok(NExpr::Binary(NOp::Add, y, one))
}

// How often it was done.
fn done<D: NumDomain>(alloc: Global, work: Work) -> Result<u64, NoMemory> {
    let mut state = state::<D>(alloc)?;
    if work.tests {
        tested(alloc, &mut state, work.turns)
    } else {
        assigned(alloc, &mut state, work.turns)
    }
}

// Assigns to one variable after another the next of a variable of its own.
fn assigned<D: NumDomain>(alloc: Global, state: &mut D, turns: u64) -> Result<u64, NoMemory> {
    let mut done = 0u64;
    for turn in 0..turns {
        let x = turn % ASSIGNED;
        assign(alloc, state, x, ASSIGNED + x)?;
        done = done.saturating_add(1);
    }
    Ok(done)
}

fn assign<D: NumDomain>(alloc: Global, state: &mut D, x: u64, y: u64) -> Result<(), NoMemory> {
    let e = next(alloc, Var(y))?;
    let mut out = Messages::new(alloc);
    state.assign(Var(x), &e, &Unknowing, &mut out)
}

// Tests a variable whose next 64 others are.
fn tested<D: NumDomain>(alloc: Global, state: &mut D, turns: u64) -> Result<u64, NoMemory> {
    for x in 0..64u64 {
        assign(alloc, state, x, ASSIGNED)?;
    }
    let read = Box::new(alloc, NExpr::Read(Var(ASSIGNED)))?;
    let end = Box::new(alloc, NExpr::Const(200))?;
    let test = NExpr::Binary(NOp::Lt, read, end);
    let mut done = 0u64;
    for _ in 0..turns {
        let mut out = Messages::new(alloc);
        let _live = state.assume(&test, true, &Unknowing, &mut out)?;
        done = done.saturating_add(1);
    }
    Ok(done)
}
