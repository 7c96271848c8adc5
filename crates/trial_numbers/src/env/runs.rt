// Many calls over many variables.

use super::State;
use ext_int::Ext;
use num_api::{Messages, NExpr, NOp, NumDomain, Range, Unknowing, Var};
use std::alloc::{AllocError as NoMemory, Global};

/// How often each call is made.
const TURNS: u64 = 1000;

fn two(alloc: Global, op: NOp, x: u64, n: i128) -> Result<NExpr, NoMemory> {
    let x = Box::new(alloc, NExpr::Read(Var(x)))?;
    let n = Box::new(alloc, NExpr::Const(n))?;
    Ok(NExpr::Binary(op, x, n))
}

fn filled(alloc: Global, count: u64) -> Result<State, NoMemory> {
    let mut state = State::top(alloc);
    for x in 0..count {
        let range = Range {
            lo: Ext::Fin(0),
            hi: Ext::Fin(1000),
        };
        if range.holds_some() {
            state.havoc(Var(x), range)?;
        }
    }
    Ok(state)
}

/// Assigns, tests and joins over so many variables.
pub fn run(alloc: Global, count: u64) -> Result<u64, NoMemory> {
    let mut state = filled(alloc, count)?;
    let other = state.copy()?;
    let mut out = Messages::new(alloc);
    for turn in 0..TURNS {
        let x = turn.checked_rem(count).unwrap_or(0);
        let next = two(alloc, NOp::Add, x, 1)?;
        state.assign(Var(x), &next, &Unknowing, &mut out)?;
        let test = two(alloc, NOp::Lt, x, 900)?;
        state.assume(&test, true, &Unknowing, &mut out)?;
        state.join(&other)?;
    }
    Ok(count)
}

/// Joins two states of so many variables a thousand times.
pub fn join(alloc: Global, count: u64) -> Result<u64, NoMemory> {
    let mut state = filled(alloc, count)?;
    let other = filled(alloc, count)?;
    for _ in 0..TURNS {
        state.join(&other)?;
    }
    Ok(count)
}
