//! Changes octagons of as many variables as there may be, over and over, to be timed: `assign` for assignments of
//! `y + 1`, `test` for tests of two variables, `copy` for copies that nothing changes, `join` for joins of two
//! states, and none of them for what comes before these.
#![tactic(auto)]

ghost use Rattle.std.specs.Prelude.{◌<◌};

use num_api::{Live, Messages, NExpr, NOp, NumDomain, Unknowing, Var};
use octagons::Octagon;
use std::alloc::{AllocError as NoMemory, Global};
use std::{env, io};

const TURNS: u64 = 1000;

// As many variables as a pack has.
const VARIABLES: u64 = 24;

fn main(rt: HostRuntime) -> io::Result<()> {
    let alloc = rt.alloc();
    let mut state = filled(alloc)?;
    let mut done = 0_u64;
    for word in env::args(&rt)? {
        let what = match word.as_str() {
            "assign" => Some(Work::Assign),
            "test" => Some(Work::Test),
            "copy" => Some(Work::Copy),
            "join" => Some(Work::Join),
            _ => None,
        };
        if let Some(what) = what {
            done = done.saturating_add(worked(alloc, &mut state, what)?);
        }
    }
    println!(rt; "{done} done")
}

/// What is timed.
#[derive(Clone, Copy)]
enum Work {
    Assign,
    Test,
    Copy,
    Join,
}

// The variable with a number more.
fn one_more(alloc: Global, y: Var) -> Result<NExpr, NoMemory> {
    let y = Box::new(alloc, NExpr::Read(y))?;
    let one = Box::new(alloc, NExpr::Const(1))?;
    Ok(NExpr::Binary(NOp::Add, y, one))
}

// Whether a variable is below the other one and 24.
fn below(alloc: Global, x: Var, y: Var) -> Result<NExpr, NoMemory> {
    let x = Box::new(alloc, NExpr::Read(x))?;
    let y = Box::new(alloc, NExpr::Read(y))?;
    let most = Box::new(alloc, NExpr::Const(24))?;
    let sum = Box::new(alloc, NExpr::Binary(NOp::Add, y, most))?;
    Ok(NExpr::Binary(NOp::Lt, x, sum))
}

// Each variable is the one before and 1.
fn filled(alloc: Global) -> Result<Octagon, NoMemory> {
    let mut state = Octagon::top(alloc);
    let mut out = Messages::new(alloc);
    for k in 1..VARIABLES {
        state.assign(Var(k), &one_more(alloc, Var(k - 1))?, &Unknowing, &mut out)?;
    }
    Ok(state)
}

// One turn of the work.
fn turn(alloc: Global, state: &mut Octagon, what: Work, k: u64) -> Result<Live, NoMemory>
    requires { k < 1000 }
{
    let (x, y) = (Var(k * 5 % VARIABLES), Var((k * 7 + 1) % VARIABLES));
    let mut out = Messages::new(alloc);
    match what {
        Work::Assign => {
            state.assign(x, &one_more(alloc, y)?, &Unknowing, &mut out)?;
            Ok(Live::Live)
        }
        Work::Test => state.assume(&below(alloc, x, y)?, true, &Unknowing, &mut out),
        Work::Copy => {
            let _copy = state.copy()?;
            Ok(Live::Live)
        }
        Work::Join => {
            let other = state.copy()?;
            state.join(&other)?;
            Ok(Live::Live)
        }
    }
}

// How many turns left a state in which something can be so.
fn worked(alloc: Global, state: &mut Octagon, what: Work) -> Result<u64, NoMemory> {
    let mut alive = 0_u64;
    for k in 0..TURNS {
        if let Live::Live = turn(alloc, state, what, k)? {
            alive = alive.saturating_add(1);
        }
    }
    Ok(alive)
}
