// Steps over a machine.

use super::exprs::{expression, int_type};
use crate::rows::{Step, Told, went};
use crate::words::{range_of, variable};
use env_lift::Env;
use intervals::Interval;
use machine_nums::Machine;
use num_api::Message;
use residues::{Class, Pair};
use std::alloc::{AllocError as NoMemory, Global};

type State = Machine<Env<Pair<Interval, Class>>>;

// Gives the variable any number of the type.
fn any(state: &mut State, words: &[&str]) -> Result<Step, NoMemory> {
    let [x, t] = words else {
        return Ok(Step::Last(Told::NoRow));
    };
    let (Some(x), Some(t)) = (variable(x), int_type(t)) else {
        return Ok(Step::Last(Told::NoRow));
    };
    state.havoc(x, t)?;
    Ok(Step::Next)
}

// Gives the variable a number of the range.
fn put(state: &mut State, words: &[&str]) -> Result<Step, NoMemory> {
    let Some((x, range)) = range_of(words) else {
        return Ok(Step::Last(Told::NoRow));
    };
    state.forget(x)?;
    Ok(went(state.accept(&Message::Between(x, range))?))
}

fn set(alloc: Global, state: &mut State, words: &[&str]) -> Result<Step, NoMemory> {
    let [x, rest @ ..] = words else {
        return Ok(Step::Last(Told::NoRow));
    };
    let (Some(x), Some(e)) = (variable(x), expression(alloc, rest)?) else {
        return Ok(Step::Last(Told::NoRow));
    };
    state.set(x, &e)?;
    Ok(Step::Next)
}

fn test(alloc: Global, state: &mut State, words: &[&str], truth: bool) -> Result<Step, NoMemory> {
    let Some(e) = expression(alloc, words)? else {
        return Ok(Step::Last(Told::NoRow));
    };
    Ok(went(state.test(&e, truth)?))
}

fn show(alloc: Global, state: &State, words: &[&str]) -> Result<Step, NoMemory> {
    Ok(Step::Last(match expression(alloc, words)? {
        Some(e) => {
            let (range, residue) = state.check_range(&e)?;
            Told::Shown(range, residue)
        }
        None => Told::NoRow,
    }))
}

// One step; `fork` keeps a copy of the machine for `join`.
fn take_step(
    alloc: Global,
    state: &mut State,
    kept: &mut State,
    words: &[&str],
) -> Result<Step, NoMemory> {
    match words {
        ["any", rest @ ..] => any(state, rest),
        ["put", rest @ ..] => put(state, rest),
        ["set", rest @ ..] => set(alloc, state, rest),
        ["assume", rest @ ..] => test(alloc, state, rest, true),
        ["refuse", rest @ ..] => test(alloc, state, rest, false),
        ["show", rest @ ..] => show(alloc, state, rest),
        ["fork"] => {
            *kept = state.copy()?;
            Ok(Step::Next)
        }
        ["join"] => {
            state.join(kept)?;
            Ok(Step::Next)
        }
        _ => Ok(Step::Last(Told::NoRow)),
    }
}

/// What is known at the end of a row.
pub fn answer(alloc: Global, row: &str) -> Result<Told, NoMemory> {
    let mut state = State::top(alloc);
    let mut kept = State::top(alloc);
    for part in row.split(';') {
        let mut words = Vec::new(alloc);
        for word in part.split_whitespace() {
            words.push(word)?;
        }
        match take_step(alloc, &mut state, &mut kept, &words)? {
            Step::Next => {}
            Step::Last(told) => return Ok(told),
        }
    }
    Ok(Told::NoRow)
}
