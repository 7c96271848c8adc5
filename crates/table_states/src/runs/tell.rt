// The line that is printed.
#![tactic(auto)]

use super::rows::Fault;
use crate::common::no_such_row;
use block_mem::Value;
use csharp_exec::{Failure, Outcome, Way};
use csharp_state::{State, Unanswered};
use std::alloc::{AllocError, Global};

/// The line of a row's outcome.
pub fn line(alloc: Global, answer: Result<(Outcome, State), Fault>) -> Result<String, AllocError> {
    match answer {
        Ok((outcome, state)) => told(alloc, &outcome, &state),
        Err(Fault::NoRow) => no_such_row(alloc),
        Err(Fault::Unanswered(Unanswered::NoMemory)) => format!(in alloc; "no memory"),
        Err(Fault::Unanswered(Unanswered::Unheld)) => format!(in alloc; "given up"),
    }
}

fn told(alloc: Global, outcome: &Outcome, state: &State) -> Result<String, AllocError> {
    match outcome {
        Outcome::Normal => normal(alloc, state),
        Outcome::Leaves(Way::Exit(level)) => format!(in alloc; "leaves by exit {level}"),
        Outcome::Leaves(Way::Goto(label)) => format!(in alloc; "leaves by goto {label}"),
        Outcome::Leaves(Way::Return(None)) => format!(in alloc; "returns"),
        Outcome::Leaves(Way::Return(Some(v))) => format!(in alloc; "returns {}", value(alloc, *v)?),
        Outcome::Fails(failure) => failed(alloc, failure),
        Outcome::Waiting => format!(in alloc; "waiting"),
        Outcome::Stopped => format!(in alloc; "stopped"),
        Outcome::Stuck => format!(in alloc; "stuck"),
        Outcome::Clash => format!(in alloc; "clash"),
        Outcome::NoFuel => format!(in alloc; "no fuel"),
        Outcome::Over => format!(in alloc; "over"),
    }
}

fn normal(alloc: Global, state: &State) -> Result<String, AllocError> {
    let mut line = format!(in alloc; "normal")?;
    for temp in 0..4 {
        if let Some(v) = state.temp(temp) {
            line = format!(in alloc; "{line} {}", value(alloc, v)?)?;
        }
    }
    Ok(line)
}

fn value(alloc: Global, v: Value) -> Result<String, AllocError> {
    match v {
        Value::Int(_, n) => format!(in alloc; "{n}"),
        Value::Ptr(at) => format!(in alloc; "block {} + {}", at.block, at.offset),
        Value::Null => format!(in alloc; "null"),
    }
}

fn failed(alloc: Global, failure: &Failure) -> Result<String, AllocError> {
    let mut line = format!(in alloc; "fails")?;
    for pos in failure.chain.as_slice() {
        line = format!(in alloc; "{line} {} >", pos.col)?;
    }
    format!(in alloc;
        "{line} {}: {:?} {:?}",
        failure.place.col, failure.kind, failure.operand
    )
}
