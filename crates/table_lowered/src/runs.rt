// The run of a lowered program on its inputs.

use crate::files::{Fault, Written, lowered, refusal};
use block_mem::Value;
use csharp_exec::{Failure, Limits, Outcome, Way, run};
use csharp_state::Unanswered;
use std::alloc::{AllocError, Global};

/// How far a run may go: the machine makes at least so many steps where a run is still going then.
const LIMITS: Limits = Limits {
    fuel: 100_000,
    turns: None,
};

/// What the run of a row, inputs and a file, comes to.
pub fn line(alloc: Global, row: &str, out: &mut String) -> Written {
    match outcome_of(alloc, row) {
        Ok(outcome) => told(&outcome, out),
        Err(fault) => refusal(fault, out),
    }
}

fn outcome_of(alloc: Global, row: &str) -> Result<Outcome, Fault> {
    let Some((inputs, text)) = row.split_once(": ") else {
        return Err(Fault::Refused);
    };
    let inputs = numbers(alloc, inputs)?;
    let program = lowered(alloc, text)?;
    match run(alloc, &program, LIMITS, inputs.as_slice()) {
        Ok((outcome, _state)) => Ok(outcome),
        Err(Unanswered::Unheld) => Err(Fault::Unheld),
        Err(Unanswered::NoMemory) => Err(Fault::NoMemory),
    }
}

// The inputs.
fn numbers(alloc: Global, words: &str) -> Result<Vec<i128>, Fault> {
    let mut numbers = Vec::new(alloc);
    for word in words.split_whitespace() {
        let Ok(number) = word.parse::<i64>() else {
            return Err(Fault::Refused);
        };
        numbers.push(i128::from(number))?;
    }
    Ok(numbers)
}

fn told(outcome: &Outcome, out: &mut String) -> Written {
    match outcome {
        Outcome::Leaves(Way::Return(Some(Value::Int(_, n)))) => write!(out, "Ended({n})"),
        Outcome::Fails(failure) => wrong(failure, out),
        Outcome::Waiting => out.push_str("Waiting"),
        Outcome::Stopped => out.push_str("Stopped"),
        Outcome::NoFuel => out.push_str("StillGoing"),
        _ => out.push_str("None"),
    }
}

// What is wrong and where, as `Wrong 1:23 DivideByZero [1:54]`.
fn wrong(failure: &Failure, out: &mut String) -> Written {
    let line = failure.place.line;
    let col = failure.place.col;
    let kind = failure.kind;
    write!(out, "Wrong {line}:{col} {kind:?} [")?;
    let mut between = "";
    for call in failure.chain.as_slice() {
        let line = call.line;
        let col = call.col;
        write!(out, "{between}{line}:{col}")?;
        between = ",";
    }
    out.push(']')
}
