//! Trials of numbers: of `Env` against all valuations of a small box, and of C's integer expressions over a numeric domain
//! beside what `c_values` gives for them; and runs to be timed.
//!
//! With no word it first makes 2,000 random expressions over three variables of small ranges, from a fixed seed, and tries
//! the valuations of the box one by one. It prints how many answers of `Env` hold the value of each valuation, and how many
//! tests keep each valuation that passes.
//!
//! Then each operator of C at each integer type is tried on points at the limits of the type: seven numbers for an operand,
//! and for an amount of a shift 0, 1 and the width less one. Of a pair the two are the same where a variable that is given
//! the value has exactly that number, and the range of the exact result is that point; where a check of C fails, the range
//! is the point that the check looks at.
//!
//! Last 5,000 random typed expressions are tried as those of `Env` are: whether the exact results and the values are held,
//! and whether a test keeps each valuation that passes. A pair that is not the same and a typed expression of which
//! something is lost are printed, and the status is then 1. How many ranges are the least that hold what they must it tells
//! on standard error.
//!
//! With a number it makes 1,000 assignments, tests and joins of `Env` over so many variables, and with `join` before the
//! number 1,000 joins of two states of so many variables.
#![tactic(auto)]

mod boxes;
mod env;
mod machine;
mod random;
mod tally;

use machine::{KINDS, Walked, walk};
use std::env::args;
use std::io;
use std::process::ExitCode;

/// How many expressions over `Env` are tried.
const EXPRESSIONS: u64 = 2000;

/// How many typed expressions are tried.
const TYPED_EXPRESSIONS: u64 = 5000;

// Makes the calls that are to be timed.
fn tell_run(rt: &HostRuntime, joins: bool, count: u64) -> io::Result<ExitCode> {
    let kept = if joins {
        env::join(rt.alloc(), count)
    } else {
        env::run(rt.alloc(), count)
    };
    match kept {
        Ok(kept) => println!(rt; "{kept} variables")?,
        Err(_) => println!(rt; "out of memory")?,
    }
    Ok(ExitCode::SUCCESS)
}

fn tell_env(rt: &HostRuntime) -> io::Result<()> {
    let told: env::Told = env::tried(rt.alloc(), EXPRESSIONS)?;
    println!(rt; "values: {} held", told.held)?;
    println!(rt; "tests: {} kept", told.kept)?;
    eprintln!(rt;
        "least ranges: {} of values, {} of variables behind tests",
        told.least, told.cut
    )
}

// Tells the texts, and whether there were none.
fn tell_texts(rt: &HostRuntime, what: &str, texts: &[String]) -> io::Result<bool> {
    for text in texts {
        println!(rt; "{what}: {text}")?;
    }
    Ok(texts.is_empty())
}

fn tell_points(rt: &HostRuntime) -> io::Result<bool> {
    let mut good = true;
    for kind in KINDS {
        let Walked { tally, others } = walk(rt.alloc(), kind)?;
        println!(rt; "{kind}: {tally} the same")?;
        good = tell_texts(rt, "not the same", &others)? && good;
    }
    Ok(good)
}

fn tell_trials(rt: &HostRuntime) -> io::Result<bool> {
    let told: machine::Told = machine::tried(rt.alloc(), TYPED_EXPRESSIONS)?;
    println!(rt; "expressions: {} held", told.held)?;
    println!(rt; "tests: {} kept", told.kept)?;
    eprintln!(rt;
        "least ranges: {} of exact results, {} of values, {} of variables behind tests",
        told.least, told.values, told.cut
    )?;
    tell_texts(rt, "lost", &told.lost)
}

// Tells what all trials come to. It is a success where the machine gives what C gives and no typed expression is lost.
fn tell_all(rt: &HostRuntime) -> io::Result<ExitCode> {
    tell_env(rt)?;
    let same = tell_points(rt)?;
    let held = tell_trials(rt)?;
    Ok(if same && held {
        ExitCode::SUCCESS
    } else {
        ExitCode::FAILURE
    })
}

fn main(rt: HostRuntime) -> io::Result<ExitCode> {
    let mut joins = false;
    for word in args(&rt)?.skip(1) {
        joins = joins || word.as_str() == "join";
        if let Ok(count) = word.parse::<u64>() {
            return tell_run(&rt, joins, count);
        }
    }
    tell_all(&rt)
}
