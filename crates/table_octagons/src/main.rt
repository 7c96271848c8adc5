//! The table of octagons, as data: each line of its standard input is a row, and it prints a line with what the row comes to.
//! Its stored input and output, worked by hand, are rows that the gate compares.
//!
//! A row is steps over variables `a` to `z`, of which each may be anything at first. Expressions are written with each operator
//! behind its operands. A state in which nothing is left is `dead`.
//!
//! | Step | What it does |
//! |---|---|
//! | `know x -5 300` | the oracle knows that the variable is in the range, until it is set |
//! | `put x -5 300` | gives the variable a number of the range |
//! | `set x y 1 +` | assigns the expression |
//! | `assume x y <`, `refuse x y <` | keeps the valuations in which the expression is true, or false |
//! | `between x -5 300` | takes a message that the variable lies in the range |
//! | `bound - x + y 7` | takes a message that `-x + y` is at most 7 |
//! | `equal x y 1 +` | takes a message that the variable has the expression's value |
//! | `forget x` | says nothing of the variable any more |
//! | `fork`, `join` | keeps a copy of the state; joins it with that copy |
//! | `widen` | widens the copy by the state, by the steps of powers, and goes on with that |
//! | `settle x y < : x x 1 + : y y 2 +` | the state of a loop that makes a test and these assignments at each turn |
//! | `chain 24` | assigns to each of so many variables, from `b` on, the one before it and 1 |
//! | `show x y -` | prints the range of the expression |
//! | `covers`, `covered` | prints whether the state covers its copy, and whether that covers the state |
//! | `heard`, `facts` | prints the messages so far, and the facts that the state tells |
#![tactic(auto)]

mod exprs;
mod loops;
mod printed;
mod steps;
mod words;

use std::alloc::{AllocError, Global};
use std::io::{self, Read};

fn main(rt: HostRuntime) -> io::Result<()> {
    let mut text = Vec::new(rt.alloc());
    rt.stdin().read_to_end(&mut text)?;
    let Ok(text) = str::from_utf8(&text) else {
        return Ok(());
    };
    for row in text.lines() {
        println!(rt; "{}", line(rt.alloc(), row)?)?;
    }
    Ok(())
}

// What a row comes to.
fn line(alloc: Global, row: &str) -> Result<String, AllocError> {
    printed::text(alloc, steps::answer(alloc, row)?)
}
