//! The table of relations between variables, as data: each line of its standard input is a row, and it prints a line with what
//! the row comes to. Its stored input and output, worked by hand, are rows that the gate compares.
//!
//! A row is steps over a range and a class for each variable, linked with equalities, `Linked<Env<Pair<Interval, Class>>,
//! Equalities>`; the steps are parted by `;`, and each variable may be anything at first. A variable is a letter, of which `a`
//! is the first of all, or `v` and its number. In an expression each operator stands behind its operands: `y 1 +` is y + 1.
//!
//! | Step | What it does |
//! |---|---|
//! | `put x -5 300` | gives the variable any number of the range |
//! | `set x y 1 +` | assigns the expression |
//! | `assume x y <`, `refuse x y <` | keeps the valuations in which the expression is true, or false |
//! | `accept x -5 300`, `learn x y 1 +` | takes a message that the variable lies in the range, or has the expression's value |
//! | `forget x` | says nothing of the variable any more |
//! | `fork`, `join`, `widen` | keeps a copy of the state; joins the state with the copy; widens the copy by the state, by the steps of powers, and goes on with that |
//!
//! A row ends with one of these, or where nothing is left, which is `dead`.
//!
//! | Last step | What is printed |
//! |---|---|
//! | `range x y -` | the range of the expression, as `-inf..7` |
//! | `class x 4 *` | its class, as `3mod4`; a modulus of 0 leaves one number |
//! | `same x y 1 +`, `same x` | whether the variable is known to equal this very expression, or any |
//! | `covers`, `covered` | whether the state covers its copy, and whether that covers the state |
//! | `facts` | how many facts the state tells: a range and a class for each variable of which something is kept, and each equality |
#![tactic(auto)]

mod exprs;
mod steps;
mod words;

use std::alloc::{AllocError, Global};
use std::io::{self, Read};
use steps::{Told, answer};
use words::{Between, OfClass};

fn main(rt: HostRuntime) -> io::Result<()> {
    let mut text = Vec::new(rt.alloc());
    rt.stdin().read_to_end(&mut text)?;
    let Ok(text) = str::from_utf8(&text) else {
        return Ok(());
    };
    for row in text.lines() {
        println!(rt; "{}", line(rt.alloc(), row)?)?;
    }
    Ok(())
}

fn line(alloc: Global, row: &str) -> Result<String, AllocError> {
    match answer(alloc, row)? {
        Told::Range(range) => format!(in alloc; "{}", Between(range)),
        Told::Class(class) => format!(in alloc; "{}", OfClass(class)),
        Told::Count(count) => format!(in alloc; "{count}"),
        Told::Truth(true) => String::from_str(alloc, "yes"),
        Told::Truth(false) => String::from_str(alloc, "no"),
        Told::Dead => String::from_str(alloc, "dead"),
        Told::NoRow => String::from_str(alloc, "no such row"),
    }
}
