//! The table of numeric domains, as data: each line of its standard input is a row, and it prints a line with what the row
//! comes to. Its stored input and output, worked by hand, are rows that the gate compares.
//!
//! An end is a number, `-inf` or `inf`; a range is `-7..7`, a class `3mod4`; a modulus of 0 leaves one number.
//!
//! | Row | The line |
//! |---|---|
//! | `ends 2 inf` | the sum of two ends as a lower and as an upper bound, and their product likewise |
//! | `end -3` | the opposite end as a lower and as an upper bound, and the half |
//! | `order 2 inf` | how two ends stand, the lesser and the greater |
//! | `bounds 2..3 -1..4` | the sums, differences and products of two intervals |
//! | `quotients 2..3 -1..4`, `cut 2..9 5 12`, `opposite 2..9`, `point 5` | an interval that is made so, or `none` |
//! | `hull 2..3 5..5`, `holds 6..5`, `unknowing` | the range of both; whether it holds a number; what an oracle says that knows nothing |
//! | `step 5`, `ramp 5` | the least power step that is not below; the steps up and down of their ramp |
//! | `interval 2..3 -1..4 *` | a value of a domain |
//! | `map count 1=10,2=20` | what maps from variables to numbers are asked |
//! | `env put x 0 7 ; show x 1 +` | what is known of variables at the end of steps over `Env` |
//! | `machine put x 0 7; show int x 1 +` | what is known of C's integers at the end of steps |
//!
//! Of a domain, `interval`, `class` or `pair`, the words are read one by one, operands before operators, as on a stack:
//! `7`, `-7..7`, `3mod4`, `-7..7&3mod4` or `top` for values, operators as `+`, `<<`, `neg` and `!`, and `meet`, `join`,
//! `covers`, `widen` and `settle`, by the steps of powers; the last widens its first operand until the sum of it and the second
//! is covered. A value is printed as its range and its class, as `-7..7 0mod1`.
//!
//! Behind `env` and `machine` stand steps over variables `a` to `z`, of which each may be anything at first. Expressions are
//! written with each operator behind its operands; behind `machine` each node has the type that was named last. A state in
//! which nothing is left is `dead`.
//!
//! | Step | What it does |
//! |---|---|
//! | `put x -5 300` | gives the variable a number of the range |
//! | `set x y 1 +`, `set x int y 1 +` | assigns the expression |
//! | `assume x y <`, `refuse int x y <` | keeps the valuations in which the expression is true, or false |
//! | `fork`, `join` | keeps a copy of the state; joins it with that copy |
//! | `show x 7 &`, `show uchar x 7 + schar to` | prints the range and the class of the expression, of its exact result behind `machine` |
//!
//! | Step behind `env` alone | What it does |
//! |---|---|
//! | `accept x -5 300` | takes a message that the variable lies in the range |
//! | `forget x` | says nothing of the variable any more |
//! | `settle x x 1 +` | the state of a loop that assigns the expression at each turn, widened by the steps of powers |
//! | `covers`, `covered` | prints whether the state covers its copy, and whether that covers the state |
//! | `heard`, `facts` | prints how many messages there were, and how many facts the state tells |
//! | `same x` | prints whether the state knows an expression that the variable equals |
//! | `reads x x 1 +`, `alike x 1 + is x 2 +` | prints whether the expression reads the variable, and whether two are one; without `is` the second is a copy |
//!
//! | Step behind `machine` alone | What it does |
//! |---|---|
//! | `any x uchar` | gives the variable any number of the type |
#![tactic(auto)]

mod bounds;
mod domains;
mod env;
mod extended;
mod machine;
mod maps;
mod ramp_steps;
mod rows;
mod words;

use domains::shown;
use intervals::Interval;
use residues::{Class, Pair};
use std::alloc::{AllocError, Global};
use std::io::{self, Read};

fn main(rt: HostRuntime) -> io::Result<()> {
    let mut text = Vec::new(rt.alloc());
    rt.stdin().read_to_end(&mut text)?;
    let Ok(text) = str::from_utf8(&text) else {
        return Ok(());
    };
    for row in text.lines() {
        println!(rt; "{}", line(rt.alloc(), row)?)?;
    }
    Ok(())
}

// What a row comes to.
fn line(alloc: Global, row: &str) -> Result<String, AllocError> {
    if let Some(steps) = row.strip_prefix("env ") {
        return env::line(alloc, steps);
    }
    match row.strip_prefix("machine ") {
        Some(steps) => machine::line(alloc, steps),
        None => of_words(alloc, row),
    }
}

// The line of a row that is read word by word.
fn of_words(alloc: Global, row: &str) -> Result<String, AllocError> {
    let mut words = Vec::new(alloc);
    for word in row.split_whitespace() {
        words.push(word)?;
    }
    match answer(alloc, words.as_slice())? {
        Some(line) => Ok(line),
        None => String::from_str(alloc, "no such row"),
    }
}

fn answer(alloc: Global, words: &[&str]) -> Result<Option<String>, AllocError> {
    let [word, rest @ ..] = words else {
        return Ok(None);
    };
    match *word {
        "interval" => shown::<Interval>(alloc, rest),
        "class" => shown::<Class>(alloc, rest),
        "pair" => shown::<Pair<Interval, Class>>(alloc, rest),
        "map" => maps::line(alloc, rest),
        "ends" | "end" | "order" => extended::line(alloc, words),
        "step" | "ramp" => ramp_steps::line(alloc, words),
        _ => bounds::line(alloc, words),
    }
}
