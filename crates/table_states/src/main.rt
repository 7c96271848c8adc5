//! The table of states, as data: what a state of the language that is analysed holds, and what is asked of it. Each line of
//! its standard input is a row, and it prints a line with what is answered. Its stored input and output, worked by hand, are
//! rows that the gate compares.
//!
//! The first word of a row says of what kind it is, and the head of a module has the table of the rows of that kind.
//!
//! | First word | The rest of the row | The line | Module |
//! |---|---|---|---|
//! | `decide` | the objects of a program, a check, and what is shown of it | what `decide` answers, and whether an operand is shown | `decisions` |
//! | `value` | an operator on values, a check of spots, or an access to a memory of four objects | its value, or what is wrong, with its operand | `values` |
//! | `run` | a small program of the language that is analysed | the outcome of its run | `runs` |
#![tactic(auto)]

mod common;
mod decisions;
mod runs;
mod values;

use common::no_such_row;
use std::alloc::{AllocError, Global};
use std::io::{self, Read};

fn main(rt: HostRuntime) -> io::Result<()> {
    let alloc = rt.alloc();
    let mut text = Vec::new(alloc);
    rt.stdin().read_to_end(&mut text)?;
    let Ok(text) = str::from_utf8(&text) else {
        return Ok(());
    };
    for row in text.lines() {
        println!(rt; "{}", line(alloc, row)?)?;
    }
    Ok(())
}

// What is answered of a row.
fn line(alloc: Global, row: &str) -> Result<String, AllocError> {
    let (word, rest) = row.split_once(' ').unwrap_or((row, ""));
    match word {
        "decide" => decisions::line(alloc, rest),
        "value" => values::line(alloc, rest),
        "run" => runs::line(alloc, rest),
        _ => no_such_row(alloc),
    }
}
