//! The table of the front end, as data: it reads cases from its standard input, calls the public function that the first
//! word of each case names, and prints one line with what it answers. A case is that word on a line of its own, a text, and
//! a line `====`. Its stored input and output, worked by hand, are rows that the gate compares.
//!
//! | Word | The line |
//! |---|---|
//! | `lex` | the kinds and places of the tokens and the place of the end, as in `k1:1 w1:5 1:9`, or the refusal |
//! | `parse` | the tree in a short notation, as in `Int (fn f void){return (Plus a b);}`, or the refusal |
//! | `accepts` | `a file`, or the refusal |
//! | `layout` | what each line of the text is answered, joined by `; `: `struct char, int` adds a struct and tells its offsets, `size array 3 struct 0` its
//! size and alignment, and `promote`, `balance`, `wrap` and `literal` what these calls answer |
//! | `fronts` | the lengths of the fronts of the text that are files |
#![tactic(auto)]

mod case;
mod decls;
mod exprs;
mod layouts;
mod stmts;
mod text;
mod tokens;
mod trees;
mod types;

use case::Case;
use std::alloc::Global;
use std::io::{self, Read};
use text::Written;

fn main(rt: HostRuntime) -> io::Result<()> {
    let mut text = Vec::new(rt.alloc());
    rt.stdin().read_to_end(&mut text)?;
    tell_cases(&rt, text.as_slice())
}

fn tell_cases(rt: &HostRuntime, text: &[u8]) -> io::Result<()> {
    let mut case = Case::new(rt.alloc());
    for line in text.split(|byte| *byte == b'\n') {
        take_line(rt, &mut case, line)?;
    }
    Ok(())
}

// One more line: the end of the case, or a line of it.
fn take_line(rt: &HostRuntime, case: &mut Case, line: &[u8]) -> io::Result<()> {
    if line == b"====".as_slice() {
        tell(rt, case)?;
        *case = Case::new(rt.alloc());
    } else {
        case.push(rt.alloc(), line)?;
    }
    Ok(())
}

fn tell(rt: &HostRuntime, case: &Case) -> io::Result<()> {
    let mut told = String::new(rt.alloc());
    answer(rt.alloc(), case, &mut told)?;
    println!(rt; "{told}")
}

// Writes what is printed of a case.
fn answer(alloc: Global, case: &Case, out: &mut String) -> Written {
    let text = case.text();
    match case.word() {
        b"lex" => tokens::line(alloc, text, out),
        b"parse" => trees::line(alloc, text, out),
        b"accepts" => trees::verdict(alloc, text, out),
        b"layout" => layout_lines(alloc, text, out),
        b"fronts" => trees::fronts(alloc, text, out),
        _ => out.push_str("no such word"),
    }
}

fn layout_lines(alloc: Global, text: &[u8], out: &mut String) -> Written {
    match str::from_utf8(text) {
        Ok(lines) => layouts::line(alloc, lines, out),
        Err(_) => out.push_str("no text"),
    }
}
