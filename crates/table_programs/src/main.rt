//! The table of programs, as data: each line of its standard input is a row, and it prints a line with what the row comes to.
//! Its stored input and output, worked by hand, are rows that the gate compares.
//!
//! | Row | The line |
//! |---|---|
//! | `file`, and a file of C | the line that it is refused with, or `typed` and the names and sizes of its objects, by their numbers |
//! | `admit`, and a file | `admitted`, or the line that typing or a rule refuses it with |
//! | `plan`, and a file | the functions of its plan in their order, and main |
//! | `alarms`, and a file | its alarms (below), or `no alarm`, or the line of its refusal |
//! | `walked 10 2: `, and a file | the same, with so many turns of a loop one by one, and at most so many steps of narrowing |
//! | `run 7 -3: `, and a file | what its run on these inputs comes to |
//! | `timed 7 -3: `, and a file | the same, with many more steps |
//! | `whole room=9: `, and a file | the exit status of `verac analyze a.c`, and what it wrote (below) |
//! | `words analyze --state a.c` | what the words behind `verac` ask for, or `usage` |
//! | `type @c u-` | the type of what the words come to (below) |
//! | `ask size S` | what is asked of one type or two (below) |
//! | `text`, and a text of C | what it says at last (below) |
//!
//! In a file `¶` stands for the end of a line.
//!
//! | The line of a run | The run |
//! |---|---|
//! | `Ended(3)` | main gave 3 |
//! | `Waiting` | an input is asked for, and none is left |
//! | `Stopped` | an assumption does not hold |
//! | `Wrong 1:23 DivideByZero [1:54]` | something is wrong at this line and column, in the calls at these places, the outermost first |
//! | `StillGoing` | has not come to an end after 100,000 steps, or a billion where it is timed |
//! | `Refused` | there is none: the file is refused, or the inputs are no numbers |
//!
//! An alarm is its kind, its line and column and its example in the words of the report, as `Bounds 1:33 a@1:20+16`; behind it
//! stand the places of the calls that lead there, the outermost first, as `DivideByZero 1:23 0 > 1:54`. Several alarms are told
//! with `; ` between them.
//!
//! The files and the sink of a whole run are in memory. `room` is how many bytes the sink takes, where that is not 1,000;
//! `read` and `write` are the call of the files and of the sink that fails, counted from 1; `name` is the name of the file, for
//! which the command asks, and `words` are the words before it, with commas between them; `spaces` is how many spaces stand behind its text; `runs` is how many runs are made over the same
//! files and sink, each of which has its status.
//!
//! The rows of typing are operators on types in a short notation. The words of a row are read one by one, operands before
//! operators, as on a stack. A type is a word that is read from the right: `pki` is a pointer to a const int.
//!
//! | Letter | Type |
//! |---|---|
//! | `c`, `b`, `C`, `s`, `H`, `i`, `u` | char, signed char, unsigned char, short, unsigned short, int, unsigned |
//! | `l`, `L`, `q`, `Q` | long, unsigned long, long long, unsigned long long |
//! | `v`, `S`, `T` | void, `struct s { int m; char a[3]; }`, `struct t { int m; }` |
//! | `k`, `p`, `a` | const, a pointer to, an array of three |
//!
//! | Word | What it does |
//! |---|---|
//! | `@pki` | a place of this type |
//! | `7` | a constant of type int |
//! | `val` | the value of the operand |
//! | `u-`, `u&`, `u*` .. | unary operators, behind a `u` |
//! | `+`, `<<`, `==`, `&&`, `,` .. | operators on two values |
//! | `[]`, `?:` | an index; a test and two parts |
//! | `=`, `+=`, `<<=` .. | stores |
//! | `++x`, `x++`, `--x`, `x--` | steps |
//! | `.m`, `->m` | the member of this name |
//! | `(pv)`, `sizeof` | a cast to this type; the size of the operand's type |
//! | `assume/1`, `any/0` | `__assume` and `__any_int` of so many arguments |
//! | `f(i,pc)v/2` | a call, with so many arguments, of a function of these parameters and this result |
//! | `o(ai)/0`, `p(i)/0`, `m(i)/0`, `t(i)/0`, `e()/0` | the same of an object, a parameter, an object that the file does not define, a typedef name, an enumeration constant |
//! | `none/0`, `__assert/1` | the same of a name that nothing declares |
//! | `#0` | the object of this number in a program of none |
//!
//! A place is answered as `@` and its type, a value as its type, and a refusal by its words.
//!
//! Behind `ask` stand `size`, `extent`, `pointer`, `scalar`, `unsized`, `void`, `same`, `same-but-const` or `keeps-const`, and
//! one type or two; `unnamed` and `named` ask for the type that a cast names by a declarator that is nothing, or a name,
//! `typedef` and `other` for the type of a name that is a typedef name of this type, or of another name.
//!
//! A text has declarations without initialisers, and functions whose bodies are expressions. What is answered is the type of
//! its last declarator (`[]i` of an array without size, `f(i,pc)v` of a function), or of its last expression with its value as
//! a constant, or what it is as a static address: `null`, or an object's number and a distance. A refusal has its column behind
//! it. In a text `S` is its first struct, `T` any other, and arrays have any size.
#![tactic(auto)]

mod alarms;
mod files;
mod runs;
mod typing;
mod whole_runs;
mod words;

use std::alloc::{AllocError, Global};
use std::io::{self, Read};

/// The most steps of a run.
const STEPS: u32 = 100_000;

/// The most steps of a run that is to be timed.
const MANY: u32 = 1_000_000_000;

fn main(rt: HostRuntime) -> io::Result<()> {
    let alloc = rt.alloc();
    let mut text = Vec::new(alloc);
    rt.stdin().read_to_end(&mut text)?;
    let Ok(text) = str::from_utf8(&text) else {
        return Ok(());
    };
    for row in text.lines() {
        println!(rt; "{}", line(alloc, row)?)?;
    }
    Ok(())
}

// What a row is answered.
fn line(alloc: Global, row: &str) -> Result<String, AllocError> {
    let (word, rest) = row.split_once(' ').unwrap_or((row, ""));
    match word {
        "type" | "ask" | "text" => typing::line(alloc, word, rest),
        "run" => runs::line(alloc, STEPS, rest),
        "timed" => runs::line(alloc, MANY, rest),
        "whole" => whole_runs::line(alloc, rest),
        "words" => words::line(alloc, rest),
        "alarms" => alarms::line(alloc, rest),
        "walked" => alarms::walked_line(alloc, rest),
        _ => files::line(alloc, word, rest),
    }
}
