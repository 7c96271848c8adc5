//! The table of lowered programs, as data: each line of its standard input is a row, and it prints a line with what the row
//! comes to. Its stored input and output are rows that the gate compares.
//!
//! | Row | The line |
//! |---|---|
//! | `run 7 -3: `, and a file of C | what the run of the lowered program on these inputs comes to, in the words in which `table_programs` tells the run of the machine of C |
//! | `shown`, and a file | the lowered program in a short notation (below) |
//! | `checks`, and a file | the kinds of its checks, in the order of their numbers, each with how many of it there are |
//!
//! In a file `¶` stands for the end of a line. The rows of `run` are those of `table_programs`, and what they come to was worked
//! out by hand for the machine. A file that is refused is answered by `Refused`, and a run that comes to what the code does not
//! hold, or to an outcome that no lowered program has, by `None`.
//!
//! A program is shown by how many rows of temporaries it has, its main, and its functions with the temporaries of their
//! arguments. Places are columns.
//!
//! | Letter | Type |
//! |---|---|
//! | `c`, `b`, `C`, `s`, `H`, `i`, `u` | char, signed char, unsigned char, short, unsigned short, int, unsigned |
//! | `l`, `L`, `q`, `Q`, `p` | long, unsigned long, long long, unsigned long long, any pointer |
//!
//! | Expression | Shown |
//! |---|---|
//! | a constant, the null pointer | `5i`, `null` |
//! | the temporary of a type in a row, the address of an object | `i2`, `&3` |
//! | operators on integers | `(-i i0)`, `(! i0)`, `(i0 Add:i 1i)`, `(i0 Less:u i1)`, `(i0 Left:i 3i)` |
//! | comparisons of pointers | `(p0 Equal:p null)` |
//! | a pointer and an integer, with the size of an element | `(p0 p+4 i1)`, `(i0 +p4 p1)`, `(p0 p-4 i1)` |
//! | a difference of pointers | `(p0 p-p4 p1)` |
//! | a conversion | `(c)i0` |
//!
//! | Statement | Shown |
//! |---|---|
//! | nothing; one behind the other | is left out; behind the other |
//! | a set, a load, a store | `i0=1i;`, `i0=i[&2];`, `i[&2]=i0;` |
//! | bytes that are copied, that lose their values | `copy8 &1 &2;`, `undef 2;` |
//! | a check, with its place and what it looks at | `?Overflow@28 (-i i0);` |
//! | an input, an assumption | `i0=any i;`, `assume i0;` |
//! | a branch, a loop with its place, a block, a way out | `if i0{}else{}`, `loop@20{}`, `{}`, `exit 1;` |
//! | a scope and a switch, with their objects | `scope 1 2{}`, `switch i0 1 2{}` |
//! | a goto, a return | `goto 0;`, `return;`, `return i0;` |
//! | a call with its place, and the temporaries for its value and for whether there is one | `f0@54(i0,i1);`, `f0@54(i0,i1) to i2 or i3;` |
//! | items | `label 0@16:`, `case 3:`, `default:` |
#![tactic(auto)]

mod checks;
mod exprs;
mod files;
mod program;
mod runs;
mod stmts;

use files::Written;
use std::alloc::Global;
use std::io::{self, Read};

fn main(rt: HostRuntime) -> io::Result<()> {
    let mut text = Vec::new(rt.alloc());
    rt.stdin().read_to_end(&mut text)?;
    let Ok(text) = str::from_utf8(&text) else {
        return Ok(());
    };
    for row in text.lines() {
        tell(&rt, row)?;
    }
    Ok(())
}

fn tell(rt: &HostRuntime, row: &str) -> io::Result<()> {
    let mut told = String::new(rt.alloc());
    answer(rt.alloc(), row, &mut told)?;
    println!(rt; "{told}")
}

// Writes what is printed of a row.
fn answer(alloc: Global, row: &str, out: &mut String) -> Written {
    let (word, rest) = row.split_once(' ').unwrap_or((row, ""));
    match word {
        "run" => runs::line(alloc, rest, out),
        "shown" => program::line(alloc, rest, out),
        "checks" => checks::line(alloc, rest, out),
        _ => out.push_str("no such row"),
    }
}
