//! Rows of runs: each is a small program of the language that is analysed, and the line is the outcome of its run.
//!
//! The words of a row are read one by one, operands before operators, as on a stack. A function is what stands on the stack
//! of statements where its word `fn` comes, and what is run is a copy of it; the first is main. All objects and temporaries are the same in each row:
//!
//! | | |
//! |---|---|
//! | objects | 0 automatic, of 4 bytes; 1 and 2 static, of 4 bytes; 3 static and const, of 4 bytes; 4 static, of 8 bytes |
//! | temporaries | 0, 1 and 2 are ints, 3 is a pointer |
//!
//! | Word | What it does |
//! |---|---|
//! | `7`, `7:uchar`, `null`, `t0`, `a1` | an int, a number of a type, the null pointer, a temporary, the address of an object |
//! | `neg`, `~`, `!`, `conv:uchar` | an operator on one int, and a conversion |
//! | `+`, `-`, `*`, `/`, `%`, `<<`, `>>`, `<`, `==` | an operator on two ints |
//! | `p+`, `p-p`, `p==` | a pointer moved by so many bytes, a difference in bytes, an equality of pointers |
//! | `set:0`, `load:0:int`, `store:int`, `copy:4`, `undef:0`, `input:0:int`, `assume` | an action, with its temporary, type, size or object |
//! | `check:Overflow:-2147483648:2147483647:0:0:-:1` | a check: kind, `lo`, `hi`, `size`, `align`, the type of a load, and how many operands |
//! | `nothing`, `seq`, `if`, `loop`, `block`, `exit:0`, `goto:7`, `return:0`, `return:1` | statements; a return with no value or with one |
//! | `scope:0:3`, `switch:-:3` | a scope, or a switch, with objects (`0+1` are two) or none, and so many items |
//! | `label:7`, `case:2`, `default` | items |
//! | `call:9:1:1:0:2` | a call: column, function, how many arguments, and the temporaries of the value and the flag, or `-` |
//! | `fn:-`, `fn:1`, `fn:1+2` | a function with no parameter, or with these |
//! | `in:300`, `fuel:9`, `turns:2` | an input; the fuel, which is 9 without this word; how many turns behind the first are enough |
//!
//! A normal end is told with the values of the temporaries, a way out with what leaves, and a failure with the columns of its
//! chain, its column, kind and operand.

mod exprs;
mod program;
mod rows;
mod stmts;
mod tell;

use std::alloc::{AllocError, Global};

/// The line of a row: the outcome of its run.
pub fn line(alloc: Global, row: &str) -> Result<String, AllocError> {
    tell::line(alloc, rows::answer(alloc, row))
}
