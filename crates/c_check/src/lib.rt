//! The typing of a file (C11 6.9): its typed program, or where it is refused first.
//!
//! The declarations and functions of a file are typed one after the other, each in the program that those before it left.
//! At the end of the file objects have the types of all their declarations, and static objects that were given no value are
//! zero.
//!
//! For example, `check` of `int x = 1; int f(void) { return x; }` is a program of one object and one function. For
//! `int f(void) { return y; }` it is Undeclared, at the `y`.
//!
//! | What | Stated in | Promised by |
//! |---|---|---|
//! | the outcome of a file | `specs/Checks.antt`, by `File.TypesFile` of c_typing | `check`, `checked` |
//! | that a file has no other outcome | `specs/Checks.antt`, by `Laws` of c_typing | `check`, `alone` |
//! | that a typed program is well typed | `WellTyped` of c_layout | `check`, `well_typed` |
//! | that of a text what stands at one place looks at the same | `Sites` of c_sites | `check`, `sites` |
//!
//! `check` takes any tree, also one that no text has. A file has any number of declarations, which are gone through by a
//! loop, and dropped one by one once they are typed; how deep the calls go is bounded by the nesting of statements,
//! expressions and initialisers.
#![tactic(auto)]

// The value that a call answered; its error is returned as it is. `?` would convert it as well.
macro_rules! got {
    ($answer:expr) => {
        match $answer {
            Ok(got) => got,
            Err(error) => return Err(error),
        }
    };
}

mod files;
mod outers;

pub use c_check_names::TypeError;
pub use files::check;
