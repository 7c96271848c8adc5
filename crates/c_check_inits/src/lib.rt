//! The typing of initialisers (C11 6.7.9): what they store, part by part.
//!
//! A list fills the parts of an object one after the other. An item in braces of its own fills one part as a whole; one
//! without fills the first part that takes it whole, where it may begin arrays and structs that stand in each other to
//! any depth. Those under way are a stack of their own (c_check_fills), so that only braces recurse, whose nesting
//! is at most 200. Items are typed in the order of the text, each in the program that the one before it left, and the
//! first refusal is that of the whole.
//!
//! For example, `initialiser` of `{ 1, { 2 } }` for a `struct { int a; int b[2]; }` stores the 1 at offset 0 and the 2 at
//! offset 4; `{ 1, 2, 3, 4 }` is refused at the 4: NoRule with Op `init` and the struct left.
//!
//! | What | Stated in `Inits` of c_typing | Promised by |
//! |---|---|---|
//! | a whole initialiser | `TypesInit` | `initialiser` |
//! | the items of a list | `TypesItems` | `list_items` |
//!
//! A call answers what the definition says of its tree (`Answers`): the value is what is typed, with the program that it
//! leaves, and an error is the refusal, or out of memory. What a refusal leaves of the program is not told, and once out
//! of memory the program is only dropped.
#![tactic(auto)]

// The value that a call answered; its error is returned as it is. `?` would convert it as well.
macro_rules! got {
    ($answer:expr) => {
        match $answer {
            Ok(got) => got,
            Err(error) => return Err(error),
        }
    };
}

mod excess;
mod filled;
mod initialisers;
mod items;
mod texts;
mod values;

pub use filled::Filled;
pub use initialisers::initialiser;
pub use items::list_items;
