//! The typing of expressions, specs and declarators, which hold each other.
//!
//! An expression may hold a type, as in `sizeof(int[n])`, a type may hold expressions, and a struct or an enumeration between
//! braces declares, so these walks are one cycle. Each part is typed in the program that the part before it left, in the order
//! of the text, and the first refusal is that of the whole. How deep an expression stands in another is bounded by the nesting
//! of 200; a list is walked by a loop, and so is a declarator of any length, from its name outward.
//!
//! For example, `value` of `c + 1`, where `c` is a char, is the sum at int of the converted `c` and 1, and of `c + d`, where
//! nothing declares `d`, it is Undeclared at the `d`. `word` of an object `x` is its place, and of a function's name it is
//! NoRule with Op `call` and the function's type left. Where `f` takes an int, `called` of `f` and the char `c` is a call whose
//! argument is `c` at int. `size_of_form` of `int[3]` is the constant 12 of type unsigned long.
//!
//! | What | Stated in c_typing | Promised by |
//! |---|---|---|
//! | an expression; its value | `Types` of `Typing` | `operand`, `value` |
//! | specs; a declarator | `TypesSpecs`, `first_of`, `TypesDeclarator` of `Typing` | `specs`, `first_of`, `declarator` |
//! | a name where no call is; a string literal | `word`, `named`, `literal` of `Nodes` | `word`, `literal` |
//! | a call, with its arguments stored as by `=` | `called`, `call_of`, `passed` of `Nodes` | `called` |
//! | an input, `__assume` and `__assert` | `input_read`, `told` of `Nodes` | `input_read`, `told` |
//! | the size of a named type, and a cast to it | `size_of_form`, `cast` of `Nodes` | `size_of_form`, `cast_to` |
//! | tags of structs and of enumerations | `struct_named`, `struct_opened`, `enum_named`, `enum_opened` of `Names` | `struct_tagged`, `struct_begun`, `enum_tagged`, `enum_begun` |
//!
//! Each call answers what the definition says of its tree (`Answers`): the value is what is typed, with the program that it
//! leaves, and an error is the refusal, or out of memory. What a refusal leaves of the program is not said, and after out of
//! memory the program is only dropped.
#![tactic(auto)]

// The value that a call answered; its error is returned as it is. `?` would convert it as well.
macro_rules! got {
    ($answer:expr) => {
        match $answer {
            Ok(got) => got,
            Err(error) => return Err(error),
        }
    };
}

mod arguments;
mod calls;
mod casts;
mod declarators;
mod exprs;
mod leaves;
mod reserved;
mod steps;
mod tags;
mod types;
mod words;

pub use calls::called;
pub use casts::{cast_to, size_of_form};
pub use declarators::declarator;
pub use exprs::{operand, value};
pub use leaves::first_of;
pub use reserved::{input_read, no_function, told};
pub use tags::{enum_begun, enum_tagged, struct_begun, struct_tagged};
pub use types::specs;
pub use words::{literal, refused_by, word};
