//! Which typed program a C file is, or where it is first refused: the definition that the checker meets.
//!
//! The program so far, with the names in scope, is a `World`. A part of the file is typed in the world that
//! the part before it left, so that the order of the text is the order of the parts, and the first refusal is
//! that of the whole: `Then` says both. What is made of typed parts is a function with a line for each row of
//! C's tables; the typing relation itself is a recursion on the written tree with a line for each form.
//!
//! For example, in a world where `a` is a char, `a + 1` is an addition at int of `a`, converted, and of the
//! constant: the row of `+` on two integers balances their types. `a + s` of a struct `s` has no row, so its
//! outcome is a refusal at the `+` that shows both types.
//!
//! | What | Stated in `specs/` |
//! |---|---|
//! | the program so far, refusals, order | `World` |
//! | names, tags, scopes, objects and limits | `Names` |
//! | rows of operators, conversions, constants | `Rows`, `Operands`, `Constants`, `SameTypes` |
//! | nodes of expressions, with their refusals | `Nodes` |
//! | specs, declarators, types | `Specifiers`, `Declarators` |
//! | expressions, types, members, parameters | `Typing` |
//! | initialisers and the bytes of static objects | `CurrentObject`, `Inits` |
//! | declarations, statements, functions, the file | `Context`, `Decls`, `Stmts`, `Settled`, `File` |
//!
//! That a file has an outcome is promised by `files_have_some`, and that it has one at most by
//! `files_have_one`; that typing only adds to a program by `typing_adds`, that structs stand there as they
//! are laid out by `structs_are_typed`, and what small files come to by `samples_are_typed` (`Samples`).
#![tactic(auto)]

mod laws;

pub use laws::{
    files_have_one, files_have_some, samples_are_typed, structs_are_typed, typing_adds,
};
