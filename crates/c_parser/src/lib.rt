//! The parser: the tokens of a C file into a tree, or the first token that is refused.
//!
//! `parse` reads one declaration after the other, and keeps the words that are names of types by then in a set. Expressions,
//! types and declarators are read by `c_parser_exprs`, above `c_parser_leaves` and `c_parser_steps`; initialisers,
//! declarations, statements and blocks are read here. Statements and blocks are one cycle, as deep as the nesting of 200.
//!
//! For example, `typedef int T; T f(T x) { return x; }` is a file of two declarations, `int main(void) { return 1 2; }` is
//! refused at the `2`, `ParseError::Syntax`, and in `if (a) if (b) x; else y;` the `else` belongs to the nearest `if`.
//!
//! | What | Stated in | Promised by |
//! |---|---|---|
//! | which tokens are a file, with which tree; which token is refused first, and why | `c_grammar` | `parse` |
//! | how an error tells of the refusal | `specs/Refusals` | `parse` |
//! | that a part is read as the grammar's descent reads it | `specs/Answers`, `Answers` of `c_parser_steps` | `declaration`, `initial`, `block_items` |
//! | the kinds of statements, and which comes | `specs/SimpleKinds` | `statement_at`, a call for each kind |
//! | statements by their parts | `specs/HeadKinds` | `for_opening`, the makers of statements |
//!
//! `parse` promises tree and refusal, each exactly where it is so, unless it runs out of memory.
#![tactic(auto)]

// The value that a call answered; its fault is returned as it is, or as the one behind `or`. `?` would convert it as well.
macro_rules! got {
    ($answer:expr) => {
        match $answer {
            Ok(got) => got,
            Err(fault) => return Err(fault),
        }
    };
    ($answer:expr, or $fault:expr) => {
        match $answer {
            Ok(got) => got,
            Err(_) => return Err($fault),
        }
    };
}

mod decl;
mod head;
mod init;
mod node;
mod outer;
mod parsing;
mod stmt;
mod stmt_kind;
mod stmt_leaf;

pub use decl::{declaration, initial, no_declarators};
pub use head::{ForOpening, for_opening, for_stmt};
pub use node::{case_stmt, do_stmt, if_else_stmt, if_stmt, switch_stmt, while_stmt};
pub use parsing::{ParseError, parse};
pub use stmt::block_items;
pub use stmt_kind::{StatementKind, ends_open, no_left_bracket, statement_at};
pub use stmt_leaf::{
    break_statement, condition, continue_statement, empty_statement, expression_statement,
    goto_statement, optional, return_statement,
};
