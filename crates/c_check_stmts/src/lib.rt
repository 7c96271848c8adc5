//! The typing of statements and of the items of blocks (C11 6.8).
//!
//! A statement may hold statements and blocks, so these walks are one cycle, as deep as the text nests, which is at most 200;
//! the items of a block are walked by a loop. What is typed is put behind what stands before it in its block, so that a block
//! costs as much as its items. Each part is typed in the program that the part before it left, in the order of the text, and
//! the first refusal is that of the whole.
//!
//! For example, `block_items` of `int a; a = 1;` makes one object and two statements. `{ a = 1; }` where nothing declares `a`
//! is Undeclared at the `a`, and `case 1: ;` outside of a switch at its `case`. `condition` of the `a` in `if (a) ;` is the
//! value of `a`, which is refused where `a` is a struct: NoRule with Op `test` at the `if`.
//!
//! An expression may declare structs, enumerations and their constants, in the types of casts and sizes, and literals; but a
//! case stands only in a statement. So in `switch (sizeof(struct S { int a; }))` within another switch, the cases of the outer
//! one are those that stood before the inner one.
//!
//! | What | Stated in | Promised by |
//! |---|---|---|
//! | the items of a block | `TypesItems` of `Stmts` of c_typing | `block_items` |
//! | a statement | `TypesStmt` of `Stmts`, in `Behind` of `specs/Forms` | `statement` |
//! | conditions, values that are dropped, the value of a switch | `Condition`, `Dropped`, `SwitchValue`, `Perhaps` of `Stmts` | `condition`, `dropped`, `switch_value`, `condition_if_any`, `dropped_if_any` |
//! | labels and cases | `Labels` and `Cases` in `specs/PartForms`, by `labelled` and `case_of` of `Stmts` | `label_of`, `case_at` |
//! | `return` | `Returns` in `specs/PartForms`, by `returned` and `returned_bare` of `Stmts` | `return_of` |
//! | the nodes of statements | the trees of c_syntax | the functions of `nodes.rt` |
//! | cases before and after an expression | `specs/CaseLaws` | `expressions_leave_cases` |
//!
//! Each call answers what the definition says of its tree (`Answers`): the value is what is typed, with the program that it
//! leaves, and an error is the refusal, or out of memory. What a refusal leaves of the program is not said, and after out of
//! memory the program is only dropped.
#![tactic(auto)]

// The value that a call answered; its error is returned as it is. `?` would convert it as well.
macro_rules! got {
    ($answer:expr) => {
        match $answer {
            Ok(got) => got,
            Err(error) => return Err(error),
        }
    };
}

mod case_laws;
mod conditions;
mod forms;
mod items;
mod nodes;
mod prefix_parts;
mod prefixes;
mod returns;
mod simple;
mod switches;

pub use case_laws::expressions_leave_cases;
pub use conditions::{condition, condition_if_any, dropped, dropped_if_any, switch_value};
pub use items::{block_items, statement};
pub use nodes::{
    block_node, do_while_node, empty_node, expression_node, for_node, if_node, no_else,
    switch_node, while_node,
};
pub use prefix_parts::{case_at, label_of};
pub use returns::return_of;
