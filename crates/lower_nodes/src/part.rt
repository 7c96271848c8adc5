// What expressions and statements are lowered to.

use csharp::{CsExpr, CsExprs, CsStmt};

/// What is done before an expression has its value, that value, the next depth that is free, and how many rows of
/// temporaries are used.
#[derive(Drop)]
pub struct Part {
    pub before: CsStmt,
    pub value: CsExpr,
    pub next: u64,
    pub top: u64,
}

/// The arguments of a call: what is done before they have their values, these values in their order, the next depth
/// that is free, and how many rows of temporaries are used.
#[derive(Drop)]
pub struct Arguments {
    pub before: CsStmt,
    pub values: CsExprs,
    pub next: u64,
    pub top: u64,
}

/// A statement, and how many rows of temporaries it uses.
#[derive(Drop)]
pub struct Coded {
    pub code: CsStmt,
    pub top: u64,
}
