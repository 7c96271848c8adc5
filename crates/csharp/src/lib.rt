//! The language that is analysed: this project's own variant of CompCert's C#minor, its copies and its equality.
//!
//! Expressions have no effect, and what a statement looks at is checked by statements of their own, which stand before it. A
//! statement leaves by an exit of a block, by a goto or by a return. Both languages compute with the operators of `c_values`
//! over the memory of objects, so that values and memory are equal where a typed program and what it is lowered to do the same.
//!
//! For example, `return 10 / x;` becomes a load of `x` behind its checks, a check of the divisor, one of the quotient, and a
//! return of the quotient. The copy of `x = x + 1` is a new `Set` of the same temporary with a new `Binary`, that has a new
//! `Temp` and a new `Const` of 1. `same_expr` of `t + 1` and `t + 1` is true, whatever place in memory each has; of `t + 1`
//! and `1 + t` it is false.
//!
//! | What | Stated in `specs/` | Promised by |
//! |---|---|---|
//! | trees without pointers | `Trees` | |
//! | states, values of expressions, operands of checks | `States` | |
//! | what each statement does to a state at once | `Actions` | |
//! | outcomes; the meaning, which checks fail | `Outcomes`, `Meaning` | |
//! | what a formed program is | `Formed` | |
//! | more fuel, and bounds on turns, change nothing else | `Laws` | `more_fuel_changes_nothing`, `bounds_change_nothing` |
//! | small programs and where they end | `Samples` | `samples_end` |
//! | a copy has the tree of its source | `Trees` | `copy_expr`, `copy_check`, `copy_call`, `copy_stmt`, and those of lists |
//! | whether two expressions are one | `SameExprs` | `same_expr` |
//!
//! A copy is built node by node from the leaves up; out of memory is its only error. How large a tree is, by which each copy
//! ends, stands in `Sizes`.
#![tactic(auto)]

mod copied_exprs;
mod copied_stmts;
mod expression;
mod laws;
mod program;
mod same_exprs;
mod same_operators;
mod statement;

pub use crate::same_exprs::same_expr;
pub use copied_exprs::{copy_call, copy_check, copy_expr, copy_exprs};
pub use copied_stmts::{copy_stmt, copy_stmts};
pub use expression::{CsCheck, CsExpr, CsExprs};
pub use laws::{bounds_change_nothing, more_fuel_changes_nothing, samples_end};
pub use program::{CsFunction, CsFunctions, CsProgram, Temps};
pub use statement::{CsCall, CsStmt, CsStmts};
