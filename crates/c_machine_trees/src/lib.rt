//! Typed expressions, places and statements whose parts are shared, for who keeps parts of a program by themselves.
//!
//! The machine of C keeps work items, each with a part of the program. With these trees an item has its part in
//! one step, whatever its size: a node has an `Rc` where that of the typed syntax has a box, and each item of a list, and
//! each list that is kept by itself, is shared too. A tree is made once, from the leaves up. The types that stand in it are
//! those of the source, whose chains are shared anyway; out of memory is the only error.
//!
//! For example, what is shared of `a + 1` is a `SharedExpr::Binary`; its left part, had by a clone of its `Rc`, is a
//! `SharedExpr::Load` of `a`.
//!
//! Two trees that mean the same have one pure tree, that of the source: `expr_tree`, `place_tree` and `exprs_tree` stand
//! in `specs/Expressions.antt`, `stmt_tree`, `stmts_tree`, `init_tree` and `inits_tree` in `specs/Statements.antt`. Each call
//! promises that this tree is the one that `c_syntax` sees of what was shared. Code that opens such trees names
//! `c_machine_trees::proofs::SharedTrees::the_shared_trees`.
#![tactic(auto)]

mod expression;
mod of_exprs;
mod of_stmts;
mod statement;

pub use expression::{SharedExpr, SharedExprs, SharedPlace};
pub use of_exprs::{share_expr, share_exprs, share_place, shared_expr};
pub use of_stmts::{share_init, share_inits, share_stmt, share_stmts, shared_stmt};
pub use statement::{SharedInit, SharedInits, SharedStmt, SharedStmts};
