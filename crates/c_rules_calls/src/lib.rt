//! The call graph of a program, and its gotos.
//!
//! # The calls of a program: an order in which each function stands after those that it calls, and what its runs may come to by calls
//!
//! The calls of each function are taken out of its typed body once, in their order, as a `CallGraph`. All else is
//! asked of this graph, by loops: a program may have 70,000 functions that call one another in a chain. Each call
//! takes time in the size of the graph.
//!
//! For example, where `main` calls `f`, and `f` calls itself twice, there is no order, and the closed list has the
//! first call of `f` in `f`. Without it the order is `f`, `main`, and the inlined size of `main` counts the
//! statements of `f` once for each call.
//!
//! | What | Stated in `specs/` | Promised by |
//! |---|---|---|
//! | the calls of a function | `Calls` of c_layout; `Graph` | `CallGraph::of` |
//! | closed lists of calls, orders | `Graph` | `order_of`, `orders_exclude_closed_lists` |
//! | calls of functions without a body | `Undefined` | `undefined_call` |
//! | chains of more than 64 calls | `Graph`, `Depths` | `check_depth` |
//! | inlined sizes | `Inlined` | `inlined_size` |
//!
//! # The gotos of a function that lead into a block that is not around them
//!
//! A goto may lead to a label right among the items of a block that is around it. The walk goes through the
//! statements with the labels of the blocks around, each block's as a set, so that a goto costs a look into each of
//! the blocks around it, of which there are at most as many as the nesting allows.
//!
//! For example, in `{ goto a; { a: ; } }` the goto is refused, and in `{ a: ; { goto a; } }` it is not.
//!
//! | What | Stated in `specs/` | Promised by |
//! |---|---|---|
//! | the gotos that lead into a block | `Gotos` | `stray_goto` |
//! | where there are none, a plan's condition on gotos holds | `Gotos`; `Jumps` of c_layout | `gotos_stay` |
#![tactic(auto)]

mod call;
mod depth;
mod exprs;
mod goto_laws;
mod graph;
mod labels;
mod laws;
mod search;
mod size;
mod stmts;
mod undefined;
mod walk;

pub use call::{Call, Calls};
pub use depth::{DepthError, check_depth};
pub use goto_laws::gotos_stay;
pub use graph::CallGraph;
pub use laws::orders_exclude_closed_lists;
pub use search::{OrderError, order_of};
pub use size::inlined_size;
pub use undefined::{is_before, undefined_call};
pub use walk::stray_goto;
