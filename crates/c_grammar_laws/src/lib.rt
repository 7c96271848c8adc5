//! Laws of the grammar: where the nodes of a written file stand.
//!
//! A node stands at a token of its own: an operator, a name, a bracket, a number, a word of a statement. So the nodes of
//! a file that is read from tokens stand in the order of the text, and no two at one place.
//!
//! For example, in `a[i] = p - q;` the nodes stand at `a`, `[`, `i`, `=`, `p`, `-` and `q`.
//!
//! Told are the nodes that are evaluated, and the statements that test. An expression in parentheses stands where it
//! stands without them; a sizeof stands for a number, and its operand and the names of types have no nodes here.
//!
//! | What | Stated in `specs/` | Promised by |
//! |---|---|---|
//! | the places of the nodes | `NodePlaces` | - |
//! | their order | `PlaceLaws` | `nodes_stand_in_order` |
#![tactic(auto)]

mod places;

pub use places::nodes_stand_in_order;
