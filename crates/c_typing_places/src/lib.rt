//! Where typing puts the nodes of a program: what stands at one place of the text looks at the same.
//!
//! A typed node stands at the token of the written node that it comes from. What typing adds beside it, as conversions
//! and reads of places, makes its checks there too. A written node stands at a token of its own, so two nodes at one
//! place come from one written node: an index, which moves a pointer and is the place that it leads to, or an arrow,
//! which is such a place and a member of it. Such two look at the same.
//!
//! For example, in `a[i] = p - q;` the pointer that `[` moves and the place that it leads to are in the object `a` both;
//! at `-` nothing stands but the difference.
//!
//! Expressions that are not evaluated, as those of a sizeof, of an array's size or of a static initialiser, leave no
//! nodes in a body.
//!
//! | What | Stated in `specs/` | Promised by |
//! |---|---|---|
//! | files of tokens that stand in order | `SiteLaws` | `typed_sites_agree` |
//! | files of texts | `SiteLaws` | `sites_of_texts_agree` |
#![tactic(auto)]

mod laws;

pub use laws::{sites_of_texts_agree, typed_sites_agree};
