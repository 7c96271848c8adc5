//! Programs that are lowered from typed ones are formed.
//!
//! What an expression, a statement or a body is lowered to names what is there and lives, has operands of their types,
//! checks with their operands, and gotos that stay, wherever it stands. Functions come in the plan's order, so that each
//! call leads to one that is done, whose rows lie below. Each check, call, loop and label is one of the source.
//!
//! | What | Stated in `specs/` | Promised by |
//! |---|---|---|
//! | what is asked of each statement and expression | `Right` | - |
//! | a lowered program is formed | `Laws.LoweredIsFormed` | `lowered_is_formed` |
//! | its checks, calls, loops and labels are those of the source | `Laws.LoweredIsMade` | `lowered_is_made` |
//! | gotos that lead forwards stay so | `Laws.LoweredLeadsForward` | `lowered_leads_forward` |
#![tactic(auto)]

mod laws;

pub use laws::{lowered_is_formed, lowered_is_made, lowered_leads_forward};
