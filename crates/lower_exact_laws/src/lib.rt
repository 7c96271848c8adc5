//! What an exact analysis asks of a program holds of each program that is lowered from a typed one, and what it lists is exact
//! on that typed program.
//!
//! An analysis tells the one run without inputs exactly where gotos lead forwards, where each switch has at most one default, and
//! where the domain of memory is exact for the program, which ranges are where each integer object has as many bytes as its type.
//! All three come from the source: from its gotos, and from its types.
//!
//! | What | Stated in `specs/` | Promised by |
//! |---|---|---|
//! | each switch has at most one default | `Laws.LoweredHasOneDefault` | `lowered_has_one_default` |
//! | each integer object has as many bytes as its type | `Laws.LoweredHasOwnSizes` | `lowered_has_own_sizes` |
//! | what an exact analysis lists is exact on the source | `Laws.ExactAnalysesCarryOver` | `exact_analyses_carry_over` |
#![tactic(auto)]

mod laws;

pub use laws::{exact_analyses_carry_over, lowered_has_one_default, lowered_has_own_sizes};
