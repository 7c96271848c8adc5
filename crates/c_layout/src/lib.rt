//! The layout of C's types, conversions of its numbers, and what a well typed program is.
//!
//! The code tells sizes, alignments, offsets and scalars of types, and the types that constants,
//! promotions and balancing give. All goes by loops, so that a type may be a chain of any length
//! and structs may nest to any depth. A struct that stands in another is read from the table of
//! structs, which is laid out where each entry tells what its members give. So
//! `struct { char c; int k; }` has 8 bytes, and its `k` stands at offset 4: `size_of` and
//! `offset_of` answer `Fits(8)` and `Some(4)`, and `scalar_at` finds an `int` at offset 4.
//!
//! The rest is definitions, for the layers above: which programs are well typed, what a plan for
//! one is, and which checks its nodes make. Laws on them are functions with empty bodies, among
//! them small programs that are not well typed.
//!
//! | What | Stated in `specs/` | Promised by |
//! |---|---|---|
//! | sizes, alignments, offsets | `Layout`, `LaidOut`, `Kept` | `size_of`, `align_of`, `offset_of`, `next_member` |
//! | promotion, balancing, constants | `Conversion` | `promote`, `balance`, `literal_type`, `wrap` |
//! | one type but for const | `RowTypes` | `same_but_const`, `keeps_const` |
//! | parts of types, their scalars | `ProperTypes`, `Scalars` | `parts_lie_inside`, `parts_are_aligned`, `scalar_at` |
//! | well typed programs | `WellTyped`, `TypedNodes`, `Tables`, `RowTypes` | `ill_typed_programs`, `used_call_is_typed` |
//! | plans, calls, main | `Plans`, `Calls`, `MainFunction` | `outer_call_is_first`, `main_is_one` |
//! | checks | `Checks` | `failing_is_decided` |
#![tactic(auto)]

mod checks;
mod integer;
mod layout;
mod qualified;
mod samples;
mod scalars;

pub use checks::{failing_is_decided, main_is_one, wanted_values_are_given};
pub use integer::{balance, literal_type, promote, wrap};
pub use layout::{
    Placement, Sized, align_of, next_member, offset_of, parts_are_aligned, parts_lie_inside,
    size_of, stored_sizes_mean_unfolded, structs_have_bytes,
};
pub use qualified::{has_const_elements, keeps_const, points_to_const, same_but_const};
pub use samples::{ill_typed_programs, outer_call_is_first, used_call_is_typed};
pub use scalars::scalar_at;
