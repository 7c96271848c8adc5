//! What is shown of an address in a named object, from its form alone.
//!
//! `&a[2]` of an int array is shown as object `a` at offset 8; `&a[i]` as object `a` at multiples of 4, whatever is known of
//! `i`. An address has this form where it is that of an object, moved by elements any number of times (`IsNamed` and
//! `fixed_at` of `mem_api`). Where it has a value, the object lives, so that neither a null pointer nor a dead one is shown.
//!
//! An offset is a sum that is exact, whatever its partial sums: 2^126 + 2^126 - 2^126 is 2^126. `Sum` keeps the numbers above 0
//! apart from those below, and takes one of either kind as the partial sum stands, so that it stays between the least and the
//! greatest number until one kind is used up. From then on it only moves away.
//!
//! | What | Stated in `specs/` | Promised by |
//! |---|---|---|
//! | what is found of such an address | `Places` | `named_place`, `fixed_offset` |
//! | what is shown of it | `ShownPlaces` | `shown_place` |
//! | the sum of a list; alignments that divide a product | `Totals`, `Units` | `Sum`, `unit`, `product_unit` |
#![tactic(auto)]

mod kinds;
mod offsets;
mod places;
mod sets;
mod sums;
mod units;

pub use kinds::looks_at_place;
pub use offsets::fixed_offset;
pub use places::{NamedPlace, named_place};
pub use sets::shown_place;
pub use sums::Sum;
pub use units::{product_unit, unit};
