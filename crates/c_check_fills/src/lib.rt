//! What initialisers fill, and with what.
//!
//! # Where the next item of an initialiser goes: the current object of C (C11 6.7.9p17 to p20), as code
//!
//! Each call is met with its line of `CurrentObject` of c_typing.
//!
//! An array or a struct is filled part by part. A `Frame` is one of them under way: how many parts it has, and which comes
//! next. Where an item has no braces, the aggregates that begin with the part are begun too, down to the first part that
//! takes the item whole; they are left again, innermost first, as they get full. `Aggregates` are those under way.
//!
//! For example, in `struct { int a[2]; int b; } s = { 1, 2, 3 };` the item 1 fills `s.a[0]`, and the array `s.a` is under
//! way in `s`. After the 2 it is full, so that the 3 fills `s.b`.
//!
//! Structs and arrays may stand in each other to any depth, so it goes by loops. An item takes as many steps as aggregates
//! are begun and left for it, and the size of an array's element is asked where the array goes on behind its first one.
//!
//! | What | Stated in `CurrentObject` of c_typing | Promised by |
//! |---|---|---|
//! | parts of an array and of a struct | `part_at`, `count_in` | `Frame::of` |
//! | aggregates under way | `in_braces`, `own_frame` | `Aggregates::in_braces`, `inner`, `own_count` |
//! | the next part, and the list behind it | `next_part`, `after_part` | `Aggregates::next_part` |
//! | the part that an item without braces fills | `Fills` | `Aggregates::filled_in` |
//! | string literals in braces, and braces round a scalar | `is_text_in_braces`, `is_scalar_in_braces` | the calls of these names |
//! | a literal that fills the array whose braces the list is | `full_of` of `Inits` | `Aggregates::fill_with_text` |
//! | which parts an item takes whole | `takes_value`, `takes_text` | `Item::takes` |
//!
//! A number that no `u64` holds, and a part above 2 to the 40 bytes, which no program has, are out of memory.
//!
//! # The bytes with which static objects begin, as code: each call is met with its line of `Inits` of c_typing
//!
//! A static object holds constants (C11 6.7.9p4): integers, and addresses of static objects with a constant offset. Its
//! bytes are zeros, and in them what the items of its initialiser store, one after the other.
//!
//! For example, of `static int a[2] = { 258 };` the bytes are 2, 1 and six zeros; of `static int *p = &a[1];` they are the
//! eight pieces of the pointer to the byte 4 of `a`.
//!
//! | What | Stated in `Inits` of c_typing | Promised by |
//! |---|---|---|
//! | what a static object may hold | `is_static_item` | `is_static_item` |
//! | its bytes | `static_bytes` | `static_bytes` |
//!
//! A number outside of its type, which no typed expression has, is out of memory. Each item costs its own bytes.
//!
//! # What the items of an initialiser store in the parts that they fill, as code: each call is met with its line of `Inits` of c_typing
//!
//! A value fills a part as by `=` (C11 6.7.9p11 and p13); in a static object it is a constant. A string literal fills an
//! array of characters, one item a byte, with its closing zero where there is room for it (C11 6.7.9p14).
//!
//! For example, `char a[3] = "ab";` stores 97, 98 and 0; for `char a[1]` the literal is refused: NoRule with Op `init` and
//! the array left.
//!
//! | What | Stated in `Inits` of c_typing | Promised by |
//! |---|---|---|
//! | a value in a part | `fill` | `fill` |
//! | a literal in an array of characters | `fill_text` | `fill_text` |
//! | how many characters a literal has room for | `room` | `room` |
//! | what a whole initialiser stores | `Initialised` | - |
//!
//! A number that no `u64` holds, which no program has, is out of memory.
#![tactic(auto)]

mod aggregates;
mod all_bytes;
mod constants;
mod frames;
mod initialised;
mod items;
mod parts;
mod scalars;
mod texts;
mod values;

pub use aggregates::Aggregates;
pub use all_bytes::static_bytes;
pub use constants::is_static_item;
pub use frames::Frame;
pub use initialised::Initialised;
pub use items::{Item, is_aggregate, is_text};
pub use parts::Part;
pub use texts::{fill_text, room};
pub use values::fill;
