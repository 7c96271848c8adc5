//! What expressions and statements read, write and call.
//!
//! # What an expression touches, for the rule on the order of evaluation: places, and when two of them meet
//!
//! A `Touch` is an object with the members and indices of the part that is touched, or `Mem`, which stands for
//! all that is named through a pointer. An index is not told by its number: it is any element. Two touches meet
//! where they may be of one byte: both are Mem; one object, and the parts of one begin with those of the other; or
//! Mem and an object whose address is taken.
//!
//! For example, `s.a[i]` touches the object of `s` with member 0 and an index, so it meets `s.a` and `s`, but not
//! `s.b`. `*p` is Mem, and meets `s` exactly where the address of `s` is taken somewhere.
//!
//! | What | Stated in `specs/` | Promised by |
//! |---|---|---|
//! | the place of an lvalue | `Places` | `place_of` |
//! | when two touches meet | `Meeting` | `meet` |
//!
//! # What an expression reads and writes
//!
//! The effects of an expression are the places that it reads and those that it writes, its parts' among them. A call
//! has those of its function, which are given: a program's calls are not recursive, so each function's effects are
//! had from its body once those of the functions that it calls are known. An input has no effect.
//!
//! For example, `a[i] = *p + f()` reads `i`, `p`, Mem and what `f` reads, and writes an element of `a` and what `f`
//! writes.
//!
//! | What | Stated in `specs/` | Promised by |
//! |---|---|---|
//! | the effects of an expression | `Effects` | `effects_of` |
//! | the effects of the expressions of a statement | `Effects` | `effects_in` |
//!
//! # Sets of touches, which tell fast whether something that is touched meets one of them
//!
//! A touch of an object can meet only touches of that object, and Mem. So the touches of each object stand by
//! themselves, found by the object's number, and of Mem two marks are kept: whether it is in the set, and whether it
//! meets a touch of the set. A look takes the time of the touches of one object, each of which stands there once.
//!
//! For example, the set of `s.a`, `s.a`, `t` and `*p` has one touch of `s` and one of `t`. `s` meets the first, `s.b`
//! meets none unless the address of `s` is taken, and `*q` meets the last.
//!
//! | What | Stated in `specs/` | Promised by |
//! |---|---|---|
//! | whether two touches meet, as a test | `Met` | `tests_tell_meetings` |
//! | what a set has | `Held` | the calls of `TouchSet` |
//! | lists in which no touch stands twice | `Held` | the calls of `TouchList` |
//!
//! # The objects of a program whose addresses are taken
//!
//! An address is taken by `&`, by an array that stands elsewhere than under an index, and by what static pointers hold
//! at the start. Whoever asks whether `*p` may be a certain object needs to know no more of an object than this. The
//! walk takes each address down once, and a table by number tells of each object whether it is among them.
//!
//! For example, in `int a[2], b[2]; int *p = b; int main(void) { return a[0]; }` the address of `b` is taken, and that
//! of `a` is not. In `0[a]` it is.
//!
//! | What | Stated in `specs/` | Promised by |
//! |---|---|---|
//! | the objects whose addresses are taken | `Taken` | `taken_table` |
#![tactic(auto)]

mod effects;
mod exprs;
mod laws;
mod meeting;
mod places;
mod stmts;
mod table;
mod taken_exprs;
mod taken_stmts;
mod touch;
mod touch_list;
mod touch_set;

pub use effects::{Effects, Touches, copy_touch};
pub use exprs::{add_called, effects_of};
pub use laws::tests_tell_meetings;
pub use meeting::meet;
pub use places::place_of;
pub use stmts::effects_in;
pub use table::taken_table;
pub use touch::{Part, Path, Touch};
pub use touch_list::TouchList;
pub use touch_set::TouchSet;
