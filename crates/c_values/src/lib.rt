//! Values of C, and what its operators give on them.
//!
//! A value is a number of an integer type, a pointer or null; what a void expression gives is nothing.
//! An operator makes its checks in their order, and then gives a value: what it comes to is that value,
//! or the first thing that is wrong with the operand that shows it. A check and what it looks at now are
//! a *look*; an operator, an access, a test or the end of a call is one list of them. Where a pointer
//! points is a *spot*: null, dead, or an offset in an object. A memory of objects tells it.
//!
//! For example, `arithmetic(Add, Int, 2147483647, 1)` is refused: Overflow, with the exact number
//! 2147483648. At `unsigned`, 4294967295 and 1 give 0. `shift(Left, Int, 1, 32)` is refused for its
//! amount, 32, and not for its result.
//!
//! | What | Stated in `specs/` | Promised by |
//! |---|---|---|
//! | scalar types, conversions, truth | `Values` | `scalar_of`, `convert`, `truth`, `bit` |
//! | numbers | `Numbers`, `Operators` | `arithmetic`, `shift`, `negate`, `complement`, `compares` |
//! | pointers | `Places`, `Operators` | `check_move`, `check_same_object`, `check_equality`, `check_test`, `compare_pointers`, `difference` |
//! | looks, and what is found of them | `Looks`, `Accesses` | `check_end`, `looks_fail_as_checks_do`, `checks_ask_for_the_scalar` |
//! | operands and values of the operators' types | `Typed` | `typed_operators_settle` |
//! | accesses, as memory judges them | `Memory` | `accesses_are_judged_as_in_memory` |
#![tactic(auto)]

mod laws;
mod numbers;
mod pointers;
mod spots;
mod values;

pub use laws::{
    accesses_are_judged_as_in_memory, checks_ask_for_the_scalar, looks_fail_as_checks_do,
    typed_operators_settle,
};
pub use numbers::{arithmetic, compares, complement, negate, shift};
pub use pointers::{compare_pointers, difference};
pub use spots::{check_equality, check_move, check_same_object, check_test};
pub use values::{Given, Wrong, bit, check_end, convert, scalar_of, truth};
