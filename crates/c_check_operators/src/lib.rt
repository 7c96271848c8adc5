//! The rows of C's operators, over typed operands.
//!
//! # What the operands of C's operators give, and how they are brought to a type
//!
//! An expression names a place or gives a value; that is an `Operand`. Most operators take its value: an
//! array is then the pointer to its first element, and a struct its bytes. A conversion of C is a node of its
//! own, and stands only where the type changes. Each call that builds a node takes its parts by value, so
//! nothing is copied but types, which share what they are made of.
//!
//! For example, `balanced` of a char `a` and the constant 1 makes `a + 1`: an addition at int of `a`,
//! converted to int, and of the constant as it is.
//!
//! | What | Stated in | Promised by |
//! |---|---|---|
//! | the value in a place, and its type | `Operands` of c_typing | `value_of`, `value_type`, `operand_type` |
//! | conversions, null pointers | `Operands` | `as_int`, `as_type`, `as_null` |
//! | two integers at their balanced type | `Rows` | `balanced` |
//! | one type, with const and without | `SameTypes` | `is_same`, `is_same_but_const`, `keeps_const` |
//! | sizes of complete types | `Operands`, `Rows` | `complete_size`, `extent_of`, `is_unsized` |
//!
//! `operand_tree` of `specs/OperandViews.antt` is the pure tree of an `Operand`.
//!
//! # Integer constant expressions, told from typed trees
//!
//! A constant expression is made of literals, enumeration constants, sizes, casts and operators on integers,
//! and no node of it goes wrong, evaluated or not. Its value is exact: at each node the number is one of the
//! node's type.
//!
//! For example, `constant_value` of `sizeof(int) * 2` is `Some(8)`. `1 || 1 / 0` has none, since its right side
//! goes wrong.
//!
//! | What | Stated in `Constants` of c_typing | Promised by |
//! |---|---|---|
//! | operators on constants | `unary_constant`, `binary_constant`, and their neighbours | the functions of `operators.rt` |
//! | the value of an expression | `constant_value` | `constant_value` |
//! | null pointer constants | `is_null_constant` | `is_null_constant` |
//!
//! # The rows of the arithmetic operators: what a node is, by the types of its operands
//!
//! Each call is one row of C's table of operators. It takes the types of the operands by reference and the
//! operands by value, and answers the node, with the conversions that the row asks for, or `None` where no
//! row has these types. Out of memory is the only error.
//!
//! For example, `plus_row` of a pointer to int and an int is the pointer, moved by elements of 4 bytes. Of two
//! chars it is an addition at int of both, converted. Of a struct there is no row.
//!
//! | Operators | Stated in `Rows` of c_typing | Promised by |
//! |---|---|---|
//! | unary `+ - ~`, `!` | `unary_row`, `not_row` | `unary_row`, `not_row` |
//! | `* / % & ^` and bitwise or | `balanced_row` | `arithmetic_row` |
//! | comparisons of integers | `balanced_row` | `comparison_row` |
//! | `<<`, `>>` | `shift_row` | `shift_row` |
//! | `+`, `-` | `plus_row`, `minus_row` | `plus_row`, `minus_row` |
//! | `op=` | `compound_row` | `compound_row` |
//! | `++`, `--` | `step_row` | `step_row` |
//!
//! `sign_at` and `compound_tree` of `specs/ArithmeticViews.antt` say what the types of this crate stand for.
//!
//! # The rows of the comparisons and of `&&` and `||`: what a node is, by the types of its operands
//!
//! Integers are compared at their balanced type. Two pointers are in order only where they point to one type,
//! but for const; they are equal or not also where one is a null pointer constant, which becomes a null pointer
//! of the other's type, or where one is to void. Each call takes the operands by value and answers the node, or
//! `None` where no row has their types.
//!
//! For example, `p == 0` of a pointer to int compares `p` with a null pointer to int. `p < 0` has no row.
//!
//! | Operators | Stated in `Rows` of c_typing | Promised by |
//! |---|---|---|
//! | `< > <= >=` | `order_row` | `order_row` |
//! | `== !=` | `equality_row`, `equal_pointers` | `equality_row` |
//! | `&&`, and logical or | `logical_row` | `and_row`, `or_row` |
//!
//! # The rows of `=`, `?:` and casts: what a value becomes where it is stored, chosen or cast
//!
//! A scalar is stored as its place's type: an integer by conversion, a pointer where const is not lost, a null
//! pointer constant as a null pointer. A struct is copied. The parts of `?:` come to one type. Each call takes
//! the values by value and answers what the row makes of them, or `None` where no row has their types.
//!
//! For example, `store_row` of the constant 0 at a pointer to int is the null pointer of that type. Of a pointer
//! to const int it is `None`, since const would be lost.
//!
//! | Operators | Stated in `Rows` of c_typing | Promised by |
//! |---|---|---|
//! | `=` on scalars, arguments, `return` | `store_row`, `store_pointer` | `store_row` |
//! | `=` and initialisers, structs too | `stored_row` | `stored_row` |
//! | `?:` | `cond_row`, `cond_type`, `cond_part` | `cond_row` |
//! | casts | `cast_row` | `cast_row` |
//! | a cast between a pointer and an integer | `is_pointer_integer` | `is_pointer_integer` |
//!
//! `stored_tree` of `specs/StoreViews.antt` says what a `Stored` stands for.
//!
//! # The rows of `*` and `[]`: the places that pointers name
//!
//! `*p` is the place that `p` points to, unless that is void. `a[b]` is `*(a + b)`, so its row is that of `+`
//! and then that of `*`. Each call takes the operands by value and answers the place, or `None` where no row
//! has their types.
//!
//! For example, `index_row` of a pointer to int and an int is the int behind so many elements of 4 bytes.
//!
//! | Operators | Stated in `Rows` of c_typing | Promised by |
//! |---|---|---|
//! | `*` | `star_row` | `star_row` |
//! | `[]` | `index_row` | `index_row` |
#![tactic(auto)]

mod binary;
mod cast;
mod choice;
mod compound;
mod conversions;
mod equality;
mod forms;
mod logical;
mod operand;
mod operators;
mod places;
mod store;
mod types;
mod unary;
mod values;

pub use binary::{arithmetic_row, comparison_row, minus_row, plus_row, shift_row};
pub use cast::{cast_row, is_pointer_integer};
pub use choice::cond_row;
pub use compound::{Compound, compound_row, step_row};
pub use conversions::{as_int, as_null, as_type, balanced, binary_node, convert_node, unary_node};
pub use equality::{equality_row, order_row};
pub use logical::{and_row, or_row};
pub use operand::{Operand, operand_type, pointer_to, value_of, value_type};
pub use places::{index_row, star_row};
pub use store::{Stored, store_row, stored_row};
pub use types::{
    complete_size, extent_of, is_pointer, is_same, is_same_but_const, is_scalar, is_unsized,
    is_void, keeps_const,
};
pub use unary::{Sign, not_row, unary_row};
pub use values::{constant_value, is_null_constant};
