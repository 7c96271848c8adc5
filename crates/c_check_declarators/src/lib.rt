//! Types as specs, declarators, members and parameters make them.
//!
//! # The types that specs tell, as code: each call is met with its line of `Specifiers` of c_typing
//!
//! Specs are the words and types that begin a declaration. They are gathered one by one (`with_part`); then
//! `type_told` says which type they name together, or that they name none.
//!
//! For example, `unsigned const long` tells a const unsigned long, and `long char` is Undeclared at its first token.
//! The type words are counted once, so their order and how many there are does not matter. A type that is told is
//! shared with the typedef name or the struct that it comes from, but for an array that becomes const, whose own
//! targets are made anew (C11 6.7.3p9).
//!
//! | What | Stated in | Promised by |
//! |---|---|---|
//! | specs so far, and one of them | `specs/FormViews.antt` | `SpecsMade::with_part` |
//! | lists of type words | `Specifiers.type_lists`, `type_by_words` | `type_by_words` |
//! | const of a type and of an array's elements | `Specifiers.qualified`, `with_const_elements` | `qualified`, `with_const_elements` |
//! | storage words in their places | `Specifiers.is_storage_allowed` | `is_storage_allowed` |
//! | the type that specs tell | `Specifiers.named_type`, `type_told` | `type_told` |
//! | a copy of a type as a declaration gives it | `form_tree` of c_check_names | `copy_form` |
//!
//! # Declarators from the name outward, and the types that they make, as code: each call is met with its line of `Declarators` of c_typing
//!
//! Typing a declarator gives its `Shape`: the name, if there is one, and what the declarator says of it, step by
//! step. `laid` then makes the type, from the outermost step in. It goes by a loop, since a declarator may have any
//! number of steps.
//!
//! For example, `*a[2]` says of `a` that it is an array of 2, and then a pointer. Laid on int it is an array of 2
//! pointers to int. Laid on void, `a[2]` is refused: NoRule with Op `init` and void left, at the name.
//!
//! | What | Stated in | Promised by |
//! |---|---|---|
//! | steps and shapes | `specs/Views.antt` | - |
//! | the type that a declarator makes | `Declarators.laid`, `step_form` | `laid` |
//! | a complete type's size, or that no row has the type | `Declarators.unless_incomplete` | `size_or_refused` |
//! | the type of a parameter | `Declarators.parameter_type` | `parameter_type` |
//! | types as refusals print them | `Declarators.shown`, `unknown_function` | `shown`, `unknown_function` |
//!
//! # What is made of the typed parts of types, as code: enumeration constants, members, parameters, the sizes of arrays, and the types that casts and sizes name
//!
//! Each call is met with its line of `Typing` of c_typing.
//!
//! The walk over the text types the parts in their order; what they make together is asked here.
//!
//! For example, behind `enum { a = 4,` the constant `b` is 4 + 1, and `enumerator` of `b` and 5 declares it and gives 6
//! for the next one. Of a constant that is no int it is NotConstant at its value.
//!
//! | What | Stated in `Typing` of c_typing | Promised by |
//! |---|---|---|
//! | a typedef name among specs | `typedef_named` | `typedef_named` |
//! | an enumeration constant | `enumerator` | `enumerator` |
//! | the size of an array | `array_sized` | `array_sized` |
//! | members of a struct | `member_made`, `member_sized`, `next_offset` | `member_made` |
//! | a struct at its `}` | `struct_made`; `with_members` of `Names` | `struct_made` |
//! | a parameter | `parameter_made` | `parameter_made` |
//! | the type that a cast or a size names | `type_name` | `type_name` |
#![tactic(auto)]

mod consts;
mod copies;
mod enumerators;
mod forms;
mod laying;
mod layouts;
mod made;
mod members;
mod params;
mod refusals;
mod shape;
mod structs;
mod told;
mod type_names;
mod type_words;

pub use consts::{is_array, qualified, with_const_elements};
pub use copies::{copy_form, copy_types};
pub use enumerators::{array_sized, enumerator};
pub use forms::{parameter_type, size_or_refused};
pub use laying::laid;
pub use made::{SpecPart, SpecsMade};
pub use members::{MemberMade, member_made};
pub use params::parameter_made;
pub use refusals::{no_init, shown, unknown_function};
pub use shape::{DeclaredName, Parameter, Shape, Step};
pub use structs::struct_made;
pub use told::{SpecPlace, is_storage_allowed, type_told};
pub use type_names::{type_name, typedef_named};
pub use type_words::type_by_words;
