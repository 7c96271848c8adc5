//! Names of the program so far, and the errors of typing.
//!
//! # Why a program has no types, and what a result of typing says
//!
//! A `TypeError` is the first refusal, with its place in the text, or out of memory. Where no row has the
//! types of an operator's operands, it carries these types, and the tags of the structs so far, by which the
//! types are printed.
//!
//! For example, `no_rule` of the place of a `+`, the operator, a struct and an int is what `s + 1` is refused
//! with.
//!
//! `refusal_of` of `specs/Views.antt` is the refusal of c_typing that an error tells, and `Answers` says of a
//! result that, memory aside, it is an outcome of a kind. `no_rule` tells the refusal of c_typing's name.
//!
//! # The names, tags, scopes, objects and literals of typing: the program so far as code, met with what `c_typing` says of it
//!
//! A `World` is the program up to a place of the text. It is seen as the `World` of the definition
//! (`world_of`, `specs/Worlds.antt`), and each call promises the definition's own equation: after `open`
//! the program is `opened` of the one before, and so on.
//!
//! For example, where `x` is declared in a block in which an outer `x` is in scope, `meaning_of` gives the
//! inner one; once the block is closed it gives the outer one again. A file may have any number of names:
//! what is listed by name (`Table`) also keeps, for each name, the rising places at which it stands, so
//! that a look takes no longer in a long list, and the end of a scope costs what the scope declared.
//!
//! | What | Stated in | Promised by |
//! |---|---|---|
//! | a list, looked up by name | `specs/Places.antt`, `specs/Kept.antt` | `Table` |
//! | the cases of a switch by value, initial values by object | `specs/Firsts.antt` | `Cases`, `GivenInitials` |
//! | what names and tags stand for | `specs/Trees.antt` | - |
//! | names in scope | `Names` of `c_typing` | `meaning_of`, `declared_here`, `first_here`, `declare`, `linked_as`, `link` |
//! | scopes | `Names` of `c_typing` | `open`, `close` |
//! | tags | `Names` of `c_typing` | `tag_in_scope`, `tag_here`, `add_tag`, `redefine` |
//! | structs, and their members by name | `Names` of `c_typing` | `push`, `complete`, `place_of` |
//! | structs and enumerations by their tags | `Names` of `c_typing` | `struct_named`, `struct_opened`, `enum_named`, `enum_opened`, `enum_closed` |
//! | objects, limits, literals | `Names` of `c_typing` | `check_size`, `add_object`, `add_initial`, `add_literal` |
//! | names that need no declaration | `Names` of `c_typing` | `input_type`, `is_reserved` |
#![tactic(auto)]

mod cases;
mod enum_tags;
mod error;
mod given_initials;
mod name_index;
mod objects;
mod refusals;
mod reserved;
mod struct_tags;
mod structs;
mod table;
mod type_error;
mod types;
mod world;

pub use cases::Cases;
pub use error::NameError;
pub use given_initials::GivenInitials;
pub use objects::{OBJECT_LIMIT, literal_type};
pub use refusals::no_rule;
pub use reserved::{input_type, is_reserved};
pub use structs::Structs;
pub use table::{Named, Table};
pub use type_error::TypeError;
pub use types::{Binding, CaseAt, Form, Labelled, Linked, Meaning, TagBinding, TagMeaning};
pub use world::{Scope, World};
