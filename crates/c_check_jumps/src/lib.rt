//! The contexts in which statements stand, and the jumps among them.
//!
//! # What stands round a part of a file, and what the text of the file tells beforehand, as code: each call is met with its line of `Context` of c_typing
//!
//! Before a file is typed it is known which objects and functions it defines, and before a body is typed which labels its
//! function has. A `Context` has these, the result of the function, and which of `break`, `continue` and `case` may stand
//! here.
//!
//! For example, `extern int a; int b; int f(void) { again: return b; }` defines the object `b` and the function `f`, whose
//! body has the label `again`.
//!
//! | What | Stated in `Context` of c_typing | Promised by |
//! |---|---|---|
//! | a list of names, which is asked by name | `has_name` | `NameSet` |
//! | which objects and functions a file defines | `objects_defined_by`, `functions_defined_by` | `FileNames::of` |
//! | the labels of a function | `written_labels_in` | `labels_of` |
//! | contexts | `file_context`, `in_function`, `inside_block`, `inside_loop`, `inside_switch` | `Context` |
//! | storage words | `is_storage`; `is_word` of `Decls` | `is_word` |
//!
//! A look by name does not depend on how many names there are.
//!
//! # Labels, gotos, cases and what else leaves its place, as code: each call is met with its line of `Stmts` of c_typing
//!
//! The walk over the text types the parts of a statement in their order; what they make together is asked here.
//!
//! For example, in `switch (a) { case 1: break; case 1: ; }` the second case is refused: Redeclared, with the place of the
//! first.
//!
//! | What | Stated in `Stmts` of c_typing | Promised by |
//! |---|---|---|
//! | labels, and gotos to them | `labelled`, `goto_of` | `labelled`, `goto_of` |
//! | cases and defaults | `case_of`, `default_of` | `case_of`, `default_of` |
//! | the cases of the switch around, kept while those of another are told | `without_cases`, `with_cases_of` | `begin_cases`, `end_cases` |
//! | `break` and `continue` | `allowed` | `break_of`, `continue_of` |
//! | `return` | `returned`, `returned_bare` | `returned`, `returned_bare` |
//! | the value of a switch | `switched_by` | `switched_by` |
//!
//! Labels are looked up by hash. A case is compared with those before it in its switch, one by one.
#![tactic(auto)]

mod around;
mod context_labels;
mod declarators;
mod definitions;
mod labels;
mod name_set;
mod returns;
mod storage;
mod switches;

pub use around::{Context, Function};
pub use context_labels::labels_of;
pub use definitions::FileNames;
pub use labels::{break_of, continue_of, goto_of, labelled};
pub use name_set::NameSet;
pub use returns::{returned, returned_bare};
pub use storage::is_word;
pub use switches::{
    OuterCases, Switched, begin_cases, case_of, default_of, end_cases, switched_by,
};
