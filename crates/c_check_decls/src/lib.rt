//! Declarations: what they declare, and what they make.
//!
//! # Objects and functions of the file by their names, where these are declared again, as code: each call is met with its line of `Decls` of c_typing
//!
//! All declarations of such a name, in blocks too, are of one entity (C11 6.2.2p2). It has the type of all of them so far,
//! and is defined once at most.
//!
//! For example, behind `extern int a[]; int a[3];` the name `a` is one object of three ints; `int a;` is then refused:
//! Redeclared, with the place of the first declaration.
//!
//! | What | Stated in | Promised by |
//! |---|---|---|
//! | whether a declaration is one of the entity, or of another | `unless_other` of `Decls`, by `specs/Entities.antt` | `conflict` |
//! | which declarations agree | `is_function_so`, `is_object_so`, `is_object_again` of `Decls` | the calls of these names |
//! | the type of all declarations so far | `composite_type`, `with_type` of `Decls` | `composite_type`, `retype` |
//! | a new entity, and its definition | `with_linked`, `with_defined` of `Decls` | `link`, `define` |
//!
//! Names are looked up by hash. Whether an object has an initial value already is asked of one that is initialised again, and
//! takes a step for each object with one: at most as many as the bytes that a program may have.
//!
//! # What a declarator declares once its type is known, as code: each call is met with its line of `Decls` of c_typing
//!
//! A declarator declares an object of a block or of the file, a function or a typedef name, by its type and the storage words
//! of its declaration. `declared` is all of it; `function_declared` is what a definition has of it too. What may not stand is
//! refused at the name: a type that no object has, a name that this scope or the file has otherwise, an array that gets no
//! size, a size past a limit, another `main`.
//!
//! For example, `int x[3];` in a block is an object of 12 bytes, which count among the sizes of all objects, and its number is
//! given. A second `int x;` in this block is Redeclared, with the place of the first.
//!
//! | What | Stated in `Decls` of c_typing | Promised by |
//! |---|---|---|
//! | a declarator with its specs | `declared` | `declared` |
//! | objects of blocks | `local_declared` | `declared` |
//! | objects of the file | `file_form`, `file_declared` | `declared` |
//! | typedef names | `typedef_declared` | `declared` |
//! | functions | `function_declared` | `function_declared` |
//! | an object for a parameter | `parameter_object` | `parameter_object` |
//! | the limits of sizes | `Names.within_limits`, `with_total` | `check_limits`, `count` |
//! | a size, or nothing for an incomplete type | `size_or_zero` | `size_or_zero` |
//!
//! # What a declarator is in the typed program, once its initialiser is typed, as code: each call is met with its line of `Decls` of c_typing
//!
//! An automatic object is a statement in its block, with what its initialiser stores; a static one has the bytes with which it
//! begins, and is a statement too where it stands in a block. An array without size has that of its initialiser from here on,
//! and counts among the sizes of all objects.
//!
//! For example, `int a[] = {1, 2};` in a block declares an object of 8 bytes, with two items that are stored. `int a[] = {};`
//! has no elements, and is NotConstant at the name.
//!
//! | What | Stated in `Decls` of c_typing | Promised by |
//! |---|---|---|
//! | objects and statements of a block | `made_then`, `nothing_made` | `Made` |
//! | a declarator without an initialiser | `made_of` | `made_of` |
//! | one with an initialiser | `measured`, `initialised` | `initialised` |
//! | where an initialiser begins | `frame_for` | `frame_for` |
//!
//! # The typing of declarations (C11 6.7): what their declarators declare, one after the other
//!
//! The specs of a declaration are typed once, and then its declarators from left to right. Each is declared before its own
//! initialiser is typed, so that its name is in scope there, and before the declarators that follow it. A declaration in a
//! block is what its automatic objects add to the block, and the statements that stand for it.
//!
//! For example, `declaration` of `int a = 1, *p = &a;` in a block declares two objects and makes two statements; of
//! `struct S;` it makes none, and declares the tag in this scope.
//!
//! | What | Stated in `Decls` of c_typing | Promised by |
//! |---|---|---|
//! | a declaration | `TypesDecl` | `declaration` |
//!
//! The call answers what the definition says of its tree (`Answers`): the value is what is typed, with the program that it
//! leaves, and an error is the refusal, or out of memory. What a refusal leaves of the program is not told, and once out
//! of memory the program is only dropped.
#![tactic(auto)]

// The value that a call answered; its error is returned as it is. `?` would convert it as well.
macro_rules! got {
    ($answer:expr) => {
        match $answer {
            Ok(got) => got,
            Err(error) => return Err(error),
        }
    };
}

mod agreeing;
mod changes;
mod conflicts;
mod declarations;
mod declarators;
mod declared_objects;
mod declares;
mod entities;
mod file_objects;
mod functions;
mod initialising;
mod initials;
mod limits;
mod linked_objects;
mod locals;
mod made;
mod parameters;
mod sizing;
mod structs;
mod typedefs;

pub use agreeing::{composite_type, is_function_so, is_main_shape, is_object_again, is_object_so};
pub use changes::{copy_meaning, define, link, retype};
pub use conflicts::conflict;
pub use declarations::declaration;
pub use declarators::declared;
pub use declares::{Declares, ObjectNow};
pub use functions::function_declared;
pub use initialising::{frame_for, initialised, made_of};
pub use limits::{check_limits, count, size_or_zero};
pub use linked_objects::{is_read_only, resize};
pub use made::Made;
pub use parameters::parameter_object;
