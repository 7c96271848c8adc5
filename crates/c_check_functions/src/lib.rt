//! Functions with their bodies (C11 6.9.1), and the typed program of a whole file.
//!
//! The head of a definition declares its function, has objects for the parameters, which count among the sizes of all objects,
//! and begins the scope of the body, where the names and tags of the parameter list stand. Behind the body the program is
//! outside of this scope again, and the function has its body. For example, `int f(int n) {` declares `f`, makes an object of 4
//! bytes, and in the body `n` stands for it. `int f {` is refused: NoRule with Op `init` and int left, at the name.
//!
//! At the end of the file what it has so far becomes the program. An array may get its size behind a use of it, so each name
//! of an object is given the type that the object has by then: behind `int a[]; int f(void) { return a[1]; } int a[3];` the
//! `a` in the body of `f` is an array of 3. Each static object has an initial value, in the order of the objects; one that was
//! given none begins with zeros (C11 6.7.9p10). So `program_of` behind `int a; int b = 1;` has two objects and two initial
//! values: four zeros, and the bytes 1, 0, 0 and 0.
//!
//! | What | Stated in | Promised by |
//! |---|---|---|
//! | the head of a definition, and what it tells | `definition` of `File` of c_typing; `specs/Views` | `definition`, `Begun` |
//! | behind the body | `definition_ends` of `File` | `definition_ends` |
//! | expressions, places and arguments at the end | `last_type`, `settled_expr`, `settled_place`, `settled_exprs` of `Settled` of c_typing | `settle_expr`, `settle_place`, `settle_exprs` |
//! | statements, initialisers and functions at the end | `settled_stmt`, `settled_init`, `settled_function` of `Settled`, and their lists | `settle_stmt`, `settle_init`, `settle_function`, and those of lists |
//! | the program; an initial value for each static object | `program_of`, `initials_from`, `given_initial` of `File` | `program_of`, `static_initials` |
//!
//! The definition keeps the whole program outside of a body; the code keeps a `Scope`, which encloses it. A tree is changed
//! where it stands, and takes no memory: only the types of names are put in, and these are shared. Trees nest no deeper than
//! the text does, and lists are walked by loops. Initial values go into a table by the numbers of their objects, from which
//! each is taken once, so that none is searched for.
#![tactic(auto)]

mod begun;
mod definitions;
mod entries;
mod exprs;
mod functions;
mod initials;
mod lists;
mod parameters;
mod programs;
mod scopes;
mod stmts;

pub use begun::Begun;
pub use definitions::definition;
pub use entries::definition_ends;
pub use exprs::{settle_expr, settle_exprs, settle_place};
pub use functions::{settle_function, settle_functions};
pub use initials::static_initials;
pub use programs::program_of;
pub use stmts::{settle_init, settle_inits, settle_stmt, settle_stmts};
