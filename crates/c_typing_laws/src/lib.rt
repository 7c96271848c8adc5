//! What each typed file has: the laws of typing.
//!
//! # What typing makes is well typed: the laws of the rows, by which a typed program has the types that C asks for
//!
//! A row of typing is asked in the program so far; what it makes stands in the program at the end of the file, which
//! goes on from that one. So each law speaks of typed operands in any program that goes on from the one in which the
//! row was asked, and says that the node that the row gives is typed there too.
//!
//! What stands there is asked as it is settled at the end of the file: an array whose size came later has it wherever
//! its name stands (`last_expr`). A value has its type from the first; a place may be an array that has no size yet.
//!
//! For example, `p + 1` of a pointer to a struct of eight bytes moves by eight. The struct was complete where the row was
//! asked, and stays as it is, so the node still moves by the size of what `p` points to.
//!
//! | What | Stated in `specs/` | Promised by |
//! |---|---|---|
//! | typed values, places and operands | `TypedValues` | - |
//! | operators between two values | `RowLaws` | `operators_are_typed` |
//! | values that are stored | `RowLaws` | `values_are_stored`, `values_are_put` |
//! | `op=`, `++` and `--` | `RowLaws` | `changes_are_typed`, `steps_are_typed` |
//! | what is read in a place; objects | `NodeLaws` | `reads_are_typed`, `objects_are_typed` |
//! | operators on one operand and on two | `NodeLaws` | `prefixes_are_typed`, `binaries_are_typed`, `indexes_are_typed` |
//! | members of structs | `NodeLaws` | `members_are_typed`, `arrows_are_typed` |
//! | nodes that change a place | `NodeLaws` | `assignments_are_typed`, `compounds_are_typed`, `stepped_are_typed` |
//! | `?:`, `,`, casts, sizes | `NodeLaws` | `conditionals_are_typed`, `commas_are_typed`, `casts_are_typed`, `sizes_are_typed` |
//! | calls and constants | `NodeLaws` | `calls_are_typed`, `numbers_are_typed`, `characters_are_typed` |
//! | whole expressions | `ExpressionLaws`, `LawSamples` | `expressions_are_typed`, `samples_are_typed` |
//! | whole programs | `ProgramLaws` | `tables_are_typed`, `initials_are_given`, `names_are_distinct` |
//!
//! # How what is typed comes from its typed parts: each way in which a declaration or a statement is typed, one by one
//!
//! The typing relation says of a form which parts are typed, and what is made of them or why it is refused. Here stands
//! what is left of it where nothing is refused: data with one constructor for each form, which has the parts, the worlds
//! between them, and what was asked at the form's own nodes. Laws of typed programs go by recursion on these data.
//!
//! For example, `if (c) s` is typed where `c` is a scalar in a scope of its own, and `s` in another behind it; its
//! statement has `s` as a block, and both scopes are closed behind it.
//!
//! | What | Stated in `specs/` | Promised by |
//! |---|---|---|
//! | what a name is declared as | `NameSteps` | - |
//! | declarations | `DeclSteps` | `declarations_are_made` |
//! | statements, items of blocks | `StmtSteps` | `statements_are_made`, `items_are_made` |
//!
//! # Labels, gotos and objects of typed functions: each has its place in the program, once
//!
//! The labels of a function are numbered as they stand in its text, so no two are one; a goto carries the number of its
//! label by the same text, so that label is there. An automatic object stands in the list of the block, the loop's head
//! or the parameter list that declares it, and in no other.
//!
//! For example, in `int f(int a) { int b; { int c; } }` the object of `a` stands in the list of the parameters, that of `b`
//! in the list of the outer block and that of `c` in the list of the inner one. A string literal is static, and in none.
//!
//! Lists are told by counting: what a part of the text adds to the automatic objects of the program, it adds to its
//! lists, number by number.
//!
//! | What | Stated in `specs/` | Promised by |
//! |---|---|---|
//! | labels and gotos | `JumpLaws` | `labels_are_there` |
//! | lists of objects | `ListLaws` | `objects_are_listed` |
//!
//! # What initialisers store is typed: each item fills a part of its object, and no two the same bytes
//!
//! The items of a list go on with the current object (C11 6.7.9p17 to p20): each stands in the next part of the innermost
//! aggregate that is not full. What is filled lies before what is not, so an item starts behind all that stand before it.
//!
//! For example, in `struct { int a; char b[3]; } s[2] = { 1, "xy", 2 };` the first item fills bytes 0 to 3, the literal
//! bytes 4, 5 and 6, and the last bytes 8 to 11. In `int a[] = { 1, 2, 3 };` the object is as large as its last item tells.
//!
//! Parts are those that the program at the end of the file has: a type that is complete where the initialiser stands
//! keeps its size and its members.
//!
//! # What functions take and give: scalars, by objects of their own, and one scalar or nothing
//!
//! A function has objects for its parameters from its definition, or, where the file gives it no body, from its first
//! declaration. Their types are those of the declarator, or of the typedef name that stands for the function's type.
//!
//! For example, `typedef int f(char); f g;` gives `g` one object of type `char`. In `int h(int a[3]) { return a[0]; }` the
//! parameter's object is a pointer.
//!
//! An object that is a scalar stays one by all that follows: a later declaration has the same type, and only an array
//! without size has another behind its initialiser.
//!
//! # Objects of typed files: each has a type that the program has, and its size
//!
//! An object is declared with a complete type, or as an array without size that has it by its initialiser or by another
//! declaration. Whether it is read-only stands with its type: an array is as const as its elements (C11 6.7.3p9), and
//! another object as it is declared. A literal is read-only and static, and its elements are not const.
//!
//! For example, `const char a[] = "ab";` is read-only and no literal, and the object of `"ab"` in `char *p = "ab";` is one.
//!
//! The law tells of an array without size too; that none is left at the end of a file is a law above this crate.
//!
//! # Each array of a typed file has its size at the end
//!
//! An array may be declared without size: with an initialiser, which tells it, or in an `extern` declaration of a file that
//! defines the object elsewhere. The file says beforehand which objects it defines; where the definition stands the array
//! has its size, and it keeps it.
//!
//! For example, in `extern int a[]; int *f(void) { return a; } int a[3];` the object of `a` has three elements at the end.
//!
//! Two things hold between declarations: an array without size is an object whose name the file defines and has not
//! defined yet; and each name that the file defines up to there is defined.
//!
//! # The bodies of a typed file's functions are typed, as they stand at the end of the file
//!
//! A statement is typed in the scope where it stands. What its expressions name are objects of static duration, functions,
//! or automatic objects of a parameter list or a block around it, and these live there. What comes later in the file leaves
//! each object its type, but for the size of an array that had none; so an expression is asked as it stands at the end.
//!
//! For example, in `extern int a[]; int f(void) { int *p = a; return *p; } int a[3];` the use of `a` is one of an array of
//! three elements, and its value still a pointer to `int`.
//!
//! Four things hold of each world inside a body: the names in scope may be used where the statement stands; what a name of
//! the file is linked to is there, and static; objects have types and sizes; and the program at the end goes on from it,
//! with functions whose parameters have the types that they are called with. Cases of a switch are told by those that the
//! world has gathered.
//!
//! An initial value has as many bytes as its object: a literal those of its text and a zero, and a static object those of
//! its type, into which each item of its initialiser writes a scalar that lies in it.
//!
//! | What | Stated in `specs/` | Promised by |
//! |---|---|---|
//! | statements of bodies | `BodyLaws` | `bodies_are_typed` |
//! | sizes of initial values | `BodyLaws` | `initials_have_sizes` |
//!
//! # Pointers in initial values point to objects of static duration
//!
//! A static pointer holds an address constant (C11 6.6p9): of a static object, of a part of one, or moved by a constant
//! number of elements. Its eight bytes are pieces of that pointer; all other bytes of an initial value are numbers.
//!
//! For example, `static int a[3]; static int *p = a + 2;` gives `p` eight pieces of a pointer 8 bytes behind the start of `a`.
//!
//! An object of static duration has it to the end of the file.
//!
//! # The program of a typed file is well typed
//!
//! What holds of all typed files comes together here: the tables of structs, names, statements, labels and gotos, lists of
//! objects, parameters and results of functions, types and sizes of objects, and initial values: that each static object
//! has one, with as many bytes as the object, and what these point to.
//!
//! So whatever is proved of well typed programs holds of each file that typing accepts, and nothing is asked of the file
//! beside that.
#![tactic(auto)]

mod array_laws;
mod block_laws;
mod body_laws;
mod expressions;
mod function_laws;
mod initialiser_laws;
mod nodes;
mod object_laws;
mod piece_laws;
mod programs;
mod rows;
mod step_laws;
mod well_typed_laws;

pub use array_laws::arrays_have_sizes;
pub use block_laws::{labels_are_there, objects_are_listed};
pub use body_laws::{bodies_are_typed, initials_have_sizes};
pub use expressions::{expressions_are_typed, samples_are_typed};
pub use function_laws::{bodies_are_blocks, functions_take_scalars};
pub use initialiser_laws::{initialisers_are_typed, open_initialisers_are_typed};
pub use nodes::{
    arrows_are_typed, assignments_are_typed, binaries_are_typed, calls_are_typed, casts_are_typed,
    characters_are_typed, commas_are_typed, compounds_are_typed, conditionals_are_typed,
    indexes_are_typed, members_are_typed, numbers_are_typed, objects_are_typed, prefixes_are_typed,
    reads_are_typed, sizes_are_typed, stepped_are_typed,
};
pub use object_laws::file_objects_are_typed;
pub use piece_laws::pieces_are_static;
pub use programs::{initials_are_given, names_are_distinct, tables_are_typed};
pub use rows::{
    changes_are_typed, operators_are_typed, steps_are_typed, values_are_put, values_are_stored,
};
pub use step_laws::{declarations_are_made, items_are_made, statements_are_made};
pub use well_typed_laws::typed_is_well_typed;
