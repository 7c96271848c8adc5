//! Nodes of typed expressions, over operands that are typed already.
//!
//! # Nodes of expressions that have no parts: numbers, characters, enumeration constants and objects
//!
//! A number has the first type of its row that holds it, a character constant is an int, and the name of an
//! object is its place. None of them takes memory for more than a type that is shared.
//!
//! For example, `number` of `0x80000000` is an unsigned int, and of `2147483648` a long.
//!
//! | Node | Stated in `Nodes` of c_typing | Promised by |
//! |---|---|---|
//! | an integer constant | `number` | `number` |
//! | a character constant | `character` | `character` |
//! | the name of an object | `object_named`, `object_place` | `object_named`, `object_place` |
//!
//! # The rows and nodes of `.` and `->`: members of structs
//!
//! A member of a struct in a place is a place, at the offset that is stored with the member, and const if the
//! struct is. `p->m` is `(*p).m`. A name that is no member, and a value that is no struct in a place, has no row.
//!
//! For example, `member` of `k` on a place of `struct { char c; int k; }` is the int at offset 4.
//!
//! | What | Stated in c_typing | Promised by |
//! |---|---|---|
//! | the row of `.` | `Rows.member_row` | `member_row` |
//! | the row of `->` | `Rows.arrow_row` | `arrow_row` |
//! | the nodes, with their refusals | `Nodes.member`, `Nodes.arrow` | `member`, `arrow` |
//!
//! # Static addresses, told from typed trees
//!
//! What a static pointer may hold is null, or an address inside an object of static duration, from its start to
//! one past its end. Such an expression is the address of a place, an array, a null pointer, a cast of one to
//! another pointer type, or one that is moved by a constant number of elements; each step stays inside.
//!
//! For example, `static_address` of `&a[2]` of a static `int a[4]` is 8 bytes behind the start of `a`. `&a[5]`
//! has none.
//!
//! | What | Stated in `Constants` of c_typing | Promised by |
//! |---|---|---|
//! | the address that an expression is | `static_address` | `static_address` |
//! | the address of a place | `static_place` | `static_place` |
//!
//! `address_of` of `specs/Views.antt` says what an `Address` stands for.
//!
//! # Nodes that change a place: `=`, `op=`, `++` and `--`, with their refusals
//!
//! A row is asked first, and then the place: it is to be neither const nor an array. Each call takes its typed
//! parts by value and answers the node, or the refusal at the operator.
//!
//! For example, `c = 1` of a const int `c` is NotLvalue at the `=`; `s = 1` of a struct is NoRule there.
//!
//! | Node | Stated in `Nodes` of c_typing | Promised by |
//! |---|---|---|
//! | `=` | `assigned` | `assigned` |
//! | `op=` | `compound` | `compound` |
//! | `++`, `--` | `stepped` | `stepped` |
//!
//! # Nodes of expressions, made of typed parts: each is its row's node, or the refusal at its place
//!
//! Each call is one line of the table of nodes. It takes the typed parts by value and builds them into the node.
//! Where no row has their types it is refused with these types and the tags of the structs so far.
//!
//! For example, `binary` of `+` on a char and the constant 1 is the addition at int. Of a struct and 1 it is
//! NoRule at the `+`, with the struct left and int right.
//!
//! | Node | Stated in `Nodes` of c_typing | Promised by |
//! |---|---|---|
//! | `+a -a ~a !a *a &a` | `unary`, `address` | `unary` |
//! | operators between two values | `binary` | `binary` |
//! | `a[b]` | `indexed` | `indexed` |
//! | conditions, `?:`, `,` | `tested`, `conditional`, `sequenced` | `tested`, `conditional`, `sequenced` |
//! | `sizeof`, casts | `size_of`, `cast` | `size_of`, `cast` |
#![tactic(auto)]

mod addresses;
mod changes;
mod choice;
mod constants;
mod given;
mod moves;
mod nodes;
mod objects;
mod operators;
mod place;
mod prefixes;
mod rows;
mod sizes;

pub use addresses::{static_address, static_place};
pub use changes::{assigned, compound, stepped};
pub use choice::{conditional, sequenced, tested};
pub use constants::{character, number};
pub use moves::Address;
pub use nodes::{arrow, member};
pub use objects::{object_named, object_place};
pub use operators::{binary, indexed};
pub use prefixes::unary;
pub use rows::{arrow_row, member_row};
pub use sizes::{cast, size_of};
