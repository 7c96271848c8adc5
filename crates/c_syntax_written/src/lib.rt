//! What the text of a program is made of: places, names, tokens, and the trees of expressions,
//! declarations and statements as they are written. The lexer makes the tokens, the parser the
//! trees, and no crate below reads C.
//!
//! A tree has a variant for each production of the grammar, so `(a[i])` is an `Enclosed` that holds an
//! `Index` of two `Word`s. Two trees that mean the same may differ in pointers and capacities. So the
//! contracts speak of their *pure trees*, which have neither: `expr_tree` is that of an `Expr`. A small
//! list, as a `Name`, is seen as the plain list of its items.
//!
//! For example, the place of the tree of `a[i]` at line 1, column 5, is that of its first byte:
//! `pos()` answers line 1, column 5. The pure trees stand in `specs/Written.antt`, `WrittenDecl.antt` and
//! `WrittenFile.antt`, their places in `specs/WrittenParts.antt`, which `Expr::pos`, `Stmt::pos` and the like
//! promise. The integer types have their tables in `specs/Integer.antt`: `IntType::Int.limits()` answers
//! (-2147483648, 2147483647). How large a tree is stands in `specs/Sizes.antt`. A node is put into a box by `boxed`.
#![tactic(auto)]

mod boxes;
mod construct;
mod declaration;
mod file;
mod int_type;
mod lists;
mod place;
mod step;
mod token;
mod written;

pub use boxes::boxed;
pub use construct::Construct;
pub use declaration::{Decl, Init, InitDeclarator, InitDeclarators, Inits};
pub use file::{BlockItem, BlockItems, File, ForHead, ForStart, Outer, Outers, Stmt};
pub use int_type::IntType;
pub use lists::{Bytes, Name, Names, Numbers, Places};
pub use place::Pos;
pub use step::StepWay;
pub use token::{Constant, Keyword, Mark, Marks, Placed, PlacedList, Punctuator, Token, Tokens};
pub use written::{
    AssignOp, BinaryOp, Declarator, Declarators, Enumerator, Enumerators, Expr, Exprs, MemberDecl,
    MemberDecls, Param, Params, Spec, Specs, StorageWord, Tag, TypeWord, UnaryOp,
};
