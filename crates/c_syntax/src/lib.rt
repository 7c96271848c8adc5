//! What the layers of Verac speak of: types, typed programs and alarms, and what is written, whose
//! names this crate gives too.
//!
//! In a typed tree each conversion of C stands as a node, each place knows the type of what stands in
//! it, and names have become numbers. So whoever runs or analyses a program looks nothing up. Two trees
//! that mean the same may differ in pointers and capacities. So contracts speak of their *pure trees*:
//! `texpr_tree` is that of a `TExpr`. A type shares its target, so that a copy of a type of any length
//! is one step.
//!
//! For example, `a + 1` of an int `a` is a `Binary` that adds at int, of a `Load` of the `Var` of `a`, and a
//! `Const` of 1. Its `ty()` answers int.
//!
//! The pure trees stand in `specs/Types.antt`, `TypedExpr.antt`, `TypedStmt.antt` and `Program.antt`; where a
//! node stands and what type it has in `specs/TypedParts.antt`, which `TExpr::pos`, `TExpr::ty` and the like
//! promise. Each `copy`, of a type, an object or a struct, promises the tree of its source, and `same_type`
//! tells whether two types have one tree. How large a tree is stands in `specs/Sizes.antt`, and what an alarm shows in `specs/Admission.antt`.
#![tactic(auto)]

mod alarm;
mod op;
mod operator;
mod program;
mod statement;
mod typed;
mod types;
mod value_type;

pub use alarm::{
    Alarm, Alarms, Cell, Check, Example, Fact, Facts, Pointers, Shown, Spot, WrongKind,
};
pub use c_syntax_written::{
    AssignOp, BinaryOp, BlockItem, BlockItems, Bytes, Constant, Construct, Decl, Declarator,
    Declarators, Enumerator, Enumerators, Expr, Exprs, File, ForHead, ForStart, Init,
    InitDeclarator, InitDeclarators, Inits, IntType, Keyword, Mark, Marks, MemberDecl, MemberDecls,
    Name, Names, Numbers, Outer, Outers, Param, Params, Placed, PlacedList, Places, Pos,
    Punctuator, Spec, Specs, StepWay, Stmt, StorageWord, Tag, Token, Tokens, TypeWord, UnaryOp,
};
pub use op::Op;
pub use operator::{
    Arithmetic, Comparison, DerefKind, Extent, Shift, StepTime, Stride, TBinaryOp, TUnaryOp,
};
pub use program::{
    InitByte, InitBytes, Initial, Initials, Member, Members, Objects, Plan, StructDef, StructDefs,
    TFunction, TFunctions, TProgram,
};
pub use statement::{BlockKind, TInit, TInits, TStmt, TStmts};
pub use typed::{TExpr, TExprs, TLvalue};
pub use types::{CType, Object, Target, same_type};
