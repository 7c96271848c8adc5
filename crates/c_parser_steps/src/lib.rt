//! The parser, its lowest crate: single steps.
//!
//! The parser is a recursive descent that the grammar (`c_grammar`) tells step by step: a token that a
//! production asks for is taken, or the text is refused there for the first reason that applies. This
//! crate takes single tokens, tells what comes next, and makes nodes of their parts; the crates above
//! read whole forms with these calls.
//!
//! For example, at the tokens `) ;` where a `)` has to come, `taken` gives its place and the tokens
//! behind it; at `{ ;` it answers `Fault::Syntax`, or `Fault::TooDeep` where 200 forms are unfinished.
//!
//! `specs/Answers.antt` states what an answer of the parser is in the grammar's descent (`Answers`,
//! `Takes`, `Halts`); `taken`, `refused` and `first` promise it for a token, the other calls for what
//! comes and for nodes.
#![tactic(auto)]

mod class;
mod context;
mod copy;
mod expr_node;
mod fault;
mod kind;
mod level;
mod look;
mod token;
mod type_kind;
mod type_names;
mod type_node;

pub use context::Context;
pub use copy::{boxed_name_of, byte_of, bytes_of, constant_of, name_of, push_bytes};
pub use expr_node::{
    arrow_expr, assign_expr, call_expr, cast_expr, compound_expr, cond_expr, dot_expr,
    enclosed_expr, index_expr, is_word, joined, post_step_expr, pre_step_expr, push_expr,
    sizeof_expr, sizeof_type, unary_expr,
};
pub use fault::{Fault, Reading};
pub use kind::{
    AssignKind, PrefixKind, PrimaryKind, SuffixKind, assign_at, assign_sign, prefix_at, primary_at,
    step_sign, suffix_at, unary_sign,
};
pub use level::{OperandKind, joint_at, joint_sign, operand_of};
pub use look::{
    Lookahead, comes, designator_ahead, label_ahead, params_ahead, plain_word_ahead, spec_ahead,
    type_ahead, type_name_ahead,
};
pub use token::{barred, barred_call, first, refused, sign_at, taken};
pub use type_kind::{
    DirectKind, SpecKind, TagKind, TailKind, direct_at, spec_at, storage_word, tag_at, tail_at,
    type_word,
};
pub use type_names::TypeNames;
pub use type_node::{
    array_declarator, declared_word, empty_declarator, function_declarator, grouped_declarator,
    is_given, is_type, open_array_declarator, param_of, pointer_declarator, push_declarator,
    push_enumerator, push_member, push_param, push_spec, specs_pos, valued_enumerator,
};
