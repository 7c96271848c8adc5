//! The lexer: the bytes of a C file into tokens with their places.
//!
//! A text is cut from its front: white space, or the longest that has the form of a token, and then
//! what follows it. Where neither begins, or what has the form of a token is none, as `08`, the text is
//! refused at that place, for the first reason that applies there. So each text has one cut or one first
//! place that is refused, and never both.
//!
//! For example, `a+++b` is cut into `a`, `++`, `+` and `b`, at the columns 1, 2, 4 and 5, and ends at
//! column 6. `a 08` is refused at column 3: `BadNumber`.
//!
//! `specs/Cut.antt` states what a cut is, and `specs/Uncut.antt` what is refused, both as relations on the
//! whole text; `specs/Spelling.antt` tells how words, numbers and literals are spelled. `lex` promises
//! both. `one_cut`, `one_uncut`, `cut_nor_uncut` and `cut_or_uncut` are the laws that tie them.
#![tactic(auto)]

mod comment;
mod cut;
mod digits;
mod keyword;
mod literal;
mod number;
mod piece;
mod place;
mod punctuation;
mod reason;
mod stretch;
mod word;

pub use cut::{LexError, cut_nor_uncut, lex, one_cut, one_uncut};
pub use reason::Reason;
pub use stretch::cut_or_uncut;
