//! What a C file is: which tokens are one and with which tree, what begins one, and which token is
//! refused, and why.
//!
//! A file is derived by productions. Tokens begin a file where they are read up to a place in one
//! that is not whole yet; the place tells what must come next and how many forms (brackets,
//! operators, statements in statements) are unfinished there. A token is refused where more than 200
//! are unfinished with it, where it bears a construct that this profile leaves out, or where no file
//! goes on with it; of these reasons the first counts. What tokens are answered with is their tree,
//! or the first token that is refused.
//!
//! `int f(void){return (1;}` is refused at its `;` for syntax: behind `(1` an expression goes on or
//! its `)` comes. With 198 parentheses more before the `1`, and `{` in place of the `;`, it nests too
//! deep there: with the braces of the function 201 forms are unfinished.
//!
//! `specs/Grammar` states what a file is, `specs/Front` what begins one, `specs/Refused` which token
//! is refused and why. Here are the laws: an answer is the only one (`one_file`, `one_refusal`,
//! `file_nor_refused`), and there always is one (`file_or_refused`). `c_parser::parse` promises to
//! give it.
#![tactic(auto)]

mod class;
mod parts;

ghost use Rattle.std.specs.Prelude.{◌≡◌, ◌⊎◌, List};
ghost use Rattle.c_syntax_written.specs.declared.token.Placed.{Placed};
ghost use Rattle.c_syntax_written.specs.WrittenFile.{FileTree};
ghost use Rattle.c_grammar.specs.Refused.{IsFile, IsRefused, Why};

pub use class::Class;
pub use parts::{Closing, Joint, Level, Role, Setting};

/// Tokens of which none is refused are one file at most.
pub fn one_file()
    ensures { (tokens : List Placed) (a b : FileTree) → IsFile tokens a → IsFile tokens b → a ≡ b }
{}

/// Tokens have one first that is refused at most, for one reason.
pub fn one_refusal()
    ensures { (tokens x y : List Placed) (why other : Why) → IsRefused tokens x why → IsRefused tokens y other → (x ≡ y) × (why ≡ other) }
{}

/// Tokens are a file, or one of them, or their end, is refused.
pub fn file_or_refused()
    ensures { (tokens : List Placed) → ((file : FileTree) × IsFile tokens file) ⊎ ((rest : List Placed) × (why : Why) × IsRefused tokens rest why) }
{}

/// Tokens are never both.
pub fn file_nor_refused()
    ensures { (tokens rest : List Placed) (why : Why) (file : FileTree) → IsFile tokens file → IsRefused tokens rest why → ⊥ }
{}
