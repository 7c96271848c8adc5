// Classes of tokens.

use c_syntax_written::{Keyword, Punctuator};

/// What a production asks of a token.
#[derive(Clone, Copy, PartialEq, Eq)]
pub enum Class {
    /// `return`
    Keyword(Keyword),
    /// `+=`
    Sign(Punctuator),
    /// A word that is no typedef name.
    Word,
    /// A word, whether it is a typedef name or not.
    AnyWord,
    /// A typedef name.
    TypeName,
    /// `10u`
    Number,
    /// `'a'`
    Character,
    /// `"a\n"`
    Text,
}
