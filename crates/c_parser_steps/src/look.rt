// Tests of the tokens that come.

ghost use Rattle.std.specs.Prelude.{◌≡◌};
ghost use Rattle.c_grammar.specs.Ahead.{begins_spec, close_ahead, is_plain_word, is_spec_word, label_ahead, params_ahead, spec_ahead, type_ahead};
ghost use Rattle.c_grammar.specs.Refused.{begins_designator, first_is, is_type_name};
ghost use Rattle.c_parser_steps.specs.Views.{lookahead_test, scene_of};

use crate::context::Context;
use crate::token::first;
use c_syntax_written::{Keyword, Placed, Punctuator, Token};

/// Tokens that tell which production goes on.
#[derive(Clone, Copy, PartialEq, Eq)]
pub enum Lookahead {
    /// `(`
    Open,
    /// `)`
    Close,
    /// `]`
    RightBracket,
    /// `{`
    Brace,
    /// `}`
    RightBrace,
    /// `;`
    Semicolon,
    /// `:`
    Colon,
    /// `=`
    Assign,
    /// `*`
    Star,
    /// `?`
    Question,
    /// `const`
    Const,
    /// `else`
    Else,
    /// `"a\n"`
    Text,
}

/// Whether this token comes.
pub fn comes(lookahead: Lookahead, tokens: &[Placed]) -> bool
    ensures { result ≡ first_is (lookahead_test lookahead) tokens.now }
{
    match first(tokens) {
        Some((placed, _)) => is_lookahead(lookahead, &placed.token),
        None => false,
    }
}

fn is_lookahead(lookahead: Lookahead, token: &Token) -> bool
    ensures { result ≡ lookahead_test lookahead token.now }
{
    match token {
        Token::Punctuator(sign) => is_lookahead_sign(lookahead, *sign),
        Token::Keyword(keyword) => is_lookahead_word(lookahead, *keyword),
        Token::Text(_) => matches!(lookahead, Lookahead::Text),
        Token::Word(_) | Token::Number(_) | Token::Character(_) => false,
    }
}

fn is_lookahead_sign(lookahead: Lookahead, sign: Punctuator) -> bool
    ensures { result ≡ lookahead_test lookahead (Token.Punctuator sign) }
{
    match lookahead {
        Lookahead::Open => matches!(sign, Punctuator::LeftParenthesis),
        Lookahead::Close => matches!(sign, Punctuator::RightParenthesis),
        Lookahead::RightBracket => matches!(sign, Punctuator::RightBracket),
        Lookahead::Brace => matches!(sign, Punctuator::LeftBrace),
        Lookahead::RightBrace => matches!(sign, Punctuator::RightBrace),
        Lookahead::Semicolon => matches!(sign, Punctuator::Semicolon),
        Lookahead::Colon => matches!(sign, Punctuator::Colon),
        Lookahead::Assign => matches!(sign, Punctuator::Assign),
        Lookahead::Star => matches!(sign, Punctuator::Star),
        Lookahead::Question => matches!(sign, Punctuator::Question),
        Lookahead::Const | Lookahead::Else | Lookahead::Text => false,
    }
}

fn is_lookahead_word(lookahead: Lookahead, keyword: Keyword) -> bool
    ensures { result ≡ lookahead_test lookahead (Token.Keyword keyword) }
{
    match lookahead {
        Lookahead::Const => matches!(keyword, Keyword::Const),
        Lookahead::Else => matches!(keyword, Keyword::Else),
        _ => false,
    }
}

/// Whether specs come.
pub fn spec_ahead(context: &Context<'_>, tokens: &[Placed]) -> bool
    ensures { result ≡ spec_ahead (scene_of context.now) tokens.now }
{
    match first(tokens) {
        Some((placed, _)) => begins_spec(context, &placed.token),
        None => false,
    }
}

fn begins_spec(context: &Context<'_>, token: &Token) -> bool
    ensures { result ≡ begins_spec (scene_of context.now) token.now }
{
    match token {
        Token::Word(name) => context.names_type(name.as_slice()),
        Token::Keyword(keyword) => is_spec_word(*keyword),
        Token::Number(_) | Token::Character(_) | Token::Text(_) | Token::Punctuator(_) => false,
    }
}

#[tactic(auto, unfolding(c_grammar::specs::Ahead::is_spec_word))]
fn is_spec_word(keyword: Keyword) -> bool
    ensures { result ≡ is_spec_word keyword }
{
    matches!(
        keyword,
        Keyword::Typedef
            | Keyword::Extern
            | Keyword::Static
            | Keyword::Auto
            | Keyword::Register
            | Keyword::Const
            | Keyword::Void
            | Keyword::Char
            | Keyword::Short
            | Keyword::Int
            | Keyword::Long
            | Keyword::Signed
            | Keyword::Unsigned
            | Keyword::Struct
            | Keyword::Enum
    )
}

/// Whether a parenthesis before a type comes.
pub fn type_ahead(context: &Context<'_>, tokens: &[Placed]) -> bool
    ensures { result ≡ type_ahead (scene_of context.now) tokens.now }
{
    match first(tokens) {
        Some((placed, rest)) => {
            is_lookahead(Lookahead::Open, &placed.token) && spec_ahead(context, rest)
        }
        None => false,
    }
}

/// Whether a word before a colon comes.
pub fn label_ahead(context: &Context<'_>, tokens: &[Placed]) -> bool
    ensures { result ≡ label_ahead (scene_of context.now) tokens.now }
{
    match first(tokens) {
        Some((placed, rest)) => {
            is_plain_word(context, &placed.token) && comes(Lookahead::Colon, rest)
        }
        None => false,
    }
}

/// Whether a parenthesis that opens parameters comes, where no word is declared before it.
pub fn params_ahead(context: &Context<'_>, tokens: &[Placed]) -> bool
    ensures { result ≡ params_ahead (scene_of context.now) tokens.now }
{
    match first(tokens) {
        Some((placed, rest)) => {
            is_lookahead(Lookahead::Open, &placed.token)
                && (spec_ahead(context, rest) || comes(Lookahead::Close, rest))
        }
        None => false,
    }
}

/// Whether a word comes that is no typedef name.
pub fn plain_word_ahead(context: &Context<'_>, tokens: &[Placed]) -> bool
    ensures { result ≡ first_is (is_plain_word (scene_of context.now)) tokens.now }
{
    match first(tokens) {
        Some((placed, _)) => is_plain_word(context, &placed.token),
        None => false,
    }
}

fn is_plain_word(context: &Context<'_>, token: &Token) -> bool
    ensures { result ≡ is_plain_word (scene_of context.now) token.now }
{
    match token {
        Token::Word(name) => !context.names_type(name.as_slice()),
        Token::Keyword(_)
        | Token::Number(_)
        | Token::Character(_)
        | Token::Text(_)
        | Token::Punctuator(_) => false,
    }
}

/// Whether a typedef name comes.
pub fn type_name_ahead(context: &Context<'_>, tokens: &[Placed]) -> bool
    ensures { result ≡ first_is (is_type_name (scene_of context.now)) tokens.now }
{
    match first(tokens) {
        Some((placed, _)) => is_type_name(context, &placed.token),
        None => false,
    }
}

fn is_type_name(context: &Context<'_>, token: &Token) -> bool
    ensures { result ≡ is_type_name (scene_of context.now) token.now }
{
    match token {
        Token::Word(name) => context.names_type(name.as_slice()),
        Token::Keyword(_)
        | Token::Number(_)
        | Token::Character(_)
        | Token::Text(_)
        | Token::Punctuator(_) => false,
    }
}

/// Whether a designator comes.
pub fn designator_ahead(tokens: &[Placed]) -> bool
    ensures { result ≡ first_is begins_designator tokens.now }
{
    match first(tokens) {
        Some((placed, _)) => begins_designator(&placed.token),
        None => false,
    }
}

fn begins_designator(token: &Token) -> bool
    ensures { result ≡ begins_designator token.now }
{
    match token {
        Token::Punctuator(sign) => matches!(sign, Punctuator::LeftBracket | Punctuator::Dot),
        Token::Word(_)
        | Token::Keyword(_)
        | Token::Number(_)
        | Token::Character(_)
        | Token::Text(_) => false,
    }
}
