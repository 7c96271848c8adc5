// What comes next, as far as the descent through types must know.

ghost use Rattle.std.specs.Prelude.{◌≡◌};
ghost use Rattle.c_grammar.specs.Classes.{storage_word, type_word};
ghost use Rattle.c_parser_steps.specs.Views.{scene_of};
ghost use Rattle.c_parser_steps.specs.Kinds.{direct_at, direct_of, direct_of_word, nameless_kind, spec_at, spec_of, spec_of_keyword, tag_at, tag_of, tail_at, tail_of_sign};

use crate::context::Context;
use crate::token::{first, sign_at};
use c_grammar::Role;
use c_syntax_written::{Keyword, Placed, Punctuator, StorageWord, Token, TypeWord};

/// What a spec begins with.
#[derive(Clone, Copy, PartialEq, Eq)]
pub enum SpecKind {
    TypedefName,
    Storage(StorageWord),
    Const,
    Basic(TypeWord),
    Structure,
    Enumeration,
    Neither,
}

/// What follows `struct` or `enum`.
#[derive(Clone, Copy, PartialEq, Eq)]
pub enum TagKind {
    Tag,
    Body,
    Neither,
}

/// What a declarator behind its stars begins with.
#[derive(Clone, Copy, PartialEq, Eq)]
pub enum DirectKind {
    Name,
    Grouped,
    /// It goes without a name.
    Nameless,
    Neither,
}

/// What goes on with a declarator.
#[derive(Clone, Copy, PartialEq, Eq)]
pub enum TailKind {
    Array,
    Function,
    Nothing,
}

/// Which spec comes.
pub fn spec_at(context: &Context<'_>, tokens: &[Placed]) -> SpecKind
    ensures { result ≡ spec_at (scene_of context.now) tokens.now }
{
    match first(tokens) {
        Some((placed, _)) => spec_of(context, &placed.token),
        None => SpecKind::Neither,
    }
}

fn spec_of(context: &Context<'_>, token: &Token) -> SpecKind
    ensures { result ≡ spec_of (scene_of context.now) token.now }
{
    match token {
        Token::Word(name) => {
            if context.names_type(name.as_slice()) {
                SpecKind::TypedefName
            } else {
                SpecKind::Neither
            }
        }
        Token::Keyword(keyword) => spec_of_keyword(*keyword),
        Token::Number(_) | Token::Character(_) | Token::Text(_) | Token::Punctuator(_) => {
            SpecKind::Neither
        }
    }
}

fn spec_of_keyword(keyword: Keyword) -> SpecKind
    ensures { result ≡ spec_of_keyword keyword }
{
    match keyword {
        Keyword::Typedef => SpecKind::Storage(StorageWord::Typedef),
        Keyword::Extern => SpecKind::Storage(StorageWord::Extern),
        Keyword::Static => SpecKind::Storage(StorageWord::Static),
        Keyword::Auto => SpecKind::Storage(StorageWord::Auto),
        Keyword::Register => SpecKind::Storage(StorageWord::Register),
        Keyword::Const => SpecKind::Const,
        Keyword::Void => SpecKind::Basic(TypeWord::Void),
        Keyword::Char => SpecKind::Basic(TypeWord::Char),
        Keyword::Short => SpecKind::Basic(TypeWord::Short),
        Keyword::Int => SpecKind::Basic(TypeWord::Int),
        Keyword::Long => SpecKind::Basic(TypeWord::Long),
        Keyword::Signed => SpecKind::Basic(TypeWord::Signed),
        Keyword::Unsigned => SpecKind::Basic(TypeWord::Unsigned),
        Keyword::Struct => SpecKind::Structure,
        Keyword::Enum => SpecKind::Enumeration,
        _ => SpecKind::Neither,
    }
}

/// How a storage word is written.
pub fn storage_word(word: StorageWord) -> Keyword
    ensures { result ≡ storage_word word }
{
    match word {
        StorageWord::Typedef => Keyword::Typedef,
        StorageWord::Extern => Keyword::Extern,
        StorageWord::Static => Keyword::Static,
        StorageWord::Auto => Keyword::Auto,
        StorageWord::Register => Keyword::Register,
    }
}

/// How a type word is written.
pub fn type_word(word: TypeWord) -> Keyword
    ensures { result ≡ type_word word }
{
    match word {
        TypeWord::Void => Keyword::Void,
        TypeWord::Char => Keyword::Char,
        TypeWord::Short => Keyword::Short,
        TypeWord::Int => Keyword::Int,
        TypeWord::Long => Keyword::Long,
        TypeWord::Signed => Keyword::Signed,
        TypeWord::Unsigned => Keyword::Unsigned,
    }
}

/// What follows `struct` or `enum`.
pub fn tag_at(tokens: &[Placed]) -> TagKind
    ensures { result ≡ tag_at tokens.now }
{
    match first(tokens) {
        Some((placed, _)) => tag_of(&placed.token),
        None => TagKind::Neither,
    }
}

fn tag_of(token: &Token) -> TagKind
    ensures { result ≡ tag_of token.now }
{
    match token {
        Token::Word(_) => TagKind::Tag,
        Token::Punctuator(Punctuator::LeftBrace) => TagKind::Body,
        Token::Punctuator(_)
        | Token::Keyword(_)
        | Token::Number(_)
        | Token::Character(_)
        | Token::Text(_) => TagKind::Neither,
    }
}

/// What a declarator of this role begins with, behind its stars.
pub fn direct_at(context: &Context<'_>, role: Role, tokens: &[Placed]) -> DirectKind
    ensures { result ≡ direct_at (scene_of context.now) role tokens.now }
{
    match first(tokens) {
        Some((placed, _)) => direct_of(context, role, &placed.token),
        None => nameless_kind(role),
    }
}

fn direct_of(context: &Context<'_>, role: Role, token: &Token) -> DirectKind
    ensures { result ≡ direct_of (scene_of context.now) role token.now }
{
    match token {
        Token::Word(name) => direct_of_word(role, context.names_type(name.as_slice())),
        Token::Punctuator(Punctuator::LeftParenthesis) => DirectKind::Grouped,
        Token::Punctuator(_)
        | Token::Keyword(_)
        | Token::Number(_)
        | Token::Character(_)
        | Token::Text(_) => nameless_kind(role),
    }
}

fn direct_of_word(role: Role, names_type: bool) -> DirectKind
    ensures { result ≡ direct_of_word role names_type }
{
    if names_type {
        return nameless_kind(role);
    }
    match role {
        Role::Naming | Role::OfMember | Role::OfParameter => DirectKind::Name,
        Role::OfTypeName => DirectKind::Nameless,
    }
}

fn nameless_kind(role: Role) -> DirectKind
    ensures { result ≡ nameless_kind role }
{
    match role {
        Role::Naming | Role::OfMember => DirectKind::Neither,
        Role::OfParameter | Role::OfTypeName => DirectKind::Nameless,
    }
}

/// What follows a declarator: brackets, parameters, or neither.
pub fn tail_at(tokens: &[Placed]) -> TailKind
    ensures { result ≡ tail_at tokens.now }
{
    match sign_at(tokens) {
        Some(sign) => tail_of(sign),
        None => TailKind::Nothing,
    }
}

fn tail_of(sign: Punctuator) -> TailKind
    ensures { result ≡ tail_of_sign sign }
{
    match sign {
        Punctuator::LeftBracket => TailKind::Array,
        Punctuator::LeftParenthesis => TailKind::Function,
        _ => TailKind::Nothing,
    }
}
