// Words.

ghost use Rattle.std.specs.Prelude.{◌≡◌, ◌↔◌, IsTrue, IfOk, length};
ghost use Rattle.c_lexer.specs.Cut.{IsLetter, IsDigit, IsWordByte, IsWord, IsToken, IsPrefix};
ghost use Rattle.c_lexer.specs.Piece.{IsWordRun};

use crate::keyword::keyword;
use c_syntax_written::{Name, Token};
use std::alloc::{AllocError as NoMemory, Global};

pub fn is_letter(byte: u8) -> bool
    ensures { IsTrue result ↔ IsLetter byte }
{
    matches!(byte, b'A'..=b'Z' | b'a'..=b'z' | b'_')
}

pub fn is_digit(byte: u8) -> bool
    ensures { IsTrue result ↔ IsDigit byte }
{
    matches!(byte, b'0'..=b'9')
}

pub fn is_word_byte(byte: u8) -> bool
    ensures { IsTrue result ↔ IsWordByte byte }
{
    is_letter(byte) || is_digit(byte)
}

/// How many letters and digits stand at the front.
pub fn word_len(bytes: &[u8]) -> usize
    ensures { IsWordRun bytes.now result }
{
    let mut n = 0;
    while n < bytes.len() && is_word_byte(bytes[n]) {
        n += 1;
    }
    n
}

/// The token that a word is.
pub fn word_token(alloc: Global, spelling: &[u8]) -> Result<Token, NoMemory>
    requires { IsWord spelling.now }
    ensures { IfOk result (λ t. IsToken spelling.now t) }
{
    match keyword(spelling) {
        Some(keyword) => Ok(Token::Keyword(keyword)),
        None => Ok(Token::Word(Name::from_vec(spelling.to_vec(alloc)?))),
    }
}

/// Whether a word is the encoding prefix of the literal that follows.
pub fn is_prefix(word: &[u8], rest: &[u8]) -> bool
    ensures { IsTrue result ↔ IsPrefix word.now rest.now }
{
    !rest.is_empty()
        && matches!(rest[0], b'\'' | b'"')
        && matches!(word, b"L" | b"u" | b"U" | b"u8")
}
