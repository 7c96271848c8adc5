// What stands at the front of a text.

ghost use Rattle.std.specs.Prelude.{◌≡◌, ◌≢◌, ℕ, ◌<◌, ◌≤◌, slice_index, length, IfOk, IsTrue, ◌↔◌};
ghost use Rattle.c_lexer.specs.Cut.{IsLetter, IsDigit, IsWordByte, IsBlank, BeginsNumber, BeginsComment};
ghost use Rattle.c_lexer.specs.Piece.{IsPiece, IsOther};

use crate::comment::{comment_len, line_len, spliced_at};
use crate::literal::{
    Characters, OneCharacter, character_token, literal_len, read_characters, read_one,
};
use crate::number::{Spelled, number_len, read_number};
use crate::punctuation::punctuator;
use crate::reason::Reason;
use crate::word::{is_digit, is_letter, is_prefix, word_len, word_token};
use c_syntax_written::{Bytes, Token};
use std::alloc::{AllocError as NoMemory, Global};

/// White space or a token, with its length; a refusal, with its place; or a `#`.
#[derive(Drop)]
pub enum Piece {
    White(usize),
    Token(Token, usize),
    Refused(Reason, usize),
    Hash,
}

/// What stands at the front.
pub fn next_piece(alloc: Global, bytes: &[u8]) -> Result<Piece, NoMemory>
    requires { 0 < length bytes.now }
    ensures { IfOk result (λ p. IsPiece bytes.now p) }
{
    let first = bytes[0];
    if is_blank(first) {
        Ok(Piece::White(1))
    } else if is_letter(first) {
        word(alloc, bytes)
    } else if begins_number(bytes) {
        Ok(number(bytes))
    } else if first == b'"' {
        string(alloc, bytes)
    } else {
        Ok(sign(bytes))
    }
}

pub fn is_blank(byte: u8) -> bool
    ensures { IsTrue result ↔ IsBlank byte }
{
    matches!(byte, b'\t'..=b'\r' | b' ')
}

pub fn begins_number(bytes: &[u8]) -> bool
    requires { 0 < length bytes.now }
    ensures { IsTrue result ↔ BeginsNumber bytes.now }
{
    is_digit(bytes[0]) || (bytes.len() > 1 && bytes[0] == b'.' && is_digit(bytes[1]))
}

fn word(alloc: Global, bytes: &[u8]) -> Result<Piece, NoMemory>
    requires some { 0 < length bytes.now }
    requires first { IsLetter (slice_index bytes.now 0) }
    ensures { IfOk result (λ p. IsPiece bytes.now p) }
{
    let n = word_len(bytes);
    let (spelling, rest) = bytes.split_at(n);
    if is_prefix(spelling, rest) {
        return Ok(Piece::Refused(Reason::BadEscape, 0));
    }
    let token = word_token(alloc, spelling)?;
    Ok(Piece::Token(token, n))
}

pub fn number(bytes: &[u8]) -> Piece
    requires { BeginsNumber bytes.now }
    ensures { IsPiece bytes.now result }
{
    let n = number_len(bytes);
    match read_number(&bytes[..n]) {
        Spelled::Constant(constant) => Piece::Token(Token::Number(constant), n),
        Spelled::TooWide => Piece::Refused(Reason::TooWide, 0),
        Spelled::NoInteger => Piece::Refused(Reason::BadNumber, 0),
    }
}

fn string(alloc: Global, bytes: &[u8]) -> Result<Piece, NoMemory>
    requires some { 0 < length bytes.now }
    requires first { slice_index bytes.now 0 ≡ 34 }
    ensures { IfOk result (λ p. IsPiece bytes.now p) }
{
    match literal_len(b'"', bytes) {
        None => Ok(Piece::Refused(Reason::Unterminated, 0)),
        Some(n) => {
            let characters = read_characters(alloc, &bytes[..n])?;
            match characters {
                Characters::All(values) => Ok(Piece::Token(
                    Token::Text(Bytes::from_vec(values)),
                    n,
                )),
                Characters::Bad(place) => Ok(Piece::Refused(Reason::BadEscape, place)),
            }
        }
    }
}

/// What is neither a white byte nor a word, a number or a string.
pub fn sign(bytes: &[u8]) -> Piece
    requires some { 0 < length bytes.now }
    requires blank { IsBlank (slice_index bytes.now 0) → ⊥ }
    requires word { IsWordByte (slice_index bytes.now 0) → ⊥ }
    requires number { BeginsNumber bytes.now → ⊥ }
    requires string { slice_index bytes.now 0 ≢ 34 }
    ensures { IsPiece bytes.now result }
{
    match bytes[0] {
        b'\'' => constant(bytes),
        b'\\' => splice(bytes),
        b'#' => Piece::Hash,
        _ => slash_or_punctuator(bytes),
    }
}

/// A character constant.
fn constant(bytes: &[u8]) -> Piece
    requires some { 0 < length bytes.now }
    requires first { slice_index bytes.now 0 ≡ 39 }
    ensures { IsPiece bytes.now result }
{
    match literal_len(b'\'', bytes) {
        None => Piece::Refused(Reason::Unterminated, 0),
        Some(n) => match read_one(&bytes[..n]) {
            OneCharacter::Value(byte) => Piece::Token(character_token(byte), n),
            OneCharacter::Bad => Piece::Refused(Reason::BadEscape, 1),
            OneCharacter::NotOne => Piece::Refused(Reason::BadEscape, 0),
        },
    }
}

/// A backslash directly before a line end, or a byte that begins nothing.
fn splice(bytes: &[u8]) -> Piece
    requires some { 0 < length bytes.now }
    requires first { slice_index bytes.now 0 ≡ 92 }
    ensures { IsPiece bytes.now result }
{
    if holds(bytes, 1, b'\n') {
        Piece::White(2)
    } else if holds(bytes, 1, b'\r') && holds(bytes, 2, b'\n') {
        Piece::White(3)
    } else {
        Piece::Refused(Reason::BadByte, 0)
    }
}

/// Whether this byte stands at this index.
fn holds(bytes: &[u8], index: usize, byte: u8) -> bool
    ensures { IsTrue result ↔ ((index < length bytes.now) × (slice_index bytes.now index ≡ byte)) }
{
    index < bytes.len() && bytes[index] == byte
}

/// A comment or a punctuator.
fn slash_or_punctuator(bytes: &[u8]) -> Piece
    requires some { 0 < length bytes.now }
    requires other { IsOther bytes.now }
    ensures { IsPiece bytes.now result }
{
    if bytes[0] == b'/' && holds(bytes, 1, b'*') {
        comment(bytes)
    } else if bytes[0] == b'/' && holds(bytes, 1, b'/') {
        line(bytes)
    } else {
        punctuation(bytes)
    }
}

fn comment(bytes: &[u8]) -> Piece
    requires long { 2 ≤ length bytes.now }
    requires slash { slice_index bytes.now 0 ≡ 47 }
    requires star { slice_index bytes.now 1 ≡ 42 }
    ensures { IsPiece bytes.now result }
{
    match comment_len(bytes) {
        None => Piece::Refused(Reason::Unterminated, 0),
        Some(n) => Piece::White(n),
    }
}

fn line(bytes: &[u8]) -> Piece
    requires long { 2 ≤ length bytes.now }
    requires slash { slice_index bytes.now 0 ≡ 47 }
    requires second { slice_index bytes.now 1 ≡ 47 }
    ensures { IsPiece bytes.now result }
{
    let n = line_len(bytes);
    match spliced_at(&bytes[..n]) {
        None => Piece::White(n),
        Some(place) => Piece::Refused(Reason::BadByte, place),
    }
}

/// A punctuator, or a byte that begins nothing.
fn punctuation(bytes: &[u8]) -> Piece
    requires some { 0 < length bytes.now }
    requires other { IsOther bytes.now }
    requires comment { BeginsComment bytes.now → ⊥ }
    ensures { IsPiece bytes.now result }
{
    match punctuator(bytes) {
        None => Piece::Refused(Reason::BadByte, 0),
        Some((punctuator, n)) => Piece::Token(Token::Punctuator(punctuator), n),
    }
}
