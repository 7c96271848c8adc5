// Character constants and string literals.

ghost use Rattle.std.specs.Prelude.{◌≡◌, ◌≢◌, ℕ, ◌+◌, ◌<◌, ◌≤◌, List, [], ◌∷◌, map, length, take, drop, slice_index, Option, Some, MatchOption, IfOk, IsTrue, ◌↔◌, ◌⊎◌};
ghost use Rattle.c_lexer.specs.Spelling.{digits_of, byte_of, octal_digits, simple_escape, escape_length, escape_value, char_value, IsEscape, Reads, IsLiteral};
ghost use Rattle.c_syntax_written.specs.declared.token.Token.TheVariants.{Character};
ghost use Rattle.c_lexer.specs.Uncut.{IsBadEscape, IsOpenLiteral};
ghost use Rattle.c_lexer.specs.Piece.{Stops, IsCharacter, IsClosedAt, HasCharacters, OneOf};

use crate::digits::{digits_of, value_of};
use c_syntax_written::Token;
use std::alloc::{AllocError as NoMemory, Global};

/// What the characters of a literal are. `Bad` has the place of the first escape that is not
/// allowed.
#[derive(Drop)]
pub enum Characters {
    All(Vec<u8>),
    Bad(usize),
}

/// The one character of a constant.
#[derive(Clone, Copy)]
pub enum OneCharacter {
    Value(u8),
    Bad,
    NotOne,
}

#[tactic(auto, unfolding(crate::specs::Spelling::simple_escape))]
fn simple_escape(byte: u8) -> Option<u8>
    ensures { result ≡ simple_escape byte }
{
    match byte {
        b'\'' | b'"' | b'?' | b'\\' => Some(byte),
        b'a' => Some(7),
        b'b' => Some(8),
        b'f' => Some(12),
        b'n' => Some(10),
        b'r' => Some(13),
        b't' => Some(9),
        b'v' => Some(11),
        _ => None,
    }
}

fn byte_of(base: u8, digits: &[u8]) -> Option<u8>
    requires { 0 < base }
    ensures { result ≡ byte_of base digits.now }
{
    if digits.is_empty() {
        return None;
    }
    let value = value_of(base, digits)?;
    if value > 255 {
        return None;
    }
    Some(value as u8)
}

fn octal_digits(bytes: &[u8]) -> &[u8]
    ensures { result.now ≡ octal_digits bytes.now }
{
    if bytes.len() > 3 {
        digits_of(8, &bytes[..3])
    } else {
        digits_of(8, bytes)
    }
}

/// How many bytes of an escape follow its backslash, and its value, where it is allowed.
#[tactic(auto, using(crate::proofs::LiteralLemmas::octal_length, crate::proofs::LiteralLemmas::octal_value, crate::proofs::LiteralLemmas::hex_length, crate::proofs::LiteralLemmas::hex_value, crate::proofs::LiteralLemmas::simple_length, crate::proofs::LiteralLemmas::simple_value, crate::proofs::LiteralLemmas::escape_within))]
fn escape(bytes: &[u8]) -> (usize, Option<u8>)
    requires { 0 < length bytes.now }
    ensures within { result.0 ≤ length bytes.now }
    ensures len { result.0 ≡ escape_length bytes.now }
    ensures value { result.1 ≡ escape_value bytes.now }
{
    let octal = octal_digits(bytes);
    if !octal.is_empty() {
        (octal.len(), byte_of(8, octal))
    } else if bytes[0] == b'x' {
        let (_, after) = bytes.split_at(1);
        let digits = digits_of(16, after);
        (1 + digits.len(), byte_of(16, digits))
    } else {
        (1, simple_escape(bytes[0]))
    }
}

/// Whether no character of a literal with this quote begins with the byte.
fn ends_literal(quote: u8, byte: u8) -> bool
    ensures { IsTrue result ↔ ((byte ≡ quote) ⊎ (byte ≡ 10)) }
{
    byte == quote || byte == b'\n'
}

fn is_escape(after: &[u8]) -> bool
    ensures { IsTrue result ↔ IsEscape after.now }
{
    !after.is_empty() && after[0] != b'\n'
}

/// The value of the character at the front, where it is allowed, and what follows it; None where
/// the literal ends or is cut off.
#[tactic(auto, using(crate::proofs::CharacterLemmas::stops_empty, crate::proofs::CharacterLemmas::stops_end, crate::proofs::CharacterLemmas::stops_cut, crate::proofs::CharacterLemmas::reads_plain, crate::proofs::CharacterLemmas::reads_escape))]
fn character(quote: u8, text: &[u8]) -> Option<(Option<u8>, &[u8])>
    ensures { MatchOption result (Stops quote text.now) (λ x. IsCharacter quote text.now x.0 x.1.now) }
{
    let Some((first, after)) = text.split_first() else {
        return None;
    };
    if ends_literal(quote, *first) {
        return None;
    }
    if *first != b'\\' {
        return Some((Some(*first), after));
    }
    if !is_escape(after) {
        return None;
    }
    let (len, value) = escape(after);
    let (_, rest) = after.split_at(len);
    Some((value, rest))
}

/// How long the literal with this quote at the front is, where it ends.
pub fn literal_len(quote: u8, bytes: &[u8]) -> Option<usize>
    requires some { 0 < length bytes.now }
    requires first { slice_index bytes.now 0 ≡ quote }
    requires no_escape { quote ≢ 92 }
    requires no_end { quote ≢ 10 }
    ensures { MatchOption result (IsOpenLiteral quote bytes.now) (λ n. IsClosedAt quote bytes.now n) }
{
    let (_, body) = bytes.split_at(1);
    let mut rest = body;
    while let Some((_, after)) = character(quote, rest) {
        rest = after;
    }
    if begins_with(quote, rest) {
        Some(bytes.len() - rest.len() + 1)
    } else {
        None
    }
}

fn begins_with(byte: u8, text: &[u8]) -> bool
    ensures { IsTrue result ↔ ((0 < length text.now) × (slice_index text.now 0 ≡ byte)) }
{
    !text.is_empty() && text[0] == byte
}

/// The characters of a string literal.
pub fn read_characters(alloc: Global, literal: &[u8]) -> Result<Characters, NoMemory>
    requires { (vs : List (Option ℕ)) × IsLiteral 34 vs literal.now }
    ensures { IfOk result (λ c. HasCharacters literal.now c) }
{
    let mut values = Vec::new(alloc);
    let (_, body) = literal.split_at(1);
    let mut rest = body;
    while let Some((value, after)) = character(b'"', rest) {
        match value {
            None => return Ok(Characters::Bad(literal.len() - rest.len())),
            Some(byte) => values.push(byte)?,
        }
        rest = after;
    }
    Ok(Characters::All(values))
}

/// The place of the first escape of a string literal that is not allowed, where there is one.
pub fn bad_escape(literal: &[u8]) -> Option<usize>
    requires { (vs : List (Option ℕ)) × IsLiteral 34 vs literal.now }
    ensures { MatchOption result ((us : List ℕ) × IsLiteral 34 (map Some us) literal.now) (λ n. (n ≤ length literal.now) × IsBadEscape 34 literal.now n) }
{
    let (_, body) = literal.split_at(1);
    let mut rest = body;
    while let Some((value, after)) = character(b'"', rest) {
        if value.is_none() {
            return Some(literal.len() - rest.len());
        }
        rest = after;
    }
    None
}

fn is_quote(text: &[u8]) -> bool
    ensures { IsTrue result ↔ (text.now ≡ 39 ∷ []) }
{
    text.len() == 1 && text[0] == b'\''
}

/// The character of a character constant, where it is one.
pub fn read_one(literal: &[u8]) -> OneCharacter
    requires { (vs : List (Option ℕ)) × IsLiteral 39 vs literal.now }
    ensures { OneOf literal.now result }
{
    let (_, body) = literal.split_at(1);
    let Some((value, after)) = character(b'\'', body) else {
        return OneCharacter::NotOne;
    };
    if !is_quote(after) {
        return OneCharacter::NotOne;
    }
    if !are_low(literal) {
        return OneCharacter::NotOne;
    }
    match value {
        None => OneCharacter::Bad,
        Some(byte) => OneCharacter::Value(byte),
    }
}

fn are_low(bytes: &[u8]) -> bool
    ensures { IsTrue result ↔ ((k : ℕ) → k < length bytes.now → slice_index bytes.now k ≤ 127) }
{
    bytes.iter().all(|byte| *byte <= 127)
}

/// The token of a character constant with this byte, whose value is that of a char.
#[tactic(auto, unfolding(crate::specs::Spelling::char_value))]
pub fn character_token(byte: u8) -> Token
    ensures { result ≡ Character (char_value byte) }
{
    if byte < 128 {
        Token::Character(i32::from(byte))
    } else {
        Token::Character(i32::from(byte) - 256)
    }
}
