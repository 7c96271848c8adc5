// Numbers.

ghost use Rattle.std.specs.Prelude.{◌≡◌, ℕ, ◌<◌, ◌↔◌, IsTrue, Bool, MatchOption, length};
ghost use Rattle.c_syntax_written.specs.declared.token.Constant.{Constant};
ghost use Rattle.c_lexer.specs.Spelling.{IsInteger, IsConstant, IsUnsignedLetter, IsLong, IsSuffix, base_of, without_prefix, value_from};
ghost use Rattle.c_lexer.specs.Cut.{GoesOn, BeginsNumber};
ghost use Rattle.c_lexer.specs.Piece.{IsNumberRun, IsWithoutU, IsSpelled, IsHeld};

use crate::digits::{digits_len, value_of};
use crate::word::is_word_byte;
use c_syntax_written::Constant;

/// What a number is.
#[derive(Clone, Copy)]
pub enum Spelled {
    Constant(Constant),
    TooWide,
    NoInteger,
}

fn goes_on(before: u8, byte: u8) -> bool
    ensures { IsTrue result ↔ GoesOn before byte }
{
    is_word_byte(byte)
        || byte == b'.'
        || (matches!(byte, b'+' | b'-') && matches!(before, b'e' | b'E' | b'p' | b'P'))
}

/// How long the number at the front is.
pub fn number_len(bytes: &[u8]) -> usize
    requires { 0 < length bytes.now }
    ensures { IsNumberRun bytes.now result }
{
    let mut n = 1;
    while n < bytes.len() && goes_on(bytes[n - 1], bytes[n]) {
        n += 1;
    }
    n
}

/// How many letters l these are, where they are of one case.
fn long_suffix(bytes: &[u8]) -> Option<u8>
    ensures { MatchOption result ((n : ℕ) → IsLong bytes.now n → ⊥) (λ n. IsLong bytes.now n) }
{
    match bytes {
        b"" => Some(0),
        b"l" | b"L" => Some(1),
        b"ll" | b"LL" => Some(2),
        _ => None,
    }
}

fn is_unsigned_letter(byte: u8) -> bool
    ensures { IsTrue result ↔ IsUnsignedLetter byte }
{
    matches!(byte, b'u' | b'U')
}

/// Whether a suffix has a u first or last, and what it has beside it.
#[tactic(auto, using(crate::proofs::NumberLemmas::first_u, crate::proofs::NumberLemmas::last_u, crate::proofs::NumberLemmas::no_u))]
fn without_u(bytes: &[u8]) -> (bool, &[u8])
    ensures { IsWithoutU bytes.now result.0 result.1.now }
{
    if bytes.is_empty() {
        return (false, bytes);
    }
    let last = bytes.len() - 1;
    if is_unsigned_letter(bytes[0]) {
        (true, &bytes[1..])
    } else if is_unsigned_letter(bytes[last]) {
        (true, &bytes[..last])
    } else {
        (false, bytes)
    }
}

/// Whether a suffix has a u, and how many letters l.
#[tactic(auto, using(crate::proofs::NumberLemmas::suffix_of, crate::proofs::NumberLemmas::no_suffix))]
fn suffix(bytes: &[u8]) -> Option<(bool, u8)>
    ensures { MatchOption result ((u : Bool) (n : ℕ) → IsSuffix bytes.now u n → ⊥) (λ x. IsSuffix bytes.now x.0 x.1) }
{
    let (unsigned, letters) = without_u(bytes);
    match long_suffix(letters) {
        None => None,
        Some(longs) => Some((unsigned, longs)),
    }
}

/// The base of a constant, and its bytes after 0x.
#[tactic(auto, unfolding(crate::specs::Spelling::base_of))]
fn base(spelling: &[u8]) -> (u8, &[u8])
    ensures base { result.0 ≡ base_of spelling.now }
    ensures rest { result.1.now ≡ without_prefix spelling.now }
{
    match spelling {
        [b'0', b'x' | b'X', rest @ ..] => (16, rest),
        [b'0', ..] => (8, spelling),
        _ => (10, spelling),
    }
}

/// The constant that a number is, where it is one.
pub fn read_number(spelling: &[u8]) -> Spelled
    ensures { IsSpelled spelling.now result }
{
    let (base, rest) = base(spelling);
    let (digits, suffixed) = rest.split_at(digits_len(base, rest));
    if digits.is_empty() {
        return Spelled::NoInteger;
    }
    match suffix(suffixed) {
        None => Spelled::NoInteger,
        Some((unsigned, longs)) => constant(base, digits, unsigned, longs),
    }
}

/// The constant with these digits and this suffix, where a type of its row holds it.
fn constant(base: u8, digits: &[u8], unsigned: bool, longs: u8) -> Spelled
    requires { 0 < base }
    ensures { IsHeld (value_from base 0 digits.now) base unsigned longs result }
{
    match value_of(base, digits) {
        None => Spelled::TooWide,
        Some(value) => {
            let decimal = base == 10;
            if decimal && !unsigned && value > i64::MAX as u64 {
                Spelled::TooWide
            } else {
                Spelled::Constant(Constant {
                    value,
                    decimal,
                    unsigned,
                    longs,
                })
            }
        }
    }
}
