// Whether a text has a cut, told without taking memory.

ghost use Rattle.std.specs.Prelude.{◌≡◌, ◌<◌, ◌≤◌, List, MatchOption, length, slice_index};
ghost use Rattle.c_syntax_written.specs.declared.token.Tokens.{Tokens};
ghost use Rattle.c_lexer.specs.Cut.{IsCut, IsLetter};
ghost use Rattle.c_lexer.specs.Stretch.{IsStretch, stretch_of};
ghost use Rattle.c_lexer.specs.Uncut.{IsUncut};

use crate::cut::hash_reason;
use crate::keyword::keyword;
use crate::literal::{bad_escape, literal_len};
use crate::piece::{Piece, begins_number, is_blank, number, sign};
use crate::place::moved;
use crate::reason::Reason;
use crate::word::{is_letter, is_prefix, word_len};
use c_syntax_written::Pos;

/// What stands at the front, by its length alone: white space or a token; a refusal, with its place; or
/// a `#`.
#[derive(Clone, Copy)]
pub enum Stretch {
    Over(usize),
    Refused(Reason, usize),
    Hash,
}

/// Every text of at most 4,194,304 bytes has a cut, or a first place that is refused. `None` tells of
/// the cut, and `Some` of that place, with the first reason that refuses it.
pub fn cut_or_uncut(file: u32, bytes: &[u8]) -> Option<(Pos, Reason)>
    requires { length bytes.now ≤ 4194304 }
    ensures { MatchOption result ((v : Tokens) × IsCut file bytes.now v) (λ x. IsUncut file bytes.now x.0 x.1) }
{
    let mut at = Pos {
        file,
        line: 1,
        col: 1,
    };
    let mut rest = bytes;
    while !rest.is_empty() {
        let len = match next_stretch(rest) {
            Stretch::Over(len) => len,
            Stretch::Refused(reason, place) => {
                let (front, _) = rest.split_at(place);
                return Some((moved(at, front), reason));
            }
            Stretch::Hash => {
                let (before, _) = bytes.split_at(bytes.len() - rest.len());
                return Some((at, hash_reason(before)));
            }
        };
        let (front, after) = rest.split_at(len);
        at = moved(at, front);
        rest = after;
    }
    None
}

fn next_stretch(bytes: &[u8]) -> Stretch
    requires { 0 < length bytes.now }
    ensures { IsStretch bytes.now result }
{
    let first = bytes[0];
    if is_blank(first) {
        Stretch::Over(1)
    } else if is_letter(first) {
        word_stretch(bytes)
    } else if begins_number(bytes) {
        stretch_of(number(bytes))
    } else if first == b'"' {
        string_stretch(bytes)
    } else {
        stretch_of(sign(bytes))
    }
}

fn stretch_of(piece: Piece) -> Stretch
    ensures { result ≡ stretch_of piece }
{
    match piece {
        Piece::White(n) => Stretch::Over(n),
        Piece::Token(_, n) => Stretch::Over(n),
        Piece::Refused(reason, place) => Stretch::Refused(reason, place),
        Piece::Hash => Stretch::Hash,
    }
}

fn word_stretch(bytes: &[u8]) -> Stretch
    requires some { 0 < length bytes.now }
    requires first { IsLetter (slice_index bytes.now 0) }
    ensures { IsStretch bytes.now result }
{
    let n = word_len(bytes);
    let (spelling, rest) = bytes.split_at(n);
    if is_prefix(spelling, rest) {
        return Stretch::Refused(Reason::BadEscape, 0);
    }
    // A keyword or another word, which is a token in either case.
    let _keyword = keyword(spelling);
    Stretch::Over(n)
}

fn string_stretch(bytes: &[u8]) -> Stretch
    requires some { 0 < length bytes.now }
    requires first { slice_index bytes.now 0 ≡ 34 }
    ensures { IsStretch bytes.now result }
{
    match literal_len(b'"', bytes) {
        None => Stretch::Refused(Reason::Unterminated, 0),
        Some(n) => match bad_escape(&bytes[..n]) {
            None => Stretch::Over(n),
            Some(place) => Stretch::Refused(Reason::BadEscape, place),
        },
    }
}
