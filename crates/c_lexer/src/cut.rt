// The lexer.

ghost use Rattle.std.specs.Prelude.{◌≡◌, ◌⊎◌, ℕ, ◌≤◌, List, length, IfOk, IfErr, MatchResult, IsTrue, ◌↔◌};
ghost use Rattle.c_syntax_written.specs.declared.place.Pos.{Pos};
ghost use Rattle.c_syntax_written.specs.declared.token.Tokens.{Tokens};
ghost use Rattle.c_lexer.specs.declared.reason.Reason.{Reason};
ghost use Rattle.c_lexer.specs.declared.cut.LexError.TheVariants.{NoMemory};
ghost use Rattle.c_lexer.specs.Cut.{IsBlank, IsCut, StandInOrder};
ghost use Rattle.c_lexer.specs.Uncut.{IsUncut, TellsUncut, OpensLine, error_at};
ghost use Rattle.c_lexer.specs.Piece.{HashReason};

use crate::piece::{Piece, is_blank, next_piece};
use crate::place::moved;
use crate::reason::Reason;
use c_syntax_written::{Marks, Placed, PlacedList, Pos, Tokens};
use std::alloc::{AllocError, AllocFailed, Global};
use thiserror::Error;

/// Why there are no tokens: the first place that is refused, with the reason, or memory ran out.
#[derive(Clone, Copy, Debug, PartialEq, Eq, Error)]
pub enum LexError {
    /// The byte begins no token and no white space, or it is the backslash in which a comment of
    /// one line ends.
    #[error("byte not allowed")]
    BadByte(Pos),
    /// A comment that does not end, or a literal that meets the end of its line, begins here.
    #[error("unterminated comment or literal")]
    Unterminated(Pos),
    /// A number that is no integer constant begins here.
    #[error("not an integer constant")]
    BadNumber(Pos),
    /// An integer constant that no type of its row holds begins here.
    #[error("integer constant too wide")]
    TooWide(Pos),
    /// The backslash of an escape that is not allowed, the start of a character constant without
    /// exactly one character or with a byte above 127, or the prefix of a literal.
    #[error("bad character or escape")]
    BadEscape(Pos),
    /// A `#` that is first of its line.
    #[error("directive")]
    Directive(Pos),
    #[error("out of memory")]
    NoMemory,
}

impl From<AllocError> for LexError {
    ghost from_gives = { λ _ e. e ≡ NoMemory };

    fn from(_error: AllocError) -> LexError {
        LexError::NoMemory
    }
}

impl<T: Drop> From<AllocFailed<T>> for LexError {
    ghost from_gives = { λ _ e. e ≡ NoMemory };

    fn from(_error: AllocFailed<T>) -> LexError {
        LexError::NoMemory
    }
}

/// The tokens of the text of a file, which has the number `file`, with their places, and the place
/// after the last byte. There are no marks. An error tells of the first place that is refused, with
/// the first reason that refuses it; `NoMemory` comes where memory runs out.
pub fn lex(alloc: Global, file: u32, bytes: &[u8]) -> Result<Tokens, LexError>
    requires { length bytes.now ≤ 4194304 }
    ensures cut { IfOk result (λ v. IsCut file bytes.now v) }
    ensures refused { IfErr result (λ e. TellsUncut file bytes.now e) }
    // A text that has a cut is answered with it, unless memory runs out.
    ensures only_cut { (v : Tokens) → IsCut file bytes.now v → MatchResult result (λ w. w ≡ v) (λ e. e ≡ LexError.NoMemory) }
    // A text that has an uncut is answered with it, unless memory runs out.
    ensures only_refused { (pos : Pos) (reason : Reason) → IsUncut file bytes.now pos reason
        → MatchResult result (λ w. ⊥) (λ e. (e ≡ error_at reason pos) ⊎ (e ≡ LexError.NoMemory)) }
    ensures order { IfOk result (λ v. StandInOrder v.list) }
{
    let mut tokens: Vec<Placed> = Vec::new(alloc);
    let mut at = Pos {
        file,
        line: 1,
        col: 1,
    };
    let mut rest = bytes;
    while !rest.is_empty() {
        let len = match next_piece(alloc, rest)? {
            Piece::White(len) => len,
            Piece::Token(token, len) => {
                tokens.push(Placed { pos: at, token })?;
                len
            }
            Piece::Refused(reason, place) => {
                let (front, _) = rest.split_at(place);
                return Err(error_at(reason, moved(at, front)));
            }
            Piece::Hash => {
                let (before, _) = bytes.split_at(bytes.len() - rest.len());
                return Err(error_at(hash_reason(before), at));
            }
        };
        let (front, after) = rest.split_at(len);
        at = moved(at, front);
        rest = after;
    }
    Ok(Tokens {
        list: PlacedList::from_vec(tokens),
        marks: Marks::new(alloc),
        end: at,
    })
}

fn error_at(reason: Reason, pos: Pos) -> LexError
    ensures { result ≡ error_at reason pos }
{
    match reason {
        Reason::BadByte => LexError::BadByte(pos),
        Reason::Unterminated => LexError::Unterminated(pos),
        Reason::BadNumber => LexError::BadNumber(pos),
        Reason::TooWide => LexError::TooWide(pos),
        Reason::BadEscape => LexError::BadEscape(pos),
        Reason::Directive => LexError::Directive(pos),
    }
}

/// Why a `#` behind these bytes is refused.
pub fn hash_reason(before: &[u8]) -> Reason
    ensures { HashReason before.now result }
{
    if opens_line(before) {
        Reason::Directive
    } else {
        Reason::BadByte
    }
}

/// Whether what follows is the first of its line but for white bytes.
fn opens_line(before: &[u8]) -> bool
    ensures { IsTrue result ↔ OpensLine before.now }
{
    let mut opens = true;
    for byte in before {
        opens = still_opens(opens, *byte);
    }
    opens
}

/// Whether what follows this byte is so, where the byte is so or not.
fn still_opens(opens: bool, byte: u8) -> bool
    ensures { IsTrue result ↔ ((byte ≡ 10) ⊎ (IsTrue opens × IsBlank byte)) }
{
    byte == b'\n' || (opens && is_blank(byte))
}

/// A text has one cut at most.
pub fn one_cut()
    ensures { (file : ℕ) (text : List ℕ) (v w : Tokens) → IsCut file text v → IsCut file text w → v ≡ w }
{}

/// A text has one first place that is refused at most, and one reason there.
pub fn one_uncut()
    ensures { (file : ℕ) (text : List ℕ) (p q : Pos) (r s : Reason) → IsUncut file text p r → IsUncut file text q s → (p ≡ q) × (r ≡ s) }
{}

/// A text that has a cut has no place that is refused.
pub fn cut_nor_uncut()
    ensures { (file : ℕ) (text : List ℕ) (v : Tokens) (p : Pos) (r : Reason) → IsCut file text v → IsUncut file text p r → ⊥ }
{}
