// The answer of `lex` as a line.

use crate::text::{Written, place, refusal};
use c_lexer::{LexError, lex};
use c_syntax_written::{Placed, Token, Tokens};
use std::alloc::{AllocError, Global};

const MOST: usize = 4_194_304;

/// The tokens of a text of at most 4 MB.
pub fn cut(alloc: Global, text: &[u8]) -> Result<Tokens, LexError> {
    if text.len() > MOST {
        return Err(LexError::NoMemory);
    }
    lex(alloc, 0, text)
}

/// A refusal, as `TooWide 1:4`.
pub fn refused(out: &mut String, error: LexError) -> Written {
    match error {
        LexError::BadByte(pos) => refusal(out, "BadByte", pos),
        LexError::Unterminated(pos) => refusal(out, "Unterminated", pos),
        LexError::BadNumber(pos) => refusal(out, "BadNumber", pos),
        LexError::TooWide(pos) => refusal(out, "TooWide", pos),
        LexError::BadEscape(pos) => refusal(out, "BadEscape", pos),
        LexError::Directive(pos) => refusal(out, "Directive", pos),
        LexError::NoMemory => Err(AllocError),
    }
}

/// The kinds and places of the tokens and the place of the end, or the refusal.
pub fn line(alloc: Global, text: &[u8], out: &mut String) -> Written {
    match cut(alloc, text) {
        Ok(tokens) => tokens_line(out, &tokens),
        Err(error) => refused(out, error),
    }
}

fn tokens_line(out: &mut String, tokens: &Tokens) -> Written {
    for placed in tokens.list.as_slice() {
        token(out, placed)?;
    }
    place(out, tokens.end)
}

fn token(out: &mut String, placed: &Placed) -> Written {
    out.push(kind(&placed.token))?;
    place(out, placed.pos)?;
    out.push(' ')
}

// A letter for each kind of token.
fn kind(token: &Token) -> char {
    match token {
        Token::Word(_) => 'w',
        Token::Keyword(_) => 'k',
        Token::Number(_) => 'n',
        Token::Character(_) => 'c',
        Token::Text(_) => 's',
        Token::Punctuator(_) => 'p',
    }
}
