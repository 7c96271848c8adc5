// The answer of `parse` as a line.

use crate::stmts;
use crate::text::{Written, number, refusal, shown};
use crate::tokens::{self, cut};
use c_lexer::LexError;
use c_parser::{ParseError, parse};
use c_syntax_written::{Construct, File, Pos, Tokens};
use std::alloc::{AllocError, Global};

/// What a text is.
#[derive(Drop)]
pub enum Reading {
    Tree(File),
    Uncut(LexError),
    Refused(ParseError),
}

/// Cuts the text into tokens and parses these.
pub fn read(alloc: Global, text: &[u8]) -> Reading {
    match cut(alloc, text) {
        Err(error) => Reading::Uncut(error),
        Ok(tokens) => parsed(alloc, &tokens),
    }
}

fn parsed(alloc: Global, tokens: &Tokens) -> Reading {
    match parse(alloc, tokens) {
        Ok(file) => Reading::Tree(file),
        Err(error) => Reading::Refused(error),
    }
}

/// A refusal by the parser, as `syntax 1:4`.
pub fn refused(out: &mut String, error: ParseError) -> Written {
    match error {
        ParseError::Syntax(pos) => refusal(out, "syntax", pos),
        ParseError::TooDeep(pos) => refusal(out, "nesting", pos),
        ParseError::Unsupported(pos, construct) => unsupported(out, construct, pos),
        ParseError::NoMemory => Err(AllocError),
    }
}

fn unsupported(out: &mut String, construct: Construct, pos: Pos) -> Written {
    out.push_str("unsupported ")?;
    shown(out, &construct)?;
    refusal(out, "", pos)
}

/// The tree in the short notation, or the refusal.
pub fn line(alloc: Global, text: &[u8], out: &mut String) -> Written {
    let reading = read(alloc, text);
    tree_line(out, &reading)
}

fn tree_line(out: &mut String, reading: &Reading) -> Written {
    match reading {
        Reading::Uncut(error) => tokens::refused(out, *error),
        Reading::Refused(error) => refused(out, *error),
        Reading::Tree(file) => stmts::file(out, file),
    }
}

/// Whether the text is a file, or the refusal.
pub fn verdict(alloc: Global, text: &[u8], out: &mut String) -> Written {
    let reading = read(alloc, text);
    verdict_line(out, &reading)
}

fn verdict_line(out: &mut String, reading: &Reading) -> Written {
    match reading {
        Reading::Uncut(error) => tokens::refused(out, *error),
        Reading::Refused(error) => refused(out, *error),
        Reading::Tree(_) => out.push_str("a file"),
    }
}

/// The lengths of the fronts that are files.
pub fn fronts(alloc: Global, text: &[u8], out: &mut String) -> Written {
    out.push_str("files:")?;
    for length in 0..text.len() {
        front(alloc, &text[..length], out)?;
    }
    Ok(())
}

// Adds the length of a front that is a file.
fn front(alloc: Global, text: &[u8], out: &mut String) -> Written {
    if is_file(alloc, text)? {
        out.push(' ')?;
        number(out, text.len() as u128)?;
    }
    Ok(())
}

fn is_file(alloc: Global, text: &[u8]) -> Result<bool, AllocError> {
    let reading = read(alloc, text);
    is_tree(&reading)
}

fn is_tree(reading: &Reading) -> Result<bool, AllocError> {
    match reading {
        Reading::Tree(_) => Ok(true),
        Reading::Uncut(LexError::NoMemory) | Reading::Refused(ParseError::NoMemory) => {
            Err(AllocError)
        }
        Reading::Uncut(_) | Reading::Refused(_) => Ok(false),
    }
}
