// The lowered program of a file.

use c_check::check;
use c_lexer::lex;
use c_parser::parse;
use c_rules::admit;
use c_syntax::{File, TProgram};
use csharp::CsProgram;
use lower_program::lower;
use std::alloc::{AllocError, AllocFailed, Global};

pub type Written = Result<(), AllocError>;

/// The most bytes of a file that is cut into tokens.
const MOST: usize = 4_194_304;

/// Why a row has no answer of its kind.
#[derive(Clone, Copy)]
pub enum Fault {
    /// The file is refused, or an input is no number.
    Refused,
    /// The run comes to what the code does not hold.
    Unheld,
    NoMemory,
}

impl From<AllocError> for Fault {
    fn from(_error: AllocError) -> Fault {
        Fault::NoMemory
    }
}

impl<T: Drop> From<AllocFailed<T>> for Fault {
    fn from(_error: AllocFailed<T>) -> Fault {
        Fault::NoMemory
    }
}

/// What is written in place of an answer.
pub fn refusal(fault: Fault, out: &mut String) -> Written {
    match fault {
        Fault::Refused => out.push_str("Refused"),
        Fault::Unheld => out.push_str("None"),
        Fault::NoMemory => Err(AllocError),
    }
}

/// The lowered program of a file, in which `¶` stands for the end of a line.
pub fn lowered(alloc: Global, text: &str) -> Result<CsProgram, Fault> {
    let text = with_lines(alloc, text)?;
    let file = file(alloc, text.as_str().as_bytes())?;
    match check(alloc, file) {
        Ok(program) => admitted(alloc, &program),
        Err(_) => Err(Fault::Refused),
    }
}

fn admitted(alloc: Global, program: &TProgram) -> Result<CsProgram, Fault> {
    match admit(alloc, program) {
        Ok(plan) => Ok(lower(alloc, program, &plan)?),
        Err(_) => Err(Fault::Refused),
    }
}

// The text with the end of a line for each `¶`.
fn with_lines(alloc: Global, text: &str) -> Result<String, AllocError> {
    let mut lines = String::new(alloc);
    for letter in text.chars() {
        lines.push(if letter == '¶' { '\n' } else { letter })?;
    }
    Ok(lines)
}

// The tree of a file.
fn file(alloc: Global, text: &[u8]) -> Result<File, Fault> {
    if text.len() > MOST {
        return Err(Fault::Refused);
    }
    let Ok(tokens) = lex(alloc, 0, text) else {
        return Err(Fault::Refused);
    };
    match parse(alloc, &tokens) {
        Ok(file) => Ok(file),
        Err(_) => Err(Fault::Refused),
    }
}
