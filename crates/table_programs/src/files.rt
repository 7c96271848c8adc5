// The typed program of a file, and what the rules say of it.

ghost use Rattle.std.specs.Prelude.{IfOk};
ghost use Rattle.c_layout.specs.Plans.{IsPlanFor};
ghost use Rattle.c_layout.specs.WellTyped.{IsWellTyped};
ghost use Rattle.c_syntax.specs.Program.{tprogram_tree};

mod answer;

use c_check::check;
use c_check_names::TypeError;
use c_lexer::{LexError, lex};
use c_parser::{ParseError, parse};
use c_rules::{RuleError, admit};
use c_syntax::{File, Names, Plan, TProgram};
use report::names_of;
use std::alloc::{AllocError, AllocFailed, Global};

/// The most bytes of a file that is cut into tokens.
pub const MOST: usize = 4_194_304;

/// Why a file is not typed or admitted.
#[derive(Drop)]
pub enum Fault {
    NoFile,
    Typing(TypeError),
    /// What is refused by the rules, and the names of the functions by their numbers.
    Rules(RuleError, Names),
    NoMemory,
}

impl From<AllocError> for Fault {
    fn from(_error: AllocError) -> Fault {
        Fault::NoMemory
    }
}

impl<T: Drop> From<AllocFailed<T>> for Fault {
    fn from(_error: AllocFailed<T>) -> Fault {
        Fault::NoMemory
    }
}

/// What a file is answered to a word.
pub fn line(alloc: Global, word: &str, text: &str) -> Result<String, AllocError> {
    match told(alloc, word, text) {
        Ok(line) => Ok(line),
        Err(fault) => answer::fault(alloc, &fault),
    }
}

fn told(alloc: Global, word: &str, text: &str) -> Result<String, Fault> {
    let program = program(alloc, text)?;
    told_of(alloc, word, &program)
}

fn told_of(alloc: Global, word: &str, program: &TProgram) -> Result<String, Fault> {
    match word {
        "file" => Ok(answer::objects(alloc, &program.objects)?),
        "admit" => admission(alloc, program),
        "plan" => order(alloc, program),
        _ => Ok(String::from_str(alloc, "no such row")?),
    }
}

// That a program is admitted.
fn admission(alloc: Global, program: &TProgram) -> Result<String, Fault> {
    plan(alloc, program)?;
    Ok(String::from_str(alloc, "admitted")?)
}

// The plan of a program that is admitted.
fn order(alloc: Global, program: &TProgram) -> Result<String, Fault> {
    let plan = plan(alloc, program)?;
    Ok(answer::order(alloc, &plan)?)
}

/// The plan of a program, or the fault of the rule that refuses it.
pub fn plan(alloc: Global, program: &TProgram) -> Result<Plan, Fault>
    ensures { IfOk result (IsPlanFor (tprogram_tree program.now)) }
{
    match admit(alloc, program) {
        Ok(plan) => Ok(plan),
        Err(error) => {
            let names = names_of(alloc, program)?;
            Err(Fault::Rules(error, names))
        }
    }
}

/// The typed program of a file, in which `¶` stands for the end of a line.
pub fn program(alloc: Global, text: &str) -> Result<TProgram, Fault>
    ensures { IfOk result (λ program. IsWellTyped (tprogram_tree program)) }
{
    let text = with_lines(alloc, text)?;
    let Some(file) = file(alloc, text.as_str().as_bytes())? else {
        return Err(Fault::NoFile);
    };
    match check(alloc, file) {
        Ok(program) => Ok(program),
        Err(error) => Err(Fault::Typing(error)),
    }
}

/// The text with the end of a line for each `¶`.
pub fn with_lines(alloc: Global, text: &str) -> Result<String, AllocError> {
    let mut lines = String::new(alloc);
    for letter in text.chars() {
        lines.push(if letter == '¶' { '\n' } else { letter })?;
    }
    Ok(lines)
}

/// The tree of a file; none where it is refused.
pub fn file(alloc: Global, text: &[u8]) -> Result<Option<File>, AllocError> {
    if text.len() > MOST {
        return Ok(None);
    }
    let tokens = match lex(alloc, 0, text) {
        Ok(tokens) => tokens,
        Err(LexError::NoMemory) => return Err(AllocError),
        Err(_) => return Ok(None),
    };
    match parse(alloc, &tokens) {
        Ok(file) => Ok(Some(file)),
        Err(ParseError::NoMemory) => Err(AllocError),
        Err(_) => Ok(None),
    }
}
