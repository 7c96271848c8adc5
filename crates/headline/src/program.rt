// The program that a file's bytes are.
ghost use Rattle.std.specs.Prelude.{◌≤◌, List, ℕ, length, IfOk};
ghost use Rattle.c_syntax_written.specs.WrittenFile.{file_tree};
ghost use Rattle.c_syntax.specs.Program.{tprogram_tree};
ghost use Rattle.c_lexer.specs.Cut.{IsCut};
ghost use Rattle.c_layout.specs.Plans.{IsPlanFor};
ghost use Rattle.c_rules.specs.Rules.{IsAdmitted};
ghost use Rattle.headline.specs.Program.{IsSource, IsTypedAs};
ghost use Rattle.headline.specs.Read.{Tells};

use crate::verdict::{one_program, program_nor_refused};
use c_check::check;
use c_check_names::TypeError;
use c_lexer::{LexError, Reason, lex};
use c_parser::{ParseError, parse};
use c_rules::{RuleError, admit};
use c_syntax::{File, Plan, TProgram, Tokens};
use c_typing_laws::typed_is_well_typed;
use c_typing_places::sites_of_texts_agree;
use report::{Refusal, names_of};
use std::alloc::{AllocError, Global};

/// What a file's bytes are.
#[derive(Drop)]
pub enum Read {
    /// This program, with its plan.
    Program(TProgram, Plan),
    /// No program, for this.
    Refused(Refusal),
}

/// Reads the program of the bytes.
pub fn program_of(alloc: Global, bytes: &[u8]) -> Result<Read, AllocError>
    requires { length bytes.now ≤ 4194304 }
    ensures { IfOk result (λ read. Tells bytes.now read) }
{
    match lex(alloc, 0, bytes) {
        Ok(tokens) => parsed(alloc, tokens),
        Err(LexError::NoMemory) => Err(AllocError),
        Err(LexError::BadByte(at)) => Ok(Read::Refused(Refusal::Lexing(Reason::BadByte, at))),
        Err(LexError::Unterminated(at)) => {
            Ok(Read::Refused(Refusal::Lexing(Reason::Unterminated, at)))
        }
        Err(LexError::BadNumber(at)) => Ok(Read::Refused(Refusal::Lexing(Reason::BadNumber, at))),
        Err(LexError::TooWide(at)) => Ok(Read::Refused(Refusal::Lexing(Reason::TooWide, at))),
        Err(LexError::BadEscape(at)) => Ok(Read::Refused(Refusal::Lexing(Reason::BadEscape, at))),
        Err(LexError::Directive(at)) => Ok(Read::Refused(Refusal::Lexing(Reason::Directive, at))),
    }
}

// The program of bytes that are cut into these tokens, which are dropped before their file is typed.
fn parsed(alloc: Global, tokens: Tokens) -> Result<Read, AllocError>
    ensures { IfOk result (λ read. (bytes : List ℕ) → length bytes ≤ 4194304 → IsCut 0 bytes tokens → Tells bytes read) }
{
    let tree = parse(alloc, &tokens);
    drop(tokens);
    match tree {
        Ok(file) => typed(alloc, file),
        Err(ParseError::NoMemory) => Err(AllocError),
        Err(ParseError::Syntax(at)) => Ok(Read::Refused(Refusal::Syntax(at))),
        Err(ParseError::Unsupported(at, construct)) => {
            Ok(Read::Refused(Refusal::Unsupported(construct, at)))
        }
        Err(ParseError::TooDeep(at)) => Ok(Read::Refused(Refusal::TooDeep(at))),
    }
}

// The program of bytes that are this file.
fn typed(alloc: Global, file: File) -> Result<Read, AllocError>
    ensures { IfOk result (λ read. (bytes : List ℕ) → length bytes ≤ 4194304 → IsSource bytes (file_tree file) → Tells bytes read) }
{
    match check(alloc, file) {
        Ok(program) => ruled(alloc, program),
        Err(TypeError::NoMemory) => Err(AllocError),
        Err(error) => Ok(Read::Refused(Refusal::Typing(error))),
    }
}

// The program of bytes that have this typed program.
fn ruled(alloc: Global, program: TProgram) -> Result<Read, AllocError>
    ensures { IfOk result
        (λ read. (bytes : List ℕ) → length bytes ≤ 4194304 → IsTypedAs bytes (tprogram_tree program) → Tells bytes read) }
{
    match admit(alloc, &program) {
        Ok(plan) => Ok(planned(program, plan)),
        Err(RuleError::NoMemory) => Err(AllocError),
        Err(error) => {
            let names = names_of(alloc, &program)?;
            Ok(Read::Refused(Refusal::Rule(names, error)))
        }
    }
}

// The program of bytes that have this typed program, which the rules admit with this plan.
fn planned(program: TProgram, plan: Plan) -> Read
    requires admitted { IsAdmitted (tprogram_tree program) }
    requires plan { IsPlanFor (tprogram_tree program) plan }
    ensures { (bytes : List ℕ) → length bytes ≤ 4194304 → IsTypedAs bytes (tprogram_tree program) → Tells bytes result }
{
    // The bytes have no other program, and with one they are not refused.
    one_program();
    program_nor_refused();
    // The program is well typed, and what stands at one place of it looks at the same.
    typed_is_well_typed();
    sites_of_texts_agree();
    Read::Program(program, plan)
}
