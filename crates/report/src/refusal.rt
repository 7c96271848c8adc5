// Refusals, and the line that tells of one.
ghost use Rattle.std.specs.Prelude.{◌≡◌, ◌++◌, codes, IfOk, IfSome, string_bytes};
ghost use Rattle.c_check_names.specs.Views.{refusal_of};
ghost use Rattle.report.specs.Words.{construct_text};
ghost use Rattle.report.specs.TypeRefusals as told;
ghost use Rattle.report.specs.RuleRefusals as refused;
ghost use Rattle.report.specs.RuleText as rules;
ghost use Rattle.report.specs.Refusal.{refusal_tree};
ghost use Rattle.report.specs.RefusalText.{reason_text, file_front, file_line, place_front, place_line, line_at, line_of};

use crate::rule_refusals::{rule_pos, rule_text};
use crate::type_refusals::{refusal_pos, refusal_text};
use crate::type_words::construct_name;
use c_check_names::TypeError;
use c_lexer::Reason;
use c_rules::RuleError;
use c_syntax::{Construct, Names, Pos};
use std::alloc::{AllocError, Global};

/// For what a file is refused, and where.
#[derive(Drop)]
pub enum Refusal {
    /// It has more than 4,194,304 bytes.
    FileTooLarge,
    /// Its bytes are cut into tokens up to this place alone.
    Lexing(Reason, Pos),
    /// No file goes on with the token at this place, or the text ends there before the file does.
    Syntax(Pos),
    /// The token at this place bears a construct that this profile leaves out.
    Unsupported(Construct, Pos),
    /// With the token at this place more than 200 forms are unfinished.
    TooDeep(Pos),
    /// It has no types, for this reason, which is never out of memory.
    Typing(TypeError),
    /// The rules refuse it, for this reason, which is never out of memory. These are the names of its functions.
    Rule(Names, RuleError),
}

/// The line that tells of a refusal of the file of this name.
pub fn refusal_line(alloc: Global, name: &str, refusal: &Refusal) -> Result<Vec<u8>, AllocError>
    ensures { IfOk result (λ line. IfSome (refusal_tree refusal.now) (λ r. line.items ≡ line_of name.now r)) }
{
    match refusal {
        Refusal::FileTooLarge => file_line(alloc, name, "more than 4194304 bytes".as_bytes()),
        Refusal::Lexing(reason, at) => place_line(
            alloc,
            name,
            *at,
            reason_name(*reason).as_bytes(),
        ),
        Refusal::Syntax(at) => place_line(alloc, name, *at, "syntax".as_bytes()),
        Refusal::Unsupported(construct, at) => unsupported_line(alloc, name, *at, *construct),
        Refusal::TooDeep(at) => place_line(alloc, name, *at, "nesting above 200".as_bytes()),
        Refusal::Typing(error) => typing_line(alloc, name, error),
        Refusal::Rule(names, error) => rule_line(alloc, name, names, error),
    }
}

fn file_line(alloc: Global, name: &str, text: &[u8]) -> Result<Vec<u8>, AllocError>
    ensures { IfOk result (λ line. line.items ≡ file_line name.now text.now) }
{
    let front = file_front(alloc, name)?;
    behind(front, text)
}

fn file_front(alloc: Global, name: &str) -> Result<String, AllocError>
    ensures { IfOk result (λ front. string_bytes front ≡ file_front name.now) }
{
    format!(in alloc; "{name}: refused: ")
}

fn place_line(alloc: Global, name: &str, at: Pos, text: &[u8]) -> Result<Vec<u8>, AllocError>
    ensures { IfOk result (λ line. line.items ≡ place_line name.now at text.now) }
{
    let front = place_front(alloc, name, at)?;
    behind(front, text)
}

fn place_front(alloc: Global, name: &str, at: Pos) -> Result<String, AllocError>
    ensures { IfOk result (λ front. string_bytes front ≡ place_front name.now at) }
{
    let line = at.line;
    let col = at.col;
    format!(in alloc; "{name}:{line}:{col}: refused: ")
}

// A text behind a front, as a line.
fn behind(front: String, text: &[u8]) -> Result<Vec<u8>, AllocError>
    ensures { IfOk result (λ line. line.items ≡ string_bytes front ++ (text.now ++ codes "\n")) }
{
    let mut line = front.into_bytes();
    line.extend_from_slice(text)?;
    line.push(b'\n')?;
    Ok(line)
}

// The line of a refusal that may have a place.
fn line_at(alloc: Global, name: &str, at: Option<Pos>, text: &[u8]) -> Result<Vec<u8>, AllocError>
    ensures { IfOk result (λ line. line.items ≡ line_at name.now at text.now) }
{
    match at {
        None => file_line(alloc, name, text),
        Some(at) => place_line(alloc, name, at, text),
    }
}

fn unsupported_line(
    alloc: Global,
    name: &str,
    at: Pos,
    construct: Construct,
) -> Result<Vec<u8>, AllocError>
    ensures { IfOk result
        (λ line. line.items ≡ place_line name.now at (codes "unsupported " ++ construct_text construct)) }
{
    let construct = construct_name(construct);
    let text = format!(in alloc; "unsupported {construct}")?;
    place_line(alloc, name, at, text.as_bytes())
}

fn typing_line(alloc: Global, name: &str, error: &TypeError) -> Result<Vec<u8>, AllocError>
    ensures { IfOk result (λ line. IfSome (refusal_of error.now)
        (λ r. line.items ≡ place_line name.now (told.refusal_pos r) (told.refusal_text r))) }
{
    match refusal_pos(error) {
        // Out of memory stands nowhere.
        None => Err(AllocError),
        Some(at) => {
            let text = refusal_text(alloc, error)?;
            place_line(alloc, name, at, text.as_slice())
        }
    }
}

fn rule_line(
    alloc: Global,
    name: &str,
    names: &Names,
    error: &RuleError,
) -> Result<Vec<u8>, AllocError>
    ensures { IfOk result
        (λ line. IfSome (refused.refusal_of error.now) (λ r. line.items ≡ line_at name.now (rules.rule_pos r) (rules.rule_text names.now r))) }
{
    let text = rule_text(alloc, names, error)?;
    let line = line_at(alloc, name, rule_pos(error), text.as_slice())?;
    Ok(line)
}

fn reason_name(reason: Reason) -> &'static str
    ensures { result.now ≡ reason_text reason }
{
    match reason {
        Reason::BadByte => "byte not allowed",
        Reason::Unterminated => "unterminated comment or literal",
        Reason::BadNumber => "not an integer constant",
        Reason::TooWide => "integer constant too wide",
        Reason::BadEscape => "bad character or escape",
        Reason::Directive => "directive",
    }
}
