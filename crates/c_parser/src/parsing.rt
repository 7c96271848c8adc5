// The whole of a file.
#![tactic(auto, using(c_syntax_written::proofs::Trees::the_written_trees))]

ghost use Rattle.std.specs.Prelude.{◌≡◌, ◌⊎◌, ℕ, ◌<◌, List, [], map, length, IfOk, IfErr, MatchResult};
ghost use Rattle.c_syntax_written.specs.WrittenFile.{FileTree, file_tree, outer_tree};
ghost use Rattle.c_syntax_written.specs.declared.token.Placed.{Placed};
ghost use Rattle.c_grammar.specs.Refused.{IsFile, IsRefused, Why};
ghost use Rattle.c_parser.specs.Refusals.{IsError, IsErrorOf, TellsRefused, place_of};
ghost use Rattle.c_grammar.specs.Parts as part;
ghost use Rattle.c_parser_steps.specs.Answers.{Answers, Halts};
ghost use Rattle.c_grammar.specs.Grammar.{at_start};
ghost use Rattle.c_grammar.specs.Descent.{Done, Goes, Stop};
ghost use Rattle.c_parser.specs.declared.parsing.ParseError.TheVariants.{NoMemory};

use crate::outer::{outer, types_after};
use c_grammar::Setting;
use c_parser_steps::{Context, Fault, Reading, TypeNames};
use c_syntax_written::{Construct, File, Outer, Outers, Placed, Pos, Tokens};
use std::alloc::Global;
use thiserror::Error;

/// Why there is no tree: the first token that is refused, or the end of the text, with the reason;
/// or memory ran out.
#[derive(Clone, Copy, Debug, PartialEq, Eq, Error)]
pub enum ParseError {
    /// No file goes on with this token, or the text ends before the file does.
    #[error("syntax")]
    Syntax(Pos),
    /// The token bears a construct that this profile leaves out.
    #[error("unsupported {1:?}")]
    Unsupported(Pos, Construct),
    /// With this token more than 200 forms are unfinished.
    #[error("nesting above 200")]
    TooDeep(Pos),
    #[error("out of memory")]
    NoMemory,
}

/// The tree of the tokens of a file. An error tells of the first token that is refused, or of the
/// end, with the first reason that refuses it; `NoMemory` comes where memory runs out.
pub fn parse(alloc: Global, tokens: &Tokens) -> Result<File, ParseError>
    // What is answered is the tree of the tokens.
    ensures ok { IfOk result (λ file. IsFile tokens.now.list (file_tree file)) }
    // Tokens with a tree of which none is refused are answered with it, unless memory runs out.
    ensures only { (file : FileTree) → IsFile tokens.now.list file → MatchResult result (λ f. file_tree f ≡ file) (λ e. e ≡ NoMemory) }
    // What is refused is refused for this reason at this place.
    ensures refused { IfErr result (λ e. TellsRefused tokens.now e) }
    // Tokens that are refused are answered so, unless memory runs out.
    ensures stops { (rest : List Placed) (why : Why) → IsRefused tokens.now.list rest why
        → MatchResult result (λ _. ⊥) (λ e. IsError tokens.now rest why e ⊎ (e ≡ NoMemory)) }
{
    match outers(alloc, tokens.list.as_slice()) {
        Ok(outers) => Ok(File {
            outers: Outers::from_vec(outers),
        }),
        Err(fault) => Err(error_of(tokens, fault)),
    }
}

// The declarations of a file.
fn outers(alloc: Global, tokens: &[Placed]) -> Result<Vec<Outer>, Fault<'_>>
    ensures { MatchResult result (λ v. Goes 0 at_start (part.Outers []) tokens.now (Done (map (λ o. outer_tree o) v.items) []))
        (λ f. Halts (λ why rest. Goes 0 at_start (part.Outers []) tokens.now (Stop why rest)) f) }
{
    let mut outers: Vec<Outer> = Vec::new(alloc);
    let mut types = TypeNames::new(alloc);
    let mut rest = tokens;
    while !rest.is_empty() {
        let (next, after) = outer_here(alloc, &types, rest)?;
        types = types_after(types, &next)?;
        outers.push(next)?;
        rest = after;
    }
    Ok(outers)
}

fn outer_here<'a>(alloc: Global, types: &TypeNames, tokens: &'a [Placed]) -> Reading<'a, Outer>
    ensures goes { Answers 0 (record { types = types.now; setting = Setting.AtFile }) (part.AnOuter part.Outer) tokens.now (λ o. outer_tree o) result }
    ensures shorter { IfOk result (λ x. length x.1.now < length tokens.now) }
{
    let context = Context {
        alloc,
        types,
        setting: Setting::AtFile,
    };
    outer(&context, 0, tokens)
}

// The fault, with the place of its first token, or the end where there is none.
fn error_of(tokens: &Tokens, fault: Fault<'_>) -> ParseError
    ensures { IsErrorOf tokens.now fault.entry result }
{
    match fault {
        Fault::NoMemory => ParseError::NoMemory,
        Fault::Syntax(rest) => ParseError::Syntax(place_of(tokens, rest)),
        Fault::Unsupported(construct, rest) => {
            ParseError::Unsupported(place_of(tokens, rest), construct)
        }
        Fault::TooDeep(rest) => ParseError::TooDeep(place_of(tokens, rest)),
    }
}

fn place_of(tokens: &Tokens, rest: &[Placed]) -> Pos
    ensures { result ≡ place_of tokens.now rest.now }
{
    match rest {
        [first, ..] => first.pos,
        [] => tokens.end,
    }
}
