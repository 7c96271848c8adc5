// The head of a `for`.
#![tactic(auto)]

ghost use Rattle.std.specs.Prelude.{◌≡◌, ℕ, ◌+◌, ◌<◌, ◌≤◌, Bool, List, Option, length, IfOk};
ghost use Rattle.c_syntax_written.specs.WrittenFile.{For, forstart_tree, optional_tree, stmt_tree};
ghost use Rattle.c_grammar.specs.Parts as part;
ghost use Rattle.c_parser_steps.specs.Answers.{Answers};
ghost use Rattle.c_parser_steps.specs.Views.{scene_of};
ghost use Rattle.c_parser.specs.SimpleKinds.{StatementStarts};
ghost use Rattle.c_parser.specs.declared.stmt_kind.StatementKind.{StatementKind};
ghost use Rattle.c_parser.specs.HeadKinds.{ForOpenings, boxed_tree};

use crate::{declaration, optional};
use c_grammar::{Class, Closing, Level};
use c_parser_exprs::joined_operands;
use c_parser_steps::{Context, Fault, Lookahead, Reading, comes, spec_ahead, taken};
use c_syntax_written::{ForHead, ForStart, Keyword, Placed, Pos, Punctuator, Stmt, boxed};

/// The word `for` and what stands between its parentheses.
#[derive(Drop)]
pub struct ForOpening {
    pub pos: Pos,
    pub head: Box<ForHead>,
}

/// What stands before the statement of a `for`.
pub fn for_opening<'a>(
    context: &Context<'_>,
    count: u32,
    tokens: &'a [Placed],
) -> Reading<'a, ForOpening>
    requires { StatementStarts (scene_of context.now) tokens.now StatementKind.For }
    ensures goes { ForOpenings count (scene_of context.now) tokens.now result }
    ensures shorter { IfOk result (λ x. length x.1.now < length tokens.now) }
    ensures within { IfOk result (λ _. count + 1 ≤ 200) }
{
    let opens = Class::Sign(Punctuator::LeftParenthesis);
    let (at, behind) = got!(taken(context, count, 0, Class::Keyword(Keyword::For), tokens));
    let (_opening, behind) = got!(taken(context, count, 1, opens, behind));
    let (start, rest) = got!(for_start(context, count + 1, behind));
    let (condition, rest) = got!(optional(context, Closing::BySemicolon, count + 1, rest));
    let (step, rest) = got!(optional(context, Closing::ByParenthesis, count + 1, rest));
    let head = ForHead {
        start,
        condition,
        step,
    };
    let head = got!(boxed(context.alloc, head), or Fault::NoMemory);
    Ok((ForOpening { pos: at.pos, head }, rest))
}

/// A `for`, of its opening and its statement.
pub fn for_stmt(opening: ForOpening, body: Box<Stmt>) -> Stmt
    ensures { stmt_tree result ≡ For opening.pos (forstart_tree opening.head.value.start) (optional_tree opening.head.value.condition)
        (optional_tree opening.head.value.step) (boxed_tree body) }
{
    Stmt::For {
        pos: opening.pos,
        head: opening.head,
        body,
    }
}

/// How a `for` begins, up to its first semicolon.
fn for_start<'a>(context: &Context<'_>, count: u32, tokens: &'a [Placed]) -> Reading<'a, ForStart>
    ensures goes { Answers count (scene_of context.now) part.ForStart tokens.now (λ s. forstart_tree s) result }
    ensures shorter { IfOk result (λ x. length x.1.now < length tokens.now) }
{
    let semicolon = Class::Sign(Punctuator::Semicolon);
    if comes(Lookahead::Semicolon, tokens) {
        let (_end, rest) = got!(taken(context, count, 0, semicolon, tokens));
        return Ok((ForStart::Nothing, rest));
    }
    if spec_ahead(context, tokens) {
        let (decl, rest) = got!(declaration(context, count, tokens));
        let decl = got!(boxed(context.alloc, decl), or Fault::NoMemory);
        return Ok((ForStart::Declares(decl), rest));
    }
    let (value, rest) = got!(joined_operands(context, Level::Commas, count, tokens));
    let (_end, rest) = got!(taken(context, count, 0, semicolon, rest));
    Ok((ForStart::Value(value), rest))
}
