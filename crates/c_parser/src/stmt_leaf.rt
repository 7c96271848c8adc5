// Statements that hold no other and no declaration, and a condition between parentheses.
#![tactic(auto)]

ghost use Rattle.std.specs.Prelude.{◌≡◌, ℕ, ◌+◌, ◌<◌, ◌≤◌, Bool, List, length, option_map, IfOk};
ghost use Rattle.c_syntax_written.specs.WrittenFile.{Expression, stmt_tree};
ghost use Rattle.c_syntax_written.specs.WrittenParts.{expr_pos};
ghost use Rattle.c_grammar.specs.Parts as part;
ghost use Rattle.c_parser_steps.specs.Answers.{Answers};
ghost use Rattle.c_parser_steps.specs.Views.{boxed_expr, lookahead_test, scene_of};
ghost use Rattle.c_parser.specs.SimpleKinds.{Conditions, StatementStarts};
ghost use Rattle.c_parser.specs.declared.stmt_kind.StatementKind.{StatementKind};
ghost use Rattle.c_grammar.specs.Choice.{is_closing};

use c_grammar::{Class, Closing, Level};
use c_parser_exprs::joined_operands;
use c_parser_steps::{Context, Fault, Lookahead, Reading, comes, name_of, taken};
use c_syntax_written::{Expr, Keyword, Placed, Punctuator, Stmt};

/// The token by which what ends an expression is told.
fn lookahead_of(closing: Closing) -> Lookahead
    ensures { lookahead_test result ≡ is_closing closing }
{
    match closing {
        Closing::BySemicolon => Lookahead::Semicolon,
        Closing::ByParenthesis => Lookahead::Close,
        Closing::ByBracket => Lookahead::RightBracket,
        Closing::ByColon => Lookahead::Colon,
    }
}

/// A semicolon alone.
pub fn empty_statement<'a>(
    context: &Context<'_>,
    count: u32,
    tokens: &'a [Placed],
) -> Reading<'a, Stmt>
    requires { StatementStarts (scene_of context.now) tokens.now StatementKind.Empty }
    ensures goes { (b : Bool) → Answers count (scene_of context.now) (part.AStmt (part.Statement b)) tokens.now (λ s. stmt_tree s) result }
    ensures shorter { IfOk result (λ x. length x.1.now < length tokens.now) }
{
    let semicolon = Class::Sign(Punctuator::Semicolon);
    let (at, rest) = got!(taken(context, count, 0, semicolon, tokens));
    Ok((Stmt::Empty { pos: at.pos }, rest))
}

/// An expression and its semicolon.
pub fn expression_statement<'a>(
    context: &Context<'_>,
    count: u32,
    tokens: &'a [Placed],
) -> Reading<'a, Stmt>
    requires { StatementStarts (scene_of context.now) tokens.now StatementKind.Expression }
    ensures goes { (b : Bool) → Answers count (scene_of context.now) (part.AStmt (part.Statement b)) tokens.now (λ s. stmt_tree s) result }
    ensures shorter { IfOk result (λ x. length x.1.now < length tokens.now) }
{
    let semicolon = Class::Sign(Punctuator::Semicolon);
    let (value, rest) = got!(joined_operands(context, Level::Commas, count, tokens));
    let (_end, rest) = got!(taken(context, count, 0, semicolon, rest));
    Ok((expression_stmt(value), rest))
}

/// The statement that an expression is.
#[tactic(auto, using(c_syntax_written::proofs::Trees::the_written_trees))]
fn expression_stmt(value: Box<Expr>) -> Stmt
    ensures { stmt_tree result ≡ Expression (expr_pos (boxed_expr value)) (boxed_expr value) }
{
    Stmt::Expression {
        pos: value.pos(),
        value,
    }
}

/// A jump to a label.
pub fn goto_statement<'a>(
    context: &Context<'_>,
    count: u32,
    tokens: &'a [Placed],
) -> Reading<'a, Stmt>
    requires { StatementStarts (scene_of context.now) tokens.now StatementKind.Goto }
    ensures goes { (b : Bool) → Answers count (scene_of context.now) (part.AStmt (part.Statement b)) tokens.now (λ s. stmt_tree s) result }
    ensures shorter { IfOk result (λ x. length x.1.now < length tokens.now) }
{
    let semicolon = Class::Sign(Punctuator::Semicolon);
    let (at, behind) = got!(taken(context, count, 0, Class::Keyword(Keyword::Goto), tokens));
    let (word, rest) = got!(taken(context, count, 0, Class::AnyWord, behind));
    let (_end, rest) = got!(taken(context, count, 0, semicolon, rest));
    let label = got!(name_of(context.alloc, &word.token), or Fault::NoMemory);
    Ok((Stmt::Goto { pos: at.pos, label }, rest))
}

/// `continue`.
pub fn continue_statement<'a>(
    context: &Context<'_>,
    count: u32,
    tokens: &'a [Placed],
) -> Reading<'a, Stmt>
    requires { StatementStarts (scene_of context.now) tokens.now StatementKind.Continue }
    ensures goes { (b : Bool) → Answers count (scene_of context.now) (part.AStmt (part.Statement b)) tokens.now (λ s. stmt_tree s) result }
    ensures shorter { IfOk result (λ x. length x.1.now < length tokens.now) }
{
    let semicolon = Class::Sign(Punctuator::Semicolon);
    let (at, behind) = got!(taken(context, count, 0, Class::Keyword(Keyword::Continue), tokens));
    let (_end, rest) = got!(taken(context, count, 0, semicolon, behind));
    Ok((Stmt::Continue { pos: at.pos }, rest))
}

/// `break`.
pub fn break_statement<'a>(
    context: &Context<'_>,
    count: u32,
    tokens: &'a [Placed],
) -> Reading<'a, Stmt>
    requires { StatementStarts (scene_of context.now) tokens.now StatementKind.Break }
    ensures goes { (b : Bool) → Answers count (scene_of context.now) (part.AStmt (part.Statement b)) tokens.now (λ s. stmt_tree s) result }
    ensures shorter { IfOk result (λ x. length x.1.now < length tokens.now) }
{
    let semicolon = Class::Sign(Punctuator::Semicolon);
    let (at, behind) = got!(taken(context, count, 0, Class::Keyword(Keyword::Break), tokens));
    let (_end, rest) = got!(taken(context, count, 0, semicolon, behind));
    Ok((Stmt::Break { pos: at.pos }, rest))
}

/// `return`.
pub fn return_statement<'a>(
    context: &Context<'_>,
    count: u32,
    tokens: &'a [Placed],
) -> Reading<'a, Stmt>
    requires { StatementStarts (scene_of context.now) tokens.now StatementKind.Return }
    ensures goes { (b : Bool) → Answers count (scene_of context.now) (part.AStmt (part.Statement b)) tokens.now (λ s. stmt_tree s) result }
    ensures shorter { IfOk result (λ x. length x.1.now < length tokens.now) }
{
    let (at, behind) = got!(taken(context, count, 0, Class::Keyword(Keyword::Return), tokens));
    let (value, rest) = got!(optional(context, Closing::BySemicolon, count, behind));
    Ok((Stmt::Return { pos: at.pos, value }, rest))
}

/// An expression, or nothing, and what ends it.
pub fn optional<'a>(
    context: &Context<'_>,
    closing: Closing,
    count: u32,
    tokens: &'a [Placed],
) -> Reading<'a, Option<Box<Expr>>>
    ensures goes { Answers count (scene_of context.now) (part.Optionally closing) tokens.now (λ e. option_map (λ v. boxed_expr v) e) result }
    ensures shorter { IfOk result (λ x. length x.1.now < length tokens.now) }
{
    let sign = Class::Sign(closing.sign());
    if comes(lookahead_of(closing), tokens) {
        let (_end, rest) = got!(taken(context, count, 0, sign, tokens));
        return Ok((None, rest));
    }
    let (value, rest) = got!(joined_operands(context, Level::Commas, count, tokens));
    let (_end, rest) = got!(taken(context, count, 0, sign, rest));
    Ok((Some(value), rest))
}

/// An expression between parentheses, behind the word of a statement.
pub fn condition<'a>(
    context: &Context<'_>,
    count: u32,
    tokens: &'a [Placed],
) -> Reading<'a, Box<Expr>>
    ensures goes { Conditions count (scene_of context.now) tokens.now result }
    ensures shorter { IfOk result (λ x. length x.1.now < length tokens.now) }
{
    let opens = Class::Sign(Punctuator::LeftParenthesis);
    let closes = Class::Sign(Punctuator::RightParenthesis);
    let (_opening, behind) = got!(taken(context, count, 1, opens, tokens));
    let (value, rest) = got!(joined_operands(context, Level::Commas, count + 1, behind));
    let (_close, rest) = got!(taken(context, count + 1, 0, closes, rest));
    Ok((value, rest))
}
