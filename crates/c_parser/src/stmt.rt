// Statements and blocks.
#![tactic(auto)]

ghost use Rattle.std.specs.Prelude.{◌≡◌, ℕ, ◌+◌, ◌<◌, ◌≤◌, Bool, true, not, ◌&&◌, List, length, IfOk};
ghost use Rattle.c_syntax_written.specs.WrittenFile.{blockitem_tree, blockitems_from, blockitems_then, blockitems_tree, none, stmt_tree};
ghost use Rattle.c_grammar.specs.Ahead.{label_ahead};
ghost use Rattle.c_grammar.specs.Choice.{is_else_word};
ghost use Rattle.c_grammar.specs.FileRules.{block_scene};
ghost use Rattle.c_grammar.specs.Made.{ends_open};
ghost use Rattle.c_grammar.specs.Parts as part;
ghost use Rattle.c_grammar.specs.Refused.{first_is};
ghost use Rattle.c_parser_steps.specs.Answers.{Answers};
ghost use Rattle.c_parser_steps.specs.Views.{boxed_expr, scene_of};
ghost use Rattle.c_parser.specs.SimpleKinds.{StatementStarts};
ghost use Rattle.c_parser.specs.HeadKinds.{Substatements, boxed_tree};

use crate::{
    StatementKind, break_statement, case_stmt, condition, continue_statement, declaration, do_stmt,
    empty_statement, ends_open, expression_statement, for_opening, for_stmt, goto_statement,
    if_else_stmt, if_stmt, no_left_bracket, return_statement, statement_at, switch_stmt,
    while_stmt,
};
use c_grammar::{Class, Setting};
use c_parser_exprs::conditional;
use c_parser_steps::{
    Context, Fault, Lookahead, Reading, boxed_name_of, comes, label_ahead, refused, spec_ahead,
    taken,
};
use c_syntax_written::{
    BlockItem, BlockItems, Expr, Keyword, Placed, Pos, Punctuator, Stmt, boxed,
};
use std::alloc::AllocError;

/// A statement, which is that of a switch where `switched`.
#[cycle(statements)]
fn statement<'a>(
    context: &Context<'_>,
    switched: bool,
    count: u32,
    tokens: &'a [Placed],
) -> Reading<'a, Stmt>
    ensures goes { Answers count (scene_of context.now) (part.AStmt (part.Statement switched)) tokens.now (λ s. stmt_tree s) result }
    ensures shorter { IfOk result (λ x. length x.1.now < length tokens.now) }
{
    if label_ahead(context, tokens) {
        return label(context, switched, count, tokens);
    }
    match statement_at(tokens) {
        StatementKind::Case => case(context, switched, count, tokens),
        StatementKind::Default => default_statement(context, switched, count, tokens),
        StatementKind::If => if_statement(context, switched, count, tokens),
        StatementKind::Switch => switch_statement(context, switched, count, tokens),
        StatementKind::While => while_loop(context, switched, count, tokens),
        StatementKind::Do => do_loop(context, switched, count, tokens),
        StatementKind::For => for_loop(context, switched, count, tokens),
        StatementKind::Block => block(context, switched, count, tokens),
        StatementKind::Goto => goto_statement(context, count, tokens),
        StatementKind::Continue => continue_statement(context, count, tokens),
        StatementKind::Break => break_statement(context, count, tokens),
        StatementKind::Return => return_statement(context, count, tokens),
        StatementKind::Empty => empty_statement(context, count, tokens),
        StatementKind::Expression => expression_statement(context, count, tokens),
    }
}

/// A label and its statement.
#[cycle(statements)]
fn label<'a>(
    context: &Context<'_>,
    switched: bool,
    count: u32,
    tokens: &'a [Placed],
) -> Reading<'a, Stmt>
    requires { label_ahead (scene_of context.now) tokens.now ≡ true }
    ensures goes { Answers count (scene_of context.now) (part.AStmt (part.Statement switched)) tokens.now (λ s. stmt_tree s) result }
    ensures shorter { IfOk result (λ x. length x.1.now < length tokens.now) }
{
    let colon = Class::Sign(Punctuator::Colon);
    let (at, behind) = got!(taken(context, count, 0, Class::Word, tokens));
    let (_colon, behind) = got!(taken(context, count, 0, colon, behind));
    let (body, rest) = got!(substatement(context, context.setting, false, count, behind));
    let name = got!(boxed_name_of(context.alloc, &at.token), or Fault::NoMemory);
    Ok((
        Stmt::Label {
            pos: at.pos,
            name,
            body,
        },
        rest,
    ))
}

/// A case and its statement.
#[cycle(statements)]
fn case<'a>(
    context: &Context<'_>,
    switched: bool,
    count: u32,
    tokens: &'a [Placed],
) -> Reading<'a, Stmt>
    requires { StatementStarts (scene_of context.now) tokens.now StatementKind.Case }
    ensures goes { Answers count (scene_of context.now) (part.AStmt (part.Statement switched)) tokens.now (λ s. stmt_tree s) result }
    ensures shorter { IfOk result (λ x. length x.1.now < length tokens.now) }
{
    let colon = Class::Sign(Punctuator::Colon);
    let (at, behind) = got!(taken(context, count, 0, Class::Keyword(Keyword::Case), tokens));
    let (value, rest) = got!(conditional(context, count, behind));
    let (_colon, behind) = got!(taken(context, count, 0, colon, rest));
    let (body, rest) = got!(substatement(context, context.setting, false, count, behind));
    Ok((case_stmt(at.pos, value, body), rest))
}

/// A default and its statement.
#[cycle(statements)]
fn default_statement<'a>(
    context: &Context<'_>,
    switched: bool,
    count: u32,
    tokens: &'a [Placed],
) -> Reading<'a, Stmt>
    requires { StatementStarts (scene_of context.now) tokens.now StatementKind.Default }
    ensures goes { Answers count (scene_of context.now) (part.AStmt (part.Statement switched)) tokens.now (λ s. stmt_tree s) result }
    ensures shorter { IfOk result (λ x. length x.1.now < length tokens.now) }
{
    let colon = Class::Sign(Punctuator::Colon);
    let (at, behind) = got!(taken(context, count, 0, Class::Keyword(Keyword::Default), tokens));
    let (_colon, behind) = got!(taken(context, count, 0, colon, behind));
    let (body, rest) = got!(substatement(context, context.setting, false, count, behind));
    Ok((Stmt::Default { pos: at.pos, body }, rest))
}

/// A block.
#[cycle(statements)]
fn block<'a>(
    context: &Context<'_>,
    switched: bool,
    count: u32,
    tokens: &'a [Placed],
) -> Reading<'a, Stmt>
    requires { StatementStarts (scene_of context.now) tokens.now StatementKind.Block }
    ensures goes { Answers count (scene_of context.now) (part.AStmt (part.Statement switched)) tokens.now (λ s. stmt_tree s) result }
    ensures shorter { IfOk result (λ x. length x.1.now < length tokens.now) }
{
    let brace = Class::Sign(Punctuator::LeftBrace);
    let (at, behind) = got!(taken(context, count, 1, brace, tokens));
    let (items, rest) = got!(block_items(context, switched, count + 1, behind));
    Ok((Stmt::Block { pos: at.pos, items }, rest))
}

/// An if, with its else where there is one.
#[cycle(statements)]
fn if_statement<'a>(
    context: &Context<'_>,
    switched: bool,
    count: u32,
    tokens: &'a [Placed],
) -> Reading<'a, Stmt>
    requires { StatementStarts (scene_of context.now) tokens.now StatementKind.If }
    ensures goes { Answers count (scene_of context.now) (part.AStmt (part.Statement switched)) tokens.now (λ s. stmt_tree s) result }
    ensures shorter { IfOk result (λ x. length x.1.now < length tokens.now) }
{
    let (at, behind) = got!(taken(context, count, 0, Class::Keyword(Keyword::If), tokens));
    let (value, rest) = got!(condition(context, count, behind));
    let (then, rest) = got!(substatement(context, Setting::InBlock, false, count, rest));
    else_part(context, count, at.pos, value, then, rest)
}

/// Else and its statement, where there is one.
#[cycle(statements)]
fn else_part<'a>(
    context: &Context<'_>,
    count: u32,
    at: Pos,
    condition: Box<Expr>,
    then: Box<Stmt>,
    tokens: &'a [Placed],
) -> Reading<'a, Stmt>
    ensures goes { Answers count (scene_of context.now) (part.AStmt (part.Else at (boxed_expr condition) (boxed_tree then)))
        tokens.now (λ s. stmt_tree s) result }
    ensures shorter { IfOk result (λ x. length x.1.now ≤ length tokens.now) }
{
    if else_comes(&then, tokens) {
        return else_form(context, count, at, condition, then, tokens);
    }
    Ok((if_stmt(at, condition, then), tokens))
}

/// Whether an else comes that is this if's.
fn else_comes(then: &Stmt, tokens: &[Placed]) -> bool
    ensures { result ≡ (first_is is_else_word tokens.now && not (ends_open (stmt_tree then.now))) }
{
    comes(Lookahead::Else, tokens) && !ends_open(then)
}

/// Else and its statement.
#[cycle(statements)]
fn else_form<'a>(
    context: &Context<'_>,
    count: u32,
    at: Pos,
    condition: Box<Expr>,
    then: Box<Stmt>,
    tokens: &'a [Placed],
) -> Reading<'a, Stmt>
    requires { (first_is is_else_word tokens.now && not (ends_open (boxed_tree then))) ≡ true }
    ensures goes { Answers count (scene_of context.now) (part.AStmt (part.Else at (boxed_expr condition) (boxed_tree then)))
        tokens.now (λ s. stmt_tree s) result }
    ensures shorter { IfOk result (λ x. length x.1.now < length tokens.now) }
{
    let (_word, behind) = got!(taken(context, count, 0, Class::Keyword(Keyword::Else), tokens));
    let (otherwise, rest) = got!(substatement(context, Setting::InBlock, false, count, behind));
    Ok((if_else_stmt(at, condition, then, otherwise), rest))
}

/// A switch.
#[cycle(statements)]
fn switch_statement<'a>(
    context: &Context<'_>,
    switched: bool,
    count: u32,
    tokens: &'a [Placed],
) -> Reading<'a, Stmt>
    requires { StatementStarts (scene_of context.now) tokens.now StatementKind.Switch }
    ensures goes { Answers count (scene_of context.now) (part.AStmt (part.Statement switched)) tokens.now (λ s. stmt_tree s) result }
    ensures shorter { IfOk result (λ x. length x.1.now < length tokens.now) }
{
    let (at, behind) = got!(taken(context, count, 0, Class::Keyword(Keyword::Switch), tokens));
    let (value, rest) = got!(condition(context, count, behind));
    let (body, rest) = got!(substatement(context, Setting::InBlock, true, count, rest));
    Ok((switch_stmt(at.pos, value, body), rest))
}

/// A loop that begins with its condition.
#[cycle(statements)]
fn while_loop<'a>(
    context: &Context<'_>,
    switched: bool,
    count: u32,
    tokens: &'a [Placed],
) -> Reading<'a, Stmt>
    requires { StatementStarts (scene_of context.now) tokens.now StatementKind.While }
    ensures goes { Answers count (scene_of context.now) (part.AStmt (part.Statement switched)) tokens.now (λ s. stmt_tree s) result }
    ensures shorter { IfOk result (λ x. length x.1.now < length tokens.now) }
{
    let (at, behind) = got!(taken(context, count, 0, Class::Keyword(Keyword::While), tokens));
    let (condition, rest) = got!(condition(context, count, behind));
    let (body, rest) = got!(substatement(context, Setting::InBlock, false, count, rest));
    Ok((while_stmt(at.pos, condition, body), rest))
}

/// A loop that ends with its condition.
#[cycle(statements)]
fn do_loop<'a>(
    context: &Context<'_>,
    switched: bool,
    count: u32,
    tokens: &'a [Placed],
) -> Reading<'a, Stmt>
    requires { StatementStarts (scene_of context.now) tokens.now StatementKind.Do }
    ensures goes { Answers count (scene_of context.now) (part.AStmt (part.Statement switched)) tokens.now (λ s. stmt_tree s) result }
    ensures shorter { IfOk result (λ x. length x.1.now < length tokens.now) }
{
    let semicolon = Class::Sign(Punctuator::Semicolon);
    let (at, behind) = got!(taken(context, count, 0, Class::Keyword(Keyword::Do), tokens));
    let (body, rest) = got!(substatement(context, Setting::InBlock, false, count, behind));
    let (_word, behind) = got!(taken(context, count, 0, Class::Keyword(Keyword::While), rest));
    let (condition, rest) = got!(condition(context, count, behind));
    let (_end, rest) = got!(taken(context, count, 0, semicolon, rest));
    Ok((do_stmt(at.pos, body, condition), rest))
}

/// A `for`.
#[cycle(statements)]
fn for_loop<'a>(
    context: &Context<'_>,
    switched: bool,
    count: u32,
    tokens: &'a [Placed],
) -> Reading<'a, Stmt>
    requires { StatementStarts (scene_of context.now) tokens.now StatementKind.For }
    ensures goes { Answers count (scene_of context.now) (part.AStmt (part.Statement switched)) tokens.now (λ s. stmt_tree s) result }
    ensures shorter { IfOk result (λ x. length x.1.now < length tokens.now) }
{
    let (opening, rest) = got!(for_opening(context, count, tokens));
    let (body, rest) = got!(substatement(context, Setting::InBlock, false, count, rest));
    Ok((for_stmt(opening, body), rest))
}

/// A statement that is a part of another one, where its tokens stand so. It counts as a form from
/// its first token on; a `[` begins none, and is refused where it does not count.
#[cycle(statements)]
fn substatement<'a>(
    context: &Context<'_>,
    setting: Setting,
    switched: bool,
    count: u32,
    tokens: &'a [Placed],
) -> Reading<'a, Box<Stmt>>
    requires { count ≤ 200 }
    ensures goes { Substatements count (scene_of context.now) setting switched tokens.now result }
    ensures shorter { IfOk result (λ x. length x.1.now < length tokens.now) }
{
    if !no_left_bracket(tokens) {
        return Err(refused(context, count, tokens));
    }
    let inner = Context {
        alloc: context.alloc,
        types: context.types,
        setting,
    };
    let (whole, rest) = got!(statement(&inner, switched, count + 1, tokens));
    let whole = got!(boxed(context.alloc, whole), or Fault::NoMemory);
    Ok((whole, rest))
}

/// Where the tokens of a block stand.
fn block_setting(switched: bool) -> Setting
    ensures { (w : part.Scene) → block_scene switched w ≡ record { types = w.types; setting = result } }
{
    if switched {
        Setting::InSwitch
    } else {
        Setting::InBlock
    }
}

/// The items of a block, up to the brace that closes it.
#[cycle(statements)]
pub fn block_items<'a>(
    context: &Context<'_>,
    switched: bool,
    count: u32,
    tokens: &'a [Placed],
) -> Reading<'a, BlockItems>
    ensures goes { Answers count (block_scene switched (scene_of context.now)) (part.Items none) tokens.now (λ i. blockitems_tree i) result }
    ensures shorter { IfOk result (λ x. length x.1.now < length tokens.now) }
{
    let inner = Context {
        alloc: context.alloc,
        types: context.types,
        setting: block_setting(switched),
    };
    items(&inner, count, tokens)
}

/// The items of a block, up to the brace that closes it.
#[cycle(statements)]
fn items<'a>(context: &Context<'_>, count: u32, tokens: &'a [Placed]) -> Reading<'a, BlockItems>
    ensures goes { Answers count (scene_of context.now) (part.Items none) tokens.now (λ i. blockitems_tree i) result }
    ensures shorter { IfOk result (λ x. length x.1.now < length tokens.now) }
{
    let mut items = Vec::new(context.alloc);
    let mut rest = tokens;
    while !comes(Lookahead::RightBrace, rest) {
        let (next, after) = got!(item(context, count, rest));
        got!(push_item(&mut items, next), or Fault::NoMemory);
        rest = after;
    }
    let closes = Class::Sign(Punctuator::RightBrace);
    let (_close, rest) = got!(taken(context, count, 0, closes, rest));
    Ok((BlockItems::from_vec(items), rest))
}

/// One more item at the end.
#[tactic(auto, using(c_syntax_written::proofs::Trees::the_written_trees))]
fn push_item(items: &mut Vec<BlockItem>, next: BlockItem) -> Result<(), AllocError>
    ensures { IfOk result (λ _. blockitems_from items.new.items ≡ blockitems_then (blockitems_from items.old.items) (blockitem_tree next)) }
{
    items.push(next)?;
    Ok(())
}

/// An item of a block.
#[cycle(statements)]
fn item<'a>(context: &Context<'_>, count: u32, tokens: &'a [Placed]) -> Reading<'a, BlockItem>
    ensures goes { Answers count (scene_of context.now) part.Item tokens.now (λ i. blockitem_tree i) result }
    ensures shorter { IfOk result (λ x. length x.1.now < length tokens.now) }
{
    if spec_ahead(context, tokens) {
        let (decl, rest) = got!(declaration(context, count, tokens));
        let decl = got!(boxed(context.alloc, decl), or Fault::NoMemory);
        return Ok((BlockItem::Declaration(decl), rest));
    }
    let (stmt, rest) = got!(statement(context, false, count, tokens));
    Ok((BlockItem::Statement(stmt), rest))
}
