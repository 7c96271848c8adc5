// What kind of statement comes.
#![tactic(auto, using(c_syntax_written::proofs::Trees::the_written_trees))]

ghost use Rattle.std.specs.Prelude.{◌≡◌};
ghost use Rattle.c_syntax_written.specs.WrittenFile.{stmt_tree};
ghost use Rattle.c_grammar.specs.Ahead.{no_left_bracket};
ghost use Rattle.c_grammar.specs.Made.{ends_open};
ghost use Rattle.c_parser.specs.SimpleKinds.{statement_at, statement_of, statement_of_word};

use c_parser_steps::{first, sign_at};
use c_syntax_written::{Keyword, Placed, Punctuator, Stmt, Token};

/// What a statement is by its first token, where it is no labelled one.
#[derive(Clone, Copy, PartialEq, Eq)]
pub enum StatementKind {
    Case,
    Default,
    If,
    Switch,
    While,
    Do,
    For,
    Goto,
    Continue,
    Break,
    Return,
    Block,
    Empty,
    Expression,
}

/// What kind of statement comes, where it has no label.
pub fn statement_at(tokens: &[Placed]) -> StatementKind
    ensures { result ≡ statement_at tokens.now }
{
    match first(tokens) {
        Some((placed, _)) => statement_of(&placed.token),
        None => StatementKind::Expression,
    }
}

fn statement_of(token: &Token) -> StatementKind
    ensures { result ≡ statement_of token.now }
{
    match token {
        Token::Keyword(keyword) => statement_of_word(*keyword),
        Token::Punctuator(Punctuator::LeftBrace) => StatementKind::Block,
        Token::Punctuator(Punctuator::Semicolon) => StatementKind::Empty,
        Token::Punctuator(_)
        | Token::Word(_)
        | Token::Number(_)
        | Token::Character(_)
        | Token::Text(_) => StatementKind::Expression,
    }
}

fn statement_of_word(keyword: Keyword) -> StatementKind
    ensures { result ≡ statement_of_word keyword }
{
    match keyword {
        Keyword::Case => StatementKind::Case,
        Keyword::Default => StatementKind::Default,
        Keyword::If => StatementKind::If,
        Keyword::Switch => StatementKind::Switch,
        Keyword::While => StatementKind::While,
        Keyword::Do => StatementKind::Do,
        Keyword::For => StatementKind::For,
        Keyword::Goto => StatementKind::Goto,
        Keyword::Continue => StatementKind::Continue,
        Keyword::Break => StatementKind::Break,
        Keyword::Return => StatementKind::Return,
        _ => StatementKind::Expression,
    }
}

/// Whether the token that comes is no `[`, which begins no statement.
pub fn no_left_bracket(tokens: &[Placed]) -> bool
    ensures { result ≡ no_left_bracket tokens.now }
{
    !matches!(sign_at(tokens), Some(Punctuator::LeftBracket))
}

/// Whether an if without else ends the statement.
#[tactic(auto, using(c_syntax_written::proofs::Trees::the_written_trees), unfolding(c_grammar::specs::Made::ends_open, c_syntax_written::specs::WrittenFile::stmt_tree))]
pub fn ends_open(stmt: &Stmt) -> bool
    ensures { result ≡ ends_open (stmt_tree stmt.now) }
{
    match stmt {
        Stmt::If { .. } => true,
        Stmt::Label { body, .. }
        | Stmt::Case { body, .. }
        | Stmt::Default { body, .. }
        | Stmt::Switch { body, .. }
        | Stmt::While { body, .. }
        | Stmt::For { body, .. } => ends_open(body),
        Stmt::IfElse { otherwise, .. } => ends_open(otherwise),
        Stmt::Block { .. }
        | Stmt::Empty { .. }
        | Stmt::Expression { .. }
        | Stmt::DoWhile { .. }
        | Stmt::Goto { .. }
        | Stmt::Continue { .. }
        | Stmt::Break { .. }
        | Stmt::Return { .. } => false,
    }
}
