// What comes next, as far as the descent through expressions must know.

ghost use Rattle.std.specs.Prelude.{◌≡◌};
ghost use Rattle.c_grammar.specs.Classes.{assign_sign, step_sign, unary_sign};
ghost use Rattle.c_parser_steps.specs.Views.{scene_of};
ghost use Rattle.c_parser_steps.specs.Kinds.{assign_at, assign_of_sign, prefix_at, prefix_of, prefix_of_sign, primary_at, primary_of, suffix_at, suffix_of_sign};

use crate::context::Context;
use crate::token::{first, sign_at};
use c_syntax_written::{AssignOp, Keyword, Placed, Punctuator, StepWay, Token, UnaryOp};

/// What makes an assignment of what stands before it.
#[derive(Clone, Copy, PartialEq, Eq)]
pub enum AssignKind {
    Plain,
    Compound(AssignOp),
    Nothing,
}

/// What a unary expression begins with.
#[derive(Clone, Copy, PartialEq, Eq)]
pub enum PrefixKind {
    Sizeof,
    Step(StepWay),
    Unary(UnaryOp),
    Nothing,
}

/// What goes on with a postfix expression.
#[derive(Clone, Copy, PartialEq, Eq)]
pub enum SuffixKind {
    Index,
    Call,
    Dot,
    Arrow,
    Step(StepWay),
    Nothing,
}

/// What a primary expression begins with.
#[derive(Clone, Copy, PartialEq, Eq)]
pub enum PrimaryKind {
    Word,
    Number,
    Character,
    Text,
    Enclosed,
    Neither,
}

/// What follows a conditional: an assignment operator, or none.
pub fn assign_at(tokens: &[Placed]) -> AssignKind
    ensures { result ≡ assign_at tokens.now }
{
    match sign_at(tokens) {
        Some(sign) => assign_of(sign),
        None => AssignKind::Nothing,
    }
}

fn assign_of(sign: Punctuator) -> AssignKind
    ensures { result ≡ assign_of_sign sign }
{
    match sign {
        Punctuator::Assign => AssignKind::Plain,
        Punctuator::MultiplyAssign => AssignKind::Compound(AssignOp::Multiply),
        Punctuator::DivideAssign => AssignKind::Compound(AssignOp::Divide),
        Punctuator::RemainderAssign => AssignKind::Compound(AssignOp::Remainder),
        Punctuator::AddAssign => AssignKind::Compound(AssignOp::Plus),
        Punctuator::SubtractAssign => AssignKind::Compound(AssignOp::Minus),
        Punctuator::ShiftLeftAssign => AssignKind::Compound(AssignOp::ShiftLeft),
        Punctuator::ShiftRightAssign => AssignKind::Compound(AssignOp::ShiftRight),
        Punctuator::AndAssign => AssignKind::Compound(AssignOp::BitAnd),
        Punctuator::XorAssign => AssignKind::Compound(AssignOp::BitXor),
        Punctuator::OrAssign => AssignKind::Compound(AssignOp::BitOr),
        _ => AssignKind::Nothing,
    }
}

/// How the operator of an `op=` is written.
pub fn assign_sign(op: AssignOp) -> Punctuator
    ensures { result ≡ assign_sign op }
{
    match op {
        AssignOp::Multiply => Punctuator::MultiplyAssign,
        AssignOp::Divide => Punctuator::DivideAssign,
        AssignOp::Remainder => Punctuator::RemainderAssign,
        AssignOp::Plus => Punctuator::AddAssign,
        AssignOp::Minus => Punctuator::SubtractAssign,
        AssignOp::ShiftLeft => Punctuator::ShiftLeftAssign,
        AssignOp::ShiftRight => Punctuator::ShiftRightAssign,
        AssignOp::BitAnd => Punctuator::AndAssign,
        AssignOp::BitXor => Punctuator::XorAssign,
        AssignOp::BitOr => Punctuator::OrAssign,
    }
}

/// What a unary expression begins with.
pub fn prefix_at(tokens: &[Placed]) -> PrefixKind
    ensures { result ≡ prefix_at tokens.now }
{
    match first(tokens) {
        Some((placed, _)) => prefix_of(&placed.token),
        None => PrefixKind::Nothing,
    }
}

fn prefix_of(token: &Token) -> PrefixKind
    ensures { result ≡ prefix_of token.now }
{
    match token {
        Token::Punctuator(sign) => prefix_of_sign(*sign),
        Token::Keyword(Keyword::Sizeof) => PrefixKind::Sizeof,
        Token::Keyword(_)
        | Token::Word(_)
        | Token::Number(_)
        | Token::Character(_)
        | Token::Text(_) => PrefixKind::Nothing,
    }
}

fn prefix_of_sign(sign: Punctuator) -> PrefixKind
    ensures { result ≡ prefix_of_sign sign }
{
    match sign {
        Punctuator::Increment => PrefixKind::Step(StepWay::Up),
        Punctuator::Decrement => PrefixKind::Step(StepWay::Down),
        Punctuator::Ampersand => PrefixKind::Unary(UnaryOp::AddressOf),
        Punctuator::Star => PrefixKind::Unary(UnaryOp::Deref),
        Punctuator::Plus => PrefixKind::Unary(UnaryOp::Plus),
        Punctuator::Minus => PrefixKind::Unary(UnaryOp::Minus),
        Punctuator::Tilde => PrefixKind::Unary(UnaryOp::Complement),
        Punctuator::Exclamation => PrefixKind::Unary(UnaryOp::Not),
        _ => PrefixKind::Nothing,
    }
}

/// How a unary operator is written.
pub fn unary_sign(op: UnaryOp) -> Punctuator
    ensures { result ≡ unary_sign op }
{
    match op {
        UnaryOp::AddressOf => Punctuator::Ampersand,
        UnaryOp::Deref => Punctuator::Star,
        UnaryOp::Plus => Punctuator::Plus,
        UnaryOp::Minus => Punctuator::Minus,
        UnaryOp::Complement => Punctuator::Tilde,
        UnaryOp::Not => Punctuator::Exclamation,
    }
}

/// How a step is written.
pub fn step_sign(way: StepWay) -> Punctuator
    ensures { result ≡ step_sign way }
{
    match way {
        StepWay::Up => Punctuator::Increment,
        StepWay::Down => Punctuator::Decrement,
    }
}

/// What follows an operand: a postfix form, or none.
pub fn suffix_at(tokens: &[Placed]) -> SuffixKind
    ensures { result ≡ suffix_at tokens.now }
{
    match sign_at(tokens) {
        Some(sign) => suffix_of(sign),
        None => SuffixKind::Nothing,
    }
}

fn suffix_of(sign: Punctuator) -> SuffixKind
    ensures { result ≡ suffix_of_sign sign }
{
    match sign {
        Punctuator::LeftBracket => SuffixKind::Index,
        Punctuator::LeftParenthesis => SuffixKind::Call,
        Punctuator::Dot => SuffixKind::Dot,
        Punctuator::Arrow => SuffixKind::Arrow,
        Punctuator::Increment => SuffixKind::Step(StepWay::Up),
        Punctuator::Decrement => SuffixKind::Step(StepWay::Down),
        _ => SuffixKind::Nothing,
    }
}

/// What a primary expression begins with.
pub fn primary_at(context: &Context<'_>, tokens: &[Placed]) -> PrimaryKind
    ensures { result ≡ primary_at (scene_of context.now) tokens.now }
{
    match first(tokens) {
        Some((placed, _)) => primary_of(context, &placed.token),
        None => PrimaryKind::Neither,
    }
}

fn primary_of(context: &Context<'_>, token: &Token) -> PrimaryKind
    ensures { result ≡ primary_of (scene_of context.now) token.now }
{
    match token {
        Token::Word(name) => {
            if context.names_type(name.as_slice()) {
                PrimaryKind::Neither
            } else {
                PrimaryKind::Word
            }
        }
        Token::Number(_) => PrimaryKind::Number,
        Token::Character(_) => PrimaryKind::Character,
        Token::Text(_) => PrimaryKind::Text,
        Token::Punctuator(Punctuator::LeftParenthesis) => PrimaryKind::Enclosed,
        Token::Punctuator(_) | Token::Keyword(_) => PrimaryKind::Neither,
    }
}
