// What may follow an operand and holds no expression.
#![tactic(auto, using(c_syntax_written::proofs::Trees::the_written_trees))]

ghost use Rattle.std.specs.Prelude.{◌≡◌, ◌+◌, ◌<◌, ◌≤◌, true, not, ◌&&◌, length, IfOk};
ghost use Rattle.c_syntax_written.specs.Written.{Word, expr_tree, exprs_tree};
ghost use Rattle.c_grammar.specs.Ahead.{is_close, is_open};
ghost use Rattle.c_grammar.specs.Made.{is_word};
ghost use Rattle.c_grammar.specs.Parts as part;
ghost use Rattle.c_parser_steps.specs.Answers.{Answers, Steps, SuffixComes};
ghost use Rattle.c_grammar.specs.Descent.{Goes};
ghost use Rattle.c_grammar.specs.Refused.{first_is};
ghost use Rattle.c_parser_leaves.specs.Readers.{IsSimpleSuffix, ReadsMember};
ghost use Rattle.c_parser_steps.specs.Kinds.{is_no_suffix, suffix_at};
ghost use Rattle.c_parser_steps.specs.Views.{boxed_expr, scene_of};

use crate::made::handed;
use c_grammar::Class;
use c_parser_steps::{
    Context, Lookahead, Reading, SuffixKind, arrow_expr, comes, dot_expr, is_word, name_of,
    post_step_expr, step_sign, taken,
};
use c_syntax_written::{Expr, Exprs, Name, Placed, Pos, Punctuator, StepWay};

/// A postfix form that holds no other expression.
pub fn simple_suffix<'a>(
    context: &Context<'_>,
    count: u32,
    kind: SuffixKind,
    base: Box<Expr>,
    tokens: &'a [Placed],
) -> Reading<'a, Box<Expr>>
    requires comes { SuffixComes tokens.now kind (boxed_expr base) }
    requires simple { IsSimpleSuffix kind }
    ensures goes { Steps (λ o. Goes count (scene_of context.now) (part.AnExpr (part.Suffixes (boxed_expr base))) tokens.now o)
        (λ e rest o. Goes (count + 1) (scene_of context.now) (part.AnExpr (part.Suffixes (boxed_expr e))) rest o) result }
    ensures within { IfOk result (λ _. count + 1 ≤ 200) }
    ensures shorter { IfOk result (λ x. length x.1.now < length tokens.now) }
{
    match kind {
        SuffixKind::Dot => dot(context, count, base, tokens),
        SuffixKind::Arrow => arrow(context, count, base, tokens),
        SuffixKind::Step(way) => post_step(context, count, way, base, tokens),
        SuffixKind::Index => unreachable!(),
        SuffixKind::Call => unreachable!(),
        SuffixKind::Nothing => unreachable!(),
    }
}

/// `.` and a member.
fn dot<'a>(
    context: &Context<'_>,
    count: u32,
    base: Box<Expr>,
    tokens: &'a [Placed],
) -> Reading<'a, Box<Expr>>
    requires { suffix_at tokens.now ≡ SuffixKind.Dot }
    ensures goes { Steps (λ o. Goes count (scene_of context.now) (part.AnExpr (part.Suffixes (boxed_expr base))) tokens.now o)
        (λ e rest o. Goes (count + 1) (scene_of context.now) (part.AnExpr (part.Suffixes (boxed_expr e))) rest o) result }
    ensures within { IfOk result (λ _. count + 1 ≤ 200) }
    ensures shorter { IfOk result (λ x. length x.1.now < length tokens.now) }
{
    let ((at, name), rest) = got!(member(context, count, Punctuator::Dot, tokens));
    handed(dot_expr(context.alloc, at, base, name), rest)
}

/// `->` and a member.
fn arrow<'a>(
    context: &Context<'_>,
    count: u32,
    base: Box<Expr>,
    tokens: &'a [Placed],
) -> Reading<'a, Box<Expr>>
    requires { suffix_at tokens.now ≡ SuffixKind.Arrow }
    ensures goes { Steps (λ o. Goes count (scene_of context.now) (part.AnExpr (part.Suffixes (boxed_expr base))) tokens.now o)
        (λ e rest o. Goes (count + 1) (scene_of context.now) (part.AnExpr (part.Suffixes (boxed_expr e))) rest o) result }
    ensures within { IfOk result (λ _. count + 1 ≤ 200) }
    ensures shorter { IfOk result (λ x. length x.1.now < length tokens.now) }
{
    let ((at, name), rest) = got!(member(context, count, Punctuator::Arrow, tokens));
    handed(arrow_expr(context.alloc, at, base, name), rest)
}

/// A sign, and the name of the member behind it.
fn member<'a>(
    context: &Context<'_>,
    count: u32,
    sign: Punctuator,
    tokens: &'a [Placed],
) -> Reading<'a, (Pos, Name)>
    ensures goes { ReadsMember count (scene_of context.now) sign tokens.now result }
    ensures within { IfOk result (λ _. count + 1 ≤ 200) }
    ensures shorter { IfOk result (λ x. length x.1.now < length tokens.now) }
{
    let (at, behind) = got!(taken(context, count, 1, Class::Sign(sign), tokens));
    let (word, rest) = got!(taken(context, count + 1, 0, Class::AnyWord, behind));
    let name = name_of(context.alloc, &word.token)?;
    Ok(((at.pos, name), rest))
}

/// `++` or `--` behind an expression.
fn post_step<'a>(
    context: &Context<'_>,
    count: u32,
    way: StepWay,
    base: Box<Expr>,
    tokens: &'a [Placed],
) -> Reading<'a, Box<Expr>>
    requires { suffix_at tokens.now ≡ SuffixKind.Step way }
    ensures goes { Steps (λ o. Goes count (scene_of context.now) (part.AnExpr (part.Suffixes (boxed_expr base))) tokens.now o)
        (λ e rest o. Goes (count + 1) (scene_of context.now) (part.AnExpr (part.Suffixes (boxed_expr e))) rest o) result }
    ensures within { IfOk result (λ _. count + 1 ≤ 200) }
    ensures shorter { IfOk result (λ x. length x.1.now < length tokens.now) }
{
    let sign = Class::Sign(step_sign(way));
    let (at, rest) = got!(taken(context, count, 1, sign, tokens));
    handed(post_step_expr(context.alloc, at.pos, way, base), rest)
}

/// No arguments.
pub fn no_arguments<'a>(
    context: &Context<'_>,
    count: u32,
    tokens: &'a [Placed],
) -> Reading<'a, Exprs>
    requires { first_is is_close tokens.now ≡ true }
    ensures goes { Answers count (scene_of context.now) part.Arguments tokens.now (λ a. exprs_tree a) result }
    ensures shorter { IfOk result (λ x. length x.1.now < length tokens.now) }
{
    let closes = Class::Sign(Punctuator::RightParenthesis);
    let (_close, rest) = got!(taken(context, count, 0, closes, tokens));
    Ok((Exprs::new(context.alloc), rest))
}

/// The place and the name of a word that is called.
pub fn word_of(base: Box<Expr>) -> (Pos, Name)
    requires { is_word (boxed_expr base) ≡ true }
    ensures { boxed_expr base ≡ Word result.0 result.1 }
{
    match Box::into_inner(base).into_word() {
        Some(word) => word,
        None => unreachable!(),
    }
}

/// The parenthesis of a call comes, and no plain word stands before it.
pub fn calls_no_word(base: &Expr, tokens: &[Placed]) -> bool
    ensures { result ≡ (first_is is_open tokens.now && not (is_word (expr_tree base.now))) }
{
    comes(Lookahead::Open, tokens) && !is_word(base)
}

/// Whether no postfix form comes.
pub fn is_no_suffix(kind: SuffixKind) -> bool
    ensures { result ≡ is_no_suffix kind }
{
    matches!(kind, SuffixKind::Nothing)
}
