// Declarators and parameters.
#![tactic(auto)]

ghost use Rattle.std.specs.Prelude.{◌≡◌, ◌<◌, ◌≤◌, length, IfOk};
ghost use Rattle.c_syntax_written.specs.Written.{param_tree, params_from};
ghost use Rattle.c_grammar.specs.Parts as part;
ghost use Rattle.c_parser_steps.specs.Answers.{Answers, DeclaratorStarts, DirectStarts, Extends, TailStarts};
ghost use Rattle.c_parser_steps.specs.Kinds.{tail_at};
ghost use Rattle.c_parser_steps.specs.Views.{boxed_declarator, scene_of};

use crate::exprs::conditional;
use crate::types::specs;
use c_grammar::{Class, Role};
use c_parser_leaves::{
    calls_no_name, closed, consts, declared_name, handed, is_no_tail, no_parameters, no_size,
    params_come, type_name_comes,
};
use c_parser_steps::{
    Context, DirectKind, Lookahead, Reading, TailKind, array_declarator, barred, comes, direct_at,
    function_declarator, grouped_declarator, is_given, param_of, plain_word_ahead,
    pointer_declarator, push_param, refused, tail_at, taken,
};
use c_syntax_written::{Construct, Declarator, Param, Placed, Pos, Punctuator};

/// A declarator, or an abstract one.
#[cycle(descent)]
pub fn declarator<'a>(
    context: &Context<'_>,
    role: Role,
    count: u32,
    tokens: &'a [Placed],
) -> Reading<'a, Box<Declarator>>
    ensures goes { Answers count (scene_of context.now) (part.ADeclarator (part.Declarator role)) tokens.now (λ d. boxed_declarator d) result }
    ensures shorter { IfOk result (λ x. length x.1.now ≤ length tokens.now) }
{
    if type_name_comes(context, role, tokens) {
        return Err(barred(count, Construct::TypedefAgain, tokens));
    }
    if comes(Lookahead::Star, tokens) {
        return pointer(context, role, count, tokens);
    }
    direct(context, role, count, tokens)
}

/// `*` and what it points to.
#[cycle(descent)]
fn pointer<'a>(
    context: &Context<'_>,
    role: Role,
    count: u32,
    tokens: &'a [Placed],
) -> Reading<'a, Box<Declarator>>
    requires { DeclaratorStarts (scene_of context.now) role tokens.now }
    ensures goes { Answers count (scene_of context.now) (part.ADeclarator (part.Declarator role)) tokens.now (λ d. boxed_declarator d) result }
    ensures shorter { IfOk result (λ x. length x.1.now < length tokens.now) }
{
    let star = Class::Sign(Punctuator::Star);
    let (at, behind) = got!(taken(context, count, 1, star, tokens));
    let (is_const, after) = got!(consts(context, role, count + 1, at.pos, behind));
    let (inner, rest) = got!(declarator(context, role, count + 1, after));
    handed(
        pointer_declarator(context.alloc, at.pos, is_const, inner),
        rest,
    )
}

/// A declarator behind its stars.
#[cycle(descent)]
fn direct<'a>(
    context: &Context<'_>,
    role: Role,
    count: u32,
    tokens: &'a [Placed],
) -> Reading<'a, Box<Declarator>>
    ensures goes { Answers count (scene_of context.now) (part.ADeclarator (part.Direct role)) tokens.now (λ d. boxed_declarator d) result }
    ensures shorter { IfOk result (λ x. length x.1.now ≤ length tokens.now) }
{
    if params_come(context, role, tokens) {
        return Err(barred(count, Construct::FunctionPointer, tokens));
    }
    match direct_at(context, role, tokens) {
        DirectKind::Name => named(context, role, count, tokens),
        DirectKind::Grouped => grouped(context, role, count, tokens),
        DirectKind::Nameless => nameless(context, role, count, tokens),
        DirectKind::Neither => Err(refused(context, count, tokens)),
    }
}

/// A word, and what follows it.
#[cycle(descent)]
fn named<'a>(
    context: &Context<'_>,
    role: Role,
    count: u32,
    tokens: &'a [Placed],
) -> Reading<'a, Box<Declarator>>
    requires { DirectStarts (scene_of context.now) role tokens.now DirectKind.Name }
    ensures goes { Answers count (scene_of context.now) (part.ADeclarator (part.Direct role)) tokens.now (λ d. boxed_declarator d) result }
    ensures shorter { IfOk result (λ x. length x.1.now < length tokens.now) }
{
    let (first, behind) = got!(declared_name(context, count, tokens));
    tails(context, role, count, true, first, behind)
}

/// What follows a declarator that has no word.
#[cycle(descent)]
fn nameless<'a>(
    context: &Context<'_>,
    role: Role,
    count: u32,
    tokens: &'a [Placed],
) -> Reading<'a, Box<Declarator>>
    requires { DirectStarts (scene_of context.now) role tokens.now DirectKind.Nameless }
    ensures goes { Answers count (scene_of context.now) (part.ADeclarator (part.Direct role)) tokens.now (λ d. boxed_declarator d) result }
    ensures shorter { IfOk result (λ x. length x.1.now ≤ length tokens.now) }
{
    let first = Box::new(context.alloc, Declarator::Absent)?;
    tails(context, role, count, false, first, tokens)
}

/// A declarator between parentheses, and what follows it.
#[cycle(descent)]
fn grouped<'a>(
    context: &Context<'_>,
    role: Role,
    count: u32,
    tokens: &'a [Placed],
) -> Reading<'a, Box<Declarator>>
    requires { DirectStarts (scene_of context.now) role tokens.now DirectKind.Grouped }
    ensures goes { Answers count (scene_of context.now) (part.ADeclarator (part.Direct role)) tokens.now (λ d. boxed_declarator d) result }
    ensures shorter { IfOk result (λ x. length x.1.now < length tokens.now) }
{
    let opens = Class::Sign(Punctuator::LeftParenthesis);
    let closes = Punctuator::RightParenthesis;
    let (opening, behind) = got!(taken(context, count, 1, opens, tokens));
    let (inner, rest) = got!(declarator(context, role, count + 1, behind));
    if !is_given(&inner) {
        return Err(refused(context, count + 1, rest));
    }
    let whole = grouped_declarator(context.alloc, opening.pos, inner);
    let (first, behind) = got!(closed(context, count + 1, closes, whole, rest));
    tails(context, role, count, false, first, behind)
}

/// Brackets and parameters behind a declarator, which is a word alone where `plain`.
#[cycle(descent)]
fn tails<'a>(
    context: &Context<'_>,
    role: Role,
    count: u32,
    plain: bool,
    first: Box<Declarator>,
    tokens: &'a [Placed],
) -> Reading<'a, Box<Declarator>>
    ensures goes { Answers count (scene_of context.now) (part.ADeclarator (part.Tails role plain (boxed_declarator first)))
        tokens.now (λ d. boxed_declarator d) result }
    ensures shorter { IfOk result (λ x. length x.1.now ≤ length tokens.now) }
{
    let mut is_plain = plain;
    let mut inner = first;
    let mut rest = tokens;
    'forms: loop {
        if calls_no_name(is_plain, &inner, rest) {
            return Err(barred(count, Construct::FunctionPointer, rest));
        }
        let kind = tail_at(rest);
        if is_no_tail(kind) {
            return Ok((inner, rest));
        }
        let (longer, after) = got!(tail(context, role, count, kind, inner, rest));
        is_plain = false;
        inner = longer;
        rest = after;
    }
}

/// Brackets or parameters behind a declarator.
#[cycle(descent)]
fn tail<'a>(
    context: &Context<'_>,
    role: Role,
    count: u32,
    kind: TailKind,
    inner: Box<Declarator>,
    tokens: &'a [Placed],
) -> Reading<'a, Box<Declarator>>
    requires { TailStarts tokens.now kind }
    ensures goes { Extends count (scene_of context.now) role (boxed_declarator inner) tokens.now result }
    ensures shorter { IfOk result (λ x. length x.1.now < length tokens.now) }
{
    match kind {
        TailKind::Array => array(context, role, count, inner, tokens),
        TailKind::Function => function(context, role, count, inner, tokens),
        TailKind::Nothing => unreachable!(),
    }
}

/// Brackets behind a declarator.
#[cycle(descent)]
fn array<'a>(
    context: &Context<'_>,
    role: Role,
    count: u32,
    inner: Box<Declarator>,
    tokens: &'a [Placed],
) -> Reading<'a, Box<Declarator>>
    requires { tail_at tokens.now ≡ TailKind.Array }
    ensures goes { Extends count (scene_of context.now) role (boxed_declarator inner) tokens.now result }
    ensures shorter { IfOk result (λ x. length x.1.now < length tokens.now) }
{
    let opens = Class::Sign(Punctuator::LeftBracket);
    let (at, behind) = got!(taken(context, count, 1, opens, tokens));
    size(context, role, count + 1, at.pos, inner, behind)
}

/// Parameters behind a declarator.
#[cycle(descent)]
fn function<'a>(
    context: &Context<'_>,
    role: Role,
    count: u32,
    inner: Box<Declarator>,
    tokens: &'a [Placed],
) -> Reading<'a, Box<Declarator>>
    requires { tail_at tokens.now ≡ TailKind.Function }
    ensures goes { Extends count (scene_of context.now) role (boxed_declarator inner) tokens.now result }
    ensures shorter { IfOk result (λ x. length x.1.now < length tokens.now) }
{
    let opens = Class::Sign(Punctuator::LeftParenthesis);
    let (at, behind) = got!(taken(context, count, 1, opens, tokens));
    parameters(context, count + 1, at.pos, inner, behind)
}

/// What follows `[`.
#[cycle(descent)]
fn size<'a>(
    context: &Context<'_>,
    role: Role,
    count: u32,
    at: Pos,
    inner: Box<Declarator>,
    tokens: &'a [Placed],
) -> Reading<'a, Box<Declarator>>
    ensures goes { Answers count (scene_of context.now) (part.ADeclarator (part.Size role at (boxed_declarator inner)))
        tokens.now (λ d. boxed_declarator d) result }
    ensures shorter { IfOk result (λ x. length x.1.now < length tokens.now) }
{
    if comes(Lookahead::RightBracket, tokens) {
        if role.is_member() {
            return Err(barred(count, Construct::FlexibleArray, tokens));
        }
        return no_size(context, role, count, at, inner, tokens);
    }
    let (value, rest) = got!(conditional(context, count, tokens));
    let whole = array_declarator(context.alloc, at, inner, value);
    closed(context, count, Punctuator::RightBracket, whole, rest)
}

/// What follows the parenthesis that opens parameters.
#[cycle(descent)]
fn parameters<'a>(
    context: &Context<'_>,
    count: u32,
    at: Pos,
    inner: Box<Declarator>,
    tokens: &'a [Placed],
) -> Reading<'a, Box<Declarator>>
    ensures goes { Answers count (scene_of context.now) (part.ADeclarator (part.Parameters at (boxed_declarator inner)))
        tokens.now (λ d. boxed_declarator d) result }
    ensures shorter { IfOk result (λ x. length x.1.now < length tokens.now) }
{
    if comes(Lookahead::Close, tokens) {
        return no_parameters(context, count, at, inner, tokens);
    }
    let mut params = Vec::new(context.alloc);
    let mut rest = tokens;
    'all: loop {
        let (next, after) = got!(parameter(context, count, rest));
        push_param(&mut params, next)?;
        if comes(Lookahead::Close, after) {
            let whole = function_declarator(context.alloc, at, inner, params);
            return closed(context, count, Punctuator::RightParenthesis, whole, after);
        }
        let comma = Class::Sign(Punctuator::Comma);
        let (_comma, behind) = got!(taken(context, count, 0, comma, after));
        rest = behind;
    }
}

/// A parameter.
#[cycle(descent)]
fn parameter<'a>(context: &Context<'_>, count: u32, tokens: &'a [Placed]) -> Reading<'a, Param>
    ensures goes { Answers count (scene_of context.now) part.Parameter tokens.now (λ p. param_tree p) result }
    ensures shorter { IfOk result (λ x. length x.1.now < length tokens.now) }
{
    if plain_word_ahead(context, tokens) {
        return Err(barred(count, Construct::OldParameters, tokens));
    }
    let (words, rest) = got!(specs(context, count, tokens));
    let (shape, rest) = got!(declarator(context, Role::OfParameter, count, rest));
    Ok((param_of(words, shape), rest))
}
