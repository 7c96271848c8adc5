// Expressions.
#![tactic(auto)]

ghost use Rattle.std.specs.Prelude.{◌≡◌, ◌+◌, ◌<◌, ◌≤◌, true, length, IfOk};
ghost use Rattle.c_syntax_written.specs.Written.{exprs_from, exprs_tree};
ghost use Rattle.c_grammar.specs.Ahead.{type_ahead};
ghost use Rattle.c_grammar.specs.ExprRules.{operand};
ghost use Rattle.c_grammar.specs.Parts as part;
ghost use Rattle.c_parser_steps.specs.Answers.{Answers, CallComes, Steps, SuffixComes};
ghost use Rattle.c_grammar.specs.Descent.{Goes};
ghost use Rattle.c_parser_leaves.specs.Readers.{ReadsBehind};
ghost use Rattle.c_parser_steps.specs.Kinds.{assign_at, prefix_at, primary_at, suffix_at};
ghost use Rattle.c_parser_steps.specs.Views.{boxed_expr, scene_of};

use crate::declarators::declarator;
use crate::types::specs;
use c_grammar::{Class, Level, Role};
use c_parser_leaves::{
    calls_no_word, closed, handed, is_no_suffix, no_arguments, simple_primary, simple_suffix,
    word_of,
};
use c_parser_steps::{
    AssignKind, Context, Lookahead, OperandKind, PrefixKind, PrimaryKind, Reading, SuffixKind,
    assign_at, assign_expr, assign_sign, barred, barred_call, call_expr, cast_expr, comes,
    compound_expr, cond_expr, enclosed_expr, index_expr, joined, joint_at, joint_sign, operand_of,
    pre_step_expr, prefix_at, primary_at, push_expr, sizeof_expr, sizeof_type, step_sign,
    suffix_at, taken, type_ahead, unary_expr, unary_sign,
};
use c_syntax_written::{
    AssignOp, Construct, Expr, Exprs, Keyword, Placed, Pos, Punctuator, StepWay, UnaryOp,
};

/// Operands of a level, and joints between them.
#[cycle(descent)]
pub fn joined_operands<'a>(
    context: &Context<'_>,
    level: Level,
    count: u32,
    tokens: &'a [Placed],
) -> Reading<'a, Box<Expr>>
    ensures goes { Answers count (scene_of context.now) (part.AnExpr (part.Run level)) tokens.now (λ e. boxed_expr e) result }
    ensures shorter { IfOk result (λ x. length x.1.now < length tokens.now) }
{
    let (first, rest) = got!(operand(context, level, count, tokens));
    more(context, level, count, first, rest)
}

/// What stands on either side of a joint of the level.
#[cycle(descent)]
fn operand<'a>(
    context: &Context<'_>,
    level: Level,
    count: u32,
    tokens: &'a [Placed],
) -> Reading<'a, Box<Expr>>
    ensures goes { Answers count (scene_of context.now) (part.AnExpr (operand level)) tokens.now (λ e. boxed_expr e) result }
    ensures shorter { IfOk result (λ x. length x.1.now < length tokens.now) }
{
    match operand_of(level) {
        OperandKind::Assignment => assignment(context, count, tokens),
        OperandKind::Run(next) => joined_operands(context, next, count, tokens),
        OperandKind::Cast => cast(context, count, tokens),
    }
}

/// The joints and operands behind the first operand.
#[cycle(descent)]
fn more<'a>(
    context: &Context<'_>,
    level: Level,
    count: u32,
    first: Box<Expr>,
    tokens: &'a [Placed],
) -> Reading<'a, Box<Expr>>
    ensures goes { Answers count (scene_of context.now) (part.AnExpr (part.More level (boxed_expr first))) tokens.now (λ e. boxed_expr e) result }
    ensures shorter { IfOk result (λ x. length x.1.now ≤ length tokens.now) }
{
    let mut left = first;
    let mut rest = tokens;
    let mut depth = count;
    'joints: while let Some(joint) = joint_at(level, rest) {
        let ((at, right), after) = got!(right_side(context, level, depth, joint_sign(joint), rest));
        left = joined(context.alloc, joint, at, left, right)?;
        rest = after;
        depth += 1;
    }
    Ok((left, rest))
}

/// A sign, and the operand of the level behind it.
#[cycle(descent)]
fn right_side<'a>(
    context: &Context<'_>,
    level: Level,
    count: u32,
    sign: Punctuator,
    tokens: &'a [Placed],
) -> Reading<'a, (Pos, Box<Expr>)>
    ensures goes { ReadsBehind count (scene_of context.now) sign (operand level) tokens.now result }
    ensures within { IfOk result (λ _. count + 1 ≤ 200) }
    ensures shorter { IfOk result (λ x. length x.1.now < length tokens.now) }
{
    let (at, behind) = got!(taken(context, count, 1, Class::Sign(sign), tokens));
    let (right, rest) = got!(operand(context, level, count + 1, behind));
    Ok(((at.pos, right), rest))
}

/// An assignment, or a conditional alone.
#[cycle(descent)]
pub fn assignment<'a>(
    context: &Context<'_>,
    count: u32,
    tokens: &'a [Placed],
) -> Reading<'a, Box<Expr>>
    ensures goes { Answers count (scene_of context.now) (part.AnExpr part.Assignment) tokens.now (λ e. boxed_expr e) result }
    ensures shorter { IfOk result (λ x. length x.1.now < length tokens.now) }
{
    let (left, rest) = got!(conditional(context, count, tokens));
    assigned(context, count, left, rest)
}

/// An assignment's operator and right side, where there are any.
#[cycle(descent)]
fn assigned<'a>(
    context: &Context<'_>,
    count: u32,
    left: Box<Expr>,
    tokens: &'a [Placed],
) -> Reading<'a, Box<Expr>>
    ensures goes { Answers count (scene_of context.now) (part.AnExpr (part.Assigned (boxed_expr left))) tokens.now (λ e. boxed_expr e) result }
    ensures shorter { IfOk result (λ x. length x.1.now ≤ length tokens.now) }
{
    match assign_at(tokens) {
        AssignKind::Plain => plain_assigned(context, count, left, tokens),
        AssignKind::Compound(op) => compound_assigned(context, count, op, left, tokens),
        AssignKind::Nothing => Ok((left, tokens)),
    }
}

/// `=` and what follows it.
#[cycle(descent)]
fn plain_assigned<'a>(
    context: &Context<'_>,
    count: u32,
    left: Box<Expr>,
    tokens: &'a [Placed],
) -> Reading<'a, Box<Expr>>
    requires { assign_at tokens.now ≡ AssignKind.Plain }
    ensures goes { Answers count (scene_of context.now) (part.AnExpr (part.Assigned (boxed_expr left))) tokens.now (λ e. boxed_expr e) result }
    ensures shorter { IfOk result (λ x. length x.1.now ≤ length tokens.now) }
{
    let sign = Punctuator::Assign;
    let ((at, right), rest) = got!(right_side(context, Level::Commas, count, sign, tokens));
    handed(assign_expr(context.alloc, at, left, right), rest)
}

/// `op=` and what follows it.
#[cycle(descent)]
fn compound_assigned<'a>(
    context: &Context<'_>,
    count: u32,
    op: AssignOp,
    left: Box<Expr>,
    tokens: &'a [Placed],
) -> Reading<'a, Box<Expr>>
    requires { assign_at tokens.now ≡ AssignKind.Compound op }
    ensures goes { Answers count (scene_of context.now) (part.AnExpr (part.Assigned (boxed_expr left))) tokens.now (λ e. boxed_expr e) result }
    ensures shorter { IfOk result (λ x. length x.1.now ≤ length tokens.now) }
{
    let ((at, right), rest) = got!(right_side(
        context,
        Level::Commas,
        count,
        assign_sign(op),
        tokens
    ));
    handed(compound_expr(context.alloc, at, op, left, right), rest)
}

/// A conditional, or what stands before its `?` alone.
#[cycle(descent)]
pub fn conditional<'a>(
    context: &Context<'_>,
    count: u32,
    tokens: &'a [Placed],
) -> Reading<'a, Box<Expr>>
    ensures goes { Answers count (scene_of context.now) (part.AnExpr part.Conditional) tokens.now (λ e. boxed_expr e) result }
    ensures shorter { IfOk result (λ x. length x.1.now < length tokens.now) }
{
    let (condition, rest) = got!(joined_operands(context, Level::Ors, count, tokens));
    chosen(context, count, condition, rest)
}

/// `?` and what follows it, where there is one.
#[cycle(descent)]
fn chosen<'a>(
    context: &Context<'_>,
    count: u32,
    condition: Box<Expr>,
    tokens: &'a [Placed],
) -> Reading<'a, Box<Expr>>
    ensures goes { Answers count (scene_of context.now) (part.AnExpr (part.Chosen (boxed_expr condition))) tokens.now (λ e. boxed_expr e) result }
    ensures shorter { IfOk result (λ x. length x.1.now ≤ length tokens.now) }
{
    if !comes(Lookahead::Question, tokens) {
        return Ok((condition, tokens));
    }
    let question = Class::Sign(Punctuator::Question);
    let (at, behind) = got!(taken(context, count, 1, question, tokens));
    let (then, rest) = got!(joined_operands(context, Level::Commas, count + 1, behind));
    let colon = Class::Sign(Punctuator::Colon);
    let (_colon, behind) = got!(taken(context, count + 1, 0, colon, rest));
    let (otherwise, rest) = got!(conditional(context, count + 1, behind));
    handed(
        cond_expr(context.alloc, at.pos, condition, then, otherwise),
        rest,
    )
}

/// A cast, or a unary expression.
#[cycle(descent)]
fn cast<'a>(context: &Context<'_>, count: u32, tokens: &'a [Placed]) -> Reading<'a, Box<Expr>>
    ensures goes { Answers count (scene_of context.now) (part.AnExpr part.Cast) tokens.now (λ e. boxed_expr e) result }
    ensures shorter { IfOk result (λ x. length x.1.now < length tokens.now) }
{
    if type_ahead(context, tokens) {
        return cast_form(context, count, tokens);
    }
    unary(context, count, tokens)
}

/// A cast.
#[cycle(descent)]
fn cast_form<'a>(context: &Context<'_>, count: u32, tokens: &'a [Placed]) -> Reading<'a, Box<Expr>>
    requires { type_ahead (scene_of context.now) tokens.now ≡ true }
    ensures goes { Answers count (scene_of context.now) (part.AnExpr part.Cast) tokens.now (λ e. boxed_expr e) result }
    ensures shorter { IfOk result (λ x. length x.1.now < length tokens.now) }
{
    let opens = Class::Sign(Punctuator::LeftParenthesis);
    let closes = Class::Sign(Punctuator::RightParenthesis);
    let (at, behind) = got!(taken(context, count, 1, opens, tokens));
    let (words, rest) = got!(specs(context, count + 2, behind));
    let (shape, rest) = got!(declarator(context, Role::OfTypeName, count + 2, rest));
    let (_close, behind) = got!(taken(context, count + 2, 0, closes, rest));
    let (inner, rest) = got!(cast_operand(context, count + 1, behind));
    handed(cast_expr(context.alloc, at.pos, words, shape, inner), rest)
}

/// What is cast.
#[cycle(descent)]
fn cast_operand<'a>(
    context: &Context<'_>,
    count: u32,
    tokens: &'a [Placed],
) -> Reading<'a, Box<Expr>>
    ensures goes { Answers count (scene_of context.now) (part.AnExpr part.Operand) tokens.now (λ e. boxed_expr e) result }
    ensures shorter { IfOk result (λ x. length x.1.now < length tokens.now) }
{
    if comes(Lookahead::Brace, tokens) {
        return Err(barred(count, Construct::CompoundLiteral, tokens));
    }
    cast(context, count, tokens)
}

/// A unary expression.
#[cycle(descent)]
fn unary<'a>(context: &Context<'_>, count: u32, tokens: &'a [Placed]) -> Reading<'a, Box<Expr>>
    ensures goes { Answers count (scene_of context.now) (part.AnExpr part.Unary) tokens.now (λ e. boxed_expr e) result }
    ensures shorter { IfOk result (λ x. length x.1.now < length tokens.now) }
{
    match prefix_at(tokens) {
        PrefixKind::Sizeof => size_of(context, count, tokens),
        PrefixKind::Step(way) => pre_step(context, count, way, tokens),
        PrefixKind::Unary(op) => unary_form(context, count, op, tokens),
        PrefixKind::Nothing => postfix(context, count, tokens),
    }
}

/// `sizeof` and what follows it.
#[cycle(descent)]
fn size_of<'a>(context: &Context<'_>, count: u32, tokens: &'a [Placed]) -> Reading<'a, Box<Expr>>
    requires { prefix_at tokens.now ≡ PrefixKind.Sizeof }
    ensures goes { Answers count (scene_of context.now) (part.AnExpr part.Unary) tokens.now (λ e. boxed_expr e) result }
    ensures shorter { IfOk result (λ x. length x.1.now < length tokens.now) }
{
    let keyword = Class::Keyword(Keyword::Sizeof);
    let (at, behind) = got!(taken(context, count, 1, keyword, tokens));
    sized(context, count + 1, at.pos, behind)
}

/// `++` or `--` and its operand.
#[cycle(descent)]
fn pre_step<'a>(
    context: &Context<'_>,
    count: u32,
    way: StepWay,
    tokens: &'a [Placed],
) -> Reading<'a, Box<Expr>>
    requires { prefix_at tokens.now ≡ PrefixKind.Step way }
    ensures goes { Answers count (scene_of context.now) (part.AnExpr part.Unary) tokens.now (λ e. boxed_expr e) result }
    ensures shorter { IfOk result (λ x. length x.1.now < length tokens.now) }
{
    let sign = Class::Sign(step_sign(way));
    let (at, behind) = got!(taken(context, count, 1, sign, tokens));
    let (inner, rest) = got!(unary(context, count + 1, behind));
    handed(pre_step_expr(context.alloc, at.pos, way, inner), rest)
}

/// A unary operator and its operand.
#[cycle(descent)]
fn unary_form<'a>(
    context: &Context<'_>,
    count: u32,
    op: UnaryOp,
    tokens: &'a [Placed],
) -> Reading<'a, Box<Expr>>
    requires { prefix_at tokens.now ≡ PrefixKind.Unary op }
    ensures goes { Answers count (scene_of context.now) (part.AnExpr part.Unary) tokens.now (λ e. boxed_expr e) result }
    ensures shorter { IfOk result (λ x. length x.1.now < length tokens.now) }
{
    let sign = Class::Sign(unary_sign(op));
    let (at, behind) = got!(taken(context, count, 1, sign, tokens));
    let (inner, rest) = got!(cast(context, count + 1, behind));
    handed(unary_expr(context.alloc, at.pos, op, inner), rest)
}

/// What follows `sizeof`.
#[cycle(descent)]
fn sized<'a>(
    context: &Context<'_>,
    count: u32,
    at: Pos,
    tokens: &'a [Placed],
) -> Reading<'a, Box<Expr>>
    ensures goes { Answers count (scene_of context.now) (part.AnExpr (part.Sized at)) tokens.now (λ e. boxed_expr e) result }
    ensures shorter { IfOk result (λ x. length x.1.now < length tokens.now) }
{
    if type_ahead(context, tokens) {
        return sized_type(context, count, at, tokens);
    }
    let (inner, rest) = got!(unary(context, count, tokens));
    handed(sizeof_expr(context.alloc, at, inner), rest)
}

/// A type between parentheses, behind `sizeof`.
#[cycle(descent)]
fn sized_type<'a>(
    context: &Context<'_>,
    count: u32,
    at: Pos,
    tokens: &'a [Placed],
) -> Reading<'a, Box<Expr>>
    requires { type_ahead (scene_of context.now) tokens.now ≡ true }
    ensures goes { Answers count (scene_of context.now) (part.AnExpr (part.Sized at)) tokens.now (λ e. boxed_expr e) result }
    ensures shorter { IfOk result (λ x. length x.1.now < length tokens.now) }
{
    let opens = Class::Sign(Punctuator::LeftParenthesis);
    let closes = Class::Sign(Punctuator::RightParenthesis);
    let (_opening, behind) = got!(taken(context, count, 1, opens, tokens));
    let (words, rest) = got!(specs(context, count + 1, behind));
    let (shape, rest) = got!(declarator(context, Role::OfTypeName, count + 1, rest));
    let (_close, rest) = got!(taken(context, count + 1, 0, closes, rest));
    if comes(Lookahead::Brace, rest) {
        return Err(barred(count, Construct::CompoundLiteral, rest));
    }
    handed(sizeof_type(context.alloc, at, words, shape), rest)
}

/// A primary expression and its postfix forms.
#[cycle(descent)]
fn postfix<'a>(context: &Context<'_>, count: u32, tokens: &'a [Placed]) -> Reading<'a, Box<Expr>>
    ensures goes { Answers count (scene_of context.now) (part.AnExpr part.Postfix) tokens.now (λ e. boxed_expr e) result }
    ensures shorter { IfOk result (λ x. length x.1.now < length tokens.now) }
{
    let (base, rest) = got!(primary(context, count, tokens));
    suffixes(context, count, base, rest)
}

/// The postfix forms behind a primary expression.
#[cycle(descent)]
fn suffixes<'a>(
    context: &Context<'_>,
    count: u32,
    first: Box<Expr>,
    tokens: &'a [Placed],
) -> Reading<'a, Box<Expr>>
    ensures goes { Answers count (scene_of context.now) (part.AnExpr (part.Suffixes (boxed_expr first))) tokens.now (λ e. boxed_expr e) result }
    ensures shorter { IfOk result (λ x. length x.1.now ≤ length tokens.now) }
{
    let mut base = first;
    let mut rest = tokens;
    let mut depth = count;
    'forms: loop {
        if calls_no_word(&base, rest) {
            return Err(barred_call(depth, rest));
        }
        let kind = suffix_at(rest);
        if is_no_suffix(kind) {
            return Ok((base, rest));
        }
        let (longer, after) = got!(suffix(context, depth, kind, base, rest));
        base = longer;
        rest = after;
        depth += 1;
    }
}

/// One postfix form behind an expression.
#[cycle(descent)]
fn suffix<'a>(
    context: &Context<'_>,
    count: u32,
    kind: SuffixKind,
    base: Box<Expr>,
    tokens: &'a [Placed],
) -> Reading<'a, Box<Expr>>
    requires { SuffixComes tokens.now kind (boxed_expr base) }
    ensures goes { Steps (λ o. Goes count (scene_of context.now) (part.AnExpr (part.Suffixes (boxed_expr base))) tokens.now o)
        (λ e rest o. Goes (count + 1) (scene_of context.now) (part.AnExpr (part.Suffixes (boxed_expr e))) rest o) result }
    ensures within { IfOk result (λ _. count + 1 ≤ 200) }
    ensures shorter { IfOk result (λ x. length x.1.now < length tokens.now) }
{
    match kind {
        SuffixKind::Index => index(context, count, base, tokens),
        SuffixKind::Call => call(context, count, base, tokens),
        _ => simple_suffix(context, count, kind, base, tokens),
    }
}

/// An index.
#[cycle(descent)]
fn index<'a>(
    context: &Context<'_>,
    count: u32,
    base: Box<Expr>,
    tokens: &'a [Placed],
) -> Reading<'a, Box<Expr>>
    requires { suffix_at tokens.now ≡ SuffixKind.Index }
    ensures goes { Steps (λ o. Goes count (scene_of context.now) (part.AnExpr (part.Suffixes (boxed_expr base))) tokens.now o)
        (λ e rest o. Goes (count + 1) (scene_of context.now) (part.AnExpr (part.Suffixes (boxed_expr e))) rest o) result }
    ensures within { IfOk result (λ _. count + 1 ≤ 200) }
    ensures shorter { IfOk result (λ x. length x.1.now < length tokens.now) }
{
    let opens = Class::Sign(Punctuator::LeftBracket);
    let closes = Punctuator::RightBracket;
    let (at, behind) = got!(taken(context, count, 2, opens, tokens));
    let (place, rest) = got!(joined_operands(context, Level::Commas, count + 2, behind));
    let whole = index_expr(context.alloc, at.pos, base, place);
    closed(context, count + 2, closes, whole, rest)
}

/// The arguments of a call.
#[cycle(descent)]
fn call<'a>(
    context: &Context<'_>,
    count: u32,
    base: Box<Expr>,
    tokens: &'a [Placed],
) -> Reading<'a, Box<Expr>>
    requires { CallComes tokens.now (boxed_expr base) }
    ensures goes { Steps (λ o. Goes count (scene_of context.now) (part.AnExpr (part.Suffixes (boxed_expr base))) tokens.now o)
        (λ e rest o. Goes (count + 1) (scene_of context.now) (part.AnExpr (part.Suffixes (boxed_expr e))) rest o) result }
    ensures within { IfOk result (λ _. count + 1 ≤ 200) }
    ensures shorter { IfOk result (λ x. length x.1.now < length tokens.now) }
{
    let opens = Class::Sign(Punctuator::LeftParenthesis);
    let (pos, name) = word_of(base);
    let (_opening, behind) = got!(taken(context, count, 2, opens, tokens));
    let (args, rest) = got!(arguments(context, count + 2, behind));
    handed(call_expr(context.alloc, pos, name, args), rest)
}

/// A primary expression.
#[cycle(descent)]
fn primary<'a>(context: &Context<'_>, count: u32, tokens: &'a [Placed]) -> Reading<'a, Box<Expr>>
    ensures goes { Answers count (scene_of context.now) (part.AnExpr part.Primary) tokens.now (λ e. boxed_expr e) result }
    ensures shorter { IfOk result (λ x. length x.1.now < length tokens.now) }
{
    match primary_at(context, tokens) {
        PrimaryKind::Enclosed => enclosed(context, count, tokens),
        _ => simple_primary(context, count, tokens),
    }
}

/// An expression between parentheses.
#[cycle(descent)]
fn enclosed<'a>(context: &Context<'_>, count: u32, tokens: &'a [Placed]) -> Reading<'a, Box<Expr>>
    requires { primary_at (scene_of context.now) tokens.now ≡ PrimaryKind.Enclosed }
    ensures goes { Answers count (scene_of context.now) (part.AnExpr part.Primary) tokens.now (λ e. boxed_expr e) result }
    ensures shorter { IfOk result (λ x. length x.1.now < length tokens.now) }
{
    let opens = Class::Sign(Punctuator::LeftParenthesis);
    let closes = Punctuator::RightParenthesis;
    let (opening, behind) = got!(taken(context, count, 1, opens, tokens));
    let (inner, rest) = got!(joined_operands(context, Level::Commas, count + 1, behind));
    let whole = enclosed_expr(context.alloc, opening.pos, inner);
    closed(context, count + 1, closes, whole, rest)
}

/// The arguments of a call, up to the parenthesis that closes them.
#[cycle(descent)]
fn arguments<'a>(context: &Context<'_>, count: u32, tokens: &'a [Placed]) -> Reading<'a, Exprs>
    ensures goes { Answers count (scene_of context.now) part.Arguments tokens.now (λ a. exprs_tree a) result }
    ensures shorter { IfOk result (λ x. length x.1.now < length tokens.now) }
{
    if comes(Lookahead::Close, tokens) {
        return no_arguments(context, count, tokens);
    }
    let mut args = Vec::new(context.alloc);
    let mut rest = tokens;
    'all: loop {
        let (next, after) = got!(assignment(context, count, rest));
        push_expr(&mut args, next)?;
        if comes(Lookahead::Close, after) {
            let whole = Ok(Exprs::from_vec(args));
            return closed(context, count, Punctuator::RightParenthesis, whole, after);
        }
        let comma = Class::Sign(Punctuator::Comma);
        let (_comma, behind) = got!(taken(context, count, 0, comma, after));
        rest = behind;
    }
}
