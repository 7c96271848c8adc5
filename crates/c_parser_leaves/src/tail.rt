// The name that is declared, and what may follow it and holds no expression.
#![tactic(auto, using(c_syntax_written::proofs::Trees::the_written_trees))]

ghost use Rattle.std.specs.Prelude.{◌≡◌, ◌<◌, ◌≤◌, true, false, not, ◌&&◌, length, IfOk};
ghost use Rattle.c_syntax_written.specs.Written.{declarator_tree};
ghost use Rattle.c_grammar.specs.Ahead.{is_close, is_open, params_ahead};
ghost use Rattle.c_grammar.specs.Parts as part;
ghost use Rattle.c_grammar.specs.Made.{is_given};
ghost use Rattle.c_grammar.specs.Choice.{is_const_word};
ghost use Rattle.c_grammar.specs.Refused.{first_is, is_type_name, may_name, may_omit};
ghost use Rattle.c_parser_steps.specs.Answers.{Answers, Consts, SizeIsMissing};
ghost use Rattle.c_parser_steps.specs.Kinds.{is_no_tail};
ghost use Rattle.c_parser_steps.specs.Views.{boxed_declarator, scene_of};
ghost use Rattle.c_parser_leaves.specs.Readers.{ReadsName};

use crate::made::{closed, handed};
use c_grammar::{Class, Role};
use c_parser_steps::{
    Context, Lookahead, Reading, TailKind, comes, empty_declarator, is_given, name_of,
    open_array_declarator, params_ahead, taken, type_name_ahead,
};
use c_syntax_written::{Declarator, Keyword, Placed, Pos, Punctuator, boxed};

/// The word that a declarator declares.
pub fn declared_name<'a>(
    context: &Context<'_>,
    count: u32,
    tokens: &'a [Placed],
) -> Reading<'a, Box<Declarator>>
    ensures goes { ReadsName count (scene_of context.now) tokens.now result }
    ensures shorter { IfOk result (λ x. length x.1.now < length tokens.now) }
{
    let (word, rest) = got!(taken(context, count, 0, Class::Word, tokens));
    let name = name_of(context.alloc, &word.token)?;
    let pos = word.pos;
    handed(boxed(context.alloc, Declarator::Name { pos, name }), rest)
}

/// The words `const` behind a `*`, and whether there is one.
pub fn consts<'a>(
    context: &Context<'_>,
    role: Role,
    count: u32,
    at: Pos,
    tokens: &'a [Placed],
) -> Reading<'a, bool>
    ensures goes { Consts count (scene_of context.now) role at tokens.now result }
    ensures ended { IfOk result (λ x. first_is is_const_word x.1.now ≡ false) }
    ensures shorter { IfOk result (λ x. length x.1.now ≤ length tokens.now) }
{
    let mut is_const = false;
    let mut rest = tokens;
    'words: while comes(Lookahead::Const, rest) {
        let (_word, after) = got!(taken(context, count, 0, Class::Keyword(Keyword::Const), rest));
        is_const = true;
        rest = after;
    }
    Ok((is_const, rest))
}

/// The bracket that closes, where there is no size.
pub fn no_size<'a>(
    context: &Context<'_>,
    role: Role,
    count: u32,
    at: Pos,
    inner: Box<Declarator>,
    tokens: &'a [Placed],
) -> Reading<'a, Box<Declarator>>
    requires { SizeIsMissing role tokens.now }
    ensures goes { Answers count (scene_of context.now) (part.ADeclarator (part.Size role at (boxed_declarator inner)))
        tokens.now (λ d. boxed_declarator d) result }
    ensures shorter { IfOk result (λ x. length x.1.now < length tokens.now) }
{
    let whole = open_array_declarator(context.alloc, at, inner);
    closed(context, count, Punctuator::RightBracket, whole, tokens)
}

/// The parenthesis that closes, where there are no parameters.
pub fn no_parameters<'a>(
    context: &Context<'_>,
    count: u32,
    at: Pos,
    inner: Box<Declarator>,
    tokens: &'a [Placed],
) -> Reading<'a, Box<Declarator>>
    requires { first_is is_close tokens.now ≡ true }
    ensures goes { Answers count (scene_of context.now) (part.ADeclarator (part.Parameters at (boxed_declarator inner)))
        tokens.now (λ d. boxed_declarator d) result }
    ensures shorter { IfOk result (λ x. length x.1.now < length tokens.now) }
{
    let whole = empty_declarator(context.alloc, at, inner);
    closed(context, count, Punctuator::RightParenthesis, whole, tokens)
}

/// A typedef name comes where a name may be declared.
pub fn type_name_comes(context: &Context<'_>, role: Role, tokens: &[Placed]) -> bool
    ensures { result ≡ (first_is (is_type_name (scene_of context.now)) tokens.now && may_name role) }
{
    type_name_ahead(context, tokens) && role.may_name()
}

/// Parameters come where a name is missing.
pub fn params_come(context: &Context<'_>, role: Role, tokens: &[Placed]) -> bool
    ensures { result ≡ (may_omit role && params_ahead (scene_of context.now) tokens.now) }
{
    role.may_omit() && params_ahead(context, tokens)
}

/// The parenthesis of parameters comes, and no plain word stands before it.
pub fn calls_no_name(is_plain: bool, inner: &Declarator, tokens: &[Placed]) -> bool
    ensures { result ≡ (first_is is_open tokens.now && (not is_plain && is_given (declarator_tree inner.now))) }
{
    comes(Lookahead::Open, tokens) && !is_plain && is_given(inner)
}

/// Whether neither brackets nor parameters come.
pub fn is_no_tail(kind: TailKind) -> bool
    ensures { result ≡ is_no_tail kind }
{
    matches!(kind, TailKind::Nothing)
}
