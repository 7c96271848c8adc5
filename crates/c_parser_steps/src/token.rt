// Tokens taken and refused.
#![tactic(auto, using(c_syntax_written::proofs::Trees::the_written_trees))]

ghost use Rattle.std.specs.Prelude.{◌≡◌, ℕ, ◌+◌, ◌≤◌, ◌&&◌, nat_lt, true, List, [], ◌∷◌, length, IfOk, MatchOption};
ghost use Rattle.c_grammar.specs.Refused.{first_is, forms_of_bracket, inner_typedef, is_bracket, keyword_construct, nested_case, nesting_limit, token_construct};
ghost use Rattle.c_grammar.specs.Parts as part;
ghost use Rattle.c_grammar.specs.Ahead.{is_open};
ghost use Rattle.c_syntax_written.specs.Written.{ExprTree};
ghost use Rattle.c_grammar.specs.Descent.{barred, refusal};
ghost use Rattle.c_parser_steps.specs.Views.{scene_of};
ghost use Rattle.c_parser_steps.specs.Answers.{IsStop, Takes};
ghost use Rattle.c_parser_steps.specs.Kinds.{opens, sign_at, sign_of};

use crate::class::fits;
use crate::context::Context;
use crate::fault::{Fault, Reading};
use c_grammar::{Class, Setting};
use c_syntax_written::{Construct, Keyword, Placed, Punctuator, Token};

// As many forms may be unfinished.
const NESTING_LIMIT: u32 = 200;

/// The first token, and those after it.
pub fn first(tokens: &[Placed]) -> Option<(&Placed, &[Placed])>
    ensures { MatchOption result (tokens.now ≡ []) (λ x. tokens.now ≡ x.0.now ∷ x.1.now) }
{
    match tokens {
        [first, rest @ ..] => Some((first, rest)),
        _ => None,
    }
}

/// The token that a production asks for, which begins so many forms, and the tokens after it.
pub fn taken<'a>(
    context: &Context<'_>,
    count: u32,
    forms: u32,
    class: Class,
    tokens: &'a [Placed],
) -> Reading<'a, &'a Placed>
    requires { forms ≤ 200 }
    ensures goes { Takes count (scene_of context.now) forms class tokens.now result }
    ensures shorter { IfOk result (λ x. length tokens.now ≡ length x.1.now + 1) }
    ensures within { IfOk result (λ _. count + forms ≤ 200) }
{
    match first(tokens) {
        None => Err(Fault::Syntax(tokens)),
        Some((placed, rest)) => {
            if !fits(context, class, &placed.token) {
                return Err(refused(context, count, tokens));
            }
            if count > NESTING_LIMIT - forms {
                return Err(Fault::TooDeep(tokens));
            }
            match token_construct(context.setting, &placed.token) {
                Some(construct) => Err(Fault::Unsupported(construct, tokens)),
                None => Ok((placed, rest)),
            }
        }
    }
}

/// Why the first token, or the end, is refused where something else must come.
pub fn refused<'a>(context: &Context<'_>, count: u32, tokens: &'a [Placed]) -> Fault<'a>
    ensures { IsStop (refusal (scene_of context.now) count tokens.now) tokens.now result }
{
    match first(tokens) {
        None => Fault::Syntax(tokens),
        Some((placed, _)) => {
            if opens_too_deep(count, &placed.token) {
                return Fault::TooDeep(tokens);
            }
            match token_construct(context.setting, &placed.token) {
                Some(construct) => Fault::Unsupported(construct, tokens),
                None => Fault::Syntax(tokens),
            }
        }
    }
}

/// Why the parenthesis of a call is refused that follows no plain word.
pub fn barred_call(count: u32, tokens: &[Placed]) -> Fault<'_>
    ensures { (base : ExprTree) → first_is is_open tokens.now ≡ true
        → IsStop (barred (part.AnExpr (part.Suffixes base)) count Construct.FunctionPointer tokens.now) tokens.now result }
{
    if count > NESTING_LIMIT - 2 {
        Fault::TooDeep(tokens)
    } else {
        Fault::Unsupported(Construct::FunctionPointer, tokens)
    }
}

/// Why the first token is refused, which bears a construct of its place.
pub fn barred(count: u32, construct: Construct, tokens: &[Placed]) -> Fault<'_>
    ensures { IsStop (barred part.Initialiser count construct tokens.now) tokens.now result }
{
    match first(tokens) {
        None => Fault::Unsupported(construct, tokens),
        Some((placed, _)) => {
            if is_too_deep(count, &placed.token) {
                Fault::TooDeep(tokens)
            } else {
                Fault::Unsupported(construct, tokens)
            }
        }
    }
}

// The token is a bracket, and with it too many forms are unfinished.
fn opens_too_deep(count: u32, token: &Token) -> bool
    ensures { result ≡ (is_bracket token.now && nat_lt nesting_limit (count + 1)) }
{
    is_bracket(token) && count >= NESTING_LIMIT
}

// With the token, and with what it begins where it is a bracket, too many forms are unfinished.
fn is_too_deep(count: u32, token: &Token) -> bool
    ensures { result ≡ nat_lt nesting_limit (count + forms_of_bracket (is_bracket token.now)) }
{
    if is_bracket(token) {
        count >= NESTING_LIMIT
    } else {
        count > NESTING_LIMIT
    }
}

fn is_bracket(token: &Token) -> bool
    ensures { result ≡ is_bracket token.now }
{
    match token {
        Token::Punctuator(sign) => opens(*sign),
        Token::Word(_)
        | Token::Keyword(_)
        | Token::Number(_)
        | Token::Character(_)
        | Token::Text(_) => false,
    }
}

fn opens(sign: Punctuator) -> bool
    ensures { result ≡ opens sign }
{
    matches!(
        sign,
        Punctuator::LeftParenthesis | Punctuator::LeftBracket | Punctuator::LeftBrace
    )
}

// The construct that a token bears wherever something must come.
fn token_construct(setting: Setting, token: &Token) -> Option<Construct>
    ensures { (types : List (List ℕ)) → result ≡ token_construct (record { types = types; setting = setting }) token.now }
{
    match token {
        Token::Keyword(keyword) => keyword_construct(setting, *keyword),
        Token::Punctuator(Punctuator::Ellipsis) => Some(Construct::Variadic),
        Token::Punctuator(_)
        | Token::Word(_)
        | Token::Number(_)
        | Token::Character(_)
        | Token::Text(_) => None,
    }
}

#[tactic(auto, unfolding(c_grammar::specs::Refused::keyword_construct))]
fn keyword_construct(setting: Setting, keyword: Keyword) -> Option<Construct>
    ensures { result ≡ keyword_construct setting keyword }
{
    match keyword {
        Keyword::Float | Keyword::Double => Some(Construct::Floating),
        Keyword::Union => Some(Construct::Union),
        Keyword::Bool => Some(Construct::Bool),
        Keyword::Inline | Keyword::NoReturn => Some(Construct::Inline),
        Keyword::ThreadLocal => Some(Construct::ThreadLocal),
        Keyword::Generic => Some(Construct::Generic),
        Keyword::StaticAssert => Some(Construct::StaticAssert),
        Keyword::Volatile | Keyword::Restrict | Keyword::Atomic => Some(Construct::Qualifier),
        Keyword::AlignAs | Keyword::AlignOf => Some(Construct::AlignmentWord),
        Keyword::Complex | Keyword::Imaginary => Some(Construct::Complex),
        Keyword::Typedef => inner_typedef(setting),
        Keyword::Case | Keyword::Default => nested_case(setting),
        _ => None,
    }
}

fn inner_typedef(setting: Setting) -> Option<Construct>
    ensures { result ≡ inner_typedef setting }
{
    match setting {
        Setting::AtFile => None,
        Setting::InBlock | Setting::InSwitch => Some(Construct::InnerTypedef),
    }
}

fn nested_case(setting: Setting) -> Option<Construct>
    ensures { result ≡ nested_case setting }
{
    match setting {
        Setting::AtFile | Setting::InBlock => Some(Construct::NestedCase),
        Setting::InSwitch => None,
    }
}

/// The punctuator that comes, where one does.
pub fn sign_at(tokens: &[Placed]) -> Option<Punctuator>
    ensures { result ≡ sign_at tokens.now }
{
    match first(tokens) {
        Some((placed, _)) => sign_of(&placed.token),
        None => None,
    }
}

fn sign_of(token: &Token) -> Option<Punctuator>
    ensures { result ≡ sign_of token.now }
{
    match token {
        Token::Punctuator(sign) => Some(*sign),
        Token::Word(_)
        | Token::Keyword(_)
        | Token::Number(_)
        | Token::Character(_)
        | Token::Text(_) => None,
    }
}
