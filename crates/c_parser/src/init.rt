// Initialisers.
#![tactic(auto, using(c_syntax_written::proofs::Trees::the_written_trees))]

ghost use Rattle.std.specs.Prelude.{◌≡◌, ℕ, ◌+◌, ◌<◌, ◌≤◌, true, List, length, IfOk};
ghost use Rattle.c_syntax_written.specs.WrittenDecl.{Value, init_tree, inits_from, inits_then, inits_tree, more_inits, no_inits};
ghost use Rattle.c_grammar.specs.Choice.{is_right_brace};
ghost use Rattle.c_grammar.specs.Parts as part;
ghost use Rattle.c_grammar.specs.Refused.{first_is, is_brace};
ghost use Rattle.c_parser_steps.specs.Answers.{Answers};
ghost use Rattle.c_parser_steps.specs.Views.{boxed_expr, scene_of};

use c_grammar::Class;
use c_parser_exprs::assignment;
use c_parser_steps::{Context, Fault, Lookahead, Reading, barred, comes, designator_ahead, taken};
use c_syntax_written::{Construct, Expr, Init, Inits, Placed, Punctuator};
use std::alloc::{AllocError, Global};

/// An initialiser.
#[cycle(initialisers)]
pub fn initialiser<'a>(context: &Context<'_>, count: u32, tokens: &'a [Placed]) -> Reading<'a, Init>
    ensures goes { Answers count (scene_of context.now) part.Initialiser tokens.now (λ i. init_tree i) result }
    ensures shorter { IfOk result (λ x. length x.1.now < length tokens.now) }
{
    if designator_ahead(tokens) {
        return Err(barred(count, Construct::Designator, tokens));
    }
    if comes(Lookahead::Brace, tokens) {
        return braces(context, count, tokens);
    }
    let (value, rest) = got!(assignment(context, count, tokens));
    Ok((value_init(value), rest))
}

/// An initialiser that is an expression.
fn value_init(value: Box<Expr>) -> Init
    ensures { init_tree result ≡ Value (boxed_expr value) }
{
    let value = Box::into_inner(value);
    Init::Value { value }
}

/// A list between braces.
#[cycle(initialisers)]
fn braces<'a>(context: &Context<'_>, count: u32, tokens: &'a [Placed]) -> Reading<'a, Init>
    requires { first_is is_brace tokens.now ≡ true }
    ensures goes { Answers count (scene_of context.now) part.Initialiser tokens.now (λ i. init_tree i) result }
    ensures shorter { IfOk result (λ x. length x.1.now < length tokens.now) }
{
    let brace = Class::Sign(Punctuator::LeftBrace);
    let (at, behind) = got!(taken(context, count, 1, brace, tokens));
    let (items, rest) = got!(initialisers(context, count + 1, behind));
    Ok((Init::Braces { pos: at.pos, items }, rest))
}

/// The items of a list, up to the brace that closes it.
#[cycle(initialisers)]
fn initialisers<'a>(context: &Context<'_>, count: u32, tokens: &'a [Placed]) -> Reading<'a, Inits>
    ensures goes { Answers count (scene_of context.now) part.Initialisers tokens.now (λ i. inits_tree i) result }
    ensures shorter { IfOk result (λ x. length x.1.now < length tokens.now) }
{
    let (first, rest) = got!(initialiser(context, count, tokens));
    let items = got!(one_init(context.alloc, first), or Fault::NoMemory);
    more_initialisers(context, count, items, rest)
}

/// The items behind the first.
#[cycle(initialisers)]
fn more_initialisers<'a>(
    context: &Context<'_>,
    count: u32,
    before: Vec<Init>,
    tokens: &'a [Placed],
) -> Reading<'a, Inits>
    ensures goes { Answers count (scene_of context.now) (part.MoreInitialisers (inits_from before.items)) tokens.now (λ i. inits_tree i) result }
    ensures shorter { IfOk result (λ x. length x.1.now < length tokens.now) }
{
    let mut items = before;
    let mut rest = tokens;
    while !comes(Lookahead::RightBrace, rest) {
        let (_comma, behind) = got!(taken(context, count, 0, Class::Sign(Punctuator::Comma), rest));
        if comes(Lookahead::RightBrace, behind) {
            return comma_end(context, count, items, behind);
        }
        let (next, after) = got!(initialiser(context, count, behind));
        got!(push_init(&mut items, next), or Fault::NoMemory);
        rest = after;
    }
    let closes = Class::Sign(Punctuator::RightBrace);
    let (_close, rest) = got!(taken(context, count, 0, closes, rest));
    Ok((Inits::from_vec(items), rest))
}

/// The brace behind a last comma.
fn comma_end<'a>(
    context: &Context<'_>,
    count: u32,
    items: Vec<Init>,
    tokens: &'a [Placed],
) -> Reading<'a, Inits>
    requires { first_is is_right_brace tokens.now ≡ true }
    ensures goes { Answers count (scene_of context.now) (part.NextInitialiser (inits_from items.items)) tokens.now (λ i. inits_tree i) result }
    ensures shorter { IfOk result (λ x. length x.1.now < length tokens.now) }
{
    let closes = Class::Sign(Punctuator::RightBrace);
    let (_close, rest) = got!(taken(context, count, 0, closes, tokens));
    Ok((Inits::from_vec(items), rest))
}

fn one_init(alloc: Global, first: Init) -> Result<Vec<Init>, AllocError>
    ensures { IfOk result (λ v. inits_from v.items ≡ more_inits (init_tree first) no_inits) }
{
    let mut items = Vec::new(alloc);
    items.push(first)?;
    Ok(items)
}

fn push_init(items: &mut Vec<Init>, next: Init) -> Result<(), AllocError>
    ensures { IfOk result (λ _. inits_from items.new.items ≡ inits_then (inits_from items.old.items) (init_tree next)) }
{
    items.push(next)?;
    Ok(())
}
