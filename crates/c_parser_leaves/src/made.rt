// What was made of a form, handed on.
#![tactic(auto)]

ghost use Rattle.std.specs.Prelude.{◌<◌, ◌≤◌, length, IfOk};
ghost use Rattle.c_grammar.specs.declared.class.Class.TheVariants.{Sign as sign};
ghost use Rattle.c_parser_steps.specs.Views.{scene_of};
ghost use Rattle.c_parser_leaves.specs.Ends.{Closes, Hands};

use c_grammar::Class;
use c_parser_steps::{Context, Fault, Reading, taken};
use c_syntax_written::{Placed, Punctuator};
use std::alloc::AllocError;

/// What was made, with the tokens behind it.
pub fn handed<'a, T>(made: Result<T, AllocError>, tokens: &'a [Placed]) -> Reading<'a, T>
    ensures goes { Hands tokens.now made result }
    ensures shorter { IfOk result (λ x. length x.1.now ≤ length tokens.now) }
{
    match made {
        Ok(whole) => Ok((whole, tokens)),
        Err(_) => Err(Fault::NoMemory),
    }
}

/// The sign that ends a form, and what was made of the form.
pub fn closed<'a, T: Drop>(
    context: &Context<'_>,
    count: u32,
    closes: Punctuator,
    made: Result<T, AllocError>,
    tokens: &'a [Placed],
) -> Reading<'a, T>
    ensures goes { Closes count (scene_of context.now) (sign closes) tokens.now made result }
    ensures shorter { IfOk result (λ x. length x.1.now < length tokens.now) }
{
    match taken(context, count, 0, Class::Sign(closes), tokens) {
        Ok((_, rest)) => handed(made, rest),
        Err(fault) => Err(fault),
    }
}
