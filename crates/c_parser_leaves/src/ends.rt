// How specs and lists of members and enumerators end.
#![tactic(auto, using(c_syntax_written::proofs::Trees::the_written_trees))]

ghost use Rattle.std.specs.Prelude.{◌≡◌, ◌<◌, true, ◌&&◌, ◌||◌, length, IfOk};
ghost use Rattle.c_syntax_written.specs.Written.{enumerators_from, enumerators_tree, declarators_from, memberdecl_tree, spec_tree, specs_tree};
ghost use Rattle.c_grammar.specs.Choice.{is_right_brace, is_semicolon};
ghost use Rattle.c_grammar.specs.Made.{has_type, is_type};
ghost use Rattle.c_grammar.specs.Parts as part;
ghost use Rattle.c_grammar.specs.Refused.{first_is, is_type_name};
ghost use Rattle.c_parser_steps.specs.Answers.{Answers};
ghost use Rattle.c_parser_steps.specs.Views.{scene_of};

use c_grammar::Class;
use c_parser_steps::{Context, Reading, is_type, specs_pos, taken, type_name_ahead};
use c_syntax_written::{
    Declarator, Declarators, Enumerator, Enumerators, MemberDecl, Placed, Punctuator, Spec, Specs,
};

/// The semicolon behind the declarators of members.
pub fn members_end<'a>(
    context: &Context<'_>,
    count: u32,
    specs: Specs,
    declarators: Vec<Declarator>,
    tokens: &'a [Placed],
) -> Reading<'a, MemberDecl>
    requires { first_is is_semicolon tokens.now ≡ true }
    ensures goes { Answers count (scene_of context.now) (part.MoreDeclarators (specs_tree specs) (declarators_from declarators.items)) tokens.now
        (λ m. memberdecl_tree m) result }
    ensures shorter { IfOk result (λ x. length x.1.now < length tokens.now) }
{
    let semicolon = Class::Sign(Punctuator::Semicolon);
    let (_end, rest) = got!(taken(context, count, 0, semicolon, tokens));
    Ok((
        MemberDecl::Members {
            pos: specs_pos(&specs),
            specs,
            declarators: Declarators::from_vec(declarators),
        },
        rest,
    ))
}

/// The brace behind a last comma.
pub fn comma_end<'a>(
    context: &Context<'_>,
    count: u32,
    items: Vec<Enumerator>,
    tokens: &'a [Placed],
) -> Reading<'a, Enumerators>
    requires { first_is is_right_brace tokens.now ≡ true }
    ensures goes { Answers count (scene_of context.now) (part.NextEnumerator (enumerators_from items.items)) tokens.now (λ e. enumerators_tree e) result }
    ensures shorter { IfOk result (λ x. length x.1.now < length tokens.now) }
{
    let closes = Class::Sign(Punctuator::RightBrace);
    let (_close, rest) = got!(taken(context, count, 0, closes, tokens));
    Ok((Enumerators::from_vec(items), rest))
}

/// A typedef name comes behind specs that tell a type.
pub fn type_comes_again(context: &Context<'_>, has_type: bool, tokens: &[Placed]) -> bool
    ensures { result ≡ (first_is (is_type_name (scene_of context.now)) tokens.now && has_type) }
{
    type_name_ahead(context, tokens) && has_type
}

/// Whether specs tell a type, with one more.
pub fn tells_type(before: bool, next: &Spec) -> bool
    ensures { result ≡ (before || is_type (spec_tree next.now)) }
{
    before || is_type(next)
}
