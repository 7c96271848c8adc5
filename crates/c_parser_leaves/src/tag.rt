// What begins a struct or an enumeration.
#![tactic(auto, using(c_syntax_written::proofs::Trees::the_written_trees))]

ghost use Rattle.std.specs.Prelude.{◌≡◌, ◌<◌, ◌≤◌, false, IfOk, IfSome, length};
ghost use Rattle.c_syntax_written.specs.Written.{Enum, Struct, spec_tree};
ghost use Rattle.c_grammar.specs.Refused.{first_is, is_brace};
ghost use Rattle.c_parser_steps.specs.Kinds.{spec_at, tag_at};
ghost use Rattle.c_parser_steps.specs.Views.{scene_of};
ghost use Rattle.c_parser_leaves.specs.Tags.{NamesOrBraces, ReadsHead, ReadsTag, of_enumeration, of_structure};

use c_grammar::Class;
use c_parser_steps::{Context, Reading, SpecKind, TagKind, name_of, refused, tag_at, taken};
use c_syntax_written::{Keyword, Placed, Pos, Spec, Tag};

/// `struct` and its tag, where there is one.
pub fn structure_head<'a>(
    context: &Context<'_>,
    count: u32,
    tokens: &'a [Placed],
) -> Reading<'a, (Pos, Option<Tag>)>
    requires { spec_at (scene_of context.now) tokens.now ≡ SpecKind.Structure }
    ensures goes { ReadsHead of_structure count (scene_of context.now) tokens.now result }
    ensures begun { IfOk result (λ x. NamesOrBraces x.0.1 x.1.now) }
    ensures shorter { IfOk result (λ x. length x.1.now < length tokens.now) }
{
    let keyword = Class::Keyword(Keyword::Struct);
    let (at, behind) = got!(taken(context, count, 0, keyword, tokens));
    let (tag, rest) = got!(tag(context, count, behind));
    Ok(((at.pos, tag), rest))
}

/// `enum` and its tag, where there is one.
pub fn enumeration_head<'a>(
    context: &Context<'_>,
    count: u32,
    tokens: &'a [Placed],
) -> Reading<'a, (Pos, Option<Tag>)>
    requires { spec_at (scene_of context.now) tokens.now ≡ SpecKind.Enumeration }
    ensures goes { ReadsHead of_enumeration count (scene_of context.now) tokens.now result }
    ensures begun { IfOk result (λ x. NamesOrBraces x.0.1 x.1.now) }
    ensures shorter { IfOk result (λ x. length x.1.now < length tokens.now) }
{
    let keyword = Class::Keyword(Keyword::Enum);
    let (at, behind) = got!(taken(context, count, 0, keyword, tokens));
    let (tag, rest) = got!(tag(context, count, behind));
    Ok(((at.pos, tag), rest))
}

/// A tag, where there is one.
fn tag<'a>(context: &Context<'_>, count: u32, tokens: &'a [Placed]) -> Reading<'a, Option<Tag>>
    ensures goes { ReadsTag count (scene_of context.now) tokens.now result }
    ensures begun { IfOk result (λ x. NamesOrBraces x.0 x.1.now) }
    ensures shorter { IfOk result (λ x. length x.1.now ≤ length tokens.now) }
{
    match tag_at(tokens) {
        TagKind::Tag => given_tag(context, count, tokens),
        TagKind::Body => Ok((None, tokens)),
        TagKind::Neither => Err(refused(context, count, tokens)),
    }
}

/// A tag.
fn given_tag<'a>(
    context: &Context<'_>,
    count: u32,
    tokens: &'a [Placed],
) -> Reading<'a, Option<Tag>>
    requires { tag_at tokens.now ≡ TagKind.Tag }
    ensures goes { ReadsTag count (scene_of context.now) tokens.now result }
    ensures begun { IfOk result (λ x. NamesOrBraces x.0 x.1.now) }
    ensures shorter { IfOk result (λ x. length x.1.now < length tokens.now) }
{
    let (word, rest) = got!(taken(context, count, 0, Class::AnyWord, tokens));
    let name = name_of(context.alloc, &word.token)?;
    let pos = word.pos;
    Ok((Some(Tag { pos, name }), rest))
}

/// A struct of this tag, whose members are not given here.
pub fn structure_of(pos: Pos, tag: Option<Tag>, tokens: &[Placed]) -> Spec
    requires begun { NamesOrBraces tag tokens.now }
    requires plain { first_is is_brace tokens.now ≡ false }
    ensures { IfSome tag (λ t. spec_tree result ≡ Struct pos t) }
{
    match tag {
        Some(tag) => Spec::Struct { pos, tag },
        None => unreachable!(),
    }
}

/// An enumeration of this tag, whose constants are not given here.
pub fn enumeration_of(pos: Pos, tag: Option<Tag>, tokens: &[Placed]) -> Spec
    requires begun { NamesOrBraces tag tokens.now }
    requires plain { first_is is_brace tokens.now ≡ false }
    ensures { IfSome tag (λ t. spec_tree result ≡ Enum pos t) }
{
    match tag {
        Some(tag) => Spec::Enum { pos, tag },
        None => unreachable!(),
    }
}
