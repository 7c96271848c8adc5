// Specs: the words and types that begin a declaration.
#![tactic(auto)]

ghost use Rattle.std.specs.Prelude.{◌≡◌, ◌<◌, ◌≤◌, length, IfOk};
ghost use Rattle.c_syntax_written.specs.Written.{enumerator_tree, enumerators_from, enumerators_tree, declarators_from, memberdecl_tree, memberdecls_from, memberdecls_tree, spec_tree, specs_from, specs_tree};
ghost use Rattle.c_grammar.specs.Made.{has_type};
ghost use Rattle.c_grammar.specs.Parts as part;
ghost use Rattle.c_parser_steps.specs.Answers.{Answers};
ghost use Rattle.c_parser_steps.specs.Kinds.{spec_at};
ghost use Rattle.c_parser_steps.specs.Views.{scene_of};
ghost use Rattle.c_parser_leaves.specs.Tags.{NamesOrBraces, of_enumeration, of_structure, tagged};

use crate::declarators::declarator;
use crate::exprs::conditional;
use c_grammar::{Class, Role};
use c_parser_leaves::{
    closed, comma_end, enumeration_head, enumeration_of, members_end, simple_spec, structure_head,
    structure_of, tells_type, type_comes_again,
};
use c_parser_steps::{
    Context, Lookahead, Reading, SpecKind, barred, comes, name_of, push_declarator,
    push_enumerator, push_member, push_spec, spec_ahead, spec_at, taken, valued_enumerator,
};
use c_syntax_written::{
    Construct, Declarator, Enumerator, Enumerators, MemberDecl, MemberDecls, Name, Placed, Pos,
    Punctuator, Spec, Specs, Tag,
};

/// Specs, as many as there are: at least one.
#[cycle(descent)]
pub fn specs<'a>(context: &Context<'_>, count: u32, tokens: &'a [Placed]) -> Reading<'a, Specs>
    ensures goes { Answers count (scene_of context.now) part.Specs tokens.now (λ s. specs_tree s) result }
    ensures shorter { IfOk result (λ x. length x.1.now < length tokens.now) }
{
    let mut has_type = false;
    let mut items = Vec::new(context.alloc);
    let mut rest = tokens;
    'words: loop {
        let (next, after) = got!(spec(context, count, rest));
        has_type = tells_type(has_type, &next);
        push_spec(&mut items, next)?;
        if type_comes_again(context, has_type, after) {
            return Err(barred(count, Construct::TypedefAgain, after));
        }
        if !spec_ahead(context, after) {
            return Ok((Specs::from_vec(items), after));
        }
        rest = after;
    }
}

/// A spec.
#[cycle(descent)]
fn spec<'a>(context: &Context<'_>, count: u32, tokens: &'a [Placed]) -> Reading<'a, Spec>
    ensures goes { Answers count (scene_of context.now) (part.ASpec part.Spec) tokens.now (λ s. spec_tree s) result }
    ensures shorter { IfOk result (λ x. length x.1.now < length tokens.now) }
{
    match spec_at(context, tokens) {
        SpecKind::Structure => structure(context, count, tokens),
        SpecKind::Enumeration => enumeration(context, count, tokens),
        _ => simple_spec(context, count, tokens),
    }
}

/// `struct` and what follows it.
#[cycle(descent)]
fn structure<'a>(context: &Context<'_>, count: u32, tokens: &'a [Placed]) -> Reading<'a, Spec>
    requires { spec_at (scene_of context.now) tokens.now ≡ SpecKind.Structure }
    ensures goes { Answers count (scene_of context.now) (part.ASpec part.Spec) tokens.now (λ s. spec_tree s) result }
    ensures shorter { IfOk result (λ x. length x.1.now < length tokens.now) }
{
    let ((at, tag), rest) = got!(structure_head(context, count, tokens));
    structure_form(context, count, at, tag, rest)
}

/// The members of a struct between braces, where they are given.
#[cycle(descent)]
fn structure_form<'a>(
    context: &Context<'_>,
    count: u32,
    at: Pos,
    tag: Option<Tag>,
    tokens: &'a [Placed],
) -> Reading<'a, Spec>
    requires { NamesOrBraces tag tokens.now }
    ensures goes { Answers count (scene_of context.now) (part.ASpec (tagged of_structure at tag)) tokens.now (λ s. spec_tree s) result }
    ensures shorter { IfOk result (λ x. length x.1.now ≤ length tokens.now) }
{
    if !comes(Lookahead::Brace, tokens) {
        return Ok((structure_of(at, tag, tokens), tokens));
    }
    let brace = Class::Sign(Punctuator::LeftBrace);
    let (_opening, behind) = got!(taken(context, count, 1, brace, tokens));
    let (members, rest) = got!(members(context, count + 1, behind));
    let whole = Spec::StructBody {
        pos: at,
        tag,
        members,
    };
    Ok((whole, rest))
}

/// `enum` and what follows it.
#[cycle(descent)]
fn enumeration<'a>(context: &Context<'_>, count: u32, tokens: &'a [Placed]) -> Reading<'a, Spec>
    requires { spec_at (scene_of context.now) tokens.now ≡ SpecKind.Enumeration }
    ensures goes { Answers count (scene_of context.now) (part.ASpec part.Spec) tokens.now (λ s. spec_tree s) result }
    ensures shorter { IfOk result (λ x. length x.1.now < length tokens.now) }
{
    let ((at, tag), rest) = got!(enumeration_head(context, count, tokens));
    enumeration_form(context, count, at, tag, rest)
}

/// The constants of an enumeration between braces, where they are given.
#[cycle(descent)]
fn enumeration_form<'a>(
    context: &Context<'_>,
    count: u32,
    at: Pos,
    tag: Option<Tag>,
    tokens: &'a [Placed],
) -> Reading<'a, Spec>
    requires { NamesOrBraces tag tokens.now }
    ensures goes { Answers count (scene_of context.now) (part.ASpec (tagged of_enumeration at tag)) tokens.now (λ s. spec_tree s) result }
    ensures shorter { IfOk result (λ x. length x.1.now ≤ length tokens.now) }
{
    if !comes(Lookahead::Brace, tokens) {
        return Ok((enumeration_of(at, tag, tokens), tokens));
    }
    let brace = Class::Sign(Punctuator::LeftBrace);
    let (_opening, behind) = got!(taken(context, count, 1, brace, tokens));
    let (enumerators, rest) = got!(enumerators(context, count + 1, behind));
    let whole = Spec::EnumBody {
        pos: at,
        tag,
        enumerators,
    };
    Ok((whole, rest))
}

/// The members of a struct, up to the brace that closes them.
#[cycle(descent)]
fn members<'a>(context: &Context<'_>, count: u32, tokens: &'a [Placed]) -> Reading<'a, MemberDecls>
    ensures goes { Answers count (scene_of context.now) part.Members tokens.now (λ m. memberdecls_tree m) result }
    ensures shorter { IfOk result (λ x. length x.1.now < length tokens.now) }
{
    let mut items = Vec::new(context.alloc);
    let mut rest = tokens;
    'lines: loop {
        let (next, after) = got!(member(context, count, rest));
        push_member(&mut items, next)?;
        if comes(Lookahead::RightBrace, after) {
            let whole = Ok(MemberDecls::from_vec(items));
            return closed(context, count, Punctuator::RightBrace, whole, after);
        }
        rest = after;
    }
}

/// Members that are declared together.
#[cycle(descent)]
fn member<'a>(context: &Context<'_>, count: u32, tokens: &'a [Placed]) -> Reading<'a, MemberDecl>
    ensures goes { Answers count (scene_of context.now) part.AMember tokens.now (λ m. memberdecl_tree m) result }
    ensures shorter { IfOk result (λ x. length x.1.now < length tokens.now) }
{
    let (words, rest) = got!(specs(context, count, tokens));
    let mut declarators = Vec::new(context.alloc);
    let mut rest = rest;
    'all: loop {
        let (next, after) = got!(declarator(context, Role::OfMember, count, rest));
        push_declarator(&mut declarators, next)?;
        if comes(Lookahead::Colon, after) {
            return Err(barred(count, Construct::BitField, after));
        }
        if comes(Lookahead::Semicolon, after) {
            return members_end(context, count, words, declarators, after);
        }
        let comma = Class::Sign(Punctuator::Comma);
        let (_comma, behind) = got!(taken(context, count, 0, comma, after));
        rest = behind;
    }
}

/// The constants of an enumeration, up to the brace that closes them.
#[cycle(descent)]
fn enumerators<'a>(
    context: &Context<'_>,
    count: u32,
    tokens: &'a [Placed],
) -> Reading<'a, Enumerators>
    ensures goes { Answers count (scene_of context.now) part.Enumerators tokens.now (λ e. enumerators_tree e) result }
    ensures shorter { IfOk result (λ x. length x.1.now < length tokens.now) }
{
    let mut items = Vec::new(context.alloc);
    let mut rest = tokens;
    'values: loop {
        let (next, after) = got!(enumerator(context, count, rest));
        push_enumerator(&mut items, next)?;
        if comes(Lookahead::RightBrace, after) {
            let whole = Ok(Enumerators::from_vec(items));
            return closed(context, count, Punctuator::RightBrace, whole, after);
        }
        let comma = Class::Sign(Punctuator::Comma);
        let (_comma, behind) = got!(taken(context, count, 0, comma, after));
        if comes(Lookahead::RightBrace, behind) {
            return comma_end(context, count, items, behind);
        }
        rest = behind;
    }
}

/// A constant of an enumeration.
#[cycle(descent)]
fn enumerator<'a>(
    context: &Context<'_>,
    count: u32,
    tokens: &'a [Placed],
) -> Reading<'a, Enumerator>
    ensures goes { Answers count (scene_of context.now) part.AnEnumerator tokens.now (λ e. enumerator_tree e) result }
    ensures shorter { IfOk result (λ x. length x.1.now < length tokens.now) }
{
    let (word, behind) = got!(taken(context, count, 0, Class::Word, tokens));
    let name = name_of(context.alloc, &word.token)?;
    enumerator_value(context, count, word.pos, name, behind)
}

/// The value of a constant, where it is given.
#[cycle(descent)]
fn enumerator_value<'a>(
    context: &Context<'_>,
    count: u32,
    at: Pos,
    name: Name,
    tokens: &'a [Placed],
) -> Reading<'a, Enumerator>
    ensures goes { Answers count (scene_of context.now) (part.EnumeratorValue at name) tokens.now (λ e. enumerator_tree e) result }
    ensures shorter { IfOk result (λ x. length x.1.now ≤ length tokens.now) }
{
    if !comes(Lookahead::Assign, tokens) {
        return Ok((Enumerator::Plain { pos: at, name }, tokens));
    }
    let sign = Class::Sign(Punctuator::Assign);
    let (_equals, behind) = got!(taken(context, count, 1, sign, tokens));
    let (value, rest) = got!(conditional(context, count + 1, behind));
    Ok((valued_enumerator(at, name, value), rest))
}
