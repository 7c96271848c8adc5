// The declarations of a file.
#![tactic(auto, using(c_syntax_written::proofs::Trees::the_written_trees))]

ghost use Rattle.std.specs.Prelude.{◌≡◌, ℕ, ◌+◌, ◌<◌, ◌≤◌, ◌++◌, true, List, [], length, map, IfOk};
ghost use Rattle.c_syntax_written.specs.Written.{declarator_tree, spec_tree, specs_from, specs_tree};
ghost use Rattle.c_syntax_written.specs.WrittenDecl.{initdeclarator_tree};
ghost use Rattle.c_syntax_written.specs.WrittenFile.{Function, blockitems_tree, outer_tree};
ghost use Rattle.c_grammar.specs.Made.{declared_word, declared_words, has_typedef, is_typedef, new_types, specs_pos, with_word};
ghost use Rattle.c_grammar.specs.Parts as part;
ghost use Rattle.c_grammar.specs.Refused.{first_is, is_brace};
ghost use Rattle.c_parser_steps.specs.Answers.{Answers};
ghost use Rattle.c_parser_steps.specs.Views.{boxed_declarator, scene_of};

use crate::decl::{initial, no_declarators};
use crate::stmt::block_items;
use c_grammar::{Class, Role};
use c_parser_exprs::{declarator, specs};
use c_parser_steps::{
    Context, Lookahead, Reading, TypeNames, comes, declared_word, specs_pos, taken,
};
use c_syntax_written::{
    BlockItems, Declarator, InitDeclarator, Outer, Placed, Pos, Punctuator, Spec, Specs,
    StorageWord,
};
use std::alloc::AllocError;

/// A declaration of a file, or a function with its body.
pub fn outer<'a>(context: &Context<'_>, count: u32, tokens: &'a [Placed]) -> Reading<'a, Outer>
    ensures goes { Answers count (scene_of context.now) (part.AnOuter part.Outer) tokens.now (λ o. outer_tree o) result }
    ensures shorter { IfOk result (λ x. length x.1.now < length tokens.now) }
{
    let (words, rest) = specs(context, count, tokens)?;
    outer_declared(context, count, words, rest)
}

/// What follows its specs.
fn outer_declared<'a>(
    context: &Context<'_>,
    count: u32,
    specs: Specs,
    tokens: &'a [Placed],
) -> Reading<'a, Outer>
    ensures goes { Answers count (scene_of context.now) (part.AnOuter (part.OuterDeclared (specs_tree specs))) tokens.now (λ o. outer_tree o) result }
    ensures shorter { IfOk result (λ x. length x.1.now < length tokens.now) }
{
    if comes(Lookahead::Semicolon, tokens) {
        let semicolon = Class::Sign(Punctuator::Semicolon);
        let (_end, rest) = taken(context, count, 0, semicolon, tokens)?;
        let decl = no_declarators(context.alloc, specs);
        return Ok((Outer::Declared(decl), rest));
    }
    let (first, rest) = declarator(context, Role::Naming, count, tokens)?;
    outer_initial(context, count, specs, first, rest)
}

/// What follows its first declarator.
fn outer_initial<'a>(
    context: &Context<'_>,
    count: u32,
    specs: Specs,
    first: Box<Declarator>,
    tokens: &'a [Placed],
) -> Reading<'a, Outer>
    ensures goes { Answers count (scene_of context.now) (part.AnOuter (part.OuterInitial (specs_tree specs) (boxed_declarator first))) tokens.now
        (λ o. outer_tree o)
        result }
    ensures shorter { IfOk result (λ x. length x.1.now < length tokens.now) }
{
    if comes(Lookahead::Brace, tokens) {
        return function(context, count, specs, first, tokens);
    }
    let (decl, rest) = initial(context, count, specs, first, tokens)?;
    Ok((Outer::Declared(decl), rest))
}

/// The body of a function.
fn function<'a>(
    context: &Context<'_>,
    count: u32,
    specs: Specs,
    declarator: Box<Declarator>,
    tokens: &'a [Placed],
) -> Reading<'a, Outer>
    requires { first_is is_brace tokens.now ≡ true }
    ensures goes { Answers count (scene_of context.now) (part.AnOuter (part.OuterInitial (specs_tree specs) (boxed_declarator declarator))) tokens.now
        (λ o. outer_tree o) result }
    ensures shorter { IfOk result (λ x. length x.1.now < length tokens.now) }
{
    let brace = Class::Sign(Punctuator::LeftBrace);
    let (opening, behind) = taken(context, count, 1, brace, tokens)?;
    let (body, rest) = block_items(context, false, count + 1, behind)?;
    Ok((function_outer(specs, declarator, opening.pos, body), rest))
}

/// A function of its parts.
fn function_outer(specs: Specs, declarator: Box<Declarator>, brace: Pos, body: BlockItems) -> Outer
    ensures { outer_tree result ≡ Function (specs_pos (specs_tree specs)) (specs_tree specs) (boxed_declarator declarator) brace (blockitems_tree body) }
{
    Outer::Function {
        pos: specs_pos(&specs),
        specs,
        declarator,
        brace,
        body,
    }
}

/// The typedef names in force behind a declaration of the file.
pub fn types_after(types: TypeNames, outer: &Outer) -> Result<TypeNames, AllocError>
    ensures { IfOk result (λ names. names ≡ types ++ new_types (outer_tree outer.now)) }
{
    match outer {
        Outer::Declared(decl) => {
            if !has_typedef(decl.specs.as_slice()) {
                return Ok(types);
            }
            with_words(types, decl.inits.as_slice())
        }
        Outer::Function { .. } => Ok(types),
    }
}

fn has_typedef(specs: &[Spec]) -> bool
    ensures { result ≡ has_typedef (specs_from specs.now) }
{
    for spec in specs {
        if is_typedef(spec) {
            return true;
        }
    }
    false
}

fn is_typedef(spec: &Spec) -> bool
    ensures { result ≡ is_typedef (spec_tree spec.now) }
{
    match spec {
        Spec::Storage { word, .. } => matches!(word, StorageWord::Typedef),
        Spec::Const { .. }
        | Spec::Basic { .. }
        | Spec::TypedefName { .. }
        | Spec::Struct { .. }
        | Spec::StructBody { .. }
        | Spec::Enum { .. }
        | Spec::EnumBody { .. } => false,
    }
}

/// The names, and behind them the words that the declarators declare.
fn with_words(types: TypeNames, inits: &[InitDeclarator]) -> Result<TypeNames, AllocError>
    ensures { IfOk result (λ names. names ≡ types ++ declared_words (map initdeclarator_tree inits.now)) }
{
    let mut names = types;
    for item in inits {
        names = with_word(names, &item.declarator)?;
    }
    Ok(names)
}

fn with_word(types: TypeNames, declarator: &Declarator) -> Result<TypeNames, AllocError>
    ensures { IfOk result (λ names. names ≡ types ++ with_word (declared_word (declarator_tree declarator.now)) []) }
{
    match declared_word(declarator) {
        Some(name) => types.with(name.copy()?.into_vec()),
        None => Ok(types),
    }
}
