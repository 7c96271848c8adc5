// Declarations.
#![tactic(auto, using(c_syntax_written::proofs::Trees::the_written_trees))]

ghost use Rattle.std.specs.Prelude.{◌≡◌, ℕ, ◌+◌, ◌<◌, ◌≤◌, true, false, List, [], ◌∷◌, ◌++◌, length, map, IfOk};
ghost use Rattle.c_syntax_written.specs.Written.{specs_tree};
ghost use Rattle.c_syntax_written.specs.WrittenDecl.{decl_tree, initdeclarator_tree};
ghost use Rattle.c_grammar.specs.Choice.{is_semicolon};
ghost use Rattle.c_grammar.specs.Made.{specs_pos};
ghost use Rattle.c_grammar.specs.Parts as part;
ghost use Rattle.c_grammar.specs.Refused.{first_is};
ghost use Rattle.c_parser_steps.specs.Answers.{Answers};
ghost use Rattle.c_parser_steps.specs.Views.{boxed_declarator, scene_of};
ghost use Rattle.c_parser.specs.Answers.{DeclaredNext, Initialised};

use crate::init::initialiser;
use c_grammar::{Class, Role};
use c_parser_exprs::{declarator, specs};
use c_parser_steps::{Context, Fault, Lookahead, Reading, comes, specs_pos, taken};
use c_syntax_written::{
    Decl, Declarator, Init, InitDeclarator, InitDeclarators, Placed, Punctuator, Specs, boxed,
};
use std::alloc::{AllocError, Global};

/// A declaration in a block or a `for`.
pub fn declaration<'a>(context: &Context<'_>, count: u32, tokens: &'a [Placed]) -> Reading<'a, Decl>
    ensures goes { Answers count (scene_of context.now) (part.ADecl part.Declaration) tokens.now (λ d. decl_tree d) result }
    ensures shorter { IfOk result (λ x. length x.1.now < length tokens.now) }
{
    let (words, rest) = got!(specs(context, count, tokens));
    declared(context, count, words, rest)
}

/// What follows the specs of a declaration.
fn declared<'a>(
    context: &Context<'_>,
    count: u32,
    specs: Specs,
    tokens: &'a [Placed],
) -> Reading<'a, Decl>
    ensures goes { Answers count (scene_of context.now) (part.ADecl (part.Declared (specs_tree specs))) tokens.now (λ d. decl_tree d) result }
    ensures shorter { IfOk result (λ x. length x.1.now < length tokens.now) }
{
    if comes(Lookahead::Semicolon, tokens) {
        let semicolon = Class::Sign(Punctuator::Semicolon);
        let (_end, rest) = got!(taken(context, count, 0, semicolon, tokens));
        return Ok((no_declarators(context.alloc, specs), rest));
    }
    let (first, rest) = got!(declarator(context, Role::Naming, count, tokens));
    initial(context, count, specs, first, rest)
}

/// A declaration without declarators.
pub fn no_declarators(alloc: Global, specs: Specs) -> Decl
    ensures { decl_tree result ≡ record { pos = specs_pos (specs_tree specs); specs = specs_tree specs; inits = [] } }
{
    Decl {
        pos: specs_pos(&specs),
        specs,
        inits: InitDeclarators::new(alloc),
    }
}

/// What follows the first declarator of a declaration.
pub fn initial<'a>(
    context: &Context<'_>,
    count: u32,
    specs: Specs,
    first: Box<Declarator>,
    tokens: &'a [Placed],
) -> Reading<'a, Decl>
    ensures goes { Answers count (scene_of context.now)
        (part.ADecl (part.Initial (specs_tree specs) [] (boxed_declarator first))) tokens.now (λ d. decl_tree d)
        result }
    ensures shorter { IfOk result (λ x. length x.1.now < length tokens.now) }
{
    let (init, after) = got!(init_of(context, count, tokens));
    let mut inits = Vec::new(context.alloc);
    got!(push_declared(&mut inits, first, init), or Fault::NoMemory);
    let mut rest = after;
    'all: while !comes(Lookahead::Semicolon, rest) {
        let ((next, more), after) = got!(next_declared(context, count, rest));
        got!(push_declared(&mut inits, next, more), or Fault::NoMemory);
        rest = after;
    }
    declaration_end(context, count, specs, inits, rest)
}

/// A comma, a declarator, and its initialiser where there is one.
fn next_declared<'a>(
    context: &Context<'_>,
    count: u32,
    tokens: &'a [Placed],
) -> Reading<'a, (Box<Declarator>, Option<Box<Init>>)>
    requires { first_is is_semicolon tokens.now ≡ false }
    ensures goes { DeclaredNext count (scene_of context.now) tokens.now result }
    ensures shorter { IfOk result (λ x. length x.1.now < length tokens.now) }
{
    let comma = Class::Sign(Punctuator::Comma);
    let (_comma, behind) = got!(taken(context, count, 0, comma, tokens));
    let (next, rest) = got!(declarator(context, Role::Naming, count, behind));
    let (init, rest) = got!(init_of(context, count, rest));
    Ok(((next, init), rest))
}

/// One more declarator at the end, with its initialiser where there is one.
fn push_declared(
    inits: &mut Vec<InitDeclarator>,
    declarator: Box<Declarator>,
    init: Option<Box<Init>>,
) -> Result<(), AllocError>
    ensures { IfOk result (λ _. map initdeclarator_tree inits.new.items
        ≡ map initdeclarator_tree inits.old.items ++ initdeclarator_tree (record { declarator = declarator.value; init = init }) ∷ []) }
{
    let declarator = Box::into_inner(declarator);
    inits.push(InitDeclarator { declarator, init })?;
    Ok(())
}

/// `=` and an initialiser, where there are any.
fn init_of<'a>(
    context: &Context<'_>,
    count: u32,
    tokens: &'a [Placed],
) -> Reading<'a, Option<Box<Init>>>
    ensures goes { Initialised count (scene_of context.now) tokens.now result }
    ensures shorter { IfOk result (λ x. length x.1.now ≤ length tokens.now) }
{
    if comes(Lookahead::Assign, tokens) {
        let sign = Class::Sign(Punctuator::Assign);
        let (_equals, behind) = got!(taken(context, count, 1, sign, tokens));
        let (init, rest) = got!(initialiser(context, count + 1, behind));
        let init = got!(boxed(context.alloc, init), or Fault::NoMemory);
        return Ok((Some(init), rest));
    }
    Ok((None, tokens))
}

/// The semicolon behind the declarators of a declaration.
fn declaration_end<'a>(
    context: &Context<'_>,
    count: u32,
    specs: Specs,
    inits: Vec<InitDeclarator>,
    tokens: &'a [Placed],
) -> Reading<'a, Decl>
    requires { first_is is_semicolon tokens.now ≡ true }
    ensures goes { Answers count (scene_of context.now) (part.ADecl (part.Ending (specs_tree specs) (map initdeclarator_tree inits.items))) tokens.now
        (λ d. decl_tree d)
        result }
    ensures shorter { IfOk result (λ x. length x.1.now < length tokens.now) }
{
    let semicolon = Class::Sign(Punctuator::Semicolon);
    let (_end, rest) = got!(taken(context, count, 0, semicolon, tokens));
    Ok((
        Decl {
            pos: specs_pos(&specs),
            specs,
            inits: InitDeclarators::from_vec(inits),
        },
        rest,
    ))
}
