// What one kind of token makes alone.
#![tactic(auto, using(c_syntax_written::proofs::Trees::the_written_trees))]

ghost use Rattle.std.specs.Prelude.{◌≡◌, ◌<◌, ◌≤◌, length, IfOk};
ghost use Rattle.c_syntax_written.specs.Written.{spec_tree};
ghost use Rattle.c_grammar.specs.Parts as part;
ghost use Rattle.c_parser_steps.specs.Views.{boxed_expr, scene_of};
ghost use Rattle.c_parser_steps.specs.Kinds.{primary_at, spec_at};
ghost use Rattle.c_parser_steps.specs.Answers.{Answers};
ghost use Rattle.c_parser_leaves.specs.Readers.{IsNotEnclosed, IsSimpleSpec};

use crate::made::handed;
use c_grammar::Class;
use c_parser_steps::{
    Context, Lookahead, PrimaryKind, Reading, SpecKind, byte_of, bytes_of, comes, constant_of,
    name_of, primary_at, push_bytes, refused, spec_at, storage_word, taken, type_word,
};
use c_syntax_written::{Bytes, Expr, Keyword, Placed, Pos, Spec, StorageWord, TypeWord, boxed};

/// A primary expression that holds no other.
pub fn simple_primary<'a>(
    context: &Context<'_>,
    count: u32,
    tokens: &'a [Placed],
) -> Reading<'a, Box<Expr>>
    requires { IsNotEnclosed (scene_of context.now) tokens.now }
    ensures goes { Answers count (scene_of context.now) (part.AnExpr part.Primary) tokens.now (λ e. boxed_expr e) result }
    ensures shorter { IfOk result (λ x. length x.1.now < length tokens.now) }
{
    match primary_at(context, tokens) {
        PrimaryKind::Word => word(context, count, tokens),
        PrimaryKind::Number => number(context, count, tokens),
        PrimaryKind::Character => character(context, count, tokens),
        PrimaryKind::Text => strings(context, count, tokens),
        PrimaryKind::Enclosed => unreachable!(),
        PrimaryKind::Neither => Err(refused(context, count, tokens)),
    }
}

/// A word.
fn word<'a>(context: &Context<'_>, count: u32, tokens: &'a [Placed]) -> Reading<'a, Box<Expr>>
    requires { primary_at (scene_of context.now) tokens.now ≡ PrimaryKind.Word }
    ensures goes { Answers count (scene_of context.now) (part.AnExpr part.Primary) tokens.now (λ e. boxed_expr e) result }
    ensures shorter { IfOk result (λ x. length x.1.now < length tokens.now) }
{
    let (word, rest) = got!(taken(context, count, 0, Class::Word, tokens));
    let name = name_of(context.alloc, &word.token)?;
    let whole = boxed(
        context.alloc,
        Expr::Word {
            pos: word.pos,
            name,
        },
    );
    handed(whole, rest)
}

/// A number.
fn number<'a>(context: &Context<'_>, count: u32, tokens: &'a [Placed]) -> Reading<'a, Box<Expr>>
    requires { primary_at (scene_of context.now) tokens.now ≡ PrimaryKind.Number }
    ensures goes { Answers count (scene_of context.now) (part.AnExpr part.Primary) tokens.now (λ e. boxed_expr e) result }
    ensures shorter { IfOk result (λ x. length x.1.now < length tokens.now) }
{
    let (number, rest) = got!(taken(context, count, 0, Class::Number, tokens));
    let whole = boxed(
        context.alloc,
        Expr::Number {
            pos: number.pos,
            constant: constant_of(&number.token),
        },
    );
    handed(whole, rest)
}

/// A character constant.
fn character<'a>(context: &Context<'_>, count: u32, tokens: &'a [Placed]) -> Reading<'a, Box<Expr>>
    requires { primary_at (scene_of context.now) tokens.now ≡ PrimaryKind.Character }
    ensures goes { Answers count (scene_of context.now) (part.AnExpr part.Primary) tokens.now (λ e. boxed_expr e) result }
    ensures shorter { IfOk result (λ x. length x.1.now < length tokens.now) }
{
    let (character, rest) = got!(taken(context, count, 0, Class::Character, tokens));
    let whole = boxed(
        context.alloc,
        Expr::Character {
            pos: character.pos,
            byte: byte_of(&character.token),
        },
    );
    handed(whole, rest)
}

/// Strings that stand next to each other, which are one literal.
fn strings<'a>(context: &Context<'_>, count: u32, tokens: &'a [Placed]) -> Reading<'a, Box<Expr>>
    requires { primary_at (scene_of context.now) tokens.now ≡ PrimaryKind.Text }
    ensures goes { Answers count (scene_of context.now) (part.AnExpr part.Primary) tokens.now (λ e. boxed_expr e) result }
    ensures shorter { IfOk result (λ x. length x.1.now < length tokens.now) }
{
    let (text, rest) = got!(taken(context, count, 0, Class::Text, tokens));
    let bytes = bytes_of(context.alloc, &text.token)?;
    more_strings(context, count, text.pos, bytes, rest)
}

// The strings behind the first.
fn more_strings<'a>(
    context: &Context<'_>,
    count: u32,
    pos: Pos,
    before: Vec<u8>,
    tokens: &'a [Placed],
) -> Reading<'a, Box<Expr>>
    ensures goes { Answers count (scene_of context.now) (part.AnExpr (part.Texts pos before.items)) tokens.now (λ e. boxed_expr e) result }
    ensures shorter { IfOk result (λ x. length x.1.now ≤ length tokens.now) }
{
    let mut bytes = before;
    let mut rest = tokens;
    'texts: while comes(Lookahead::Text, rest) {
        let (text, after) = got!(taken(context, count, 0, Class::Text, rest));
        push_bytes(&mut bytes, &text.token)?;
        rest = after;
    }
    let whole = boxed(
        context.alloc,
        Expr::Strings {
            pos,
            bytes: Bytes::from_vec(bytes),
        },
    );
    handed(whole, rest)
}

/// A spec that holds no other.
pub fn simple_spec<'a>(context: &Context<'_>, count: u32, tokens: &'a [Placed]) -> Reading<'a, Spec>
    requires { IsSimpleSpec (scene_of context.now) tokens.now }
    ensures goes { Answers count (scene_of context.now) (part.ASpec part.Spec) tokens.now (λ s. spec_tree s) result }
    ensures shorter { IfOk result (λ x. length x.1.now < length tokens.now) }
{
    match spec_at(context, tokens) {
        SpecKind::TypedefName => typedef_name(context, count, tokens),
        SpecKind::Storage(word) => storage(context, count, word, tokens),
        SpecKind::Const => constant(context, count, tokens),
        SpecKind::Basic(word) => basic(context, count, word, tokens),
        SpecKind::Structure => unreachable!(),
        SpecKind::Enumeration => unreachable!(),
        SpecKind::Neither => Err(refused(context, count, tokens)),
    }
}

/// A typedef name.
fn typedef_name<'a>(context: &Context<'_>, count: u32, tokens: &'a [Placed]) -> Reading<'a, Spec>
    requires { spec_at (scene_of context.now) tokens.now ≡ SpecKind.TypedefName }
    ensures goes { Answers count (scene_of context.now) (part.ASpec part.Spec) tokens.now (λ s. spec_tree s) result }
    ensures shorter { IfOk result (λ x. length x.1.now < length tokens.now) }
{
    let (word, rest) = got!(taken(context, count, 0, Class::TypeName, tokens));
    let name = name_of(context.alloc, &word.token)?;
    Ok((
        Spec::TypedefName {
            pos: word.pos,
            name,
        },
        rest,
    ))
}

/// A storage word.
fn storage<'a>(
    context: &Context<'_>,
    count: u32,
    word: StorageWord,
    tokens: &'a [Placed],
) -> Reading<'a, Spec>
    requires { spec_at (scene_of context.now) tokens.now ≡ SpecKind.Storage word }
    ensures goes { Answers count (scene_of context.now) (part.ASpec part.Spec) tokens.now (λ s. spec_tree s) result }
    ensures shorter { IfOk result (λ x. length x.1.now < length tokens.now) }
{
    let keyword = Class::Keyword(storage_word(word));
    let (at, rest) = got!(taken(context, count, 0, keyword, tokens));
    Ok((Spec::Storage { pos: at.pos, word }, rest))
}

/// `const`.
fn constant<'a>(context: &Context<'_>, count: u32, tokens: &'a [Placed]) -> Reading<'a, Spec>
    requires { spec_at (scene_of context.now) tokens.now ≡ SpecKind.Const }
    ensures goes { Answers count (scene_of context.now) (part.ASpec part.Spec) tokens.now (λ s. spec_tree s) result }
    ensures shorter { IfOk result (λ x. length x.1.now < length tokens.now) }
{
    let (at, rest) = got!(taken(context, count, 0, Class::Keyword(Keyword::Const), tokens));
    Ok((Spec::Const { pos: at.pos }, rest))
}

/// A type word.
fn basic<'a>(
    context: &Context<'_>,
    count: u32,
    word: TypeWord,
    tokens: &'a [Placed],
) -> Reading<'a, Spec>
    requires { spec_at (scene_of context.now) tokens.now ≡ SpecKind.Basic word }
    ensures goes { Answers count (scene_of context.now) (part.ASpec part.Spec) tokens.now (λ s. spec_tree s) result }
    ensures shorter { IfOk result (λ x. length x.1.now < length tokens.now) }
{
    let (at, rest) = got!(taken(context, count, 0, Class::Keyword(type_word(word)), tokens));
    Ok((Spec::Basic { pos: at.pos, word }, rest))
}
