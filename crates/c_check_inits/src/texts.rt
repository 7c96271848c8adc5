// String literals that are items of a list, or the whole of an initialiser.
#![tactic(auto)]

ghost use Rattle.std.specs.Prelude.{◌≡◌, ◌∷◌, [], map, option_map};
ghost use Rattle.c_syntax_written.specs.Written as written;
ghost use Rattle.c_syntax_written.specs.Written.{expr_tree};
ghost use Rattle.c_syntax.specs.Types.{ctype_tree};
ghost use Rattle.c_syntax.specs.TypedExpr.{texpr_tree};
ghost use Rattle.c_syntax.specs.TypedStmt.{tinit_tree};
ghost use Rattle.c_typing.specs.Inits as inits;
ghost use Rattle.c_typing.specs.Typing.{Types, Valued};
ghost use Rattle.c_check_names.specs.Views.{Answers};
ghost use Rattle.c_check_fills.specs.Views.{by_tree};
ghost use Rattle.c_check_fills.specs.RoomViews.{aggregates_tree, part_tree};
ghost use Rattle.c_check_names.specs.Worlds.{world_of};
ghost use Rattle.c_check_inits.specs.Forms as forms;
ghost use Rattle.c_check_inits.specs.Forms.{TextAsValue, TextInBraces, TextInPart, TextItem};
ghost use Rattle.c_check_inits.specs.Views.{filled_tree};

use crate::excess::too_many;
use crate::filled::{Filled, with_items};
use c_check_exprs::literal;
use c_check_fills::{Aggregates, Initialised, Item, Part, fill, fill_text, is_text, room};
use c_check_names::{TypeError, World};
use c_check_operators::value_of;
use c_syntax::{CType, Expr, Pos, TExpr, TInit};

/// The place and the bytes of a string literal, and nothing of another expression.
#[tactic(auto, using(c_syntax_written::proofs::Trees::the_written_trees))]
pub(crate) fn as_text(e: &Expr) -> Option<(Pos, &[u8])>
    ensures { option_map (λ text. (text.0, text.1.now)) result ≡ forms.as_text (expr_tree e.now) }
{
    match e {
        Expr::Strings { pos, bytes } => Some((*pos, bytes.as_slice())),
        Expr::Word { .. } | Expr::Number { .. } | Expr::Character { .. } => None,
        Expr::Enclosed { .. } | Expr::Index { .. } | Expr::Call { .. } => None,
        Expr::Dot { .. } | Expr::Arrow { .. } => None,
        Expr::PostStep { .. } | Expr::PreStep { .. } | Expr::Unary { .. } => None,
        Expr::SizeofExpr { .. } | Expr::SizeofType { .. } | Expr::Cast { .. } => None,
        Expr::Binary { .. } | Expr::Cond { .. } | Expr::Comma { .. } => None,
        Expr::Assign { .. } | Expr::Compound { .. } => None,
    }
}

/// A string literal, as an item.
pub(crate) fn text_item(
    world: &mut World,
    is_static: bool,
    whole: &CType,
    done: Filled,
    at: Pos,
    text: &[u8],
) -> Result<Filled, TypeError>
    ensures { Answers (TextItem (world_of world.old) is_static (ctype_tree whole.now) (filled_tree done) at text.now) filled_tree (world_of world.new) result }
{
    let Filled {
        items,
        mut aggregates,
    } = done;
    if aggregates.is_text_in_braces() {
        return text_in_braces(world, whole, aggregates, at, text);
    }
    let next = aggregates.next_part(&world.structs.defs)?;
    match next {
        None => {
            let typed = text_value(world, at, text);
            Err(too_many(world, whole, at, typed))
        }
        Some(part) => text_in_part(world, is_static, items, aggregates, part, at, text),
    }
}

// A literal in the array of characters whose braces the list is.
fn text_in_braces(
    world: &World,
    whole: &CType,
    aggregates: Aggregates,
    at: Pos,
    text: &[u8],
) -> Result<Filled, TypeError>
    ensures { Answers (TextInBraces (world_of world.now) (ctype_tree whole.now) (aggregates_tree aggregates) at text.now)
        filled_tree (world_of world.now) result }
{
    let mut aggregates = aggregates;
    let ty = whole.copy()?;
    let inner = aggregates.inner();
    let part = Part {
        ty,
        offset: inner.offset,
    };
    let n = room(inner.count, text)?;
    let items = got!(fill_text(world, &part, n, at, text));
    aggregates.fill_with_text(n);
    Ok(Filled { items, aggregates })
}

// A literal in the part that is next.
fn text_in_part(
    world: &mut World,
    is_static: bool,
    items: Vec<TInit>,
    aggregates: Aggregates,
    part: Part,
    at: Pos,
    text: &[u8],
) -> Result<Filled, TypeError>
    ensures { Answers (TextInPart (world_of world.old) is_static (map tinit_tree items.items) (aggregates_tree aggregates) (part_tree part) at text.now)
        filled_tree (world_of world.new) result }
{
    let mut aggregates = aggregates;
    let inner = aggregates.filled_in(&world.structs.defs, &Item::Text, part)?;
    let more = got!(with_text(world, is_static, inner, at, text));
    let filled = with_items(items, more, aggregates)?;
    Ok(filled)
}

// A literal in a part: it fills an array of characters, or is a pointer's value.
fn with_text(
    world: &mut World,
    is_static: bool,
    part: Part,
    at: Pos,
    text: &[u8],
) -> Result<Vec<TInit>, TypeError>
    ensures { Answers (inits.WithText (world_of world.old) is_static (part_tree part) at text.now) (λ items. map tinit_tree items.items)
        (world_of world.new) result }
{
    if is_text(&part.ty) {
        let n = array_count(&part.ty);
        fill_text(world, &part, n, at, text)
    } else {
        text_as_value(world, is_static, part, at, text)
    }
}

// A literal whose address a part takes.
fn text_as_value(
    world: &mut World,
    is_static: bool,
    part: Part,
    at: Pos,
    text: &[u8],
) -> Result<Vec<TInit>, TypeError>
    ensures { Answers (TextAsValue (world_of world.old) is_static (part_tree part) at text.now) (λ items. map tinit_tree items.items)
        (world_of world.new) result }
{
    let x = got!(text_value(world, at, text));
    let item = got!(fill(world, is_static, part, at, x));
    let mut items = Vec::new(world.alloc());
    items.push(item)?;
    Ok(items)
}

// The value of a literal.
fn text_value(world: &mut World, at: Pos, text: &[u8]) -> Result<TExpr, TypeError>
    ensures { Answers (Valued (Types (world_of world.old) (written.Strings at text.now))) texpr_tree (world_of world.new) result }
{
    let x = got!(literal(world, at, text));
    let v = value_of(world.alloc(), x)?;
    Ok(v)
}

// How many elements an array has.
#[tactic(auto, using(c_syntax::proofs::Trees::the_trees))]
fn array_count(ty: &CType) -> u64
    ensures { result ≡ inits.array_count (ctype_tree ty.now) }
{
    match ty {
        CType::Array(_, n) => *n,
        CType::Void | CType::Int(_) | CType::Pointer(_) | CType::Struct(_) | CType::Function(_) =>
            0,
    }
}

/// A string literal that initialises an array of characters, which has so many, or as many as the literal.
pub(crate) fn by_text(
    world: &World,
    ty: &CType,
    count: Option<u64>,
    at: Pos,
    text: &[u8],
) -> Result<Initialised, TypeError>
    ensures { Answers (inits.ByText (world_of world.now) (inits.whole_part (ctype_tree ty.now)) count at text.now) by_tree (world_of world.now) result }
{
    let ty = ty.copy()?;
    let part = Part { ty, offset: 0 };
    let n = room(count, text)?;
    let items = got!(fill_text(world, &part, n, at, text));
    Ok(Initialised {
        items,
        zeroes_rest: true,
        count: n,
    })
}
