// String literals in arrays of characters.
#![tactic(auto)]

ghost use Rattle.std.specs.Prelude.{◌≡◌, ◌+◌, ◌∷◌, ◌++◌, [], List, ℕ, IfOk, length, map};
ghost use Rattle.c_syntax.specs.Types as types;
ghost use Rattle.c_syntax.specs.Types.{ctype_tree};
ghost use Rattle.c_syntax.specs.TypedExpr as exprs;
ghost use Rattle.c_syntax.specs.TypedStmt as trees;
ghost use Rattle.c_syntax.specs.TypedStmt.{tinit_tree};
ghost use Rattle.c_typing.specs.Inits as inits;
ghost use Rattle.c_check_names.specs.Views.{Answers};
ghost use Rattle.c_check_fills.specs.RoomViews.{part_tree};
ghost use Rattle.c_check_names.specs.Worlds.{world_of};

use crate::Part;
use c_check_declarators::no_init;
use c_check_names::{TypeError, World};
use c_layout::wrap;
use c_syntax::{CType, IntType, Pos, TExpr, TInit};
use std::alloc::{AllocError as NoMemory, Global};

/// How many characters a literal of so many bytes has room for: those of the array, or as many as it has with its zero where
/// the array has no size.
pub fn room(count: Option<u64>, text: &[u8]) -> Result<u64, NoMemory>
    ensures { IfOk result (λ n. n ≡ inits.room count text.now) }
{
    match count {
        Some(count) => Ok(count),
        None => sum(text.len() as u64, 1),
    }
}

/// A literal at this place fills an array of so many characters. A longer one is NoRule with Op `init` and the array left.
pub fn fill_text(
    world: &World,
    part: &Part,
    n: u64,
    at: Pos,
    text: &[u8],
) -> Result<Vec<TInit>, TypeError>
    ensures { Answers (λ out. out ≡ inits.fill_text (world_of world.now) (part_tree part.now) n at text.now)
        (λ items. map tinit_tree items.items) (world_of world.now) result }
{
    if n < text.len() as u64 {
        let ty = part.ty.copy()?;
        return Err(no_init(world, at, ty));
    }
    let items = items_for(world.alloc(), part, n, at, text)?;
    Ok(items)
}

// The bytes, and the closing zero where there is room for it.
fn items_for(
    alloc: Global,
    part: &Part,
    n: u64,
    at: Pos,
    text: &[u8],
) -> Result<Vec<TInit>, NoMemory>
    ensures { IfOk result (λ items. map tinit_tree items.items
        ≡ inits.text_items at (inits.element_type (ctype_tree part.now.ty)) part.now.offset (inits.text_for n text.now)) }
{
    let t = element_type(&part.ty);
    let items = text_items(alloc, at, t, part.offset, text)?;
    if text.len() as u64 == n {
        return Ok(items);
    }
    let items = with_zero(items, at, t, part.offset, text)?;
    Ok(items)
}

// The items of a literal with that of its closing zero behind them.
fn with_zero(
    items: Vec<TInit>,
    at: Pos,
    t: IntType,
    offset: u64,
    text: &[u8],
) -> Result<Vec<TInit>, NoMemory>
    ensures { IfOk result (λ all. map tinit_tree items.items ≡ inits.text_items at t offset text.now
        → map tinit_tree all.items ≡ inits.text_items at t offset (text.now ++ 0 ∷ [])) }
{
    let mut items = items;
    let end = sum(offset, text.len() as u64)?;
    items.push(text_item(at, t, end, 0))?;
    Ok(items)
}

// The bytes from an offset on.
fn text_items(
    alloc: Global,
    at: Pos,
    t: IntType,
    offset: u64,
    text: &[u8],
) -> Result<Vec<TInit>, NoMemory>
    ensures { IfOk result (λ items. map tinit_tree items.items ≡ inits.text_items at t offset text.now) }
{
    let mut items = Vec::new(alloc);
    let mut next = offset;
    'each: for byte in text {
        items.push(text_item(at, t, next, *byte))?;
        next = sum(next, 1)?;
    }
    Ok(items)
}

// A byte as an element.
fn text_item(at: Pos, t: IntType, offset: u64, byte: u8) -> TInit
    ensures { tinit_tree result ≡ inits.text_item at t offset byte }
{
    number_item(at, t, offset, wrap(t, i128::from(byte)))
}

// A number that is stored as one of this type.
#[tactic(auto, using(c_syntax::proofs::Trees::the_trees))]
fn number_item(at: Pos, t: IntType, offset: u64, value: i128) -> TInit
    ensures { tinit_tree result ≡ trees.Store offset (types.Int t) (exprs.Const at t value) }
{
    let ty = CType::Int(t);
    let value = TExpr::Const {
        pos: at,
        ty: t,
        value,
    };
    TInit::Store { offset, ty, value }
}

// The type of the elements of an array of characters.
#[tactic(auto, using(c_syntax::proofs::Trees::the_trees))]
fn element_type(ty: &CType) -> IntType
    ensures { result ≡ inits.element_type (ctype_tree ty.now) }
{
    match ty {
        CType::Array(of, _) => match &of.ty {
            CType::Int(t) => *t,
            CType::Void
            | CType::Pointer(_)
            | CType::Array(_, _)
            | CType::Struct(_)
            | CType::Function(_) => IntType::Char,
        },
        CType::Void | CType::Int(_) | CType::Pointer(_) | CType::Struct(_) | CType::Function(_) =>
            IntType::Char,
    }
}

fn sum(a: u64, b: u64) -> Result<u64, NoMemory>
    ensures { IfOk result (λ n. n ≡ a + b) }
{
    match a.checked_add(b) {
        None => Err(NoMemory),
        Some(n) => Ok(n),
    }
}
