// Which bytes of an object the items of its initialiser name.
#![tactic(auto, unfolding(c_syntax::specs::TypedStmt::tinit_tree), using(c_syntax::proofs::TypeTrees::type_trees))]

ghost use Rattle.std.specs.Prelude.{◌≡◌, ◌<◌, ℕ, ◌||◌, false, IfOk, length, map, slice_index_or};
ghost use Rattle.c_objects.specs.Writing.{named_by, names_byte};
ghost use Rattle.c_layout.specs.Checks as rules;
ghost use Rattle.c_syntax.specs.Types.{ctype_tree};
ghost use Rattle.c_syntax.specs.TypedStmt.{tinit_tree};
ghost use Rattle.lower_zeros.specs.Named.{AreMarked};

use c_syntax::{CType, TInit, TInits};
use std::alloc::{AllocError as NoMemory, Global};

/// A mark for each of so many bytes, which tells whether an item names it.
pub fn marks_of(alloc: Global, inits: &TInits, size: u64) -> Result<Vec<bool>, NoMemory>
    ensures many { IfOk result (λ marks. length marks.items ≡ size) }
    ensures marked { IfOk result (λ marks. AreMarked (map tinit_tree inits.now) marks.items) }
{
    let mut marks = blank(alloc, size)?;
    for init in inits.as_slice() {
        mark(init, &mut marks);
    }
    Ok(marks)
}

// So many bytes without a mark.
fn blank(alloc: Global, size: u64) -> Result<Vec<bool>, NoMemory>
    ensures many { IfOk result (λ marks. length marks.items ≡ size) }
    ensures none { IfOk result (λ marks. (k : ℕ) → slice_index_or marks.items k false ≡ false) }
{
    let mut marks = Vec::new(alloc);
    while (marks.len() as u64) < size {
        marks.push(false)?;
    }
    Ok(marks)
}

// The bytes that an item names get their mark, and the others keep theirs.
fn mark(init: &TInit, marks: &mut Vec<bool>)
    ensures many { length marks.new.items ≡ length marks.old.items }
    ensures marked { (k : ℕ) → k < length marks.old.items
        → slice_index_or marks.new.items k false ≡ (names_byte (named_by (tinit_tree init.now)) k || slice_index_or marks.old.items k false) }
{
    let (first, count) = match init {
        TInit::Store {
            offset,
            ty,
            value: _,
        } => (*offset, scalar_bytes(ty)),
        TInit::Copy {
            offset,
            extent,
            source: _,
        } => (*offset, extent.size),
    };
    mark_from(first, count, marks);
}

fn scalar_bytes(ty: &CType) -> u64
    ensures { result ≡ rules.scalar_bytes (ctype_tree ty.now) }
{
    match ty {
        CType::Int(t) => u64::from(t.bytes()),
        CType::Pointer(_) => 8,
        CType::Void | CType::Array(_, _) | CType::Struct(_) | CType::Function(_) => 0,
    }
}

// So many bytes, from the first of them on, get their mark.
fn mark_from(first: u64, count: u64, marks: &mut Vec<bool>)
    ensures many { length marks.new.items ≡ length marks.old.items }
    ensures marked { (k : ℕ) → k < length marks.old.items
        → slice_index_or marks.new.items k false ≡ (names_byte (record { first = first; count = count }) k || slice_index_or marks.old.items k false) }
{
    let mut byte = first;
    let mut left = count;
    while left > 0 && byte < marks.len() as u64 {
        marks[byte as usize] = true;
        byte += 1;
        left -= 1;
    }
}
