// The bytes of an object.
#![tactic(auto)]

ghost use Rattle.std.specs.Prelude.{◌≡◌, IfOk, map};
ghost use Rattle.c_syntax.specs.Types.{object_tree};
ghost use Rattle.c_syntax.specs.TypedStmt.{tinit_tree};
ghost use Rattle.c_typing.specs.Inits as inits;

use crate::scalars::scalar_bytes;
use c_syntax::{InitByte, InitBytes, Object, TInit};
use std::alloc::{AllocError as NoMemory, Global};

/// The bytes with which an object of this size begins: zeros, and in them what the items store (C11 6.7.9p10 and p21). Where
/// an item is no constant its bytes are zeros, and one that copies a struct is left out.
pub fn static_bytes(
    alloc: Global,
    objects: &[Object],
    size: u64,
    items: &[TInit],
) -> Result<InitBytes, NoMemory>
    ensures { IfOk result (λ bytes. bytes ≡ inits.static_bytes (map object_tree objects.now) size (map tinit_tree items.now)) }
{
    let mut bytes = vec![in alloc; InitByte::Num(0); size as usize]?;
    'each: for item in items {
        bytes = with_item(alloc, objects, bytes, item)?;
    }
    Ok(InitBytes::from_vec(bytes))
}

// The bytes with what the item stores.
#[tactic(auto, using(c_syntax::proofs::Trees::the_trees))]
fn with_item(
    alloc: Global,
    objects: &[Object],
    bytes: Vec<InitByte>,
    item: &TInit,
) -> Result<Vec<InitByte>, NoMemory>
    ensures { IfOk result (λ after. after.items ≡ inits.with_item (map object_tree objects.now) bytes.items (tinit_tree item.now)) }
{
    match item {
        TInit::Store { offset, ty, value } => {
            let piece = scalar_bytes(alloc, objects, ty, value)?;
            let after = written_at(bytes, *offset as usize, piece.as_slice())?;
            Ok(after)
        }
        TInit::Copy { .. } => Ok(bytes),
    }
}

// The bytes with these in the place of those from an offset on.
fn written_at(
    bytes: Vec<InitByte>,
    offset: usize,
    piece: &[InitByte],
) -> Result<Vec<InitByte>, NoMemory>
    ensures { IfOk result (λ after. after.items ≡ inits.written_at offset piece.now bytes.items) }
{
    let mut bytes = bytes;
    let count = bytes.len();
    if piece.len() <= count && offset <= count - piece.len() {
        bytes[offset..offset + piece.len()].copy_from_slice(piece);
    } else {
        bytes.truncate(offset);
        bytes.extend_from_slice(piece)?;
    }
    Ok(bytes)
}
