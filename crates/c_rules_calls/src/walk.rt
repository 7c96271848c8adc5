// The walk through statements with the labels of the blocks around them.
#![tactic(auto, using(c_syntax::proofs::Trees::the_trees, c_syntax::proofs::Sizes::the_typed_sizes, crate::proofs::GotoForms::the_strays))]

ghost use Rattle.std.specs.Prelude.{◌≡◌, ◌++◌, [], IfOk, OnOk, slice_get};
ghost use Rattle.c_syntax.specs.TypedStmt.{tstmt_tree, tstmts_tree};
ghost use Rattle.c_layout.specs.Jumps.{labels_among};
ghost use Rattle.c_rules_calls.specs.Gotos.{around_of, has_label, own_label, strays, strays_among};

use crate::labels::Labels;
use c_syntax::{Pos, TStmt, TStmts};
use std::alloc::{AllocError as NoMemory, Global};

/// The first goto in the text of a body that leads into a block that is not around it.
pub fn stray_goto(alloc: Global, body: &TStmt) -> Result<Option<Pos>, NoMemory>
    ensures { IfOk result (λ place. place ≡ slice_get (strays [] (tstmt_tree body.now)) 0) }
{
    let mut blocks = Vec::new(alloc);
    stray_in(alloc, body, &mut blocks)
}

// The first in a statement. The blocks are afterwards those that they were.
#[cycle(strays)]
fn stray_in(alloc: Global, stmt: &TStmt, blocks: &mut Vec<Labels>) -> Result<Option<Pos>, NoMemory>
    ensures found { IfOk result (λ place. place ≡ slice_get (strays (around_of blocks.old.items) (tstmt_tree stmt.now)) 0) }
    ensures back { OnOk result (blocks.new.items ≡ blocks.old.items) }
{
    match stmt {
        TStmt::Goto { pos, label } => {
            if is_around(blocks, *label) {
                Ok(None)
            } else {
                Ok(Some(*pos))
            }
        }
        TStmt::Block { items, .. } => stray_in_block(alloc, items, blocks),
        TStmt::Switch { items, .. } => stray_in_block(alloc, items, blocks),
        TStmt::If {
            then,
            otherwise,
            ..
        } => stray_in_either(alloc, then, otherwise, blocks),
        TStmt::While { body, .. } => stray_in(alloc, body, blocks),
        TStmt::DoWhile { body, .. } => stray_in(alloc, body, blocks),
        TStmt::For { body, .. } => stray_in(alloc, body, blocks),
        TStmt::Empty { .. } => Ok(None),
        TStmt::Expr { .. } => Ok(None),
        TStmt::Declare { .. } => Ok(None),
        TStmt::Static { .. } => Ok(None),
        TStmt::Break { .. } => Ok(None),
        TStmt::Continue { .. } => Ok(None),
        TStmt::Return { .. } => Ok(None),
        TStmt::Label { .. } => Ok(None),
        TStmt::Case { .. } => Ok(None),
        TStmt::Default { .. } => Ok(None),
    }
}

#[cycle(strays)]
fn stray_in_either(
    alloc: Global,
    then: &TStmt,
    otherwise: &TStmt,
    blocks: &mut Vec<Labels>,
) -> Result<Option<Pos>, NoMemory>
    ensures found { IfOk result
        (λ place. place ≡ slice_get
        (strays (around_of blocks.old.items) (tstmt_tree then.now) ++ strays (around_of blocks.old.items) (tstmt_tree otherwise.now)) 0) }
    ensures back { OnOk result (blocks.new.items ≡ blocks.old.items) }
{
    match stray_in(alloc, then, blocks)? {
        Some(place) => Ok(Some(place)),
        None => stray_in(alloc, otherwise, blocks),
    }
}

#[cycle(strays)]
fn stray_in_block(
    alloc: Global,
    items: &TStmts,
    blocks: &mut Vec<Labels>,
) -> Result<Option<Pos>, NoMemory>
    ensures found { IfOk result
        (λ place. place ≡ slice_get (strays_among (labels_among (tstmts_tree items.now) ++ around_of blocks.old.items) (tstmts_tree items.now)) 0) }
    ensures back { OnOk result (blocks.new.items ≡ blocks.old.items) }
{
    blocks.push(block_labels(alloc, items)?)?;
    let place = stray_among(alloc, items, blocks)?;
    let _ = blocks.pop();
    Ok(place)
}

#[cycle(strays)]
fn stray_among(
    alloc: Global,
    items: &TStmts,
    blocks: &mut Vec<Labels>,
) -> Result<Option<Pos>, NoMemory>
    ensures found { IfOk result (λ place. place ≡ slice_get (strays_among (around_of blocks.old.items) (tstmts_tree items.now)) 0) }
    ensures back { OnOk result (blocks.new.items ≡ blocks.old.items) }
{
    for item in items.as_slice() {
        match stray_in(alloc, item, blocks)? {
            Some(place) => return Ok(Some(place)),
            None => {}
        }
    }
    Ok(None)
}

// The labels that stand right among these items.
fn block_labels(alloc: Global, items: &TStmts) -> Result<Labels, NoMemory>
    ensures { IfOk result (λ labels. labels ≡ labels_among (tstmts_tree items.now)) }
{
    let mut labels = Labels::new(alloc);
    for item in items.as_slice() {
        labels = with_label(labels, item)?;
    }
    Ok(labels)
}

// The labels with that of this item, if it is one.
fn with_label(labels: Labels, item: &TStmt) -> Result<Labels, NoMemory>
    ensures { IfOk result (λ more. more ≡ labels ++ own_label (tstmt_tree item.now)) }
{
    match item {
        TStmt::Label { label, .. } => labels.with(*label),
        _ => Ok(labels),
    }
}

// Whether the label stands in one of these blocks.
fn is_around(blocks: &[Labels], label: u64) -> bool
    ensures { result ≡ has_label (around_of blocks.now) label }
{
    for labels in blocks {
        if labels.contains(label) {
            return true;
        }
    }
    false
}
