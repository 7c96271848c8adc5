// The labels of a function, in the order of the text (C11 6.8.1). Statements nest no deeper than the text does.
#![tactic(auto, using(c_syntax_written::proofs::Trees::the_written_trees, c_syntax_written::proofs::Sizes::the_written_sizes, crate::proofs::LabelForms::the_labels))]

ghost use Rattle.std.specs.Prelude.{◌≡◌, ◌++◌, IfOk, OnOk};
ghost use Rattle.c_syntax_written.specs.WrittenFile as files;
ghost use Rattle.c_syntax_written.specs.WrittenFile.{BlockItemTrees, blockitem_tree, blockitems_tree, stmt_tree};
ghost use Rattle.c_typing.specs.Context as contexts;

use crate::name_set::NameSet;
use c_syntax_written::{BlockItem, BlockItems, Stmt};
use std::alloc::{AllocError as NoMemory, Global};

/// The labels of the function that has this body.
pub fn labels_of(alloc: Global, body: &BlockItems) -> Result<NameSet, NoMemory>
    ensures { IfOk result (λ labels. labels ≡ contexts.written_labels_in (blockitems_tree body.now)) }
{
    let mut labels = NameSet::new(alloc);
    add_labels_in(&mut labels, body)?;
    Ok(labels)
}

// Adds the labels of a block.
#[cycle(labels)]
fn add_labels_in(labels: &mut NameSet, body: &BlockItems) -> Result<(), NoMemory>
    ensures { OnOk result (labels.new ≡ labels.old ++ contexts.written_labels_in (blockitems_tree body.now)) }
{
    let items = body.as_slice();
    'each: for item in items {
        add_labels_at(labels, item)?;
    }
    Ok(())
}

// Adds those of an item of a block.
#[cycle(labels)]
fn add_labels_at(labels: &mut NameSet, item: &BlockItem) -> Result<(), NoMemory>
    ensures { OnOk result ((rest : BlockItemTrees) → labels.new ++ contexts.written_labels_in rest
        ≡ labels.old ++ contexts.written_labels_in (files.more (blockitem_tree item.now) rest)) }
{
    match item {
        BlockItem::Declaration(_) => Ok(()),
        BlockItem::Statement(statement) => {
            add_labels(labels, statement)?;
            Ok(())
        }
    }
}

// Adds those of a statement.
#[cycle(labels)]
fn add_labels(labels: &mut NameSet, statement: &Stmt) -> Result<(), NoMemory>
    ensures { OnOk result (labels.new ≡ labels.old ++ contexts.written_labels (stmt_tree statement.now)) }
{
    match statement {
        Stmt::Label { name, body, .. } => {
            labels.push(name)?;
            add_labels(labels, body)?;
        }
        Stmt::Block { items, .. } => add_labels_in(labels, items)?,
        Stmt::IfElse {
            then,
            otherwise,
            ..
        } => {
            add_labels(labels, then)?;
            add_labels(labels, otherwise)?;
        }
        Stmt::If { then: body, .. }
        | Stmt::Case { body, .. }
        | Stmt::Default { body, .. }
        | Stmt::Switch { body, .. }
        | Stmt::While { body, .. }
        | Stmt::DoWhile { body, .. }
        | Stmt::For { body, .. } => add_labels(labels, body)?,
        Stmt::Empty { .. }
        | Stmt::Expression { .. }
        | Stmt::Goto { .. }
        | Stmt::Continue { .. }
        | Stmt::Break { .. }
        | Stmt::Return { .. } => {}
    }
    Ok(())
}
