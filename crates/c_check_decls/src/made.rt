// What declarations in a block are in the typed program.
#![tactic(auto)]

ghost use Rattle.std.specs.Prelude.{◌≡◌, ◌++◌, IfOk};
ghost use Rattle.c_syntax.specs.TypedStmt.{tstmt_tree};
ghost use Rattle.c_typing.specs.Stmts as stmts;
ghost use Rattle.c_check_decls.specs.MadeViews.{made_tree};

use c_syntax::TStmt;
use std::alloc::{AllocError as NoMemory, Global};

/// What a declaration in a block is in the typed program: the automatic objects that it adds to the block, and its statements.
#[derive(Drop)]
pub struct Made {
    pub objects: Vec<u64>,
    pub items: Vec<TStmt>,
}

impl Made {
    ghost use Rattle.std.specs.Prelude.{◌≡◌, IfOk, OnOk};
    ghost use Rattle.c_syntax.specs.TypedStmt.{tstmt_tree};
    ghost use Rattle.c_typing.specs.Decls as decls;
    ghost use Rattle.c_typing.specs.Stmts as stmts;
    ghost use Rattle.c_check_decls.specs.MadeViews.{made_tree};

    /// Nothing.
    pub fn nothing(alloc: Global) -> Made
        ensures { made_tree result ≡ decls.nothing_made }
    {
        Made {
            objects: Vec::new(alloc),
            items: Vec::new(alloc),
        }
    }

    /// What there is, and another declaration behind it.
    pub fn then(self, next: Made) -> Result<Made, NoMemory>
        ensures { IfOk result (λ made. made_tree made ≡ decls.made_then (made_tree self) (made_tree next)) }
    {
        let Made { objects, items } = self;
        let Made {
            objects: numbers,
            items: statements,
        } = next;
        let objects = numbers_then(objects, numbers)?;
        let items = stmts_then(items, statements)?;
        Ok(Made { objects, items })
    }

    /// Puts a statement behind what there is. Once out of memory it is only dropped.
    pub fn push(&mut self, item: TStmt) -> Result<(), NoMemory>
        ensures { OnOk result (made_tree self.new ≡ stmts.with_items (made_tree self.old) (stmts.one (tstmt_tree item))) }
    {
        self.items.push(item)?;
        Ok(())
    }
}

/// These objects, and one statement.
pub(crate) fn one_made(alloc: Global, objects: Vec<u64>, item: TStmt) -> Result<Made, NoMemory>
    ensures { IfOk result (λ made. made_tree made ≡ record { objects = objects.items; items = stmts.one (tstmt_tree item) }) }
{
    let mut items = Vec::new(alloc);
    items.push(item)?;
    Ok(Made { objects, items })
}

// The numbers, and these behind them.
fn numbers_then(first: Vec<u64>, next: Vec<u64>) -> Result<Vec<u64>, NoMemory>
    ensures { IfOk result (λ all. all.items ≡ first.items ++ next.items) }
{
    let mut all = first;
    for n in next.as_slice() {
        all.push(*n)?;
    }
    Ok(all)
}

// The statements, and these behind them.
fn stmts_then(first: Vec<TStmt>, next: Vec<TStmt>) -> Result<Vec<TStmt>, NoMemory>
    ensures { IfOk result (λ all. all.items ≡ first.items ++ next.items) }
{
    let mut all = first;
    let mut left = next;
    left.reverse();
    'each: while let Some(item) = left.pop() {
        all.push(item)?;
    }
    Ok(all)
}
