// The items of a scope, as they are lowered one by one.
#![tactic(auto, using(csharp::proofs::CodeTrees::the_code_trees))]

use csharp::{CsStmt, CsStmts};
use lower_nodes::Coded;
use std::alloc::{AllocError as NoMemory, Global};

/// Items that were lowered, and how many rows of temporaries they use.
#[derive(Drop)]
pub struct Listed {
    pub items: Vec<CsStmt>,
    pub top: u64,
}

impl Listed {
    ghost use Rattle.std.specs.Prelude.{◌≡◌, max, OnOk};
    ghost use Rattle.csharp.specs.Trees.{csstmt_tree, csstmts_from, csstmts_tree};
    ghost use Rattle.lower_trees.specs.LowerStmt.{Items, with_last};
    ghost use Rattle.lower_nodes.specs.Parts.{coded_tree};
    ghost use Rattle.lower_stmt.specs.Views.{items_more, listed_before, listed_tree, no_items};

    /// No items.
    pub fn new(alloc: Global) -> Listed
        ensures { (rest : Items) → listed_before result rest ≡ rest }
    {
        Listed {
            items: Vec::new(alloc),
            top: 0,
        }
    }

    /// One item more.
    pub fn push(&mut self, item: Coded) -> Result<(), NoMemory>
        ensures { OnOk result ((rest : Items) → listed_before self.new rest ≡ listed_before self.old (items_more (coded_tree item) rest)) }
    {
        let Coded { code, top } = item;
        self.items.push(code)?;
        self.top = self.top.max(top);
        Ok(())
    }

    /// The items, which use at least so many rows.
    pub fn finish(self, d: u64) -> Listed
        ensures { listed_tree result ≡ listed_before self (no_items d) }
    {
        let Listed { items, top } = self;
        let top = top.max(d);
        Listed { items, top }
    }

    /// With one statement more, which counts for no rows.
    pub fn put_last(&mut self, code: CsStmt) -> Result<(), NoMemory>
        ensures items { OnOk result (csstmts_from self.new.items.items ≡ with_last (csstmts_from self.old.items.items) (csstmt_tree code)) }
        ensures top { self.new.top ≡ self.old.top }
    {
        self.items.push(code)?;
        Ok(())
    }
}
