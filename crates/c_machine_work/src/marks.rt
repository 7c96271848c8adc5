// Labels, cases and defaults among the items of a block.
#![tactic(auto, using(c_machine_trees::proofs::SharedTrees::the_shared_trees, crate::proofs::Lists::the_lists))]

ghost use Rattle.std.specs.Prelude.{◌≡◌, ◌+◌, ◌<◌, length, true, false, drop, MatchOption, OnOk};
ghost use Rattle.c_machine_trees.specs.Statements.{stmt_tree, stmts_from};
ghost use Rattle.c_steps.specs.Marks.{behind, does, does_nothing as is_nothing, has, is_mark as is_marked};
ghost use Rattle.c_machine_work.specs.Marks.{mark_of};
ghost use Rattle.c_machine_work.specs.Works.{work_of};

use crate::items::Item;
use crate::work::Work;
use c_machine_trees::SharedStmt;
use std::alloc::AllocError as NoMemory;
use std::rc::Rc;

/// What a jump looks for.
#[derive(Clone, Copy, PartialEq, Eq)]
pub enum Mark {
    Label(u64),
    Case(i128),
    Default,
}

impl Mark {
    /// Where the mark stands first among the items, if it does.
    pub fn find(self, items: &[Rc<SharedStmt>]) -> Option<usize>
        ensures { MatchOption result (has (mark_of self) (stmts_from items.now) ≡ false)
            (λ k. (k < length items.now) × (has (mark_of self) (stmts_from items.now) ≡ true) × (stmts_from (drop (k + 1) items.now) ≡ behind (mark_of self) (stmts_from items.now))) }
    {
        let mut k = 0;
        while k < items.len() {
            if self.is(&items[k]) {
                return Some(k);
            }
            k += 1;
        }
        None
    }

    // Whether the item is this mark.
    fn is(self, item: &SharedStmt) -> bool
        ensures { result ≡ is_marked (mark_of self) (stmt_tree item.now) }
    {
        match item {
            SharedStmt::Label { label, .. } => self == Mark::Label(*label),
            SharedStmt::Case { value, .. } => self == Mark::Case(*value),
            SharedStmt::Default { .. } => self == Mark::Default,
            SharedStmt::Empty { .. } | SharedStmt::Expr { .. } | SharedStmt::Block { .. } => false,
            SharedStmt::Declare { .. } | SharedStmt::Static { .. } | SharedStmt::If { .. } => false,
            SharedStmt::While { .. } | SharedStmt::DoWhile { .. } => false,
            SharedStmt::For { .. } | SharedStmt::Switch { .. } | SharedStmt::Break { .. } => false,
            SharedStmt::Continue { .. } | SharedStmt::Goto { .. } => false,
            SharedStmt::Return { .. } => false,
        }
    }
}

impl Work {
    /// The items of a block, each to be done but for marks, are put in front.
    pub fn put_items(&mut self, items: &[Rc<SharedStmt>]) -> Result<(), NoMemory>
        ensures { OnOk result (work_of self.new ≡ does (stmts_from items.now) (work_of self.old)) }
    {
        let mut rest = items.len();
        while rest > 0 {
            rest -= 1;
            let item = &items[rest];
            if !does_nothing(item) {
                self.put(Item::Do(item.clone()?))?;
            }
        }
        Ok(())
    }
}

// Whether the item is a mark, which does nothing.
fn does_nothing(item: &SharedStmt) -> bool
    ensures { result ≡ is_nothing (stmt_tree item.now) }
{
    match item {
        SharedStmt::Label { .. } | SharedStmt::Case { .. } | SharedStmt::Default { .. } => true,
        SharedStmt::Empty { .. } | SharedStmt::Expr { .. } | SharedStmt::Block { .. } => false,
        SharedStmt::Declare { .. } | SharedStmt::Static { .. } | SharedStmt::If { .. } => false,
        SharedStmt::While { .. } | SharedStmt::DoWhile { .. } | SharedStmt::For { .. } => false,
        SharedStmt::Switch { .. } | SharedStmt::Break { .. } | SharedStmt::Continue { .. } => false,
        SharedStmt::Goto { .. } | SharedStmt::Return { .. } => false,
    }
}
