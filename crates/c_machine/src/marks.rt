// Where jumps and switches go on in a block.
#![tactic(auto, using(c_machine_trees::proofs::SharedTrees::the_shared_trees))]

ghost use Rattle.std.specs.Prelude.{◌≡◌, true, MatchOption, None, OnOk, Some};
ghost use Rattle.c_machine_trees.specs.Statements.{stmts_tree};
ghost use Rattle.c_steps.specs.Marks.{behind, chosen as chosen_of, does, has as has_mark};
ghost use Rattle.c_machine_work.specs.Marks.{mark_of};
ghost use Rattle.c_machine_work.specs.Works.{work_of};

use c_machine_trees::SharedStmts;
use c_machine_work::{Mark, Work};
use std::alloc::AllocError as NoMemory;

/// Whether the mark stands among the items.
pub(crate) fn has(mark: Mark, items: &SharedStmts) -> bool
    ensures { result ≡ has_mark (mark_of mark) (stmts_tree items.now) }
{
    mark.find(items.as_slice()).is_some()
}

/// Where a switch goes on for a value: at its case, else at the default, if there is one.
pub(crate) fn chosen(value: i128, items: &SharedStmts) -> Option<Mark>
    ensures { MatchOption result (chosen_of value (stmts_tree items.now) ≡ None) (λ mark. chosen_of value (stmts_tree items.now) ≡ Some (mark_of mark)) }
{
    if has(Mark::Case(value), items) {
        Some(Mark::Case(value))
    } else if has(Mark::Default, items) {
        Some(Mark::Default)
    } else {
        None
    }
}

/// The items behind the mark, which stands among them, are put in front.
pub(crate) fn put_behind(work: &mut Work, mark: Mark, items: &SharedStmts) -> Result<(), NoMemory>
    requires { has_mark (mark_of mark) (stmts_tree items.now) ≡ true }
    ensures { OnOk result (work_of work.new ≡ does (behind (mark_of mark) (stmts_tree items.now)) (work_of work.old)) }
{
    let items = items.as_slice();
    match mark.find(items) {
        Some(k) => work.put_items(&items[k + 1..]),
        None => unreachable!(),
    }
}
