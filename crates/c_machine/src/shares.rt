// Parts that rows put in front of the work, each with a share of its own.
#![tactic(auto, using(c_machine_trees::proofs::SharedTrees::the_shared_trees))]

ghost use Rattle.std.specs.Prelude.{◌≡◌, ◌∷◌, OnOk};
ghost use Rattle.c_machine_trees.specs.Expressions.{expr_tree};
ghost use Rattle.c_machine_trees.specs.Statements.{stmts_tree};
ghost use Rattle.c_steps.specs.Work as steps;
ghost use Rattle.c_syntax.specs.TypedStmt.{none};
ghost use Rattle.c_machine_work.specs.Works.{work_of};

use c_machine_trees::{SharedExpr, SharedStmts};
use c_machine_work::{Item, Work};
use c_syntax::Numbers;
use std::alloc::{AllocError as NoMemory, Global};
use std::rc::Rc;

/// The evaluation of an expression.
pub(crate) fn put_eval(work: &mut Work, e: &Rc<SharedExpr>) -> Result<(), NoMemory>
    ensures { OnOk result (work_of work.new ≡ steps.Eval (expr_tree e.now.value) ∷ work_of work.old) }
{
    work.put(Item::Eval(e.clone()?))
}

/// The evaluation of an expression whose value is dropped.
pub(crate) fn put_effect(work: &mut Work, e: &Rc<SharedExpr>) -> Result<(), NoMemory>
    ensures { OnOk result (work_of work.new ≡ steps.Eval (expr_tree e.now.value) ∷ steps.Drop ∷ work_of work.old) }
{
    work.put(Item::Drop)?;
    put_eval(work, e)
}

/// The choice of a switch.
pub(crate) fn put_select(
    work: &mut Work,
    objects: &Rc<Numbers>,
    items: &Rc<SharedStmts>,
) -> Result<(), NoMemory>
    ensures { OnOk result (work_of work.new ≡ steps.Select objects.now.value (stmts_tree items.now.value) ∷ work_of work.old) }
{
    let objects = objects.clone()?;
    work.put(Item::Select(objects, items.clone()?))
}

/// The end of the block of a switch, and that of the switch.
pub(crate) fn put_switch_end(
    work: &mut Work,
    objects: &Rc<Numbers>,
    items: &Rc<SharedStmts>,
) -> Result<(), NoMemory>
    ensures { OnOk result (work_of work.new
        ≡ steps.Close objects.now.value (stmts_tree items.now.value) ∷ steps.SwitchEnd ∷ work_of work.old) }
{
    work.put(Item::SwitchEnd)?;
    let objects = objects.clone()?;
    work.put(Item::Close(objects, items.clone()?))
}

/// The end of the parameters of a function, among which no label stands.
pub(crate) fn put_params_end(
    alloc: Global,
    work: &mut Work,
    params: &Rc<Numbers>,
) -> Result<(), NoMemory>
    ensures { OnOk result (work_of work.new ≡ steps.Close params.now.value none ∷ work_of work.old) }
{
    let nothing = Rc::new(alloc, SharedStmts::from_vec(Vec::new(alloc)))?;
    work.put(Item::Close(params.clone()?, nothing))
}
