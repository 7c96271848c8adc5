// What a statement puts in front of the work.
#![tactic(auto, using(c_syntax::proofs::Trees::the_trees, c_machine_trees::proofs::SharedTrees::the_shared_trees))]

ghost use Rattle.std.specs.Prelude.{◌≡◌, [], ◌∷◌, IfOk, OnOk, None, Some};
ghost use Rattle.c_machine_trees.specs.Expressions.{expr_tree};
ghost use Rattle.c_machine_trees.specs.Statements.{inits_from, inits_tree, option_tree, stmt_tree, stmts_tree};
ghost use Rattle.c_steps.specs.Expressions.{value_scalar as scalar_of_value};
ghost use Rattle.c_steps.specs.Marks.{does};
ghost use Rattle.c_steps.specs.Statements.{init_items, loop_of as loop_made, rest_items};
ghost use Rattle.c_steps.specs.Work as steps;
ghost use Rattle.c_syntax.specs.TypedStmt.{none};
ghost use Rattle.c_machine_work.specs.Views.{item_of, loop_of};
ghost use Rattle.c_machine_work.specs.Works.{work_of};

use crate::items::{Item, Loop};
use crate::scalars::value_scalar;
use crate::work::Work;
use block_mem::Scalar;
use c_machine_trees::{SharedExpr, SharedInit, SharedInits, SharedStmt, SharedStmts};
use c_syntax::{Numbers, Pos};
use c_values::scalar_of;
use std::alloc::{AllocError as NoMemory, Global};
use std::rc::Rc;

impl Work {
    /// The items of a block, and its end behind them.
    pub fn put_block(
        &mut self,
        objects: &Rc<Numbers>,
        items: &Rc<SharedStmts>,
    ) -> Result<(), NoMemory>
        ensures { OnOk result (work_of self.new
            ≡ does (stmts_tree items.now.value) (steps.Close objects.now.value (stmts_tree items.now.value) ∷ work_of self.old)) }
    {
        self.put(close(objects, items)?)?;
        self.put_items(items.as_slice())
    }

    /// The head of a `for`, then the loop, and behind it the end of the objects of the head.
    pub fn put_for(
        &mut self,
        alloc: Global,
        objects: &Rc<Numbers>,
        head: &SharedStmts,
        parts: Rc<Loop>,
    ) -> Result<(), NoMemory>
        ensures { OnOk result (work_of self.new
            ≡ does (stmts_tree head.now) (steps.Begin 0 (loop_of parts.value) ∷ steps.Close objects.now.value none ∷ work_of self.old)) }
    {
        self.put_end_of_head(alloc, objects)?;
        self.put(Item::Begin(0, parts))?;
        self.put_items(head.as_slice())
    }

    fn put_end_of_head(&mut self, alloc: Global, objects: &Rc<Numbers>) -> Result<(), NoMemory>
        ensures { OnOk result (work_of self.new ≡ steps.Close objects.now.value none ∷ work_of self.old) }
    {
        let nothing = Rc::new(alloc, SharedStmts::from_vec(Vec::new(alloc)))?;
        self.put(Item::Close(objects.clone()?, nothing))
    }

    /// The condition, and then the choice of a branch.
    pub fn put_branches(
        &mut self,
        pos: Pos,
        condition: &Rc<SharedExpr>,
        then: &Rc<SharedStmt>,
        otherwise: &Rc<SharedStmt>,
    ) -> Result<(), NoMemory>
        ensures { OnOk result (work_of self.new ≡ steps.Eval (expr_tree condition.now.value)
            ∷ steps.Choose pos (scalar_of_value (expr_tree condition.now.value)) (stmt_tree then.now.value) (stmt_tree otherwise.now.value)
            ∷ work_of self.old) }
    {
        self.put(choose(pos, value_scalar(condition), then, otherwise)?)?;
        self.put_eval(condition)
    }

    /// What the items of an object's initialiser put into it, in their order, and behind them the
    /// bytes that none of them names.
    pub fn put_inits(
        &mut self,
        object: u64,
        inits: &Rc<SharedInits>,
        zeroes_rest: bool,
    ) -> Result<(), NoMemory>
        ensures { OnOk result (work_of self.new
            ≡ init_items object (inits_tree inits.now.value) (rest_items object (inits_tree inits.now.value) zeroes_rest (work_of self.old))) }
    {
        if zeroes_rest {
            self.put(Item::Rest(object, inits.clone()?))?;
        }
        self.put_each_init(object, inits.as_slice())
    }

    fn put_each_init(&mut self, object: u64, inits: &[SharedInit]) -> Result<(), NoMemory>
        ensures { OnOk result (work_of self.new ≡ init_items object (inits_from inits.now) (work_of self.old)) }
    {
        let mut rest = inits.len();
        while rest > 0 {
            rest -= 1;
            self.put_init(object, &inits[rest])?;
        }
        Ok(())
    }

    // A value, and the item that puts it into the object.
    fn put_init(&mut self, object: u64, init: &SharedInit) -> Result<(), NoMemory>
        ensures { OnOk result (work_of self.new ≡ init_items object (inits_from (init.now ∷ [])) (work_of self.old)) }
    {
        match init {
            SharedInit::Store { offset, ty, value } => {
                self.put_eval_then(value, Item::Fill(object, *offset, scalar_of(ty)))
            }
            SharedInit::Copy {
                offset,
                extent,
                source,
            } => self.put_eval_then(source, Item::FillCopy(object, *offset, *extent)),
        }
    }
}

fn close(objects: &Rc<Numbers>, items: &Rc<SharedStmts>) -> Result<Item, NoMemory>
    ensures { IfOk result (λ item. item_of item ≡ steps.Close objects.now.value (stmts_tree items.now.value)) }
{
    let objects = objects.clone()?;
    Ok(Item::Close(objects, items.clone()?))
}

fn choose(
    pos: Pos,
    ty: Option<Scalar>,
    then: &Rc<SharedStmt>,
    otherwise: &Rc<SharedStmt>,
) -> Result<Item, NoMemory>
    ensures { IfOk result (λ item. item_of item ≡ steps.Choose pos ty (stmt_tree then.now.value) (stmt_tree otherwise.now.value)) }
{
    let then = then.clone()?;
    Ok(Item::Choose(pos, ty, then, otherwise.clone()?))
}

impl Loop {
    /// The parts of a `while` and a `do`, whose condition is there and whose step is not.
    pub fn of_condition(
        alloc: Global,
        pos: Pos,
        condition: &Rc<SharedExpr>,
        body: &Rc<SharedStmt>,
    ) -> Result<Rc<Loop>, NoMemory>
        ensures { IfOk result (λ parts. loop_of parts.value ≡ loop_made pos (Some (expr_tree condition.now.value)) None (stmt_tree body.now.value)) }
    {
        let condition = Some(condition.clone()?);
        let parts = Loop {
            pos,
            condition,
            step: None,
            body: body.clone()?,
        };
        Ok(Rc::new(alloc, parts)?)
    }

    /// The parts of a `for`.
    pub fn of_for(
        alloc: Global,
        pos: Pos,
        condition: &Option<Rc<SharedExpr>>,
        step: &Option<Rc<SharedExpr>>,
        body: &Rc<SharedStmt>,
    ) -> Result<Rc<Loop>, NoMemory>
        ensures { IfOk result (λ parts. loop_of parts.value ≡ loop_made pos (option_tree condition.now) (option_tree step.now) (stmt_tree body.now.value)) }
    {
        let condition = share_option(condition)?;
        let step = share_option(step)?;
        let parts = Loop {
            pos,
            condition,
            step,
            body: body.clone()?,
        };
        Ok(Rc::new(alloc, parts)?)
    }
}

fn share_option(e: &Option<Rc<SharedExpr>>) -> Result<Option<Rc<SharedExpr>>, NoMemory>
    ensures { IfOk result (λ share. option_tree share ≡ option_tree e.now) }
{
    match e {
        None => Ok(None),
        Some(e) => Ok(Some(e.clone()?)),
    }
}
