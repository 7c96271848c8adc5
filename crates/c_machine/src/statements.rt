// Rows of statements.
#![tactic(auto, using(c_syntax::proofs::Trees::the_trees, c_machine_trees::proofs::SharedTrees::the_shared_trees))]

ghost use Rattle.std.specs.Prelude.{◌≡◌, ◌∷◌, IfOk, IsSome, List, OnOk, Some, map};
ghost use Rattle.c_objects.specs.Opening.{open_all, undefined};
ghost use Rattle.c_machine_trees.specs.Statements.{inits_tree, option_tree, stmt_tree, stmts_tree};
ghost use Rattle.c_steps.specs.Marks.{does};
ghost use Rattle.c_steps.specs.States.{Goes, state};
ghost use Rattle.c_steps.specs.Statements.{do_step, init_items, rest_items, return_step};
ghost use Rattle.c_steps.specs.Work as steps;
ghost use Rattle.c_syntax.specs.Program.{tprogram_tree};
ghost use Rattle.c_syntax.specs.TypedStmt.{none};
ghost use Rattle.c_syntax.specs.Types.{ObjectTree, object_tree};
ghost use Rattle.c_machine.specs.Kinds.{EvaluatesFirst, IsJump, IsLoop};
ghost use Rattle.c_values.specs.Places.{ObjectMemory, place_of};
ghost use Rattle.c_machine_work.specs.Views.{loop_of};

use crate::run::Run;
use crate::shares::{put_effect, put_eval, put_select};
use crate::step::Step;
use c_machine_trees::{SharedExpr, SharedInits, SharedStmt, SharedStmts};
use c_machine_work::{Held, Item, Loop};
use c_syntax::{Numbers, Object, TProgram};
use c_values::Given;
use std::alloc::{AllocError as NoMemory, Global};
use std::rc::Rc;

impl Run {
    ghost use Rattle.c_machine.specs.States.{run_state};
    ghost use Rattle.c_steps_laws.specs.Needs.{AreThere, DoNeeds};
    ghost use Rattle.c_machine_work.specs.Works.{work_of};
    ghost use Rattle.c_machine.specs.Steps.{IsRow};

    /// A statement is taken apart.
    pub(crate) fn execute(
        &mut self,
        alloc: Global,
        program: &TProgram,
        statement: &SharedStmt,
    ) -> Result<Step, NoMemory>
        requires { DoNeeds self.old.values.memory (stmt_tree statement.now) (work_of self.old.work) }
        ensures { IfOk result (λ step. IsRow (tprogram_tree program.now) (steps.Do (stmt_tree statement.now)) (run_state self.old) (run_state self.new) step) }
    {
        let objects = program.objects.as_slice();
        match statement {
            SharedStmt::Empty { .. } | SharedStmt::Static { .. } => Ok(Step::Went),
            SharedStmt::Label { .. } | SharedStmt::Case { .. } | SharedStmt::Default { .. } => {
                Ok(Step::Went)
            }
            SharedStmt::Expr { .. } | SharedStmt::If { .. } | SharedStmt::Switch { .. } => {
                self.evaluate_first(statement)?;
                Ok(Step::Went)
            }
            SharedStmt::Block {
                objects: opened,
                items,
                ..
            } => {
                self.open_block(objects, opened, items)?;
                Ok(Step::Went)
            }
            SharedStmt::Declare {
                object,
                inits,
                zeroes_rest,
                ..
            } => {
                self.declare(*object, inits, *zeroes_rest)?;
                Ok(Step::Went)
            }
            SharedStmt::While { .. } | SharedStmt::DoWhile { .. } | SharedStmt::For { .. } => {
                self.start_loop(alloc, objects, statement)?;
                Ok(Step::Went)
            }
            SharedStmt::Break { .. } | SharedStmt::Continue { .. } => {
                self.jump(statement)?;
                Ok(Step::Went)
            }
            SharedStmt::Goto { .. } | SharedStmt::Return { .. } => {
                self.jump(statement)?;
                Ok(Step::Went)
            }
        }
    }

    // Statements that evaluate an expression first, and go on by its value.
    fn evaluate_first(&mut self, statement: &SharedStmt) -> Result<(), NoMemory>
        requires { EvaluatesFirst (stmt_tree statement.now) }
        ensures { (objects : List ObjectTree) → OnOk result (do_step objects (stmt_tree statement.now) (run_state self.old).work
            (run_state self.old).stack (run_state self.old).memory (run_state self.old).inputs ≡ Goes (run_state self.new)) }
    {
        match statement {
            SharedStmt::Expr { value, .. } => put_effect(&mut self.work, value),
            SharedStmt::If {
                pos,
                condition,
                then,
                otherwise,
            } => self.work.put_branches(*pos, condition, then, otherwise),
            SharedStmt::Switch {
                value,
                objects,
                items,
                ..
            } => {
                put_select(&mut self.work, objects, items)?;
                put_eval(&mut self.work, value)
            }
            SharedStmt::Empty { .. }
            | SharedStmt::Block { .. }
            | SharedStmt::Declare { .. }
            | SharedStmt::Static { .. }
            | SharedStmt::While { .. }
            | SharedStmt::DoWhile { .. }
            | SharedStmt::For { .. }
            | SharedStmt::Break { .. }
            | SharedStmt::Continue { .. }
            | SharedStmt::Goto { .. }
            | SharedStmt::Return { .. }
            | SharedStmt::Label { .. }
            | SharedStmt::Case { .. }
            | SharedStmt::Default { .. } => unreachable!(),
        }
    }

    // A loop begins.
    fn start_loop(
        &mut self,
        alloc: Global,
        objects: &[Object],
        statement: &SharedStmt,
    ) -> Result<(), NoMemory>
        requires kind { IsLoop (stmt_tree statement.now) }
        requires needs { DoNeeds self.old.values.memory (stmt_tree statement.now) (work_of self.old.work) }
        ensures { OnOk result (do_step (map object_tree objects.now) (stmt_tree statement.now) (run_state self.old).work
            (run_state self.old).stack (run_state self.old).memory (run_state self.old).inputs ≡ Goes (run_state self.new)) }
    {
        match statement {
            SharedStmt::While {
                pos,
                condition,
                body,
            } => {
                let parts = Loop::of_condition(alloc, *pos, condition, body)?;
                self.work.put(Item::Begin(0, parts))
            }
            SharedStmt::DoWhile {
                pos,
                body,
                condition,
            } => {
                let parts = Loop::of_condition(alloc, *pos, condition, body)?;
                self.work.put(Item::Again(1, parts))?;
                self.work.put(Item::Do(body.clone()?))
            }
            SharedStmt::For {
                pos,
                objects: opened,
                head,
                condition,
                step,
                body,
            } => {
                let parts = Loop::of_for(alloc, *pos, condition, step, body)?;
                self.open_loop(alloc, objects, opened, head, parts)
            }
            SharedStmt::Empty { .. }
            | SharedStmt::Expr { .. }
            | SharedStmt::Block { .. }
            | SharedStmt::Declare { .. }
            | SharedStmt::Static { .. }
            | SharedStmt::If { .. }
            | SharedStmt::Switch { .. }
            | SharedStmt::Break { .. }
            | SharedStmt::Continue { .. }
            | SharedStmt::Goto { .. }
            | SharedStmt::Return { .. }
            | SharedStmt::Label { .. }
            | SharedStmt::Case { .. }
            | SharedStmt::Default { .. } => unreachable!(),
        }
    }

    // A jump is made, or the value of a `return` is evaluated before it.
    fn jump(&mut self, statement: &SharedStmt) -> Result<(), NoMemory>
        requires kind { IsJump (stmt_tree statement.now) }
        requires needs { DoNeeds self.old.values.memory (stmt_tree statement.now) (work_of self.old.work) }
        ensures { (objects : List ObjectTree) → OnOk result (do_step objects (stmt_tree statement.now) (run_state self.old).work
            (run_state self.old).stack (run_state self.old).memory (run_state self.old).inputs ≡ Goes (run_state self.new)) }
    {
        match statement {
            SharedStmt::Break { .. } => {
                self.break_out();
                Ok(())
            }
            SharedStmt::Continue { .. } => self.go_on(),
            SharedStmt::Goto { label, .. } => self.go_to(*label),
            SharedStmt::Return { value, .. } => self.give_back(value),
            SharedStmt::Empty { .. }
            | SharedStmt::Expr { .. }
            | SharedStmt::Block { .. }
            | SharedStmt::Declare { .. }
            | SharedStmt::Static { .. }
            | SharedStmt::If { .. }
            | SharedStmt::While { .. }
            | SharedStmt::DoWhile { .. }
            | SharedStmt::For { .. }
            | SharedStmt::Switch { .. }
            | SharedStmt::Label { .. }
            | SharedStmt::Case { .. }
            | SharedStmt::Default { .. } => unreachable!(),
        }
    }

    // The objects of a block live, and its items are next.
    fn open_block(
        &mut self,
        objects: &[Object],
        opened: &Rc<Numbers>,
        items: &Rc<SharedStmts>,
    ) -> Result<(), NoMemory>
        requires { AreThere self.old.values.memory opened.now.value }
        ensures { OnOk result (run_state self.new ≡ state (does (stmts_tree items.now.value)
            (steps.Close opened.now.value (stmts_tree items.now.value) ∷ (run_state self.old).work)) (run_state self.old).stack
            (open_all (map object_tree objects.now) (run_state self.old).memory opened.now.value) (run_state self.old).inputs) }
    {
        self.values.memory.open_all(objects, opened.as_slice())?;
        self.work.put_block(opened, items)
    }

    // The objects of the head of a loop live, its items are next, and then the loop.
    fn open_loop(
        &mut self,
        alloc: Global,
        objects: &[Object],
        opened: &Rc<Numbers>,
        head: &SharedStmts,
        parts: Rc<Loop>,
    ) -> Result<(), NoMemory>
        requires { AreThere self.old.values.memory opened.now.value }
        ensures { OnOk result (run_state self.new ≡ state (does (stmts_tree head.now)
            (steps.Begin 0 (loop_of parts.value) ∷ steps.Close opened.now.value none ∷ (run_state self.old).work)) (run_state self.old).stack
            (open_all (map object_tree objects.now) (run_state self.old).memory opened.now.value) (run_state self.old).inputs) }
    {
        self.values.memory.open_all(objects, opened.as_slice())?;
        self.work.put_for(alloc, opened, head, parts)
    }

    // The bytes of an object lose their values, and its initialiser is next.
    fn declare(
        &mut self,
        object: u64,
        inits: &Rc<SharedInits>,
        zeroes_rest: bool,
    ) -> Result<(), NoMemory>
        requires { IsSome (place_of self.old.values.memory object) }
        ensures { OnOk result ((m : ObjectMemory) × (undefined (run_state self.old).memory object ≡ Some m) × (run_state self.new
            ≡ state (init_items object (inits_tree inits.now.value) (rest_items object (inits_tree inits.now.value) zeroes_rest (run_state self.old).work))
            (run_state self.old).stack m (run_state self.old).inputs)) }
    {
        self.values.memory.undefine(object);
        self.work.put_inits(object, inits, zeroes_rest)
    }

    // `return`, with a value or without.
    fn give_back(&mut self, value: &Option<Rc<SharedExpr>>) -> Result<(), NoMemory>
        ensures { OnOk result (return_step (option_tree value.now) (run_state self.old).work (run_state self.old).stack (run_state self.old).memory
            (run_state self.old).inputs ≡ Goes (run_state self.new)) }
    {
        match value {
            None => {
                self.values.stack.put(Held::Plain(Given::Nothing))?;
                self.work.put(Item::Leave)
            }
            Some(value) => {
                self.work.put(Item::Leave)?;
                put_eval(&mut self.work, value)
            }
        }
    }
}
