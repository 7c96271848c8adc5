// The row of an item.
#![tactic(auto, using(c_machine_trees::proofs::SharedTrees::the_shared_trees))]

ghost use Rattle.std.specs.Prelude.{◌≡◌, [], ◌∷◌, IfOk};
ghost use Rattle.c_machine_trees.specs.Statements.{stmts_tree};
ghost use Rattle.c_steps.specs.Work as steps;
ghost use Rattle.c_syntax.specs.Program.{TProgramTree, tprogram_tree};
ghost use Rattle.c_steps.specs.States.{held};
ghost use Rattle.c_steps_laws.specs.Shapes.{HasNumber};
ghost use Rattle.c_machine_work.specs.Views.{item_of, loop_of, on_top};
ghost use Rattle.c_syntax_written.specs.declared.int_type.IntType.{IntType};

use crate::functions::Functions;
use crate::marks::{chosen, put_behind};
use crate::run::Run;
use crate::shares::{put_effect, put_eval, put_switch_end};
use crate::step::Step;
use block_mem::Value;
use c_machine_trees::SharedStmts;
use c_machine_values::{Row, put_value, take_value};
use c_machine_work::{Item, Loop, Stack};
use c_syntax::{IntType, Numbers, TProgram};
use c_values::bit;
use std::alloc::{AllocError as NoMemory, Global};
use std::rc::Rc;

impl Run {
    ghost use Rattle.c_machine.specs.Functions.{AreFunctions};
    ghost use Rattle.c_machine_values.specs.Items.{IsValueItem};
    ghost use Rattle.c_machine.specs.States.{IsNext, run_state};
    ghost use Rattle.c_steps_laws.specs.Needs.{AreThere, FinishNeeds};
    ghost use Rattle.c_machine_values.specs.Contents.{stack_of};
    ghost use Rattle.c_machine_work.specs.Works.{work_of};
    ghost use Rattle.c_machine.specs.Steps.{IsRow};

    /// The row of an item that was taken off the work.
    pub(crate) fn row(
        &mut self,
        alloc: Global,
        program: &TProgram,
        functions: &Functions,
        item: &Item,
    ) -> Result<Step, NoMemory>
        requires next { IsNext (tprogram_tree program.now) (item_of item.now) (run_state self.old) }
        requires functions { AreFunctions functions.now (tprogram_tree program.now) }
        ensures { IfOk result (λ step. IsRow (tprogram_tree program.now) (item_of item.now) (run_state self.old) (run_state self.new) step) }
    {
        match item {
            Item::Eval(e) => self.evaluate(program, e),
            Item::Addr(place) => self.take_place(place),
            Item::AndThen(pos, ty, right) => self.and_then(*pos, *ty, right),
            Item::OrElse(pos, ty, right) => self.or_else(*pos, *ty, right),
            Item::Pick(pos, ty, then, otherwise) => self.pick(*pos, *ty, then, otherwise),
            Item::Choose(pos, ty, then, otherwise) => self.choose(*pos, *ty, then, otherwise),
            Item::Keep(pos, ty) => self.assume(*pos, *ty),
            Item::Enter(pos, function, end) => self.enter(
                alloc, program, functions, *pos, *function, *end,
            ),
            Item::Leave => self.leave(),
            Item::Do(statement) => self.execute(alloc, program, statement),
            Item::Close(objects, items) => Ok(self.close_block(objects, items)),
            Item::Begin(turns, parts) => self.begin(*turns, parts),
            Item::Turn(turns, parts) => self.turn(*turns, parts),
            Item::Again(turns, parts) => self.again(*turns, parts),
            Item::Select(objects, items) => self.select(program, objects, items),
            Item::SwitchEnd => Ok(Step::Went),
            Item::Finish => self.finish(),
            Item::LoadAt(_, _) | Item::StoreAt(_, _) | Item::Named(_) | Item::CopyAt(_, _) => {
                self.value_row(alloc, program, item)
            }
            Item::Modify { .. } | Item::StepAt { .. } => self.value_row(alloc, program, item),
            Item::Un(_, _, _) | Item::Bin(_, _) | Item::Conv(_) | Item::Move(_, _) => {
                self.value_row(alloc, program, item)
            }
            Item::Truth(_, _) | Item::Sure(_, _) | Item::Drop | Item::Reach(_, _) => {
                self.value_row(alloc, program, item)
            }
            Item::Fill(_, _, _) | Item::FillCopy(_, _, _) | Item::Rest(_, _) => {
                self.value_row(alloc, program, item)
            }
        }
    }

    // The row of an item that changes stack and memory alone.
    fn value_row(
        &mut self,
        alloc: Global,
        program: &TProgram,
        item: &Item,
    ) -> Result<Step, NoMemory>
        requires next { IsNext (tprogram_tree program.now) (item_of item.now) (run_state self.old) }
        requires kind { IsValueItem (item_of item.now) }
        ensures { IfOk result (λ step. IsRow (tprogram_tree program.now) (item_of item.now) (run_state self.old) (run_state self.new) step) }
    {
        match self.values.row(alloc, program.objects.as_slice(), item)? {
            Row::Went => Ok(Step::Went),
            Row::Wrong(pos, kind) => Ok(Step::Wrong(pos, kind)),
        }
    }

    // The end of a block: its objects end.
    fn close_block(&mut self, objects: &Numbers, items: &SharedStmts) -> Step
        requires { AreThere self.old.values.memory objects.now }
        ensures { (p : TProgramTree) → IsRow p (steps.Close objects.now (stmts_tree items.now)) (run_state self.old) (run_state self.new) result }
    {
        self.values.memory.shut_all(objects.as_slice());
        Step::Went
    }

    // A loop's condition, where there is one, and else what is not 0.
    fn begin(&mut self, turns: u64, parts: &Rc<Loop>) -> Result<Step, NoMemory>
        ensures { (p : TProgramTree) → IfOk result (λ step. IsRow p (steps.Begin turns (loop_of parts.now.value)) (run_state self.old) (run_state self.new) step) }
    {
        self.work.put(Item::Turn(turns, parts.clone()?))?;
        match &parts.condition {
            None => {
                put_value(&mut self.values.stack, bit(true))?;
                Ok(Step::Went)
            }
            Some(condition) => {
                put_eval(&mut self.work, condition)?;
                Ok(Step::Went)
            }
        }
    }

    // Behind the body of a loop, its step.
    fn again(&mut self, turns: u64, parts: &Rc<Loop>) -> Result<Step, NoMemory>
        ensures { (p : TProgramTree) → IfOk result (λ step. IsRow p (steps.Again turns (loop_of parts.now.value)) (run_state self.old) (run_state self.new) step) }
    {
        self.work.put(Item::Begin(turns, parts.clone()?))?;
        match &parts.step {
            None => Ok(Step::Went),
            Some(step) => {
                put_effect(&mut self.work, step)?;
                Ok(Step::Went)
            }
        }
    }

    // A switch goes on behind the chosen case or default, and is over where there is none.
    fn select(
        &mut self,
        program: &TProgram,
        objects: &Rc<Numbers>,
        items: &Rc<SharedStmts>,
    ) -> Result<Step, NoMemory>
        requires number { HasNumber (stack_of self.old.values) }
        requires there { AreThere self.old.values.memory objects.now.value }
        ensures { IfOk result (λ step. IsRow (tprogram_tree program.now) (steps.Select objects.now.value (stmts_tree items.now.value)) (run_state self.old)
            (run_state self.new) step) }
    {
        let value = take_number(&mut self.values.stack);
        match chosen(value, items) {
            None => Ok(Step::Went),
            Some(mark) => {
                self.values
                    .memory
                    .open_all(program.objects.as_slice(), objects.as_slice())?;
                put_switch_end(&mut self.work, objects, items)?;
                put_behind(&mut self.work, mark, items)?;
                Ok(Step::Went)
            }
        }
    }

    // The end of the run, with main's value, which stays on the stack.
    fn finish(&mut self) -> Result<Step, NoMemory>
        requires number { HasNumber (stack_of self.old.values) }
        requires int { FinishNeeds (work_of self.old.work) (stack_of self.old.values) }
        ensures { (p : TProgramTree) → IfOk result (λ step. IsRow p steps.Finish (run_state self.old) (run_state self.new) step) }
    {
        let value = take_number(&mut self.values.stack);
        put_value(&mut self.values.stack, Value::Int(IntType::Int, value))?;
        Ok(Step::Ended(value as i32))
    }
}

// The number that stands on top, taken off.
fn take_number(stack: &mut Stack) -> i128
    requires { HasNumber (on_top stack.old []) }
    ensures { (t : IntType) × (on_top stack.old [] ≡ held (Value.Int t result) ∷ on_top stack.new []) }
{
    match take_value(stack) {
        Value::Int(_, n) => n,
        Value::Ptr(_) | Value::Null => unreachable!(),
    }
}
