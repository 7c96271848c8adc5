// Rows of calls.
#![tactic(auto, using(c_machine_trees::proofs::SharedTrees::the_shared_trees))]

ghost use Rattle.std.specs.Prelude.{◌≡◌, ◌∷◌, IfOk, OnOk};
ghost use Rattle.c_machine_trees.specs.Statements.{stmt_tree};
ghost use Rattle.c_syntax.specs.TypedStmt.{none};
ghost use Rattle.c_machine_work.specs.Works.{work_of};
ghost use Rattle.c_steps.specs.Work as steps;
ghost use Rattle.c_syntax.specs.Program.{TProgramTree, tprogram_tree};
ghost use Rattle.c_machine_work.specs.Views.{end_of};

use crate::functions::{Callee, Functions};
use crate::jumps::Way;
use crate::run::Run;
use crate::shares::put_params_end;
use crate::step::Step;
use c_machine_values::take_held;
use c_machine_work::{AtEnd, Item, Work};
use c_syntax::{Pos, TProgram};
use std::alloc::{AllocError as NoMemory, Global};

impl Run {
    ghost use Rattle.c_machine.specs.Functions.{AreFunctions};
    ghost use Rattle.c_machine.specs.States.{run_state};
    ghost use Rattle.c_steps_laws.specs.Needs.{CanReturn, EndsThere, IsEntered};
    ghost use Rattle.c_steps_laws.specs.Shapes.{HasTop};
    ghost use Rattle.c_machine_values.specs.Contents.{stack_of};
    ghost use Rattle.c_machine.specs.Steps.{IsRow};

    /// A function is entered: its parameters live and have the arguments, and its body is next; behind
    /// it the parameters end, and then the function's end is reached.
    pub(crate) fn enter(
        &mut self,
        alloc: Global,
        program: &TProgram,
        functions: &Functions,
        pos: Option<Pos>,
        function: u64,
        end: AtEnd,
    ) -> Result<Step, NoMemory>
        requires entered { IsEntered (tprogram_tree program.now) function (stack_of self.old.values) self.old.values.memory }
        requires functions { AreFunctions functions.now (tprogram_tree program.now) }
        ensures { IfOk result (λ step. IsRow (tprogram_tree program.now) (steps.Enter pos function (end_of end)) (run_state self.old)
            (run_state self.new) step) }
    {
        let callee = functions.callee(function);
        self.values.enter(alloc, program.objects.as_slice(), callee.params.as_slice())?;
        put_body(alloc, &mut self.work, callee, pos, end)?;
        Ok(Step::Went)
    }

    /// A function is left, with what it gives.
    pub(crate) fn leave(&mut self) -> Result<Step, NoMemory>
        requires there { HasTop (stack_of self.old.values) }
        requires lands { CanReturn (work_of self.old.work) × EndsThere self.old.values.memory (work_of self.old.work) }
        ensures { (p : TProgramTree) → IfOk result (λ step. IsRow p steps.Leave (run_state self.old) (run_state self.new) step) }
    {
        let given = take_held(&mut self.values.stack);
        self.drop_to(Way::Return);
        self.values.stack.put(given)?;
        Ok(Step::Went)
    }
}

// The body of a function, the end of its parameters, and its own end.
fn put_body(
    alloc: Global,
    work: &mut Work,
    callee: &Callee,
    pos: Option<Pos>,
    end: AtEnd,
) -> Result<(), NoMemory>
    ensures { OnOk result (work_of work.new
        ≡ steps.Do (stmt_tree callee.now.body.value) ∷ steps.Close callee.now.params.value none ∷ steps.Reach pos (end_of end) ∷ work_of work.old) }
{
    work.put(Item::Reach(pos, end))?;
    put_params_end(alloc, work, &callee.params)?;
    work.put(Item::Do(callee.body.clone()?))
}
