// Rows of expressions and places.
#![tactic(auto, using(c_syntax::proofs::Trees::the_trees, c_machine_trees::proofs::SharedTrees::the_shared_trees))]

ghost use Rattle.std.specs.Prelude.{◌≡◌, IfOk};
ghost use Rattle.c_machine_trees.specs.Expressions.{expr_tree, place_tree};
ghost use Rattle.c_steps.specs.Expressions.{input_step};
ghost use Rattle.c_steps.specs.Work as steps;
ghost use Rattle.c_syntax.specs.Program.{TProgramTree, tprogram_tree};

use crate::run::Run;
use crate::shares::put_eval;
use crate::step::Step;
use block_mem::Value;
use c_layout::wrap;
use c_machine_trees::{SharedExpr, SharedPlace};
use c_machine_values::put_value;
use c_machine_work::Item;
use c_syntax::{IntType, TProgram};
use std::alloc::AllocError as NoMemory;

impl Run {
    ghost use Rattle.c_machine.specs.States.{run_state};
    ghost use Rattle.c_steps_laws.specs.Needs.{AddrNeeds};
    ghost use Rattle.c_machine.specs.Steps.{Comes, IsRow};

    /// Constants give their value at once, and other expressions put their parts in front.
    pub(crate) fn evaluate(&mut self, program: &TProgram, e: &SharedExpr) -> Result<Step, NoMemory>
        ensures { IfOk result (λ step. IsRow (tprogram_tree program.now) (steps.Eval (expr_tree e.now)) (run_state self.old) (run_state self.new) step) }
    {
        match e {
            SharedExpr::Const { ty, value, .. } => {
                put_value(&mut self.values.stack, Value::Int(*ty, *value))?;
                Ok(Step::Went)
            }
            SharedExpr::Null { .. } => {
                put_value(&mut self.values.stack, Value::Null)?;
                Ok(Step::Went)
            }
            SharedExpr::Any { ty, .. } => self.read_input(*ty),
            _ => {
                self.work.put_parts(program, e)?;
                Ok(Step::Went)
            }
        }
    }

    // The next input, wrapped to the type.
    fn read_input(&mut self, ty: IntType) -> Result<Step, NoMemory>
        ensures { IfOk result (λ step. Comes (input_step ty (run_state self.old).work (run_state self.old).stack (run_state self.old).memory
            (run_state self.old).inputs) (run_state self.old) (run_state self.new) step) }
    {
        match self.inputs.as_slice().get(self.read) {
            None => Ok(Step::Waiting),
            Some(input) => {
                let value = Value::Int(ty, wrap(ty, i128::from(*input)));
                self.read += 1;
                put_value(&mut self.values.stack, value)?;
                Ok(Step::Went)
            }
        }
    }

    /// The place of an object is known at once; that of a member is moved from its struct's.
    pub(crate) fn take_place(&mut self, place: &SharedPlace) -> Result<Step, NoMemory>
        requires { AddrNeeds self.old.values.memory (place_tree place.now) }
        ensures { (p : TProgramTree) → IfOk result (λ step. IsRow p (steps.Addr (place_tree place.now)) (run_state self.old) (run_state self.new) step) }
    {
        match place {
            SharedPlace::Var { object, .. } => {
                let address = self.values.memory.address(*object, 0);
                put_value(&mut self.values.stack, address)?;
                Ok(Step::Went)
            }
            SharedPlace::Deref { pointer, .. } => {
                put_eval(&mut self.work, pointer)?;
                Ok(Step::Went)
            }
            SharedPlace::Member {
                pos,
                offset,
                place,
                ..
            } => {
                self.work.put(Item::Move(*pos, *offset))?;
                self.work.put(Item::Addr(place.clone()?))?;
                Ok(Step::Went)
            }
        }
    }
}
