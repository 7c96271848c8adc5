// Rows that go on by the truth of a value.

ghost use Rattle.std.specs.Prelude.{◌≡◌, ◌∷◌, IfOk, IsSome, OnOk, suc};
ghost use Rattle.c_machine_trees.specs.Expressions.{expr_tree};
ghost use Rattle.c_machine_trees.specs.Statements.{stmt_tree};
ghost use Rattle.c_steps.specs.Expressions.{value_scalar as scalar_of_value};
ghost use Rattle.c_steps.specs.Statements.{condition_scalar as scalar_of_condition};
ghost use Rattle.c_steps.specs.Work as steps;
ghost use Rattle.c_syntax.specs.Program.{TProgramTree};
ghost use Rattle.c_machine_work.specs.Views.{loop_of};
ghost use Rattle.c_machine_work.specs.Works.{work_of};

use crate::run::Run;
use crate::shares::put_eval;
use crate::step::Step;
use block_mem::Scalar;
use c_machine_trees::{SharedExpr, SharedStmt};
use c_machine_values::{Tested, put_value};
use c_machine_work::{Held, Item, Loop, Work, value_scalar};
use c_syntax::{IntType, Pos};
use c_values::{Given, bit, truth};
use std::alloc::AllocError as NoMemory;
use std::rc::Rc;

impl Run {
    ghost use Rattle.c_machine.specs.States.{run_state};
    ghost use Rattle.c_steps_laws.specs.Needs.{TestNeeds};
    ghost use Rattle.c_steps_laws.specs.Shapes.{HasValue};
    ghost use Rattle.c_machine_values.specs.Contents.{stack_of};
    ghost use Rattle.c_machine.specs.Steps.{IsRow};

    /// `&&`: the right side is evaluated where the left one is true.
    pub(crate) fn and_then(
        &mut self,
        pos: Pos,
        ty: Option<Scalar>,
        right: &Rc<SharedExpr>,
    ) -> Result<Step, NoMemory>
        requires there { IsSome ty × HasValue (stack_of self.old.values) }
        requires typed { TestNeeds self.old.values.memory ty (stack_of self.old.values) }
        ensures { (p : TProgramTree) → IfOk result (λ step. IsRow p (steps.AndThen pos ty (expr_tree right.now.value)) (run_state self.old)
            (run_state self.new) step) }
    {
        match self.values.test(ty)? {
            Tested::Passes(v) => {
                if truth(v) {
                    put_right(&mut self.work, pos, right)?;
                    Ok(Step::Went)
                } else {
                    put_value(&mut self.values.stack, bit(false))?;
                    Ok(Step::Went)
                }
            }
            Tested::Wrong(kind) => Ok(Step::Wrong(pos, kind)),
        }
    }

    /// `||`: the right side is evaluated where the left one is false.
    pub(crate) fn or_else(
        &mut self,
        pos: Pos,
        ty: Option<Scalar>,
        right: &Rc<SharedExpr>,
    ) -> Result<Step, NoMemory>
        requires there { IsSome ty × HasValue (stack_of self.old.values) }
        requires typed { TestNeeds self.old.values.memory ty (stack_of self.old.values) }
        ensures { (p : TProgramTree) → IfOk result (λ step. IsRow p (steps.OrElse pos ty (expr_tree right.now.value)) (run_state self.old)
            (run_state self.new) step) }
    {
        match self.values.test(ty)? {
            Tested::Passes(v) => {
                if truth(v) {
                    put_value(&mut self.values.stack, bit(true))?;
                    Ok(Step::Went)
                } else {
                    put_right(&mut self.work, pos, right)?;
                    Ok(Step::Went)
                }
            }
            Tested::Wrong(kind) => Ok(Step::Wrong(pos, kind)),
        }
    }

    /// `?:`: one of two expressions is evaluated.
    pub(crate) fn pick(
        &mut self,
        pos: Pos,
        ty: Option<Scalar>,
        then: &Rc<SharedExpr>,
        otherwise: &Rc<SharedExpr>,
    ) -> Result<Step, NoMemory>
        requires there { IsSome ty × HasValue (stack_of self.old.values) }
        requires typed { TestNeeds self.old.values.memory ty (stack_of self.old.values) }
        ensures { (p : TProgramTree) → IfOk result (λ step. IsRow p (steps.Pick pos ty (expr_tree then.now.value) (expr_tree otherwise.now.value))
            (run_state self.old) (run_state self.new) step) }
    {
        match self.values.test(ty)? {
            Tested::Passes(v) => {
                if truth(v) {
                    self.work.put(Item::Eval(then.clone()?))?;
                    Ok(Step::Went)
                } else {
                    self.work.put(Item::Eval(otherwise.clone()?))?;
                    Ok(Step::Went)
                }
            }
            Tested::Wrong(kind) => Ok(Step::Wrong(pos, kind)),
        }
    }

    /// `if`: one of two statements is done.
    pub(crate) fn choose(
        &mut self,
        pos: Pos,
        ty: Option<Scalar>,
        then: &Rc<SharedStmt>,
        otherwise: &Rc<SharedStmt>,
    ) -> Result<Step, NoMemory>
        requires there { IsSome ty × HasValue (stack_of self.old.values) }
        requires typed { TestNeeds self.old.values.memory ty (stack_of self.old.values) }
        ensures { (p : TProgramTree) → IfOk result (λ step. IsRow p (steps.Choose pos ty (stmt_tree then.now.value) (stmt_tree otherwise.now.value))
            (run_state self.old) (run_state self.new) step) }
    {
        match self.values.test(ty)? {
            Tested::Passes(v) => {
                if truth(v) {
                    self.work.put(Item::Do(then.clone()?))?;
                    Ok(Step::Went)
                } else {
                    self.work.put(Item::Do(otherwise.clone()?))?;
                    Ok(Step::Went)
                }
            }
            Tested::Wrong(kind) => Ok(Step::Wrong(pos, kind)),
        }
    }

    /// `__assume`: goes on where the value is true.
    pub(crate) fn assume(&mut self, pos: Pos, ty: Option<Scalar>) -> Result<Step, NoMemory>
        requires there { IsSome ty × HasValue (stack_of self.old.values) }
        requires typed { TestNeeds self.old.values.memory ty (stack_of self.old.values) }
        ensures { (p : TProgramTree) → IfOk result (λ step. IsRow p (steps.Keep pos ty) (run_state self.old) (run_state self.new) step) }
    {
        match self.values.test(ty)? {
            Tested::Passes(v) => {
                if truth(v) {
                    self.values.stack.put(Held::Plain(Given::Nothing))?;
                    Ok(Step::Went)
                } else {
                    put_value(&mut self.values.stack, v)?;
                    Ok(Step::Stopped)
                }
            }
            Tested::Wrong(kind) => Ok(Step::Wrong(pos, kind)),
        }
    }

    /// A loop goes on, or ends, by the truth of its condition. Where its body was begun 2^64 - 1 times
    /// there is no number for one time more.
    pub(crate) fn turn(&mut self, turns: u64, parts: &Rc<Loop>) -> Result<Step, NoMemory>
        requires there { IsSome (scalar_of_condition (loop_of parts.now.value)) × HasValue (stack_of self.old.values) }
        requires typed { TestNeeds self.old.values.memory (scalar_of_condition (loop_of parts.now.value)) (stack_of self.old.values) }
        ensures { (p : TProgramTree) → IfOk result (λ step. IsRow p (steps.Turn turns (loop_of parts.now.value)) (run_state self.old)
            (run_state self.new) step) }
    {
        match self.values.test(condition_scalar(parts))? {
            Tested::Passes(v) => {
                if truth(v) {
                    put_turn(&mut self.work, turns, parts)?;
                    Ok(Step::Went)
                } else {
                    Ok(Step::Went)
                }
            }
            Tested::Wrong(kind) => Ok(Step::Wrong(parts.pos, kind)),
        }
    }
}

// The right side of `&&` or `||`, and its truth.
fn put_right(work: &mut Work, pos: Pos, right: &Rc<SharedExpr>) -> Result<(), NoMemory>
    ensures { OnOk result (work_of work.new
        ≡ steps.Eval (expr_tree right.now.value) ∷ steps.Truth pos (scalar_of_value (expr_tree right.now.value)) ∷ work_of work.old) }
{
    work.put(Item::Truth(pos, value_scalar(right)))?;
    put_eval(work, right)
}

// The body of a loop once more, and the end of that.
fn put_turn(work: &mut Work, turns: u64, parts: &Rc<Loop>) -> Result<(), NoMemory>
    ensures { OnOk result (work_of work.new
        ≡ steps.Do (stmt_tree parts.now.value.body.value) ∷ steps.Again (suc turns) (loop_of parts.now.value) ∷ work_of work.old) }
{
    let Some(turns) = turns.checked_add(1) else {
        return Err(NoMemory);
    };
    work.put(Item::Again(turns, parts.clone()?))?;
    work.put(Item::Do(parts.body.clone()?))
}

// The scalar type of a loop's condition.
fn condition_scalar(parts: &Loop) -> Option<Scalar>
    ensures { result ≡ scalar_of_condition (loop_of parts.now) }
{
    match &parts.condition {
        Some(condition) => value_scalar(condition),
        None => Some(Scalar::Int(IntType::Int)),
    }
}
