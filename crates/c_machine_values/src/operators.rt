// Operators, conversions, and what is dropped.

ghost use Rattle.std.specs.Prelude.{◌≡◌, List, [], IfOk, map};
ghost use Rattle.c_objects.specs.Kept.{AllFit, AreSmall};
ghost use Rattle.c_steps.specs.Work as steps;
ghost use Rattle.c_syntax.specs.Types.{ObjectTree, object_tree};
ghost use Rattle.c_machine_work.specs.Views.{end_of};

use crate::accesses::scalar_there;
use crate::row::Row;
use crate::stack::{put_two, put_value, take_held, take_value};
use crate::values::Values;
use block_mem::{Scalar, Value};
use c_machine_work::{AtEnd, Held};
use c_syntax::{IntType, Object, Pos, TBinaryOp, TUnaryOp, WrongKind};
use c_values::{Given, convert};
use std::alloc::AllocError as NoMemory;

impl Values {
    ghost use Rattle.c_machine_values.specs.Contents.{stack_of};
    ghost use Rattle.c_machine_values.specs.Needs.{IsReady};
    ghost use Rattle.c_machine_values.specs.Rows.{Does};

    /// An operator on the value on top.
    pub(crate) fn unary(
        &mut self,
        pos: Pos,
        op: TUnaryOp,
        ty: Option<Scalar>,
    ) -> Result<Row, NoMemory>
        requires { IsReady (steps.Un pos op ty) (stack_of self.old) self.old.memory }
        ensures { IfOk result (λ row. (objects : List ObjectTree)
            → Does objects (steps.Un pos op ty) (stack_of self.old) self.old.memory (stack_of self.new) self.new.memory row) }
    {
        let v = take_value(&mut self.stack);
        let ty = scalar_there(ty);
        match self.memory.unary(op, ty, v) {
            Ok(new) => {
                put_value(&mut self.stack, new)?;
                Ok(Row::Went)
            }
            Err(wrong) => {
                put_value(&mut self.stack, v)?;
                Ok(Row::Wrong(pos, wrong.kind))
            }
        }
    }

    /// An operator on two values, of which the right one stands on top.
    pub(crate) fn binary(
        &mut self,
        objects: &[Object],
        pos: Pos,
        op: TBinaryOp,
    ) -> Result<Row, NoMemory>
        requires needs { IsReady (steps.Bin pos op) (stack_of self.old) self.old.memory }
        requires fits { AllFit (map object_tree objects.now) self.old.memory }
        requires small { AreSmall (map object_tree objects.now) }
        ensures { IfOk result (λ row.
            Does (map object_tree objects.now) (steps.Bin pos op) (stack_of self.old) self.old.memory (stack_of self.new) self.new.memory row) }
    {
        let right = take_value(&mut self.stack);
        let left = take_value(&mut self.stack);
        match self.memory.binary(objects, op, left, right) {
            Ok(new) => {
                put_value(&mut self.stack, new)?;
                Ok(Row::Went)
            }
            Err(wrong) => {
                put_two(&mut self.stack, left, right)?;
                Ok(Row::Wrong(pos, wrong.kind))
            }
        }
    }

    /// The place on top is moved to a member of the struct that stands there.
    pub(crate) fn member(
        &mut self,
        objects: &[Object],
        pos: Pos,
        offset: u64,
    ) -> Result<Row, NoMemory>
        requires needs { IsReady (steps.Move pos offset) (stack_of self.old) self.old.memory }
        requires fits { AllFit (map object_tree objects.now) self.old.memory }
        requires small { AreSmall (map object_tree objects.now) }
        ensures { IfOk result (λ row.
            Does (map object_tree objects.now) (steps.Move pos offset) (stack_of self.old) self.old.memory (stack_of self.new) self.new.memory row) }
    {
        let place = take_value(&mut self.stack);
        match self.memory.member(objects, place, offset) {
            Ok(new) => {
                put_value(&mut self.stack, new)?;
                Ok(Row::Went)
            }
            Err(wrong) => {
                put_value(&mut self.stack, place)?;
                Ok(Row::Wrong(pos, wrong.kind))
            }
        }
    }

    /// What stands on top is converted, to void where there is no type.
    pub(crate) fn convert(&mut self, ty: Option<Scalar>) -> Result<Row, NoMemory>
        requires { IsReady (steps.Conv ty) (stack_of self.old) self.old.memory }
        ensures { IfOk result (λ row. (objects : List ObjectTree)
            → Does objects (steps.Conv ty) (stack_of self.old) self.old.memory (stack_of self.new) self.new.memory row) }
    {
        let new = match take_held(&mut self.stack) {
            Held::Plain(given) => convert(ty, given),
            Held::Struct(_, _) => Given::Nothing,
        };
        self.stack.put(Held::Plain(new))?;
        Ok(Row::Went)
    }

    /// What stands on top is dropped.
    pub(crate) fn discard(&mut self) -> Row
        requires { IsReady steps.Drop (stack_of self.old) self.old.memory }
        ensures { (objects : List ObjectTree) → Does objects steps.Drop (stack_of self.old) self.old.memory (stack_of self.new) self.new.memory result }
    {
        take_held(&mut self.stack);
        Row::Went
    }

    /// The end of a function is reached without a `return`.
    pub(crate) fn end(&mut self, pos: Option<Pos>, end: AtEnd) -> Result<Row, NoMemory>
        requires { IsReady (steps.Reach pos (end_of end)) (stack_of self.old) self.old.memory }
        ensures { IfOk result (λ row. (objects : List ObjectTree)
            → Does objects (steps.Reach pos (end_of end)) (stack_of self.old) self.old.memory (stack_of self.new) self.new.memory row) }
    {
        match end {
            AtEnd::GivesNothing => {
                self.stack.put(Held::Plain(Given::Nothing))?;
                Ok(Row::Went)
            }
            AtEnd::GivesZero => {
                put_value(&mut self.stack, Value::Int(IntType::Int, 0))?;
                Ok(Row::Went)
            }
            AtEnd::IsWrong => match pos {
                Some(pos) => Ok(Row::Wrong(pos, WrongKind::NoValue)),
                None => unreachable!(),
            },
        }
    }
}
