// `op=`, `++` and `--`.

ghost use Rattle.std.specs.Prelude.{◌≡◌, List, [], IfOk, Some, length, map};
ghost use Rattle.block_mem.specs.Proper.{IsMade};
ghost use Rattle.c_objects.specs.Kept.{AllFit, AreSmall};
ghost use Rattle.c_steps.specs.Changes as rules;
ghost use Rattle.c_steps.specs.Work as steps;
ghost use Rattle.c_syntax.specs.Types.{object_tree};
ghost use Rattle.c_values.specs.Operators.{one as one_of};
ghost use Rattle.c_values.specs.Typed.{IsConvertible};
ghost use Rattle.c_values.specs.Values.{converted_to};

use crate::accesses::scalar_there;
use crate::row::Row;
use crate::stack::{put_two, put_value, take_value};
use crate::values::Values;
use block_mem::{Scalar, Value};
use c_syntax::{Arithmetic, IntType, Object, Pos, StepTime, StepWay, Stride, TBinaryOp, WrongKind};
use c_values::{Given, Wrong, convert};
use std::alloc::AllocError as NoMemory;

/// How what stands in a place is changed: by an operator, whose place in the text is `pos`; `place` is
/// that of the lvalue. The value is given that it has before, or that it has afterwards.
#[derive(Clone, Copy)]
pub(crate) struct Change {
    pos: Pos,
    place: Pos,
    ty: Scalar,
    op: TBinaryOp,
    time: StepTime,
}

/// What is wrong, and where.
#[derive(Clone, Copy)]
pub(crate) struct Fault {
    pos: Pos,
    kind: WrongKind,
}

impl Values {
    ghost use Rattle.c_machine_values.specs.Contents.{stack_of};
    ghost use Rattle.c_machine_values.specs.Modified.{Changed, Modifies};
    ghost use Rattle.c_steps_laws.specs.Needs.{IsHeld, IsModified, IsPlace};
    ghost use Rattle.c_machine_values.specs.Needs.{IsReady};
    ghost use Rattle.c_machine_values.specs.Rows.{Does};

    /// `op=`: the operand stands on top, and the place below it.
    pub(crate) fn modify(
        &mut self,
        objects: &[Object],
        pos: Pos,
        place: Pos,
        ty: Option<Scalar>,
        op: TBinaryOp,
    ) -> Result<Row, NoMemory>
        requires needs { IsReady (steps.Modify pos place ty op) (stack_of self.old) self.old.memory }
        requires fits { AllFit (map object_tree objects.now) self.old.memory }
        requires small { AreSmall (map object_tree objects.now) }
        ensures { IfOk result (λ row. Does (map object_tree objects.now) (steps.Modify pos place ty op) (stack_of self.old) self.old.memory
            (stack_of self.new) self.new.memory row) }
    {
        let operand = take_value(&mut self.stack);
        let target = take_value(&mut self.stack);
        let change = Change {
            pos,
            place,
            ty: scalar_there(ty),
            op,
            time: StepTime::Before,
        };
        match self.change(objects, change, target, operand) {
            Ok(given) => {
                put_value(&mut self.stack, given)?;
                Ok(Row::Went)
            }
            Err(fault) => {
                put_two(&mut self.stack, target, operand)?;
                Ok(Row::Wrong(fault.pos, fault.kind))
            }
        }
    }

    /// `++` or `--` on the place on top.
    pub(crate) fn step(
        &mut self,
        objects: &[Object],
        pos: Pos,
        place: Pos,
        ty: Option<Scalar>,
        time: StepTime,
        way: StepWay,
        stride: Stride,
    ) -> Result<Row, NoMemory>
        requires needs { IsReady (steps.StepAt pos place ty time way stride) (stack_of self.old) self.old.memory }
        requires fits { AllFit (map object_tree objects.now) self.old.memory }
        requires small { AreSmall (map object_tree objects.now) }
        ensures { IfOk result (λ row. Does (map object_tree objects.now) (steps.StepAt pos place ty time way stride) (stack_of self.old) self.old.memory
            (stack_of self.new) self.new.memory row) }
    {
        let target = take_value(&mut self.stack);
        let change = Change {
            pos,
            place,
            ty: scalar_there(ty),
            op: step_operator(way, stride),
            time,
        };
        match self.change(objects, change, target, one(stride)) {
            Ok(given) => {
                put_value(&mut self.stack, given)?;
                Ok(Row::Went)
            }
            Err(fault) => {
                put_value(&mut self.stack, target)?;
                Ok(Row::Wrong(fault.pos, fault.kind))
            }
        }
    }

    // What stands in the place is loaded, converted and operated on, and what comes of it is converted
    // back and stored. Answers what is given; what is wrong changes nothing.
    fn change(
        &mut self,
        objects: &[Object],
        change: Change,
        place: Value,
        operand: Value,
    ) -> Result<Value, Fault>
        requires place { IsPlace self.old.memory place }
        requires operand { IsMade (length self.old.memory.blocks) operand }
        requires changes { IsModified change.ty change.op operand }
        requires fits { AllFit (map object_tree objects.now) self.old.memory }
        requires small { AreSmall (map object_tree objects.now) }
        ensures stack { self.new.stack ≡ self.old.stack }
        ensures memory { Modifies (map object_tree objects.now) change place operand self.old.memory self.new.memory result }
    {
        let old = match self.memory.load(change.ty, place) {
            Ok(old) => old,
            Err(wrong) => return Err(fault_at(change.place, wrong)),
        };
        let new = match self.changed(objects, change, old, operand) {
            Ok(new) => new,
            Err(wrong) => return Err(fault_at(change.pos, wrong)),
        };
        match self.memory.store(change.ty, place, new) {
            Ok(()) => Ok(match change.time {
                StepTime::Before => new,
                StepTime::After => old,
            }),
            Err(wrong) => Err(fault_at(change.place, wrong)),
        }
    }

    // What an old value becomes.
    fn changed(
        &self,
        objects: &[Object],
        change: Change,
        old: Value,
        operand: Value,
    ) -> Result<Value, Wrong>
        requires old { IsHeld self.now.memory change.ty old }
        requires operand { IsMade (length self.now.memory.blocks) operand }
        requires changes { IsModified change.ty change.op operand }
        requires fits { AllFit (map object_tree objects.now) self.now.memory }
        requires small { AreSmall (map object_tree objects.now) }
        ensures answer { Changed (map object_tree objects.now) change old operand self.now.memory result }
        ensures typed { IfOk result (λ new. IsHeld self.now.memory change.ty new) }
    {
        let left = as_scalar(left_type(change.op, change.ty), old);
        match self.memory.binary(objects, change.op, left, operand) {
            Ok(new) => Ok(as_scalar(change.ty, new)),
            Err(wrong) => Err(wrong),
        }
    }
}

fn fault_at(pos: Pos, wrong: Wrong) -> Fault
    ensures { result ≡ record { pos = pos; kind = wrong.kind } }
{
    Fault {
        pos,
        kind: wrong.kind,
    }
}

// A value of another scalar type.
fn as_scalar(ty: Scalar, v: Value) -> Value
    requires { IsConvertible (Some ty) (Given.Value v) }
    ensures { converted_to ty v ≡ Some result }
{
    match convert(Some(ty), Given::Value(v)) {
        Given::Value(new) => new,
        Given::Nothing => unreachable!(),
    }
}

// The type at which an operator takes what stands in a place of this type.
fn left_type(op: TBinaryOp, ty: Scalar) -> Scalar
    ensures { rules.left_type op (Some ty) ≡ Some result }
{
    match op {
        TBinaryOp::Arithmetic(_, t) | TBinaryOp::Shift(_, t) => Scalar::Int(t),
        TBinaryOp::CompareInts(_, _) | TBinaryOp::ComparePointers(_) => ty,
        TBinaryOp::PointerPlusInt { .. } | TBinaryOp::IntPlusPointer { .. } => ty,
        TBinaryOp::PointerMinusInt { .. } | TBinaryOp::PointerMinusPointer { .. } => ty,
    }
}

// `++` and `--` as `+` and `-`.
fn step_operator(way: StepWay, stride: Stride) -> TBinaryOp
    ensures { result ≡ rules.step_operator way stride }
{
    match (way, stride) {
        (StepWay::Up, Stride::Int(t)) => TBinaryOp::Arithmetic(Arithmetic::Add, t),
        (StepWay::Down, Stride::Int(t)) => TBinaryOp::Arithmetic(Arithmetic::Subtract, t),
        (StepWay::Up, Stride::Element(element)) => TBinaryOp::PointerPlusInt { element },
        (StepWay::Down, Stride::Element(element)) => TBinaryOp::PointerMinusInt { element },
    }
}

fn one(stride: Stride) -> Value
    ensures { result ≡ one_of stride }
{
    match stride {
        Stride::Int(t) => Value::Int(t, 1),
        Stride::Element(_) => Value::Int(IntType::Int, 1),
    }
}
