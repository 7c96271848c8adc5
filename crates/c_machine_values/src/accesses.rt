// Loads, stores and copies.

ghost use Rattle.std.specs.Prelude.{◌≡◌, List, [], ◌∷◌, IfOk, IsSome, OnOk, Some};
ghost use Rattle.c_objects.specs.Kept.{AllFit};
ghost use Rattle.c_steps.specs.States.{held, Struct as Bytes};
ghost use Rattle.c_steps.specs.Work as steps;
ghost use Rattle.c_syntax.specs.Types.{ObjectTree};

use crate::row::Row;
use crate::stack::{put_two, put_value, take_struct, take_value};
use crate::values::Values;
use block_mem::{Scalar, Value};
use c_machine_work::Held;
use c_syntax::{Extent, Pos};
use std::alloc::AllocError as NoMemory;

impl Values {
    ghost use Rattle.c_machine_values.specs.Contents.{stack_of};
    ghost use Rattle.c_machine_values.specs.Needs.{IsReady};
    ghost use Rattle.c_machine_values.specs.Rows.{Does};

    /// A scalar is loaded from the place on top.
    pub(crate) fn load(&mut self, pos: Pos, ty: Option<Scalar>) -> Result<Row, NoMemory>
        requires { IsReady (steps.LoadAt pos ty) (stack_of self.old) self.old.memory }
        ensures { IfOk result (λ row. (objects : List ObjectTree) → AllFit objects self.old.memory
            → Does objects (steps.LoadAt pos ty) (stack_of self.old) self.old.memory (stack_of self.new) self.new.memory row) }
    {
        let place = take_value(&mut self.stack);
        let ty = scalar_there(ty);
        match self.memory.load(ty, place) {
            Ok(v) => {
                put_value(&mut self.stack, v)?;
                Ok(Row::Went)
            }
            Err(wrong) => {
                put_value(&mut self.stack, place)?;
                Ok(Row::Wrong(pos, wrong.kind))
            }
        }
    }

    /// The scalar on top is stored in the place below it, and is given.
    pub(crate) fn store(&mut self, pos: Pos, ty: Option<Scalar>) -> Result<Row, NoMemory>
        requires { IsReady (steps.StoreAt pos ty) (stack_of self.old) self.old.memory }
        ensures { IfOk result (λ row. (objects : List ObjectTree) → AllFit objects self.old.memory
            → Does objects (steps.StoreAt pos ty) (stack_of self.old) self.old.memory (stack_of self.new) self.new.memory row) }
    {
        let v = take_value(&mut self.stack);
        let place = take_value(&mut self.stack);
        let ty = scalar_there(ty);
        match self.memory.store(ty, place, v) {
            Ok(()) => {
                put_value(&mut self.stack, v)?;
                Ok(Row::Went)
            }
            Err(wrong) => {
                put_two(&mut self.stack, place, v)?;
                Ok(Row::Wrong(pos, wrong.kind))
            }
        }
    }

    /// The place on top is that of a struct, which the lvalue there names.
    pub(crate) fn name(&mut self, pos: Pos) -> Result<Row, NoMemory>
        requires { IsReady (steps.Named pos) (stack_of self.old) self.old.memory }
        ensures { IfOk result (λ row. (objects : List ObjectTree)
            → Does objects (steps.Named pos) (stack_of self.old) self.old.memory (stack_of self.new) self.new.memory row) }
    {
        let place = take_value(&mut self.stack);
        self.stack.put(Held::Struct(pos, place))?;
        Ok(Row::Went)
    }

    /// The struct on top is copied to the place below it, and that is given.
    pub(crate) fn copy(&mut self, pos: Pos, extent: Extent) -> Result<Row, NoMemory>
        requires { IsReady (steps.CopyAt pos extent) (stack_of self.old) self.old.memory }
        ensures { IfOk result (λ row. (objects : List ObjectTree) → AllFit objects self.old.memory
            → Does objects (steps.CopyAt pos extent) (stack_of self.old) self.old.memory (stack_of self.new) self.new.memory row) }
    {
        let (named, source) = take_struct(&mut self.stack);
        let target = take_value(&mut self.stack);
        if let Err(wrong) = self.memory.check_read(source, extent.size, extent.align) {
            self.put_copied(target, named, source)?;
            return Ok(Row::Wrong(named, wrong.kind));
        }
        if let Err(wrong) = self.memory.check_write(target, extent.size, extent.align) {
            self.put_copied(target, named, source)?;
            return Ok(Row::Wrong(pos, wrong.kind));
        }
        self.memory.copy(target, source, extent.size);
        self.stack.put(Held::Struct(pos, target))?;
        Ok(Row::Went)
    }

    // A place, and a struct on top of it.
    fn put_copied(&mut self, target: Value, named: Pos, source: Value) -> Result<(), NoMemory>
        ensures stack { OnOk result (stack_of self.new ≡ Bytes named source ∷ held target ∷ stack_of self.old) }
        ensures memory { self.new.memory ≡ self.old.memory }
    {
        put_value(&mut self.stack, target)?;
        self.stack.put(Held::Struct(named, source))
    }
}

/// The scalar type that an item has.
pub(crate) fn scalar_there(ty: Option<Scalar>) -> Scalar
    requires { IsSome ty }
    ensures { ty ≡ Some result }
{
    match ty {
        Some(ty) => ty,
        None => unreachable!(),
    }
}
