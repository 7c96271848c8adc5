// Tests of values.

ghost use Rattle.std.specs.Prelude.{◌≡◌, List, IfOk, IsSome};
ghost use Rattle.c_steps.specs.Work as steps;
ghost use Rattle.c_syntax.specs.Types.{ObjectTree};

use crate::accesses::scalar_there;
use crate::row::{Row, Tested};
use crate::stack::{put_value, take_value};
use crate::values::Values;
use block_mem::Scalar;
use c_machine_work::Held;
use c_syntax::Pos;
use c_values::{Given, bit, truth};
use std::alloc::AllocError as NoMemory;

impl Values {
    ghost use Rattle.c_machine_values.specs.Contents.{stack_of};
    ghost use Rattle.c_steps_laws.specs.Needs.{TestNeeds};
    ghost use Rattle.c_steps_laws.specs.Shapes.{HasValue};
    ghost use Rattle.c_machine_values.specs.Needs.{IsReady};
    ghost use Rattle.c_machine_values.specs.Rows.{Does, Tests};

    /// Tests the value on top, and takes it off. A pointer that is dead may not be tested.
    pub fn test(&mut self, ty: Option<Scalar>) -> Result<Tested, NoMemory>
        requires there { IsSome ty × HasValue (stack_of self.old) }
        requires typed { TestNeeds self.old.memory ty (stack_of self.old) }
        ensures test { IfOk result (λ tested. (objects : List ObjectTree) → Tests objects ty (stack_of self.old) self.old.memory (stack_of self.new) tested) }
        ensures memory { self.new.memory ≡ self.old.memory }
    {
        let v = take_value(&mut self.stack);
        match self.memory.check_test(scalar_there(ty), v) {
            Ok(()) => Ok(Tested::Passes(v)),
            Err(wrong) => {
                put_value(&mut self.stack, v)?;
                Ok(Tested::Wrong(wrong.kind))
            }
        }
    }

    /// 1 or 0 by the truth of the value on top.
    pub(crate) fn truth(&mut self, pos: Pos, ty: Option<Scalar>) -> Result<Row, NoMemory>
        requires { IsReady (steps.Truth pos ty) (stack_of self.old) self.old.memory }
        ensures { IfOk result (λ row. (objects : List ObjectTree)
            → Does objects (steps.Truth pos ty) (stack_of self.old) self.old.memory (stack_of self.new) self.new.memory row) }
    {
        match self.test(ty)? {
            Tested::Passes(v) => {
                put_value(&mut self.stack, bit(truth(v)))?;
                Ok(Row::Went)
            }
            Tested::Wrong(kind) => Ok(Row::Wrong(pos, kind)),
        }
    }

    /// An assertion about the value on top, which is taken off where it holds.
    pub(crate) fn assert(&mut self, pos: Pos, ty: Option<Scalar>) -> Result<Row, NoMemory>
        requires { IsReady (steps.Sure pos ty) (stack_of self.old) self.old.memory }
        ensures { IfOk result (λ row. (objects : List ObjectTree)
            → Does objects (steps.Sure pos ty) (stack_of self.old) self.old.memory (stack_of self.new) self.new.memory row) }
    {
        let v = take_value(&mut self.stack);
        match self.memory.check_assertion(scalar_there(ty), v) {
            Ok(()) => {
                self.stack.put(Held::Plain(Given::Nothing))?;
                Ok(Row::Went)
            }
            Err(wrong) => {
                put_value(&mut self.stack, v)?;
                Ok(Row::Wrong(pos, wrong.kind))
            }
        }
    }
}
