// What rows take off the stack and put on it.

ghost use Rattle.std.specs.Prelude.{◌≡◌, [], ◌∷◌, OnOk};
ghost use Rattle.c_steps.specs.States.{held, Struct as Bytes};
ghost use Rattle.c_machine_work.specs.Views.{held_of, on_top};
ghost use Rattle.c_steps_laws.specs.Shapes.{HasStruct, HasTop, HasValue};

use block_mem::Value;
use c_machine_work::{Held, Stack};
use c_syntax::Pos;
use c_values::Given;
use std::alloc::AllocError as NoMemory;

/// What stands on top, taken off.
pub fn take_held(stack: &mut Stack) -> Held
    requires { HasTop (on_top stack.old []) }
    ensures { on_top stack.old [] ≡ held_of result ∷ on_top stack.new [] }
{
    match stack.take() {
        Some(top) => top,
        None => unreachable!(),
    }
}

/// The value that stands on top, taken off.
pub fn take_value(stack: &mut Stack) -> Value
    requires { HasValue (on_top stack.old []) }
    ensures { on_top stack.old [] ≡ held result ∷ on_top stack.new [] }
{
    match take_held(stack) {
        Held::Plain(given) => match given {
            Given::Value(v) => v,
            Given::Nothing => unreachable!(),
        },
        Held::Struct(_, _) => unreachable!(),
    }
}

/// The struct that stands on top, taken off: the place of the lvalue that named it, and that of its
/// bytes.
pub(crate) fn take_struct(stack: &mut Stack) -> (Pos, Value)
    requires { HasStruct (on_top stack.old []) }
    ensures { on_top stack.old [] ≡ Bytes result.0 result.1 ∷ on_top stack.new [] }
{
    match take_held(stack) {
        Held::Struct(pos, v) => (pos, v),
        Held::Plain(_) => unreachable!(),
    }
}

/// A value more on top.
pub fn put_value(stack: &mut Stack, v: Value) -> Result<(), NoMemory>
    ensures { OnOk result (on_top stack.new [] ≡ held v ∷ on_top stack.old []) }
{
    stack.put(Held::Plain(Given::Value(v)))
}

/// Two values more, of which the second one stands on top.
pub(crate) fn put_two(stack: &mut Stack, left: Value, right: Value) -> Result<(), NoMemory>
    ensures { OnOk result (on_top stack.new [] ≡ held right ∷ held left ∷ on_top stack.old []) }
{
    put_value(stack, left)?;
    put_value(stack, right)
}
