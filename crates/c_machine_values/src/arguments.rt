// The arguments of a call.

ghost use Rattle.std.specs.Prelude.{◌≡◌, [], IfOk, IsSome, List, OnOk, Some, length, map, reverse};
ghost use Rattle.block_mem.specs.declared.types.Value.{Value};
ghost use Rattle.c_objects.specs.Opening.{open_all};
ghost use Rattle.c_steps.specs.Calls.{all_filled, object_scalar as scalar_of_object, taken};
ghost use Rattle.c_steps.specs.Changes.{filled};
ghost use Rattle.c_syntax.specs.Types.{object_tree};
ghost use Rattle.c_machine_work.specs.Views.{on_top};

use crate::accesses::scalar_there;
use crate::stack::take_value;
use crate::values::Values;
use block_mem::{Scalar, Value};
use c_machine_work::Stack;
use c_syntax::Object;
use c_values::scalar_of;
use std::alloc::{AllocError as NoMemory, Global};

impl Values {
    ghost use Rattle.c_machine_values.specs.Contents.{stack_of};
    ghost use Rattle.c_steps_laws.specs.Needs.{IsFilledAs};
    ghost use Rattle.c_machine_values.specs.Needs.{HasArguments};

    /// The parameters of a function begin to live, in their order, and have the arguments that stand on
    /// the stack, the last one on top.
    pub fn enter(
        &mut self,
        alloc: Global,
        objects: &[Object],
        params: &[u64],
    ) -> Result<(), NoMemory>
        requires { HasArguments (map object_tree objects.now) params.now (stack_of self.old) self.old.memory }
        ensures { OnOk result ((args : List Value) × (taken (length params.now) (stack_of self.old) [] ≡ Some (args, stack_of self.new))
            × (all_filled (map object_tree objects.now) params.now args (open_all (map object_tree objects.now) self.old.memory params.now)
            ≡ Some self.new.memory)) }
    {
        let mut args = take_args(alloc, &mut self.stack, params.len())?;
        self.memory.open_all(objects, params)?;
        for param in params {
            match args.pop() {
                Some(v) => self.fill_param(objects, *param, v),
                None => unreachable!(),
            }
        }
        Ok(())
    }

    // A parameter has its value.
    fn fill_param(&mut self, objects: &[Object], param: u64, v: Value)
        requires { IsFilledAs self.old.memory (scalar_of_object (map object_tree objects.now) param) param v }
        ensures stack { self.new.stack ≡ self.old.stack }
        ensures memory { filled self.old.memory (scalar_of_object (map object_tree objects.now) param) param 0 v ≡ Some self.new.memory }
    {
        let ty = scalar_there(object_scalar(objects, param));
        let place = self.memory.address(param, 0);
        self.memory.initialise(ty, place, v);
    }
}

// So many values off the stack, of which the last one is the first argument.
fn take_args(alloc: Global, stack: &mut Stack, count: usize) -> Result<Vec<Value>, NoMemory>
    requires { IsSome (taken count (on_top stack.old []) []) }
    ensures { IfOk result (λ args. taken count (on_top stack.old []) [] ≡ Some (reverse args.items, on_top stack.new [])) }
{
    let mut args = Vec::new(alloc);
    for _ in 0..count {
        args.push(take_value(stack))?;
    }
    Ok(args)
}

// The scalar type of an object.
fn object_scalar(objects: &[Object], object: u64) -> Option<Scalar>
    ensures { result ≡ scalar_of_object (map object_tree objects.now) object }
{
    match objects.get(object as usize) {
        Some(object) => scalar_of(&object.ty),
        None => None,
    }
}
