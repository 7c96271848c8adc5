// States.
ghost use Rattle.std.specs.Prelude.{◌≡◌};
ghost use Rattle.csharp.specs.Actions.{put, put_into};

use block_mem::Value;
use c_objects::ObjectMemory;
use std::alloc::AllocError as NoMemory;
use std::collections::VecDeque;
use std::marker::Model;

/// A state: the values of the temporaries, by their numbers, the memory of the program's objects, and
/// the inputs that are left.
#[derive(Drop)]
pub struct State {
    pub(crate) temps: Vec<Value>,
    pub(crate) memory: ObjectMemory,
    pub(crate) inputs: VecDeque<i128>,
}

impl Model for State {
    ghost use Rattle.csharp.specs.States as states;

    ghost Value = { states.State };

    ghost view = { λ s. record { temps = s.temps.items; memory = s.memory; inputs = s.inputs.items } };
}

/// What became of an action.
#[derive(Clone, Copy)]
pub enum Step {
    /// The state is the one behind it.
    Done,
    /// There is none: the statement is stuck, or waits. The state is as it was.
    Barred,
}

impl State {
    ghost use Rattle.std.specs.Prelude.{◌≡◌, slice_get, IfOk};

    /// The state with these values of temporaries, this memory, and these inputs that are left.
    pub fn new(temps: Vec<Value>, memory: ObjectMemory, inputs: VecDeque<i128>) -> State
        ensures { result ≡ record { temps = temps.items; memory = memory; inputs = inputs.items } }
    {
        State {
            temps,
            memory,
            inputs,
        }
    }

    /// The same state once more.
    pub fn try_clone(&self) -> Result<State, NoMemory>
        ensures { IfOk result (λ s. s ≡ self.now) }
    {
        Ok(State {
            temps: self.temps.clone()?,
            memory: self.memory.try_clone()?,
            inputs: self.inputs.clone()?,
        })
    }

    /// What stands in a temporary; none where there is no such temporary.
    pub fn temp(&self, temp: u64) -> Option<Value>
        ensures { result ≡ slice_get self.now.temps temp }
    {
        self.temps.get(temp as usize).copied()
    }

    /// The memory of the objects.
    pub fn memory(&self) -> &ObjectMemory
        ensures { result.now ≡ self.now.memory }
    {
        &self.memory
    }

    /// Puts a value into a temporary; where there is none of this number, nothing changes.
    pub fn put(&mut self, temp: u64, value: Value)
        ensures { self.new ≡ put self.old temp value }
    {
        if let Some(slot) = self.temps.get_mut(temp as usize) {
            *slot = value;
        }
    }

    /// Puts a value into a temporary, or nowhere.
    pub fn put_into(&mut self, temp: Option<u64>, value: Value)
        ensures { self.new ≡ put_into temp value self.old }
    {
        if let Some(temp) = temp {
            self.put(temp, value);
        }
    }
}
