// What stands on the stack.
#![tactic(auto, using(crate::proofs::Lists::the_lists))]

use block_mem::Value;
use c_syntax::Pos;
use c_values::Given;
use std::alloc::{AllocError as NoMemory, Global};
use std::marker::Model;

/// What an expression gave, or the place of a struct's bytes with the place of the lvalue that
/// named it, where a copy is checked.
#[derive(Clone, Copy, PartialEq, Eq)]
pub enum Held {
    Plain(Given),
    Struct(Pos, Value),
}

/// What is held, the last on top.
#[derive(Drop)]
pub struct Stack {
    items: Vec<Held>,
}

impl Model for Stack {
    ghost use Rattle.std.specs.Prelude.{List, []};
    ghost use Rattle.c_machine_work.specs.declared.stack.Held.{Held};

    ghost Value = { List Held };

    ghost view = { λ stack. stack.items.items };
}

impl Stack {
    ghost use Rattle.std.specs.Prelude.{◌≡◌, [], ◌∷◌, OnOk, OnErr, MatchOption};
    ghost use Rattle.c_machine_work.specs.Views.{held_of, on_top};

    /// The stack with nothing on it.
    pub fn new(alloc: Global) -> Stack
        ensures { result ≡ [] }
    {
        Stack {
            items: Vec::new(alloc),
        }
    }

    /// One more on top.
    pub fn put(&mut self, held: Held) -> Result<(), NoMemory>
        ensures { OnOk result (on_top self.new [] ≡ held_of held ∷ on_top self.old []) }
    {
        self.items.push(held)?;
        Ok(())
    }

    /// What stands on top, taken off.
    pub fn take(&mut self) -> Option<Held>
        ensures { MatchOption result ((on_top self.old [] ≡ []) × (on_top self.new [] ≡ [])) (λ held. on_top self.old [] ≡ held_of held ∷ on_top self.new []) }
    {
        self.items.pop()
    }
}
