// A call and a list of calls.
#![tactic(auto)]

use c_syntax::Pos;
use std::alloc::{AllocError as NoMemory, Global};
use std::marker::Model;

/// A call of a function, at the function's name.
#[derive(Clone, Copy, Drop)]
pub struct Call {
    /// Where the name of the function stands that is called.
    pub pos: Pos,
    /// The number of the function that is called.
    pub callee: u64,
}

/// Calls, one after the other.
#[derive(Drop)]
pub struct Calls {
    items: Vec<Call>,
}

impl Model for Calls {
    ghost use Rattle.std.specs.Prelude.{List, map};
    ghost use Rattle.c_layout.specs.Calls.{PlacedCall};
    ghost use Rattle.c_rules_calls.specs.Placed.{placed};

    ghost Value = { List PlacedCall };

    ghost view = { λ l. map placed l.items.items };
}

impl Calls {
    ghost use Rattle.std.specs.Prelude.{◌≡◌, ◌<◌, List, [], ◌∷◌, ◌++◌, length, map, MatchBool, OnOk};
    ghost use Rattle.c_layout.specs.Calls.{PlacedCall, chain_end};
    ghost use Rattle.c_rules_calls.specs.Placed.{placed};

    /// The list with nothing in it.
    pub fn new(alloc: Global) -> Calls
        ensures { result ≡ [] }
    {
        Calls {
            items: Vec::new(alloc),
        }
    }

    /// The calls, in their order.
    pub fn as_slice(&self) -> &[Call]
        ensures { map placed result.now ≡ self.now }
    {
        self.items.as_slice()
    }

    /// With one call more, at the end.
    pub fn push(&mut self, call: Call) -> Result<(), NoMemory>
        ensures { OnOk result (self.new ≡ self.old ++ placed call ∷ []) }
    {
        self.items.push(call)?;
        Ok(())
    }

    /// Whether there are no calls.
    pub fn is_empty(&self) -> bool
        ensures { MatchBool result (self.now ≡ []) (0 < length self.now) }
    {
        self.items.is_empty()
    }

    /// The function that the last call calls, or this one where there are no calls.
    pub fn end(&self, root: u64) -> u64
        ensures { result ≡ chain_end root self.now }
    {
        match self.items.last() {
            Some(call) => call.callee,
            None => root,
        }
    }

    /// Without the last call.
    pub fn pop(&mut self)
        ensures { (front : List PlacedCall) (call : PlacedCall) → self.old ≡ front ++ call ∷ [] → self.new ≡ front }
    {
        let _ = self.items.pop();
    }
}
