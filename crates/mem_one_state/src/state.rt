// The one state, and what makes it.

ghost use Rattle.std.specs.Prelude.{◌≡◌, ℤ, List, [], None, Some, IfOk, MatchOption, is_some};
ghost use Rattle.csharp.specs.Trees.{csprogram_tree};
ghost use Rattle.csharp.specs.States as states;
ghost use Rattle.mem_one_state.specs.One.{IsFor, IsOf};

use csharp::CsProgram;
use csharp_exec::first_state;
use csharp_state::State;
use std::alloc::{AllocError as NoMemory, Global};
use std::marker::Model;

/// The one state of a run without inputs, where it is known.
#[derive(Drop)]
pub struct OneState {
    pub(crate) state: Option<State>,
}

impl Model for OneState {
    ghost use Rattle.std.specs.Prelude.{Option};
    ghost use Rattle.csharp.specs.States as states;
    ghost use Rattle.mem_one_state.specs.One.{IsHeld};

    ghost Value = { Option states.State };

    ghost view = { λ one. one.state };

    ghost invariant = { λ one. IsHeld one.state };
}

impl OneState {
    /// The first state of a program on no inputs.
    pub fn start(alloc: Global, program: &CsProgram) -> Result<OneState, NoMemory>
        ensures stands { IfOk result (λ one. (inputs : List ℤ) → IsOf one (states.first (csprogram_tree program.now) inputs)) }
        ensures sharp { IfOk result (λ one. one ≡ Some (states.first (csprogram_tree program.now) [])) }
        ensures objects { IfOk result (λ one. IsFor (csprogram_tree program.now).objects one) }
    {
        let inputs: [i128; 0] = [];
        match first_state(alloc, program, &inputs) {
            Ok(state) => Ok(OneState { state: Some(state) }),
            Err(_) => Err(NoMemory),
        }
    }

    /// A state of which nothing is known.
    pub fn unknown() -> OneState
        ensures { result ≡ None }
    {
        OneState { state: None }
    }

    /// The same once more.
    pub fn copy(&self) -> Result<OneState, NoMemory>
        ensures { IfOk result (λ one. one ≡ self.now) }
    {
        match &self.state {
            Some(state) => Ok(OneState {
                state: Some(state.try_clone()?),
            }),
            None => Ok(OneState { state: None }),
        }
    }

    /// Whether the state is known.
    pub fn is_known(&self) -> bool
        ensures { result ≡ is_some self.now }
    {
        self.state.is_some()
    }

    /// The state, where it is known.
    pub fn known(&self) -> Option<&State>
        ensures { MatchOption result (self.now ≡ None) (λ s. self.now ≡ Some s.now) }
    {
        match &self.state {
            Some(state) => Some(state),
            None => None,
        }
    }

    /// From now on nothing is known.
    pub fn forget(&mut self)
        ensures { self.new ≡ None }
    {
        self.state = None;
    }
}
