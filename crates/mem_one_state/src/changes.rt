// What statements do to the one state.

ghost use Rattle.std.specs.Prelude.{◌≡◌, ◌<◌, List, All, IfOk, IsOkAnd, OnOk, Some, length, map};
ghost use Rattle.c_syntax.specs.Types.{ObjectTree, object_tree};
ghost use Rattle.csharp.specs.Trees.{csexpr_tree};
ghost use Rattle.csharp.specs.States as states;
ghost use Rattle.csharp.specs.Actions as acts;
ghost use Rattle.mem_one_state.specs.One.{AreNamesOf, IsFor, IsOf, left_by};

use crate::state::OneState;
use block_mem::Scalar;
use c_syntax::Object;
use csharp::CsExpr;
use csharp_state::{State, Step, Unheld};
use std::alloc::AllocError as NoMemory;

impl OneState {
    /// Puts a value into a temporary.
    pub fn set(&mut self, temp: u64, value: &CsExpr) -> Result<(), NoMemory>
        ensures stands { OnOk result ((s t : states.State) → IsOf self.old s → acts.set temp (csexpr_tree value.now) s ≡ Some t → IsOf self.new t) }
        ensures sharp { OnOk result ((s t : states.State) → self.old ≡ Some s → acts.set temp (csexpr_tree value.now) s ≡ Some t → self.new ≡ Some t) }
        ensures objects { (objects : List ObjectTree) → IsFor objects self.old → IsFor objects self.new }
    {
        let Some(mut state) = self.state.take() else {
            return Ok(());
        };
        let step = state.set(temp, value);
        self.state = kept(state, step)?;
        Ok(())
    }

    /// Puts what stands at an address into a temporary.
    pub fn load(&mut self, temp: u64, address: &CsExpr, ty: Scalar) -> Result<(), NoMemory>
        ensures stands { OnOk result ((s t : states.State) → IsOf self.old s → acts.load temp ty (csexpr_tree address.now) s ≡ Some t → IsOf self.new t) }
        ensures sharp { OnOk result ((s t : states.State) → self.old ≡ Some s → acts.load temp ty (csexpr_tree address.now) s ≡ Some t → self.new ≡ Some t) }
        ensures objects { (objects : List ObjectTree) → IsFor objects self.old → IsFor objects self.new }
    {
        let Some(mut state) = self.state.take() else {
            return Ok(());
        };
        let step = state.load(temp, ty, address);
        self.state = kept(state, step)?;
        Ok(())
    }

    /// Puts a value of this type at an address, read-only or not.
    pub fn store(&mut self, address: &CsExpr, ty: Scalar, value: &CsExpr) -> Result<(), NoMemory>
        ensures stands { OnOk result ((s t : states.State) → IsOf self.old s
            → acts.store ty (csexpr_tree address.now) (csexpr_tree value.now) s ≡ Some t → IsOf self.new t) }
        ensures sharp { OnOk result ((s t : states.State) → self.old ≡ Some s
            → acts.store ty (csexpr_tree address.now) (csexpr_tree value.now) s ≡ Some t → self.new ≡ Some t) }
        ensures objects { (objects : List ObjectTree) → IsFor objects self.old → IsFor objects self.new }
    {
        let Some(mut state) = self.state.take() else {
            return Ok(());
        };
        let step = state.store(ty, address, value);
        self.state = kept(state, step)?;
        Ok(())
    }

    /// Copies so many bytes, as if all were read first.
    pub fn copy_bytes(&mut self, to: &CsExpr, from: &CsExpr, size: u64) -> Result<(), NoMemory>
        ensures stands { OnOk result ((s t : states.State) → IsOf self.old s
            → acts.copy_bytes size (csexpr_tree to.now) (csexpr_tree from.now) s ≡ Some t → IsOf self.new t) }
        ensures sharp { OnOk result ((s t : states.State) → self.old ≡ Some s
            → acts.copy_bytes size (csexpr_tree to.now) (csexpr_tree from.now) s ≡ Some t → self.new ≡ Some t) }
        ensures objects { (objects : List ObjectTree) → IsFor objects self.old → IsFor objects self.new }
    {
        let Some(mut state) = self.state.take() else {
            return Ok(());
        };
        let step = state.copy_bytes(size, to, from);
        self.state = kept(state, step)?;
        Ok(())
    }

    /// Makes all bytes of a live object lose their values.
    pub fn undefine(&mut self, object: u64)
        ensures stands { (s t : states.State) → IsOf self.old s → acts.undefine object s ≡ Some t → IsOf self.new t }
        ensures sharp { (s t : states.State) → self.old ≡ Some s → acts.undefine object s ≡ Some t → self.new ≡ Some t }
        ensures objects { (objects : List ObjectTree) → IsFor objects self.old → IsFor objects self.new }
    {
        let Some(mut state) = self.state.take() else {
            return;
        };
        let step = state.undefine(object);
        self.state = left(state, step);
    }

    /// These objects begin to live, with no value.
    pub fn enter(&mut self, objects: &[Object], names: &[u64]) -> Result<(), NoMemory>
        requires there { All (λ name. name < length objects.now) names.now }
        requires objects { IsFor (map object_tree objects.now) self.old }
        ensures stands { OnOk result ((s : states.State) → IsOf self.old s → IsOf self.new (acts.enter (map object_tree objects.now) names.now s)) }
        ensures sharp { OnOk result ((s : states.State) → self.old ≡ Some s → self.new ≡ Some (acts.enter (map object_tree objects.now) names.now s)) }
        ensures objects { IsFor (map object_tree objects.now) self.new }
    {
        let Some(mut state) = self.state.take() else {
            return Ok(());
        };
        state.enter(objects, names)?;
        self.state = Some(state);
        Ok(())
    }

    /// These objects end; pointers to them are dead.
    pub fn leave(&mut self, names: &[u64])
        requires { AreNamesOf names.now self.old }
        ensures stands { (s : states.State) → IsOf self.old s → IsOf self.new (acts.leave names.now s) }
        ensures sharp { (s : states.State) → self.old ≡ Some s → self.new ≡ Some (acts.leave names.now s) }
        ensures objects { (objects : List ObjectTree) → IsFor objects self.old → IsFor objects self.new }
    {
        let Some(mut state) = self.state.take() else {
            return;
        };
        state.leave(names);
        self.state = Some(state);
    }
}

// What is left behind an action: the state, or nothing that is known.
fn left(state: State, step: Step) -> Option<State>
    ensures { result ≡ left_by step state }
{
    match step {
        Step::Done => Some(state),
        Step::Barred => None,
    }
}

// The same of an action that may give up.
fn kept(state: State, step: Result<Step, Unheld>) -> Result<Option<State>, NoMemory>
    ensures { IfOk result (λ one. IsOkAnd step (λ did. one ≡ left_by did state)) }
{
    match step {
        Ok(step) => Ok(left(state, step)),
        Err(_) => Err(NoMemory),
    }
}
