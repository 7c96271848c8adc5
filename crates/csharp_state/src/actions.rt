// What statements do to a state at once.
#![tactic(auto, using(csharp::proofs::CodeTrees::the_code_trees))]

ghost use Rattle.std.specs.Prelude.{◌≡◌, ◌<◌, All, IfOk, OnErr, OnOk, is_err, length, map, true};
ghost use Rattle.c_syntax_written.specs.Integer.{HasNumber};
ghost use Rattle.c_syntax.specs.Types.{object_tree};
ghost use Rattle.block_mem.specs.Bytes.{IsOf};
ghost use Rattle.block_mem.specs.Proper.{IsMade};
ghost use Rattle.c_objects.specs.Writing.{copied_at, stored_at};
ghost use Rattle.csharp.specs.Trees.{csexpr_tree};
ghost use Rattle.csharp.specs.Actions as acts;
ghost use Rattle.csharp.specs.Actions.{with_memory};
ghost use Rattle.csharp_state.specs.Answers.{Took};
ghost use Rattle.csharp_state.specs.Belongs.{Belongs, HasObjects, Keeps};
ghost use Rattle.csharp_state.specs.Unheld as unheld;
ghost use Rattle.csharp_state.specs.Unheld.{own_type, unheld_copy, unheld_store, unheld_stored};

use crate::accesses::size_of;
use crate::error::Unheld;
use crate::numbers::has_number;
use crate::state::{State, Step};
use block_mem::{Scalar, Value};
use c_layout::wrap;
use c_syntax::{IntType, Object};
use csharp::CsExpr;
use std::alloc::AllocError as NoMemory;

impl State {
    /// Puts a value into a temporary.
    pub fn set(&mut self, temp: u64, value: &CsExpr) -> Result<Step, Unheld>
        ensures took { IfOk result (λ step. Took step self.old self.new (acts.set temp (csexpr_tree value.now) self.old)) }
        ensures memory { OnOk result (self.new.memory ≡ self.old.memory) }
        ensures unheld { is_err result ≡ unheld.unheld (csexpr_tree value.now) self.old }
        ensures unchanged { OnErr result (self.new ≡ self.old) }
    {
        match self.value(value)? {
            Some(v) => {
                self.put(temp, v);
                Ok(Step::Done)
            }
            None => Ok(Step::Barred),
        }
    }

    /// Puts what stands at an address into a temporary.
    pub fn load(&mut self, temp: u64, ty: Scalar, address: &CsExpr) -> Result<Step, Unheld>
        requires { HasObjects self.old.memory }
        ensures took { IfOk result (λ step. Took step self.old self.new (acts.load temp ty (csexpr_tree address.now) self.old)) }
        ensures memory { OnOk result (self.new.memory ≡ self.old.memory) }
        ensures unheld { is_err result ≡ unheld.unheld (csexpr_tree address.now) self.old }
        ensures unchanged { OnErr result (self.new ≡ self.old) }
    {
        match self.value(address)? {
            Some(place) => match self.loaded(ty, place) {
                Some(v) => {
                    self.put(temp, v);
                    Ok(Step::Done)
                }
                None => Ok(Step::Barred),
            },
            None => Ok(Step::Barred),
        }
    }

    /// Puts a value of this type at an address, read-only or not.
    pub fn store(&mut self, ty: Scalar, address: &CsExpr, value: &CsExpr) -> Result<Step, Unheld>
        requires { HasObjects self.old.memory }
        ensures took { IfOk result (λ step. Took step self.old self.new (acts.store ty (csexpr_tree address.now) (csexpr_tree value.now) self.old)) }
        ensures memory { OnOk result (Keeps self.old.memory self.new.memory) }
        ensures unheld { is_err result ≡ unheld_store ty (csexpr_tree address.now) (csexpr_tree value.now) self.old }
        ensures unchanged { OnErr result (self.new ≡ self.old) }
    {
        match self.value(address)? {
            Some(place) => match self.value(value)? {
                Some(v) => self.store_value(ty, place, v),
                None => Ok(Step::Barred),
            },
            None => Ok(Step::Barred),
        }
    }

    fn store_value(&mut self, ty: Scalar, place: Value, v: Value) -> Result<Step, Unheld>
        requires { HasObjects self.old.memory }
        ensures took { IfOk result (λ step. Took step self.old self.new (with_memory self.old (stored_at self.old.memory ty place v))) }
        ensures memory { OnOk result (Keeps self.old.memory self.new.memory) }
        ensures unheld { is_err result ≡ unheld_stored self.old.memory ty place v }
        ensures unchanged { OnErr result (self.new ≡ self.old) }
    {
        if !self.is_readable(place, size_of(ty), size_of(ty)) {
            return Ok(Step::Barred);
        }
        if !self.is_storable(ty, v) {
            return Err(Unheld);
        }
        self.memory.initialise(type_of(v), place, v);
        Ok(Step::Done)
    }

    // A value of as many bytes as the type has, which is a number of its own type, null, or a pointer to
    // a block that was made.
    fn is_storable(&self, ty: Scalar, v: Value) -> bool
        ensures test { result ≡ unheld.is_storable self.now.memory ty v }
        ensures typed { result ≡ true → IsOf (own_type v) v }
        ensures made { result ≡ true → IsMade (length self.now.memory.blocks) v }
    {
        size_of(type_of(v)) == size_of(ty)
            && match v {
                Value::Int(t, n) => has_number(t, n),
                Value::Ptr(at) => at.block < self.memory.count(),
                Value::Null => true,
            }
    }

    /// Copies so many bytes, as if all were read first.
    pub fn copy_bytes(&mut self, size: u64, to: &CsExpr, from: &CsExpr) -> Result<Step, Unheld>
        requires { HasObjects self.old.memory }
        ensures took { IfOk result (λ step. Took step self.old self.new (acts.copy_bytes size (csexpr_tree to.now) (csexpr_tree from.now) self.old)) }
        ensures memory { OnOk result (Keeps self.old.memory self.new.memory) }
        ensures unheld { is_err result ≡ unheld_copy (csexpr_tree to.now) (csexpr_tree from.now) self.old }
        ensures unchanged { OnErr result (self.new ≡ self.old) }
    {
        match self.value(to)? {
            Some(to) => match self.value(from)? {
                Some(from) => Ok(self.copy_between(size, to, from)),
                None => Ok(Step::Barred),
            },
            None => Ok(Step::Barred),
        }
    }

    fn copy_between(&mut self, size: u64, to: Value, from: Value) -> Step
        requires { HasObjects self.old.memory }
        ensures took { Took result self.old self.new (with_memory self.old (copied_at self.old.memory to from size)) }
        ensures memory { Keeps self.old.memory self.new.memory }
    {
        if !self.is_readable(from, size, 1) {
            return Step::Barred;
        }
        if !self.is_readable(to, size, 1) {
            return Step::Barred;
        }
        self.memory.copy(to, from, size);
        Step::Done
    }

    /// Makes all bytes of a live object lose their values.
    pub fn undefine(&mut self, object: u64) -> Step
        ensures took { Took result self.old self.new (acts.undefine object self.old) }
        ensures memory { Keeps self.old.memory self.new.memory }
    {
        match self.memory.place(object) {
            Some(_) => {
                self.memory.undefine(object);
                Step::Done
            }
            None => Step::Barred,
        }
    }

    /// Puts the next input, wrapped to this type, into a temporary.
    pub fn input(&mut self, temp: u64, ty: IntType) -> Step
        ensures took { Took result self.old self.new (acts.input temp ty self.old) }
        ensures memory { self.new.memory ≡ self.old.memory }
    {
        match self.inputs.pop_front() {
            Some(n) => {
                self.put(temp, Value::Int(ty, wrap(ty, n)));
                Step::Done
            }
            None => Step::Barred,
        }
    }

    /// Objects begin to live, in their order. After `NoMemory` some of them may live.
    pub fn enter(&mut self, objects: &[Object], names: &[u64]) -> Result<(), NoMemory>
        requires there { All (λ name. name < length objects.now) names.now }
        requires objects { Belongs (map object_tree objects.now) self.old.memory }
        ensures entered { OnOk result (self.new ≡ acts.enter (map object_tree objects.now) names.now self.old) }
        ensures memory { OnOk result (Belongs (map object_tree objects.now) self.new.memory) }
    {
        self.memory.open_all(objects, names)
    }

    /// Objects end, in their order.
    pub fn leave(&mut self, names: &[u64])
        requires { All (λ name. name < length self.old.memory.places) names.now }
        ensures left { self.new ≡ acts.leave names.now self.old }
        ensures memory { Keeps self.old.memory self.new.memory }
    {
        self.memory.shut_all(names);
    }

    /// Whether none of the objects lives, and none comes twice.
    pub fn are_free(&self, names: &[u64]) -> bool
        ensures { result ≡ acts.are_free names.now self.now }
    {
        let mut left = names;
        while let Some((first, rest)) = left.split_first() {
            if self.memory.place(*first).is_some() {
                return false;
            }
            if is_among(*first, rest) {
                return false;
            }
            left = rest;
        }
        true
    }
}

// The type of a value.
fn type_of(v: Value) -> Scalar
    ensures { result ≡ own_type v }
{
    match v {
        Value::Int(t, _) => Scalar::Int(t),
        Value::Ptr(_) | Value::Null => Scalar::Pointer,
    }
}

fn is_among(name: u64, names: &[u64]) -> bool
    ensures { result ≡ acts.is_among name names.now }
{
    for other in names {
        if name == *other {
            return true;
        }
    }
    false
}
