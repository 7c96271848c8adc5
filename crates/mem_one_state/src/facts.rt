// The numbers of whole objects, as facts.
#![tactic(auto, using(c_syntax::proofs::Trees::the_trees))]

ghost use Rattle.std.specs.Prelude.{◌≡◌, ◌<◌, ℕ, ℤ, IfSome, List, OnOk, Some, length, map};
ghost use Rattle.c_syntax_written.specs.declared.int_type.IntType.{IntType};
ghost use Rattle.c_syntax_written.specs.Integer.{HasNumber};
ghost use Rattle.c_syntax.specs.declared.alarm.Fact.TheVariants.{Between};
ghost use Rattle.c_syntax.specs.Types.{ctype_tree, object_tree};
ghost use Rattle.c_syntax.specs.Types as types;
ghost use Rattle.csharp.specs.Trees.{CsProgramTree};
ghost use Rattle.csharp.specs.States as states;
ghost use Rattle.csharp_state.specs.Belongs.{HasObjects};
ghost use Rattle.mem_api.specs.FactsOf.{Adds, HoldsIn, NamesFactObjects, TellsWhole, whole_cell};
ghost use Rattle.mem_one_state.specs.One.{IsOf};
ghost use Rattle.mem_one_state.specs.Telling.{AreLive, HasWhole, IsToldOf, Loads, TellsNumber, TellsOne, unsigned_of, with_fact};

use crate::state::OneState;
use block_mem::{Scalar, Value};
use c_objects::ObjectMemory;
use c_syntax::{CType, Cell, Fact, Facts, IntType, Object};
use std::alloc::{AllocError as NoMemory, Global};
use std::mem::replace;

impl OneState {
    /// Puts out the number of each integer object that lives in the one state and whose bytes are a number, where the
    /// state is known.
    pub fn facts(&self, alloc: Global, objects: &[Object], out: &mut Facts) -> Result<(), NoMemory>
        ensures told { OnOk result ((q : CsProgramTree) → q.objects ≡ map object_tree objects.now
            → Adds out.old out.new (λ fact. NamesFactObjects (length q.objects) fact × ((s : states.State) → IsOf self.now s → HoldsIn q s.memory fact))) }
        ensures sharp { OnOk result ((q : CsProgramTree) (s : states.State) → q.objects ≡ map object_tree objects.now → self.now ≡ Some s
            → TellsWhole q s.memory out.new) }
    {
        let Some(state) = &self.state else {
            return Ok(());
        };
        let mut facts = replace(out, Facts::new(alloc)).into_vec();
        put_facts(state.memory(), objects, &mut facts)?;
        *out = Facts::from_vec(facts);
        Ok(())
    }
}

// Puts out the number of each integer object that has one.
fn put_facts(
    memory: &ObjectMemory,
    objects: &[Object],
    facts: &mut Vec<Fact>,
) -> Result<(), NoMemory>
    requires objects { HasObjects memory.now }
    requires live { AreLive memory.now }
    ensures told { OnOk result (Adds facts.old.items facts.new.items (TellsOne (map object_tree objects.now) memory.now)) }
    ensures each { OnOk result ((x : ℕ) → IsToldOf (map object_tree objects.now) memory.now facts.new.items x) }
{
    for (place, object) in objects.iter().enumerate() {
        let fact = fact_of(memory, place as u64, &object.ty);
        put(facts, fact)?;
    }
    Ok(())
}

// Puts out a fact, if there is one.
fn put(facts: &mut Vec<Fact>, fact: Option<Fact>) -> Result<(), NoMemory>
    ensures { OnOk result (facts.new.items ≡ with_fact facts.old.items fact) }
{
    match fact {
        Some(fact) => {
            facts.push(fact)?;
            Ok(())
        }
        None => Ok(()),
    }
}

// The number of all bytes of an integer object, as a fact.
fn fact_of(memory: &ObjectMemory, object: u64, ty: &CType) -> Option<Fact>
    requires objects { HasObjects memory.now }
    requires live { AreLive memory.now }
    ensures told { IfSome result (TellsNumber memory.now object (ctype_tree ty.now)) }
    ensures each { (t : IntType) (n : ℤ) → ctype_tree ty.now ≡ types.Int t → HasWhole memory.now object t n
        → result ≡ Some (Between (whole_cell object t) n n) }
{
    match ty {
        CType::Int(ty) => {
            let n = number(memory, object, *ty)?;
            let size = u64::from(ty.bytes());
            let x = Cell {
                object,
                offset: 0,
                size,
            };
            Some(Fact::Between { x, lo: n, hi: n })
        }
        CType::Void | CType::Pointer(_) | CType::Array(_, _) => None,
        CType::Struct(_) | CType::Function(_) => None,
    }
}

// The number of all bytes of an object that lives, read at this type.
fn number(memory: &ObjectMemory, object: u64, ty: IntType) -> Option<i128>
    requires objects { HasObjects memory.now }
    requires live { AreLive memory.now }
    ensures told { IfSome result (HasWhole memory.now object ty) }
    ensures each { (n : ℤ) → HasWhole memory.now object ty n → result ≡ Some n }
{
    match loaded(memory, object, unsigned(ty)) {
        Some(_) => loaded(memory, object, ty),
        None => None,
    }
}

// What a load gives from the first byte of an object that lives.
fn loaded(memory: &ObjectMemory, object: u64, ty: IntType) -> Option<i128>
    requires { HasObjects memory.now }
    ensures told { IfSome result (λ n. Loads memory.now object ty n × HasNumber ty n) }
    ensures each { (n : ℤ) → Loads memory.now object ty n → result ≡ Some n }
{
    if memory.place(object).is_none() {
        return None;
    }
    let place = memory.address(object, 0);
    match memory.load(Scalar::Int(ty), place) {
        Ok(Value::Int(_, n)) => Some(n),
        Ok(Value::Ptr(_) | Value::Null) => None,
        Err(_) => None,
    }
}

fn unsigned(ty: IntType) -> IntType
    ensures { result ≡ unsigned_of ty }
{
    match ty {
        IntType::Char | IntType::SChar | IntType::UChar => IntType::UChar,
        IntType::Short | IntType::UShort => IntType::UShort,
        IntType::Int | IntType::UInt => IntType::UInt,
        IntType::Long | IntType::ULong => IntType::ULong,
        IntType::LLong | IntType::ULLong => IntType::ULLong,
    }
}
