// The first state of a program.
#![tactic(auto, using(csharp::proofs::CodeTrees::the_code_trees))]

ghost use Rattle.std.specs.Prelude.{◌≡◌, All, IfOk, IsSomeAnd, IsTrue, map, option_map, slice_get, false, true};
ghost use Rattle.std.specs.Option.{option_map_or};
ghost use Rattle.c_syntax.specs.Types.{object_tree};
ghost use Rattle.c_objects.specs.Statics.{FitInitials, FitsInitial, HasBlock, opened_statics};
ghost use Rattle.csharp.specs.Trees.{csprogram_tree};
ghost use Rattle.csharp.specs.States as states;
ghost use Rattle.csharp_state.specs.Answers.{GivesUp};
ghost use Rattle.csharp_state.specs.Belongs.{Belongs};
ghost use Rattle.csharp_exec.specs.Beginning as beginning;
ghost use Rattle.csharp_exec.specs.Beginning.{are_placed, is_placed, unheld_start};

use block_mem::{Scalar, Value};
use c_objects::ObjectMemory;
use c_syntax::{InitByte, Initial, IntType, Object};
use csharp::CsProgram;
use csharp_state::{State, Unanswered};
use std::alloc::{AllocError as NoMemory, Global};
use std::collections::VecDeque;

/// The first state of a program on these inputs: each integer temporary is 0 and each pointer
/// temporary null, and the objects of static duration live with their initial bytes. `Unheld`
/// where an initial value is longer than its object, or points to one that is not of static
/// duration.
pub fn first_state(alloc: Global, program: &CsProgram, inputs: &[i128]) -> Result<State, Unanswered>
    ensures first { IfOk result (λ s. s ≡ states.first (csprogram_tree program.now) inputs.now) }
    ensures objects { IfOk result (λ s. Belongs (csprogram_tree program.now).objects s.memory) }
    ensures unheld { GivesUp result (unheld_start (csprogram_tree program.now)) }
{
    let objects = program.objects.as_slice();
    let initials = program.initial.as_slice();
    if !fit(objects, initials) {
        return Err(Unanswered::Unheld);
    }
    let temps = first_values(alloc, program.temps.as_slice())?;
    let inputs = queue(alloc, inputs)?;
    let memory = ObjectMemory::start(alloc, objects, initials)?;
    Ok(State::new(temps, memory, inputs))
}

fn first_values(alloc: Global, temps: &[Scalar]) -> Result<Vec<Value>, NoMemory>
    ensures { IfOk result (λ values. values.items ≡ map states.first_value temps.now) }
{
    let mut values = Vec::new(alloc);
    for ty in temps {
        values.push(first_value(*ty))?;
    }
    Ok(values)
}

fn first_value(ty: Scalar) -> Value
    ensures { result ≡ states.first_value ty }
{
    match ty {
        Scalar::Int(t) => Value::Int(t, 0),
        Scalar::Pointer => Value::Null,
    }
}

fn queue(alloc: Global, inputs: &[i128]) -> Result<VecDeque<i128>, NoMemory>
    ensures { IfOk result (λ queue. queue.items ≡ inputs.now) }
{
    let mut queue = VecDeque::new(alloc);
    for input in inputs {
        queue.push_back(*input)?;
    }
    Ok(queue)
}

// Each initial value is no longer than its object, and names objects that live.
fn fit(objects: &[Object], initials: &[Initial]) -> bool
    ensures test { result ≡ beginning.all_fit (map object_tree objects.now) initials.now }
    ensures fit { result ≡ true → FitInitials (opened_statics (map object_tree objects.now)) initials.now }
{
    for initial in initials {
        if !fits(objects, initial) {
            return false;
        }
    }
    true
}

fn fits(objects: &[Object], initial: &Initial) -> bool
    ensures test { result ≡ beginning.fits (map object_tree objects.now) initial.now }
    ensures fits { result ≡ true → FitsInitial (opened_statics (map object_tree objects.now)) initial.now }
{
    let bytes = initial.bytes.as_slice();
    match size_of(objects, initial.object) {
        Some(size) => bytes.len() as u64 <= size && have_blocks(objects, bytes),
        None => false,
    }
}

fn size_of(objects: &[Object], object: u64) -> Option<u64>
    ensures { result ≡ option_map (λ o. o.size) (slice_get (map object_tree objects.now) object) }
{
    match objects.get(object as usize) {
        Some(object) => Some(object.size),
        None => None,
    }
}

fn have_blocks(objects: &[Object], bytes: &[InitByte]) -> bool
    ensures test { result ≡ are_placed (map object_tree objects.now) bytes.now }
    ensures have { result ≡ true → All (λ byte. HasBlock (opened_statics (map object_tree objects.now)).places byte) bytes.now }
{
    for byte in bytes {
        if !has_block(objects, *byte) {
            return false;
        }
    }
    true
}

fn has_block(objects: &[Object], byte: InitByte) -> bool
    ensures test { result ≡ is_placed (map object_tree objects.now) byte }
    ensures has { result ≡ true → HasBlock (opened_statics (map object_tree objects.now)).places byte }
{
    match byte {
        InitByte::Num(_) => true,
        InitByte::Piece { object, .. } => is_static(objects, object),
    }
}

fn is_static(objects: &[Object], object: u64) -> bool
    ensures test { result ≡ option_map_or (λ o. o.is_static) (slice_get (map object_tree objects.now) object) false }
    ensures live { result ≡ true → IsSomeAnd (slice_get (map object_tree objects.now) object) (λ o. IsTrue o.is_static) }
{
    match objects.get(object as usize) {
        Some(object) => object.is_static,
        None => false,
    }
}
