// What calls of each function read and write, function by function.
#![tactic(auto)]

ghost use Rattle.std.specs.Prelude.{◌≡◌, ◌↔◌, ◌⊎◌, length, map, All, Contains, IfOk};
ghost use Rattle.c_syntax.specs.Types.{object_tree};
ghost use Rattle.c_syntax.specs.Program.{tprogram_tree};
ghost use Rattle.c_layout.specs.Calls.{function_calls};
ghost use Rattle.c_rules_calls.specs.Graph.{AreDefined, graph_of, IsOrderOf};
ghost use Rattle.c_rules_calls.specs.Placed.{placed};
ghost use Rattle.c_rules_effects.specs.declared.touch.Touch.{Touch as Touching};
ghost use Rattle.c_rules_effects.specs.Effects.{called};
ghost use Rattle.c_rules_effects.specs.Joined.{nothing};
ghost use Rattle.c_rules_order.specs.Closed.{AreClosed, body_effects, IsEffectsOf};
ghost use Rattle.c_rules_order.specs.Gathered.{HasCalledReads, HasCalledWrites, IsSeenObject};

use crate::gather::{seen_reads, seen_writes};
use c_rules_calls::{Call, CallGraph};
use c_rules_effects::{Effects, effects_in};
use c_syntax::{Numbers, Object, TProgram};
use std::alloc::{AllocError as NoMemory, Global};

/// What calls of each function of a program read and write, by its number, where these are its calls and an order in which
/// each function stands after those that it calls.
pub fn closed_effects(
    alloc: Global,
    program: &TProgram,
    graph: &CallGraph,
    order: &Numbers,
) -> Result<Vec<Effects>, NoMemory>
    requires defined { AreDefined graph.now }
    requires order { IsOrderOf graph.now order.now }
    requires calls { graph.now ≡ graph_of (tprogram_tree program.now) }
    ensures { IfOk result (λ known. AreClosed (tprogram_tree program.now) known.items) }
{
    let mut known = none_known(alloc, graph.len())?;
    for function in order.as_slice() {
        let calls = graph.calls(*function);
        let effects = function_effects(alloc, program, *function, calls, &known)?;
        known[*function as usize] = effects;
    }
    Ok(known)
}

fn none_known(alloc: Global, count: usize) -> Result<Vec<Effects>, NoMemory>
    ensures count { IfOk result (λ known. length known.items ≡ count) }
    ensures none { IfOk result (λ known. All (λ effects. effects ≡ nothing) known.items) }
{
    let mut known = Vec::new(alloc);
    for _ in 0..count {
        known.push(Effects::new(alloc))?;
    }
    Ok(known)
}

// What calls of one function do, where it is known what the functions do that it calls.
fn function_effects(
    alloc: Global,
    program: &TProgram,
    function: u64,
    calls: &[Call],
    known: &[Effects],
) -> Result<Effects, NoMemory>
    requires calls { map placed calls.now ≡ function_calls (tprogram_tree program.now) function }
    requires known { All (λ call. IsEffectsOf (tprogram_tree program.now) call.callee (called known.now call.callee)) (map placed calls.now) }
    ensures { IfOk result (IsEffectsOf (tprogram_tree program.now) function) }
{
    let own = own_effects(alloc, program, function)?;
    seen_effects(alloc, program.objects.as_slice(), &own, calls, known)
}

// What a body does that its callers can see, with what the functions do that are called.
fn seen_effects(
    alloc: Global,
    objects: &[Object],
    own: &Effects,
    calls: &[Call],
    known: &[Effects],
) -> Result<Effects, NoMemory>
    ensures reads { IfOk result
        (λ all. (t : Touching) → Contains all.reads t ↔ ((Contains own.now.reads t × IsSeenObject (map object_tree objects.now) t)
        ⊎ HasCalledReads known.now (map placed calls.now) t)) }
    ensures writes { IfOk result
        (λ all. (t : Touching) → Contains all.writes t ↔ ((Contains own.now.writes t × IsSeenObject (map object_tree objects.now) t)
        ⊎ HasCalledWrites known.now (map placed calls.now) t)) }
{
    let reads = seen_reads(alloc, objects, own.reads.as_slice(), known, calls)?;
    let writes = seen_writes(alloc, objects, own.writes.as_slice(), known, calls)?;
    Ok(Effects { reads, writes })
}

// What the body of a function does itself.
fn own_effects(alloc: Global, program: &TProgram, function: u64) -> Result<Effects, NoMemory>
    ensures { IfOk result (λ effects. effects ≡ body_effects (tprogram_tree program.now) function) }
{
    match program.functions.as_slice().get(function as usize) {
        Some(found) => match &found.body {
            Some(body) => effects_in(alloc, &[], body),
            None => Ok(Effects::new(alloc)),
        },
        None => Ok(Effects::new(alloc)),
    }
}
