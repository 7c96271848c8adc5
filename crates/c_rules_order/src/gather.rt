// Touches gathered into lists in which none stands twice.
#![tactic(auto)]

ghost use Rattle.std.specs.Prelude.{◌≡◌, ◌↔◌, ◌⊎◌, map, Contains, IfOk, MatchBool};
ghost use Rattle.c_syntax.specs.Types.{object_tree};
ghost use Rattle.c_rules_calls.specs.Placed.{placed};
ghost use Rattle.c_rules_effects.specs.declared.touch.Touch.{Touch as Touching};
ghost use Rattle.c_rules_effects.specs.Effects.{called};
ghost use Rattle.c_rules_order.specs.Gathered.{HasCalledReads, HasCalledWrites, IsSeenObject};

use c_rules_calls::Call;
use c_rules_effects::{Effects, Touch, TouchList, Touches};
use c_syntax::Object;
use std::alloc::{AllocError as NoMemory, Global};

// Those of the touches that the callers of a function can see, with what the functions read that are called.
pub(crate) fn seen_reads(
    alloc: Global,
    objects: &[Object],
    touches: &[Touch],
    known: &[Effects],
    calls: &[Call],
) -> Result<Touches, NoMemory>
    ensures { IfOk result
        (λ all. (t : Touching) → Contains all t ↔ ((Contains touches.now t × IsSeenObject (map object_tree objects.now) t)
        ⊎ HasCalledReads known.now (map placed calls.now) t)) }
{
    let seen = seen_among(alloc, objects, touches)?;
    let list = with_reads(seen, known, calls)?;
    Ok(list.into_touches())
}

// Those of the touches that the callers of a function can see, with what the functions write that are called.
pub(crate) fn seen_writes(
    alloc: Global,
    objects: &[Object],
    touches: &[Touch],
    known: &[Effects],
    calls: &[Call],
) -> Result<Touches, NoMemory>
    ensures { IfOk result
        (λ all. (t : Touching) → Contains all t ↔ ((Contains touches.now t × IsSeenObject (map object_tree objects.now) t)
        ⊎ HasCalledWrites known.now (map placed calls.now) t)) }
{
    let seen = seen_among(alloc, objects, touches)?;
    let list = with_writes(seen, known, calls)?;
    Ok(list.into_touches())
}

// Those of the touches that the callers of a function can see.
fn seen_among(alloc: Global, objects: &[Object], touches: &[Touch]) -> Result<TouchList, NoMemory>
    ensures { IfOk result (λ list. (t : Touching) → Contains list t ↔ (Contains touches.now t × IsSeenObject (map object_tree objects.now) t)) }
{
    let mut list = TouchList::new(alloc);
    for touch in touches {
        list = with_seen(list, objects, touch)?;
    }
    Ok(list)
}

fn with_seen(list: TouchList, objects: &[Object], touch: &Touch) -> Result<TouchList, NoMemory>
    ensures { IfOk result
        (λ more. (t : Touching) → Contains more t ↔ (Contains list t ⊎ ((touch.now ≡ t) × IsSeenObject (map object_tree objects.now) t))) }
{
    if is_seen(objects, touch) {
        list.with(touch)
    } else {
        Ok(list)
    }
}

fn is_seen(objects: &[Object], touch: &Touch) -> bool
    ensures { MatchBool result (IsSeenObject (map object_tree objects.now) touch.now) (IsSeenObject (map object_tree objects.now) touch.now → ⊥) }
{
    match touch {
        Touch::Mem => true,
        Touch::Object(number, _) => match objects.get(*number as usize) {
            Some(object) => object.is_static,
            None => false,
        },
    }
}

// With what the functions read that are called.
fn with_reads(list: TouchList, known: &[Effects], calls: &[Call]) -> Result<TouchList, NoMemory>
    ensures { IfOk result (λ more. (t : Touching) → Contains more t ↔ (Contains list t ⊎ HasCalledReads known.now (map placed calls.now) t)) }
{
    let mut more = list;
    for call in calls {
        more = with_all(more, reads_of(known, call.callee))?;
    }
    Ok(more)
}

// With what the functions write that are called.
fn with_writes(list: TouchList, known: &[Effects], calls: &[Call]) -> Result<TouchList, NoMemory>
    ensures { IfOk result (λ more. (t : Touching) → Contains more t ↔ (Contains list t ⊎ HasCalledWrites known.now (map placed calls.now) t)) }
{
    let mut more = list;
    for call in calls {
        more = with_all(more, writes_of(known, call.callee))?;
    }
    Ok(more)
}

fn reads_of(known: &[Effects], function: u64) -> &[Touch]
    ensures { result.now ≡ (called known.now function).reads }
{
    match known.get(function as usize) {
        Some(called) => called.reads.as_slice(),
        None => &[],
    }
}

fn writes_of(known: &[Effects], function: u64) -> &[Touch]
    ensures { result.now ≡ (called known.now function).writes }
{
    match known.get(function as usize) {
        Some(called) => called.writes.as_slice(),
        None => &[],
    }
}

fn with_all(list: TouchList, touches: &[Touch]) -> Result<TouchList, NoMemory>
    ensures { IfOk result (λ more. (t : Touching) → Contains more t ↔ (Contains list t ⊎ Contains touches.now t)) }
{
    let mut more = list;
    for touch in touches {
        more = more.with(touch)?;
    }
    Ok(more)
}
