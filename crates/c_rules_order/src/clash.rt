// Whether one of two sides writes what the other touches.
#![tactic(auto)]

ghost use Rattle.std.specs.Prelude.{◌≡◌, ◌++◌, ◌||◌, List, [], false, map, IfOk, OnOk};
ghost use Rattle.std.specs.List.{list_any};
ghost use Rattle.c_rules_calls.specs.Placed.{placed};
ghost use Rattle.c_rules_effects.specs.declared.touch.Touch.{Touch as Touching};
ghost use Rattle.c_rules_effects.specs.Effects.{called};
ghost use Rattle.c_rules_effects.specs.Held.{Holds};
ghost use Rattle.c_rules_effects.specs.Met.{met};
ghost use Rattle.c_rules_order.specs.Firsts.{all_effects, all_reads, all_writes, called_reads, called_writes, effects_write_into, writes_into};

use crate::known::Known;
use crate::side::Side;
use c_rules_calls::Call;
use c_rules_effects::{Effects, Touch, TouchSet, add_called};
use std::alloc::{AllocError as NoMemory, Global};

/// What a side reads and writes, with what the functions do that it calls.
pub fn effects_of_side(alloc: Global, known: &Known, side: &Side) -> Result<Effects, NoMemory>
    ensures reads { IfOk result (λ effects. effects.reads ≡ all_reads known.now.functions.items side.now) }
    ensures writes { IfOk result (λ effects. effects.writes ≡ all_writes known.now.functions.items side.now) }
{
    let mut effects = Effects::new(alloc);
    effects.join(alloc, &side.own)?;
    add_calls(alloc, &known.functions, side.calls.as_slice(), &mut effects)?;
    Ok(effects)
}

fn add_calls(
    alloc: Global,
    known: &[Effects],
    calls: &[Call],
    effects: &mut Effects,
) -> Result<(), NoMemory>
    ensures reads { OnOk result (effects.new.reads ≡ effects.old.reads ++ called_reads known.now (map placed calls.now)) }
    ensures writes { OnOk result (effects.new.writes ≡ effects.old.writes ++ called_writes known.now (map placed calls.now)) }
{
    for call in calls {
        add_called(alloc, known, call.callee, effects)?;
    }
    Ok(())
}

// Whether one of two sides writes what the other touches.
pub(crate) fn clash(
    alloc: Global,
    known: &Known,
    left: &Side,
    right: &Side,
) -> Result<bool, NoMemory>
    ensures { IfOk result (λ found. found ≡ writes_into known.now left.now right.now || writes_into known.now right.now left.now) }
{
    if !has_writes(known, left) && !has_writes(known, right) {
        return Ok(false);
    }
    let effects = effects_of_side(alloc, known, left)?;
    clash_with(alloc, known, &effects, right)
}

// The same of two sides, the first of which has these effects.
fn clash_with(alloc: Global, known: &Known, a: &Effects, right: &Side) -> Result<bool, NoMemory>
    ensures { IfOk result
        (λ found. found ≡ effects_write_into known.now a.now (all_effects known.now.functions.items right.now)
        || effects_write_into known.now (all_effects known.now.functions.items right.now) a.now) }
{
    let b = effects_of_side(alloc, known, right)?;
    either_writes(alloc, known, a, &b)
}

// The same of two sides with these effects.
fn either_writes(alloc: Global, known: &Known, a: &Effects, b: &Effects) -> Result<bool, NoMemory>
    ensures { IfOk result (λ found. found ≡ effects_write_into known.now a.now b.now || effects_write_into known.now b.now a.now) }
{
    let forth = one_writes(alloc, known, a, b)?;
    let back = one_writes(alloc, known, b, a)?;
    Ok(forth || back)
}

// Whether a side may write anything. One that may not needs no look at what it touches.
fn has_writes(known: &Known, side: &Side) -> bool
    ensures { result ≡ false → all_writes known.now.functions.items side.now ≡ [] }
{
    !side.own.writes.as_slice().is_empty()
        || one_has_writes(&known.functions, side.calls.as_slice())
}

fn one_has_writes(known: &[Effects], calls: &[Call]) -> bool
    ensures { result ≡ false → called_writes known.now (map placed calls.now) ≡ [] }
{
    for call in calls {
        if function_has_writes(known, call.callee) {
            return true;
        }
    }
    false
}

fn function_has_writes(known: &[Effects], function: u64) -> bool
    ensures { result ≡ false → (called known.now function).writes ≡ [] }
{
    match known.get(function as usize) {
        Some(called) => !called.writes.as_slice().is_empty(),
        None => false,
    }
}

// Whether a write of the first meets a touch of the second.
fn one_writes(alloc: Global, known: &Known, a: &Effects, b: &Effects) -> Result<bool, NoMemory>
    ensures { IfOk result (λ found. found ≡ effects_write_into known.now a.now b.now) }
{
    let taken = known.taken.as_slice();
    let mut touched = TouchSet::new(alloc);
    insert_all(taken, b.reads.as_slice(), &mut touched)?;
    insert_all(taken, b.writes.as_slice(), &mut touched)?;
    Ok(one_met(taken, a.writes.as_slice(), &touched))
}

pub(crate) fn insert_all(
    taken: &[bool],
    touches: &[Touch],
    set: &mut TouchSet,
) -> Result<(), NoMemory>
    ensures { OnOk result ((held : List Touching) → Holds set.old taken.now held → Holds set.new taken.now (held ++ touches.now)) }
{
    for touch in touches {
        set.insert(taken, touch)?;
    }
    Ok(())
}

pub(crate) fn one_met(taken: &[bool], writes: &[Touch], touched: &TouchSet) -> bool
    ensures { (held : List Touching) → Holds touched.now taken.now held → result ≡ list_any (λ s. list_any (met taken.now s) held) writes.now }
{
    for write in writes {
        if touched.meets(taken, write) {
            return true;
        }
    }
    false
}
