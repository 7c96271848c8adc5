// Messages of what was found.

ghost use Rattle.std.specs.Prelude.{ℤ, List, ◌<◌, ◌≤◌, OnOk};
ghost use Rattle.num_api.specs.Messages.{Adds, TellsOf};
ghost use Rattle.octagons_changes.specs.States.{Admits};

use crate::messages::{own_message, pair_message};
use crate::news::{Places, places_before};
use num_api::{Messages, NumFacts};
use octagons_changes::Relations;
use std::alloc::AllocError as NoMemory;

// How many indices there are.
fn indices(known: &Relations) -> u32
    ensures { result ≤ 48 }
{
    2 * known.pack().len() as u32
}

// Puts out the range of the variable at a place, where it is news.
fn tell_range(
    known: &Relations,
    before: &Relations,
    places: &Places,
    k: u32,
    out: &mut Messages,
) -> Result<(), NoMemory>
    requires { k < 48 }
    ensures kept { OnOk result (Adds out.old out.new) }
    ensures told { OnOk result ((v : List ℤ) → Admits known.now v → TellsOf v out.old out.new) }
{
    let Some(x) = known.pack().get(k as usize) else {
        return Ok(());
    };
    if !places.is_news(known, before, k) {
        return Ok(());
    }
    out.push(own_message(known, *x))?;
    Ok(())
}

// Puts out the range of each variable of which there is news.
fn tell_ranges(
    known: &Relations,
    before: &Relations,
    places: &Places,
    out: &mut Messages,
) -> Result<(), NoMemory>
    ensures kept { OnOk result (Adds out.old out.new) }
    ensures told { OnOk result ((v : List ℤ) → Admits known.now v → TellsOf v out.old out.new) }
{
    for k in 0..known.pack().len() as u32 {
        tell_range(known, before, places, k, out)?;
    }
    Ok(())
}

// Puts out a bound of two indices, where there is one.
fn tell_pair(known: &Relations, p: u32, q: u32, out: &mut Messages) -> Result<(), NoMemory>
    ensures kept { OnOk result (Adds out.old out.new) }
    ensures told { OnOk result ((v : List ℤ) → Admits known.now v → TellsOf v out.old out.new) }
{
    let Some(message) = pair_message(known, p, q) else {
        return Ok(());
    };
    out.push(message)?;
    Ok(())
}

// Puts out a bound of two variables, where it fell.
fn tell_fallen(
    known: &Relations,
    before: &Relations,
    places: &Places,
    p: u32,
    q: u32,
    out: &mut Messages,
) -> Result<(), NoMemory>
    ensures kept { OnOk result (Adds out.old out.new) }
    ensures told { OnOk result ((v : List ℤ) → Admits known.now v → TellsOf v out.old out.new) }
{
    if p / 2 >= q / 2 || !places.fell(known, before, p, q) {
        return Ok(());
    }
    tell_pair(known, p, q, out)
}

// Puts out the bounds of a row that fell.
fn tell_row(
    known: &Relations,
    before: &Relations,
    places: &Places,
    p: u32,
    out: &mut Messages,
) -> Result<(), NoMemory>
    ensures kept { OnOk result (Adds out.old out.new) }
    ensures told { OnOk result ((v : List ℤ) → Admits known.now v → TellsOf v out.old out.new) }
{
    for q in 0..indices(known) {
        tell_fallen(known, before, places, p, q, out)?;
    }
    Ok(())
}

// Puts out the bounds of two variables that fell.
fn tell_rows(
    known: &Relations,
    before: &Relations,
    places: &Places,
    out: &mut Messages,
) -> Result<(), NoMemory>
    ensures kept { OnOk result (Adds out.old out.new) }
    ensures told { OnOk result ((v : List ℤ) → Admits known.now v → TellsOf v out.old out.new) }
{
    for p in 0..indices(known) {
        tell_row(known, before, places, p, out)?;
    }
    Ok(())
}

/// Puts out the range of each variable whose own bounds fell, or that is new or was set, and each bound of two
/// other variables that fell by closing.
pub fn tell_changes(
    known: &Relations,
    before: &Relations,
    set: Option<u64>,
    out: &mut Messages,
) -> Result<(), NoMemory>
    ensures kept { OnOk result (Adds out.old out.new) }
    ensures told { OnOk result ((v : List ℤ) → Admits known.now v → TellsOf v out.old out.new) }
{
    let places = places_before(known, before, set);
    tell_ranges(known, before, &places, out)?;
    tell_rows(known, before, &places, out)?;
    Ok(())
}

// Puts out a bound of two variables as a fact, where there is one.
fn tell_fact(known: &Relations, p: u32, q: u32, out: &mut NumFacts) -> Result<(), NoMemory>
    ensures kept { OnOk result (Adds out.old out.new) }
    ensures told { OnOk result ((v : List ℤ) → Admits known.now v → TellsOf v out.old out.new) }
{
    if p / 2 >= q / 2 {
        return Ok(());
    }
    let Some(message) = pair_message(known, p, q) else {
        return Ok(());
    };
    out.push(message)?;
    Ok(())
}

// Puts out the bounds of a row as facts.
fn tell_facts(known: &Relations, p: u32, out: &mut NumFacts) -> Result<(), NoMemory>
    ensures kept { OnOk result (Adds out.old out.new) }
    ensures told { OnOk result ((v : List ℤ) → Admits known.now v → TellsOf v out.old out.new) }
{
    for q in 0..indices(known) {
        tell_fact(known, p, q, out)?;
    }
    Ok(())
}

/// Puts out each bound of two variables as a fact.
pub fn tell_all(known: &Relations, out: &mut NumFacts) -> Result<(), NoMemory>
    ensures kept { OnOk result (Adds out.old out.new) }
    ensures told { OnOk result ((v : List ℤ) → Admits known.now v → TellsOf v out.old out.new) }
{
    for p in 0..indices(known) {
        tell_facts(known, p, out)?;
    }
    Ok(())
}
