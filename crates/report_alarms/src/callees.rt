// The calls of a program, looked up by the function that makes them and their place.
#![tactic(auto)]

ghost use Rattle.std.specs.Prelude.{◌≡◌, List, [], ◌∷◌, map, IfOk, OnOk};
ghost use Rattle.c_rules_calls.specs.Placed.{placed};
ghost use Rattle.report_alarms.specs.Found.{AddsCalls, HoldsCallees, key_of};

use c_rules_calls::{Call, CallGraph};
use c_syntax::Pos;
use std::alloc::{AllocError as NoMemory, Global};
use std::collections::HashMap;
use std::marker::Model;
use std::snapshot::Snapshot;

/// The calls of a program, as contracts see them. What is kept is the callee of the first call at each place of
/// each function, so that a look does not depend on how many calls there are.
#[derive(Drop)]
pub(crate) struct Callees {
    places: HashMap<(u64, u32, u32, u32), u64>,
    /// The graph, which takes no memory: only contracts read it.
    graph: Snapshot<CallGraph>,
}

impl Model for Callees {
    ghost use Rattle.std.specs.Prelude.{List, Option};
    ghost use Rattle.c_layout.specs.Calls.{PlacedCall};
    ghost use Rattle.report_alarms.specs.Found.{HoldsCallees};

    ghost Value = { List (Option (List PlacedCall)) };

    ghost view = { λ t. t.graph.value };

    ghost invariant = { λ t. HoldsCallees t.places t.graph.value };
}

impl Callees {
    ghost use Rattle.std.specs.Prelude.{◌≡◌, IfOk};
    ghost use Rattle.report_alarms.specs.Told.{called_from};

    /// The calls of this graph.
    pub(crate) fn of(alloc: Global, graph: &CallGraph) -> Result<Callees, NoMemory>
        ensures { IfOk result (λ callees. callees ≡ graph.now) }
    {
        let places = places_of(alloc, graph)?;
        Ok(Callees {
            places,
            graph: Snapshot::of(graph),
        })
    }

    /// The function that is called at this place of a function.
    pub(crate) fn at(&self, caller: u64, at: Pos) -> Option<u64>
        ensures { result ≡ called_from self.now caller at }
    {
        self.places.get(&key_of(caller, at)).copied()
    }
}

fn key_of(caller: u64, at: Pos) -> (u64, u32, u32, u32)
    ensures { result ≡ key_of caller at }
{
    (caller, at.file, at.line, at.col)
}

fn places_of(
    alloc: Global,
    graph: &CallGraph,
) -> Result<HashMap<(u64, u32, u32, u32), u64>, NoMemory>
    ensures { IfOk result (λ places. HoldsCallees places graph.now) }
{
    let mut places = HashMap::new(alloc);
    let mut caller = 0;
    'each: while caller < graph.len() {
        add_calls(&mut places, caller as u64, graph.calls(caller as u64))?;
        caller += 1;
    }
    Ok(places)
}

// The calls of one function, behind what is there.
fn add_calls(
    places: &mut HashMap<(u64, u32, u32, u32), u64>,
    caller: u64,
    calls: &[Call],
) -> Result<(), NoMemory>
    ensures { OnOk result (AddsCalls places.old places.new caller (map placed calls.now)) }
{
    let mut left = calls;
    'each: while let Some((call, rest)) = left.split_first() {
        add_call(places, caller, *call)?;
        left = rest;
    }
    Ok(())
}

fn add_call(
    places: &mut HashMap<(u64, u32, u32, u32), u64>,
    caller: u64,
    call: Call,
) -> Result<(), NoMemory>
    ensures { OnOk result (AddsCalls places.old places.new caller (placed call ∷ [])) }
{
    let key = key_of(caller, call.pos);
    if places.contains_key(&key) {
        return Ok(());
    }
    places.insert(key, call.callee)?;
    Ok(())
}
