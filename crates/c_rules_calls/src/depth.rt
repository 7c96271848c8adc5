// How deep the calls from a function go.
#![tactic(auto)]

ghost use Rattle.std.specs.Prelude.{◌≡◌, ◌+◌, ◌<◌, ◌≤◌, ℕ, List, length, get_or, map, All, Contains, IfErr, IfOk};
ghost use Rattle.c_layout.specs.Calls.{PlacedCall};
ghost use Rattle.c_rules_calls.specs.Depths.{AreDepths, HasDeepCall, IsDepth, TellsDeepCalls};
ghost use Rattle.c_rules_calls.specs.Graph.{AreDefined, calls_from, IsDefined, IsOrderOf, IsWay};
ghost use Rattle.c_rules_calls.specs.Placed.{placed};
ghost use Rattle.c_rules_calls.specs.declared.depth.DepthError.TheVariants.{NoMemory};

use crate::call::{Call, Calls};
use crate::graph::CallGraph;
use c_syntax::Numbers;
use std::alloc::{AllocError, Global};

// So many calls in a chain are too many.
const TOO_MANY: u64 = 65;

/// Why calls go too deep.
#[derive(Drop)]
pub enum DepthError {
    /// 65 calls in a chain.
    TooDeep(Calls),
    /// There was no memory.
    NoMemory,
}

impl From<AllocError> for DepthError {
    ghost from_gives = { λ _ e. e ≡ NoMemory };

    fn from(_error: AllocError) -> DepthError {
        DepthError::NoMemory
    }
}

/// Whether each chain of calls from this function has 64 at most. The error tells of a longer one, by its first 65.
pub fn check_depth(
    alloc: Global,
    graph: &CallGraph,
    order: &Numbers,
    main: u64,
) -> Result<(), DepthError>
    requires known { AreDefined graph.now }
    requires order { IsOrderOf graph.now order.now }
    requires main { IsDefined graph.now main }
    ensures short { IfOk result (λ _. (calls : List PlacedCall) → IsWay graph.now main calls → length calls ≤ 64) }
    ensures deep { IfErr result (TellsDeepCalls graph.now main) }
{
    let depths = depths_of(alloc, graph, order)?;
    if depths[main as usize] < TOO_MANY {
        return Ok(());
    }
    Err(DepthError::TooDeep(deep_calls(alloc, graph, &depths, main)?))
}

// How deep the calls from each function go, up to as many as are too many.
fn depths_of(alloc: Global, graph: &CallGraph, order: &Numbers) -> Result<Vec<u64>, AllocError>
    requires known { AreDefined graph.now }
    requires order { IsOrderOf graph.now order.now }
    ensures { IfOk result (λ depths. AreDepths graph.now depths.items × (length depths.items ≡ length graph.now)) }
{
    let mut depths = vec![in alloc; 0; graph.len()]?;
    for function in order.as_slice() {
        depths[*function as usize] = depth_of(graph.calls(*function), &depths);
    }
    Ok(depths)
}

// How deep these calls go, where it is known of the functions that they call.
fn depth_of(calls: &[Call], depths: &[u64]) -> u64
    requires inside { All (λ call. call.callee < length depths.now) calls.now }
    ensures { IsDepth depths.now (map placed calls.now) result }
{
    let mut deepest = 0;
    for call in calls {
        let depth = depths[call.callee as usize].min(TOO_MANY - 1) + 1;
        deepest = deepest.max(depth);
    }
    deepest
}

// 65 calls in a chain from a function from which they go so deep.
fn deep_calls(
    alloc: Global,
    graph: &CallGraph,
    depths: &[u64],
    main: u64,
) -> Result<Calls, AllocError>
    requires depths { AreDepths graph.now depths.now }
    requires known { AreDefined graph.now }
    requires size { length depths.now ≡ length graph.now }
    requires main { IsDefined graph.now main }
    requires deep { 65 ≤ get_or depths.now main 0 }
    ensures { IfOk result (λ calls. IsWay graph.now main calls × (length calls ≡ 65)) }
{
    let mut calls = Calls::new(alloc);
    for made in 0..TOO_MANY {
        let function = calls.end(main);
        calls.push(deep_call(graph.calls(function), depths, TOO_MANY - 1 - made))?;
    }
    Ok(calls)
}

// A call of a function from which calls go so deep.
fn deep_call(calls: &[Call], depths: &[u64], depth: u64) -> Call
    requires inside { All (λ call. call.callee < length depths.now) calls.now }
    requires one { HasDeepCall depths.now (map placed calls.now) depth }
    ensures made { Contains (map placed calls.now) (placed result) }
    ensures deep { depth ≤ get_or depths.now result.callee 0 }
{
    for call in calls {
        if depths[call.callee as usize] >= depth {
            return *call;
        }
    }
    unreachable!()
}
