// The first call in the text of a function without a body.
#![tactic(auto)]

ghost use Rattle.std.specs.Prelude.{◌≡◌, ◌+◌, ◌<◌, length, MatchBool, MatchOption};
ghost use Rattle.c_layout.specs.Calls.{IsBefore};
ghost use Rattle.c_rules_calls.specs.Graph.{AreDefined, IsDefined};
ghost use Rattle.c_rules_calls.specs.Placed.{placed};
ghost use Rattle.c_rules_calls.specs.Undefined.{IsEarlier, IsFirstUndefined, IsFound, IsFoundWith};

use crate::call::Call;
use crate::graph::CallGraph;
use c_syntax::Pos;

/// Of the calls of functions that have no body the first in the text, by the names of the functions that are called; none
/// where each function that is called has a body.
pub fn undefined_call(graph: &CallGraph) -> Option<Call>
    ensures { MatchOption result (AreDefined graph.now) (λ call. IsFirstUndefined graph.now (placed call)) }
{
    let mut found = None;
    for function in 0..graph.len() as u64 {
        found = undefined_in(graph, function, found);
    }
    found
}

// The first of what was found in the functions before this one and of the calls of this one.
fn undefined_in(graph: &CallGraph, function: u64, found: Option<Call>) -> Option<Call>
    requires found { IsFound graph.now function 0 found }
    requires inside { function < length graph.now }
    ensures { IsFound graph.now (function + 1) 0 result }
{
    let mut found = found;
    for call in graph.calls(function) {
        found = with_call(graph, found, *call);
    }
    found
}

// What is found with one call more.
fn with_call(graph: &CallGraph, found: Option<Call>, call: Call) -> Option<Call>
    ensures { IsFoundWith graph.now found call result }
{
    if graph.is_defined(call.callee) {
        found
    } else {
        Some(earlier(found, call))
    }
}

// The call that was found, unless this one stands before it.
fn earlier(found: Option<Call>, call: Call) -> Call
    ensures { MatchOption found (result ≡ call) (λ first. IsEarlier first call result) }
{
    match found {
        Some(first) if !is_before(call.pos, first.pos) => first,
        _ => call,
    }
}

/// Whether the first place stands before the second in the text.
pub fn is_before(a: Pos, b: Pos) -> bool
    ensures { MatchBool result (IsBefore a b) (IsBefore a b → ⊥) }
{
    a.file < b.file || a.file == b.file && (a.line < b.line || a.line == b.line && a.col < b.col)
}
