// The questions that are asked of a program, one after the other.
#![tactic(auto)]

ghost use Rattle.std.specs.Prelude.{◌≡◌, IfErr, IfOk, MatchOption};
ghost use Rattle.c_syntax.specs.Program.{tprogram_tree};
ghost use Rattle.c_layout.specs.Plans.{IsPlanFor};
ghost use Rattle.c_rules_calls.specs.Graph.{graph_of, IsOrderOf};
ghost use Rattle.c_rules.specs.Sequenced.{IsFirstClash, IsKnownOf, IsSequenced};
ghost use Rattle.c_rules.specs.Rules.{HasOrder, IsAdmitted, IsComplete, IsMain, IsRefused, IsShallow, IsSmall, KeepsGotos};

use crate::clashes::{first_of_all, known_of, side_effects};
use crate::error::RuleError;
use crate::start::main_function;
use crate::strays::first_stray;
use c_rules_calls::{
    CallGraph, DepthError, OrderError, check_depth, inlined_size, order_of, undefined_call,
};
use c_rules_order::{Comparison, Known};
use c_syntax::{Numbers, Plan, TProgram};
use std::alloc::{AllocError as NoMemory, Global};

// The greatest inlined size of main.
const LARGEST: u64 = 2_000_000;

/// The plan of a program that is admitted. Of another the error tells the first question whose answer is no: whether it
/// has a main, whether each function that is called has a body, whether its calls are not recursive, whether no chain of
/// calls from main is longer than 64, whether the inlined size of main is at most 2,000,000, whether no goto leads into
/// a block, and whether no node has two sides of which one writes what the other touches.
pub fn admit(alloc: Global, program: &TProgram) -> Result<Plan, RuleError>
    ensures admitted { IfOk result (λ plan. IsAdmitted (tprogram_tree program.now)) }
    ensures plan { IfOk result (IsPlanFor (tprogram_tree program.now)) }
    ensures refused { IfErr result (IsRefused (tprogram_tree program.now)) }
{
    match main_function(program) {
        None => Err(RuleError::NoMain),
        Some(main) => with_main(alloc, program, main),
    }
}

// Functions that are called have a body.
fn with_main(alloc: Global, program: &TProgram, main: u64) -> Result<Plan, RuleError>
    requires main { IsMain (tprogram_tree program.now) main }
    ensures admitted { IfOk result (λ plan. IsAdmitted (tprogram_tree program.now)) }
    ensures plan { IfOk result (IsPlanFor (tprogram_tree program.now)) }
    ensures refused { IfErr result (IsRefused (tprogram_tree program.now)) }
{
    let graph = CallGraph::of(alloc, program)?;
    match undefined_call(&graph) {
        Some(call) => Err(RuleError::UndefinedFunction(call.pos)),
        None => complete(alloc, program, main, &graph),
    }
}

// Calls are not recursive.
fn complete(
    alloc: Global,
    program: &TProgram,
    main: u64,
    graph: &CallGraph,
) -> Result<Plan, RuleError>
    requires main { IsMain (tprogram_tree program.now) main }
    requires graph { graph.now ≡ graph_of (tprogram_tree program.now) }
    requires so_far { IsComplete (tprogram_tree program.now) }
    ensures admitted { IfOk result (λ plan. IsAdmitted (tprogram_tree program.now)) }
    ensures plan { IfOk result (IsPlanFor (tprogram_tree program.now)) }
    ensures refused { IfErr result (IsRefused (tprogram_tree program.now)) }
{
    match order_of(alloc, graph) {
        Err(OrderError::Recursion(calls)) => Err(RuleError::Recursion(calls)),
        Err(OrderError::NoMemory) => Err(RuleError::NoMemory),
        Ok(order) => planned(alloc, program, main, graph, order),
    }
}

// The plan with this order.
fn planned(
    alloc: Global,
    program: &TProgram,
    main: u64,
    graph: &CallGraph,
    order: Numbers,
) -> Result<Plan, RuleError>
    requires main { IsMain (tprogram_tree program.now) main }
    requires graph { graph.now ≡ graph_of (tprogram_tree program.now) }
    requires order { IsOrderOf graph.now order }
    requires so_far { HasOrder (tprogram_tree program.now) }
    ensures admitted { IfOk result (λ plan. IsAdmitted (tprogram_tree program.now)) }
    ensures plan { IfOk result (IsPlanFor (tprogram_tree program.now)) }
    ensures refused { IfErr result (IsRefused (tprogram_tree program.now)) }
{
    match ordered(alloc, program, main, graph, &order) {
        Err(error) => Err(error),
        Ok(()) => Ok(Plan { order, main }),
    }
}

// Chains of calls are short.
fn ordered(
    alloc: Global,
    program: &TProgram,
    main: u64,
    graph: &CallGraph,
    order: &Numbers,
) -> Result<(), RuleError>
    requires main { IsMain (tprogram_tree program.now) main }
    requires graph { graph.now ≡ graph_of (tprogram_tree program.now) }
    requires order { IsOrderOf graph.now order.now }
    requires so_far { HasOrder (tprogram_tree program.now) }
    ensures admitted { IfOk result (λ _. IsAdmitted (tprogram_tree program.now)) }
    ensures refused { IfErr result (IsRefused (tprogram_tree program.now)) }
{
    match check_depth(alloc, graph, order, main) {
        Err(DepthError::TooDeep(calls)) => Err(RuleError::TooDeepCalls(calls)),
        Err(DepthError::NoMemory) => Err(RuleError::NoMemory),
        Ok(()) => shallow(alloc, program, main, graph, order),
    }
}

// Main is small, with all that it calls.
fn shallow(
    alloc: Global,
    program: &TProgram,
    main: u64,
    graph: &CallGraph,
    order: &Numbers,
) -> Result<(), RuleError>
    requires main { IsMain (tprogram_tree program.now) main }
    requires graph { graph.now ≡ graph_of (tprogram_tree program.now) }
    requires order { IsOrderOf graph.now order.now }
    requires so_far { IsShallow (tprogram_tree program.now) }
    ensures admitted { IfOk result (λ _. IsAdmitted (tprogram_tree program.now)) }
    ensures refused { IfErr result (IsRefused (tprogram_tree program.now)) }
{
    let size = inlined_size(alloc, program, graph, order, main)?;
    if size > LARGEST {
        return Err(RuleError::TooLarge(size));
    }
    small(alloc, program, graph, order)
}

// No goto leads into a block.
fn small(
    alloc: Global,
    program: &TProgram,
    graph: &CallGraph,
    order: &Numbers,
) -> Result<(), RuleError>
    requires graph { graph.now ≡ graph_of (tprogram_tree program.now) }
    requires order { IsOrderOf graph.now order.now }
    requires so_far { IsSmall (tprogram_tree program.now) }
    ensures admitted { IfOk result (λ _. IsAdmitted (tprogram_tree program.now)) }
    ensures refused { IfErr result (IsRefused (tprogram_tree program.now)) }
{
    match first_stray(alloc, program)? {
        Some(pos) => Err(RuleError::GotoIntoBlock(pos)),
        None => without_strays(alloc, program, graph, order),
    }
}

// Nothing depends on an order that is not fixed.
fn without_strays(
    alloc: Global,
    program: &TProgram,
    graph: &CallGraph,
    order: &Numbers,
) -> Result<(), RuleError>
    requires graph { graph.now ≡ graph_of (tprogram_tree program.now) }
    requires order { IsOrderOf graph.now order.now }
    requires so_far { KeepsGotos (tprogram_tree program.now) }
    ensures admitted { IfOk result (λ _. IsAdmitted (tprogram_tree program.now)) }
    ensures refused { IfErr result (IsRefused (tprogram_tree program.now)) }
{
    let known = known_of(alloc, program, graph, order)?;
    sequenced(alloc, program, &known)
}

// So it is where this is known of the program.
fn sequenced(alloc: Global, program: &TProgram, known: &Known) -> Result<(), RuleError>
    requires known { IsKnownOf (tprogram_tree program.now) known.now }
    requires so_far { KeepsGotos (tprogram_tree program.now) }
    ensures admitted { IfOk result (λ _. IsAdmitted (tprogram_tree program.now)) }
    ensures refused { IfErr result (IsRefused (tprogram_tree program.now)) }
{
    let found = first_of_all(alloc, program, known)?;
    without_clash(alloc, program, known, &found)
}

// No two sides clash, where this is what was found.
fn without_clash(
    alloc: Global,
    program: &TProgram,
    known: &Known,
    found: &Option<Comparison>,
) -> Result<(), RuleError>
    requires known { IsKnownOf (tprogram_tree program.now) known.now }
    requires found { MatchOption found.now (IsSequenced (tprogram_tree program.now)) (IsFirstClash (tprogram_tree program.now)) }
    requires so_far { KeepsGotos (tprogram_tree program.now) }
    ensures admitted { IfOk result (λ _. IsAdmitted (tprogram_tree program.now)) }
    ensures refused { IfErr result (IsRefused (tprogram_tree program.now)) }
{
    match found {
        Some(clash) => Err(unsequenced(alloc, program, known, clash)?),
        None => Ok(()),
    }
}

// What refuses a program with this clash.
fn unsequenced(
    alloc: Global,
    program: &TProgram,
    known: &Known,
    clash: &Comparison,
) -> Result<RuleError, NoMemory>
    requires known { IsKnownOf (tprogram_tree program.now) known.now }
    requires clash { IsFirstClash (tprogram_tree program.now) clash.now }
    requires so_far { KeepsGotos (tprogram_tree program.now) }
    ensures { IfOk result (IsRefused (tprogram_tree program.now)) }
{
    let left = side_effects(alloc, program, known, &clash.left)?;
    let right = side_effects(alloc, program, known, &clash.right)?;
    Ok(RuleError::Unsequenced(clash.pos, left, right))
}
