// Programs.
#![tactic(auto, using(csharp::proofs::CodeTrees::the_code_trees))]

ghost use Rattle.std.specs.Prelude.{◌≡◌, ◌<◌, ◌≤◌, [], ◌∷◌, ℕ, List, IfOk, MatchOption, OnOk, length, option_map, slice_get};
ghost use Rattle.std.specs.Option.{option_copied};
ghost use Rattle.c_syntax.specs.declared.program.TFunction.{TFunction};
ghost use Rattle.c_syntax.specs.Program.{tfunction_tree, tprogram_tree};
ghost use Rattle.c_layout.specs.Calls.{function_calls};
ghost use Rattle.c_rules_calls.specs.Graph.{graph_of};
ghost use Rattle.csharp.specs.Trees.{csprogram_tree};
ghost use Rattle.lower_trees.specs.LowerProgram as programs;
ghost use Rattle.lower_trees.specs.Temps.{rows};
ghost use Rattle.lower_program.specs.Order.{AreDone, placed_tree};

use crate::order::Done;
use c_rules_calls::CallGraph;
use c_syntax::{Numbers, Plan, TFunction, TProgram};
use csharp::{CsFunction, CsFunctions, CsProgram, CsStmt, Temps};
use lower_expr::add_rows;
use lower_stmt::{Placed, lower_function};
use std::alloc::{AllocError as NoMemory, Global};

/// Lowers a program by a plan for it: its functions in the plan's order, each with its temporaries behind those of all
/// that it calls. Structs, objects and initial values are the program's own.
pub fn lower(alloc: Global, program: &TProgram, plan: &Plan) -> Result<CsProgram, NoMemory>
    ensures { IfOk result (λ q. csprogram_tree q ≡ programs.lower (tprogram_tree program.now) plan.now) }
{
    let done = lower_order(alloc, program, plan.order.as_slice())?;
    let temps = whole_rows(alloc, done.highest)?;
    let structs = program.structs.copy()?;
    let objects = program.objects.copy()?;
    let initial = program.initial.copy()?;
    Ok(CsProgram {
        structs,
        objects,
        initial,
        functions: CsFunctions::from_vec(done.functions),
        temps,
        main: plan.main,
    })
}

// So many whole rows of temporaries.
fn whole_rows(alloc: Global, count: u64) -> Result<Temps, NoMemory>
    ensures { IfOk result (λ temps. temps ≡ rows count) }
{
    let mut temps = Temps::from_vec(Vec::new(alloc));
    add_rows(alloc, &mut temps, count)?;
    Ok(temps)
}

fn lower_order(alloc: Global, program: &TProgram, order: &[u64]) -> Result<Done, NoMemory>
    ensures { IfOk result (λ done. AreDone (length program.now.functions) done (programs.lower_order (tprogram_tree program.now) order.now [])) }
{
    let graph = CallGraph::of(alloc, program)?;
    let mut done = Done::new(alloc, program.functions.as_slice().len())?;
    for f in order {
        lower_one(alloc, program, *f, &graph, &mut done)?;
    }
    Ok(done)
}

// One function more in the plan's order.
fn lower_one(
    alloc: Global,
    program: &TProgram,
    f: u64,
    graph: &CallGraph,
    done: &mut Done,
) -> Result<(), NoMemory>
    requires graph { graph.now ≡ graph_of (tprogram_tree program.now) }
    requires functions { length done.old.functions.items ≡ length program.now.functions }
    requires tops { length done.old.tops.items ≡ length program.now.functions }
    ensures { (all : List programs.Placed) → AreDone (length program.now.functions) done.old all → OnOk result (AreDone (length program.now.functions) done.new
        (programs.placed_at (tprogram_tree program.now) f (programs.behind_calls all (function_calls (tprogram_tree program.now) f))
        (slice_get (tprogram_tree program.now).functions f) ∷ all)) }
{
    match function_at(program, f) {
        None => Ok(()),
        Some(function) => {
            let d = done.behind(graph.calls(f));
            let placed = lower_found(alloc, program, f, d, function)?;
            done.put(f, placed);
            Ok(())
        }
    }
}

fn function_at(program: &TProgram, f: u64) -> Option<&TFunction>
    ensures found { option_map (λ (function : TFunction). tfunction_tree function) (option_copied result) ≡ slice_get (tprogram_tree program.now).functions f }
    ensures inside { MatchOption result (length program.now.functions ≤ f) (λ function. f < length program.now.functions) }
{
    program.functions.as_slice().get(f as usize)
}

fn lower_found(
    alloc: Global,
    program: &TProgram,
    f: u64,
    d: u64,
    function: &TFunction,
) -> Result<Placed, NoMemory>
    ensures { IfOk result (λ placed. placed_tree f placed
        ≡ programs.placed_body (tprogram_tree program.now) f d (tfunction_tree function.now) (tfunction_tree function.now).body) }
{
    match &function.body {
        None => Ok(no_body(alloc, d)),
        Some(body) => lower_function(alloc, program, f, d, &function.params, body),
    }
}

fn no_body(alloc: Global, d: u64) -> Placed
    ensures { (f : ℕ) → placed_tree f result ≡ record { number = f; function = programs.no_function; top = d } }
{
    Placed {
        function: CsFunction {
            params: Numbers::new(alloc),
            body: CsStmt::Nothing,
        },
        top: d,
    }
}
