// The first node in the text of which two sides clash.
#![tactic(auto)]

ghost use Rattle.std.specs.Prelude.{◌≡◌, ℕ, [], None, option_map, unwrap_or, IfOk, MatchOption};
ghost use Rattle.c_syntax.specs.Program.{tfunction_tree, tprogram_tree};
ghost use Rattle.c_rules_effects.specs.Taken.{taken_table};
ghost use Rattle.c_rules_order.specs.Closed.{AreClosed};
ghost use Rattle.c_rules_calls.specs.Graph.{AreDefined, graph_of, IsOrderOf};
ghost use Rattle.c_rules_order.specs.Firsts.{or_first};
ghost use Rattle.c_rules_order.specs.Sides.{compared_in_stmt};
ghost use Rattle.c_rules.specs.Earliest.{IsEarlier};
ghost use Rattle.c_rules.specs.Sequenced.{IsEffectsOfSide, IsFirstClash, IsKnownOf, IsSequenced};

use c_rules_calls::{CallGraph, is_before};
use c_rules_effects::{Effects, taken_table};
use c_rules_order::{Comparison, Known, Side, closed_effects, effects_of_side, first_clash};
use c_syntax::{Numbers, TFunction, TProgram};
use std::alloc::{AllocError as NoMemory, Global};

// What is known of a whole program.
pub(crate) fn known_of(
    alloc: Global,
    program: &TProgram,
    graph: &CallGraph,
    order: &Numbers,
) -> Result<Known, NoMemory>
    requires defined { AreDefined graph.now }
    requires order { IsOrderOf graph.now order.now }
    requires calls { graph.now ≡ graph_of (tprogram_tree program.now) }
    ensures { IfOk result (IsKnownOf (tprogram_tree program.now)) }
{
    Ok(Known {
        taken: taken_table(alloc, program)?,
        functions: closed_effects(alloc, program, graph, order)?,
    })
}

// The first of all functions.
pub(crate) fn first_of_all(
    alloc: Global,
    program: &TProgram,
    known: &Known,
) -> Result<Option<Comparison>, NoMemory>
    requires { IsKnownOf (tprogram_tree program.now) known.now }
    ensures { IfOk result
        (λ found. MatchOption found (IsSequenced (tprogram_tree program.now)) (IsFirstClash (tprogram_tree program.now))) }
{
    let mut found = None;
    for function in program.functions.as_slice() {
        found = earlier(found, clash_in(alloc, known, function)?);
    }
    Ok(found)
}

fn clash_in(
    alloc: Global,
    known: &Known,
    function: &TFunction,
) -> Result<Option<Comparison>, NoMemory>
    ensures { IfOk result (λ found. found ≡ or_first known.now None (unwrap_or (option_map compared_in_stmt (tfunction_tree function.now).body) [])) }
{
    match &function.body {
        Some(body) => first_clash(alloc, known, body),
        None => Ok(None),
    }
}

// The second, where it is there and stands before the first or that is not there, and else the first.
fn earlier(found: Option<Comparison>, next: Option<Comparison>) -> Option<Comparison>
    ensures { IsEarlier (λ c. c.pos) found next result }
{
    match next {
        None => found,
        Some(next) => match found {
            None => Some(next),
            Some(first) => {
                if is_before(next.pos, first.pos) {
                    Some(next)
                } else {
                    Some(first)
                }
            }
        },
    }
}

// What a side reads and writes, with what the functions do that it calls.
pub(crate) fn side_effects(
    alloc: Global,
    program: &TProgram,
    known: &Known,
    side: &Side,
) -> Result<Effects, NoMemory>
    requires { IsKnownOf (tprogram_tree program.now) known.now }
    ensures { IfOk result (IsEffectsOfSide (tprogram_tree program.now) side.now) }
{
    effects_of_side(alloc, known, side)
}
