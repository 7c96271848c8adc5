// Laws of lowered runs.
#![tactic(auto)]

ghost use Rattle.lower_keeps.specs.Laws.{BoundedRunsFinish, LoweredRunsTell, LoweringKeepsRuns};
ghost use Rattle.lower_keeps.specs.Values.{LoweredValuesTell};
ghost use Rattle.lower_trees.specs.Correct.{LoweringIsRight};

/// Each run of a typed program with its plan, and the run of what it is lowered to, come to the same: the same check
/// fails, at the same chain of calls and place, with the same operand and memory; or both end with the same number, wait,
/// or are stopped; and a loop turns no more often.
pub fn lowering_keeps_runs()
    ensures { LoweringKeepsRuns }
{}

/// Each outcome of a lowered program's run tells of the machine's: that it ends with main's number, goes wrong at the check
/// that fails, waits, or is stopped; and out of fuel, that it makes more steps than the fuel. No run of a lowered program
/// comes to anything else: none is stuck, enters a scope that is open, or leaves main but by returning an int.
pub fn lowered_runs_tell()
    ensures { LoweredRunsTell }
{}

/// The code of a typed expression tells what the machine does where the expression is next: behind it, what the expression
/// gives is on the stack, with the same memory and inputs; a check that fails is what goes wrong first, with the same chain
/// of calls, place, kind, operand and memory; it waits and is stopped alike; and out of fuel, the machine makes as many
/// steps.
pub fn lowered_values_tell()
    ensures { LoweredValuesTell }
{}

/// Where no goto leads back and no entry of a loop has more turns than a bound, the run of a typed program with its plan
/// comes to a last state.
pub fn bounded_runs_finish()
    ensures { BoundedRunsFinish }
{}

/// A typed program with its plan is lowered to one that is formed, has its objects, makes no checks, calls, loops, labels
/// and inputs but its own, leads forwards where it does, and keeps each of its runs.
pub fn lowering_is_right()
    ensures { LoweringIsRight }
{}
