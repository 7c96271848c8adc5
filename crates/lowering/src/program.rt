// A program, lowered.
#![tactic(auto)]

ghost use Rattle.std.specs.Prelude.{◌≡◌, ℕ, ℤ, List, IfOk, Some};
ghost use Rattle.c_syntax_written.specs.declared.int_type.IntType.TheVariants as ints;
ghost use Rattle.c_syntax_written.specs.declared.place.Pos.{Pos};
ghost use Rattle.c_syntax.specs.declared.alarm.WrongKind.{WrongKind};
ghost use Rattle.c_syntax.specs.Operand.{Operand};
ghost use Rattle.c_syntax.specs.Program.{tprogram_tree};
ghost use Rattle.block_mem.specs.declared.types.Value.TheVariants as values;
ghost use Rattle.c_values.specs.Places.{ObjectMemory};
ghost use Rattle.c_steps.specs.Bounds.{IsForwardOnly, TurnsWithin};
ghost use Rattle.c_steps.specs.Runs.{after, GoesWrong};
ghost use Rattle.c_steps.specs.States as machine;
ghost use Rattle.c_steps.specs.Steps.{step};
ghost use Rattle.c_steps_laws.specs.Fits.{Runs};
ghost use Rattle.csharp.specs.Trees.{csprogram_tree};
ghost use Rattle.csharp.specs.States as states;
ghost use Rattle.csharp.specs.Outcomes.{Leaves, ByReturn, Waiting, Stopped, Over};
ghost use Rattle.csharp.specs.Meaning.{CheckFails, beyond, bounded_run, run};
ghost use Rattle.csharp.specs.Formed.{IsFormed, Throughout};
ghost use Rattle.csharp_laws.specs.Enough as forward;
ghost use Rattle.lower_trees.specs.Correct.{IsOf, Finishes};
ghost use Rattle.lower_trees.specs.LowerProgram as programs;

use c_syntax::{Plan, TProgram};
use csharp::CsProgram;
use lower_keeps::lowering_is_right;
use lower_program::lower;
use std::alloc::{AllocError as NoMemory, Global};

/// Lowers a typed program with its plan. What is built is formed, has the program's structs and objects, and makes no checks,
/// calls, loops, labels and inputs but the program's own. Each run of the program that goes wrong fails that check, and no
/// other run fails one; a run that ends, waits or is stopped comes to the like outcome; and loops turn no more often.
pub fn lowered(alloc: Global, program: &TProgram, plan: &Plan) -> Result<CsProgram, NoMemory>
    requires { Runs (tprogram_tree program.now) plan.now }
    ensures tree { IfOk result (λ q. csprogram_tree q ≡ programs.lower (tprogram_tree program.now) plan.now) }
    // What it is, and what stands in it.
    ensures formed { IfOk result (λ q. IsFormed (csprogram_tree q)) }
    ensures structs { IfOk result (λ q. (csprogram_tree q).structs ≡ (tprogram_tree program.now).structs) }
    ensures objects { IfOk result (λ q. (csprogram_tree q).objects ≡ (tprogram_tree program.now).objects) }
    ensures made { IfOk result (λ q. Throughout (λ f around a. IsOf (tprogram_tree program.now) f a) (csprogram_tree q)) }
    ensures leads_forward { IfOk result (λ q. IsForwardOnly (tprogram_tree program.now) → forward.IsForwardOnly (csprogram_tree q)) }
    // Its runs, and those of the program.
    ensures misses_none { IfOk result (λ q. (inputs : List ℤ) (s : machine.State) (chain : List Pos) (at : Pos) (kind : WrongKind) (operand : Operand)
        → GoesWrong (tprogram_tree program.now) plan.now.main inputs s chain at kind operand
        → CheckFails (csprogram_tree q) inputs chain at kind operand s.memory) }
    ensures fails_alone { IfOk result (λ q. (inputs : List ℤ) (chain : List Pos) (at : Pos) (kind : WrongKind) (operand : Operand) (m : ObjectMemory)
        → CheckFails (csprogram_tree q) inputs chain at kind operand m
        → (s : machine.State) × (s.memory ≡ m) × GoesWrong (tprogram_tree program.now) plan.now.main inputs s chain at kind operand) }
    ensures ends { IfOk result (λ q. (inputs : List ℤ) (n : ℕ) (v : ℤ)
        → step (tprogram_tree program.now) (after (tprogram_tree program.now) plan.now.main inputs n) ≡ machine.Ended v
        → (fuel : ℕ) × (t : states.State) × (run (csprogram_tree q) fuel inputs ≡ Leaves (ByReturn (Some (values.Int ints.Int v))) t)) }
    ensures waits { IfOk result (λ q. (inputs : List ℤ) (n : ℕ)
        → step (tprogram_tree program.now) (after (tprogram_tree program.now) plan.now.main inputs n) ≡ machine.Waiting
        → (fuel : ℕ) × (run (csprogram_tree q) fuel inputs ≡ Waiting)) }
    ensures stops { IfOk result (λ q. (inputs : List ℤ) (n : ℕ)
        → step (tprogram_tree program.now) (after (tprogram_tree program.now) plan.now.main inputs n) ≡ machine.Stopped
        → (fuel : ℕ) × (run (csprogram_tree q) fuel inputs ≡ Stopped)) }
    ensures turns { IfOk result (λ q. (inputs : List ℤ) (bound : ℕ) → TurnsWithin (tprogram_tree program.now) plan.now.main inputs bound
        → (fuel : ℕ) → bounded_run (beyond bound) (csprogram_tree q) fuel inputs ≡ Over → ⊥) }
    ensures finishes { Finishes (tprogram_tree program.now) plan.now.main }
{
    // The law that all clauses but the first rest on.
    lowering_is_right();
    lower(alloc, program, plan)
}
