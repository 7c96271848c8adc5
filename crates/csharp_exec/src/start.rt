// Runs of main.

ghost use Rattle.std.specs.Prelude.{◌≡◌, IfOk};
ghost use Rattle.csharp.specs.Trees.{csprogram_tree};
ghost use Rattle.csharp_state.specs.Answers.{GivesUp};
ghost use Rattle.csharp_exec.specs.Meets.{run_comes_past};
ghost use Rattle.csharp_exec.specs.Stages.{main_of};
ghost use Rattle.csharp_exec.specs.Told.{over_of, told};

use crate::first::first_state;
use crate::outcome::{Limits, Outcome};
use crate::runs::exec;
use csharp::CsProgram;
use csharp_state::{State, Unanswered};
use std::alloc::Global;

/// Runs main on these inputs, as far as it may go: the outcome, with the state behind it.
pub fn run(
    alloc: Global,
    program: &CsProgram,
    limits: Limits,
    inputs: &[i128],
) -> Result<(Outcome, State), Unanswered>
    ensures told { IfOk result (λ end. told end.0 end.1 ≡ main_of (over_of limits.turns) (csprogram_tree program.now) limits.fuel inputs.now) }
    ensures past { GivesUp result (run_comes_past (over_of limits.turns) (csprogram_tree program.now) limits.fuel inputs.now) }
{
    let mut state = first_state(alloc, program, inputs)?;
    match program.functions.as_slice().get(program.main as usize) {
        Some(main) => {
            let outcome = exec(alloc, program, limits, &main.body, &mut state)?;
            Ok((outcome, state))
        }
        None => Ok((Outcome::Stuck, state)),
    }
}
