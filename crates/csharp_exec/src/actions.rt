// Statements that act at once.
#![tactic(auto, using(csharp::proofs::CodeTrees::the_code_trees))]

ghost use Rattle.std.specs.Prelude.{◌≡◌, IfOk, OnOk, ℕ, Bool, option_map};
ghost use Rattle.csharp.specs.Trees.{cscheck_tree, csexpr_tree, csprogram_tree, csstmt_tree};
ghost use Rattle.csharp.specs.Trees as trees;
ghost use Rattle.csharp.specs.Meaning.{Anew, Later, level};
ghost use Rattle.csharp_state.specs.Answers.{GivesUp};
ghost use Rattle.csharp_state.specs.Belongs.{Belongs};
ghost use Rattle.csharp_state.specs.Unheld.{unheld, unheld_check};
ghost use Rattle.csharp_exec.specs.Meets.{unheld_action};
ghost use Rattle.csharp_exec.specs.Shapes.{IsAction};
ghost use Rattle.csharp_exec.specs.Told.{told};

use crate::outcome::{Failure, Outcome, Way, stuck_unless, waits_unless};
use c_syntax::Places;
use c_values::truth;
use csharp::{CsCheck, CsExpr, CsProgram, CsStmt};
use csharp_state::{Judgement, State, Unanswered};
use std::alloc::Global;

/// A statement that holds no other and calls nothing.
pub fn act(
    alloc: Global,
    program: &CsProgram,
    stmt: &CsStmt,
    state: &mut State,
) -> Result<Outcome, Unanswered>
    requires action { IsAction (csstmt_tree stmt.now) }
    requires objects { Belongs (csprogram_tree program.now).objects state.old.memory }
    ensures told { IfOk result (λ o. (over : ℕ → Bool) (later : Later)
        → told o state.new ≡ level over (csprogram_tree program.now) later Anew (csstmt_tree stmt.now) state.old) }
    ensures objects { OnOk result (Belongs (csprogram_tree program.now).objects state.new.memory) }
    ensures past { GivesUp result (unheld_action (csstmt_tree stmt.now) state.old) }
{
    match stmt {
        CsStmt::Set { temp, value } => Ok(stuck_unless(state.set(*temp, value)?)),
        CsStmt::Load { temp, ty, address } => Ok(stuck_unless(state.load(*temp, *ty, address)?)),
        CsStmt::Store { ty, address, value } => {
            Ok(stuck_unless(state.store(*ty, address, value)?))
        }
        CsStmt::CopyBytes { size, to, from } => {
            Ok(stuck_unless(state.copy_bytes(*size, to, from)?))
        }
        CsStmt::Undefine { object } => Ok(stuck_unless(state.undefine(*object))),
        CsStmt::Input { temp, ty } => Ok(waits_unless(state.input(*temp, *ty))),
        CsStmt::Checked { check } => judge(alloc, program, check, state),
        CsStmt::Assume { condition } => assume(condition, state),
        CsStmt::Return { value } => leave(value, state),
        CsStmt::Exit { level } => Ok(Outcome::Leaves(Way::Exit(*level))),
        CsStmt::Goto { label } => Ok(Outcome::Leaves(Way::Goto(*label))),
        CsStmt::Nothing | CsStmt::Default => Ok(Outcome::Normal),
        CsStmt::Label { .. } | CsStmt::Case { .. } => Ok(Outcome::Normal),
        _ => unreachable!(),
    }
}

// A check.
fn judge(
    alloc: Global,
    program: &CsProgram,
    check: &CsCheck,
    state: &State,
) -> Result<Outcome, Unanswered>
    requires { Belongs (csprogram_tree program.now).objects state.now.memory }
    ensures told { IfOk result (λ o. (over : ℕ → Bool) (later : Later)
        → told o state.now ≡ level over (csprogram_tree program.now) later Anew (trees.Checked (cscheck_tree check.now)) state.now) }
    ensures past { GivesUp result (unheld_check (cscheck_tree check.now) state.now) }
{
    match state.judge(program.objects.as_slice(), check)? {
        Judgement::Passes => Ok(Outcome::Normal),
        Judgement::Fails(kind, operand) => Ok(Outcome::Fails(Failure {
            chain: Places::new(alloc),
            place: check.pos,
            kind,
            operand,
        })),
        Judgement::NoOperand => Ok(Outcome::Stuck),
    }
}

// An assumption.
fn assume(condition: &CsExpr, state: &State) -> Result<Outcome, Unanswered>
    ensures told { IfOk result (λ o. (over : ℕ → Bool) (q : trees.CsProgramTree) (later : Later)
        → told o state.now ≡ level over q later Anew (trees.Assume (csexpr_tree condition.now)) state.now) }
    ensures past { GivesUp result (unheld (csexpr_tree condition.now) state.now) }
{
    match state.value(condition)? {
        Some(v) => Ok(if truth(v) {
            Outcome::Normal
        } else {
            Outcome::Stopped
        }),
        None => Ok(Outcome::Stuck),
    }
}

// A return.
fn leave(value: &Option<CsExpr>, state: &State) -> Result<Outcome, Unanswered>
    ensures told { IfOk result (λ o. (over : ℕ → Bool) (q : trees.CsProgramTree) (later : Later)
        → told o state.now ≡ level over q later Anew (trees.Return (option_map csexpr_tree value.now)) state.now) }
    ensures past { GivesUp result (unheld_action (trees.Return (option_map csexpr_tree value.now)) state.now) }
{
    match value {
        None => Ok(Outcome::Leaves(Way::Return(None))),
        Some(value) => match state.value(value)? {
            Some(v) => Ok(Outcome::Leaves(Way::Return(Some(v)))),
            None => Ok(Outcome::Stuck),
        },
    }
}
