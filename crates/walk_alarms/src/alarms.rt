// The alarms that a walk lists.
#![tactic(auto, using(csharp::proofs::CodeTrees::the_code_trees))]

ghost use Rattle.std.specs.Prelude.{◌≡◌, ◌∷◌, [], All, List, Some, length, slice_get, IfOk, OnOk};
ghost use Rattle.c_syntax_written.specs.declared.place.Pos.{Pos as Place};
ghost use Rattle.c_syntax.specs.Operand.{Operand, operand_of};
ghost use Rattle.c_syntax.specs.Admission.{IsInShown, IsProper};
ghost use Rattle.c_syntax.specs.declared.alarm.WrongKind.{WrongKind as Kind};
ghost use Rattle.c_values.specs.Looks.{judge as judged, Passes, FailsAs};
ghost use Rattle.c_values.specs.Places.{ObjectMemory};
ghost use Rattle.csharp.specs.Trees.{CsCallTree, CsFunctionTree, CsProgramTree, CsStmtTree, cscheck_tree, csprogram_tree};
ghost use Rattle.csharp.specs.Trees as code;
ghost use Rattle.csharp.specs.States.{State, look_of};
ghost use Rattle.mem_api.specs.Given.{IsOf};
ghost use Rattle.mem_api.specs.Showing.{HasForm, IsAlone};
ghost use Rattle.mem_shown.specs.Decisions.{IsFailing, NamesObjects};
ghost use Rattle.alarm_claims.specs.Admitted.{Gains, IsAdmittedIn};
ghost use Rattle.alarm_claims.specs.Analyzed.{Listed};
ghost use Rattle.alarm_claims.specs.ExactFor.{ListedAlone};
ghost use Rattle.walk_owes.specs.Owes.{IsMoved};

use c_syntax::{Alarm, Example, Facts, Places, Pos, Shown};
use csharp::{CsCheck, CsProgram};
use mem_api::MemDomain;
use mem_shown::{Decision, decide};
use std::alloc::{AllocError as NoMemory, Global};

/// Lists an alarm where a check may fail on what is shown.
pub fn judge<M: MemDomain>(
    alloc: Global,
    program: &CsProgram,
    check: &CsCheck,
    state: &M,
    out: &mut Vec<Alarm>,
) -> Result<(), NoMemory>
    requires is_for { M.is_for state.now (csprogram_tree program.now) }
    requires given { IsOf (csprogram_tree program.now) (code.Checked (cscheck_tree check.now)) }
    ensures old { OnOk result ((calls : List Place) (at : Place) (wrong : Kind) (operand : Operand) (memory : ObjectMemory)
        → Listed (csprogram_tree program.now) out.old.items calls at wrong operand memory → Listed (csprogram_tree program.now) out.new.items calls at wrong operand memory) }
    ensures fails { OnOk result ((s : State) (wrong : Kind) (operand : Operand) → M.stands state.now s
        → judged (csprogram_tree program.now).objects (look_of (cscheck_tree check.now) s ∷ []) ≡ FailsAs wrong operand
        → Listed (csprogram_tree program.now) out.new.items [] check.now.pos wrong operand s.memory) }
    ensures gains { OnOk result (Gains (csprogram_tree program.now) (code.Checked (cscheck_tree check.now)) out.old.items out.new.items) }
    ensures passes { OnOk result ((s : State) → M.sharp state.now s → judged (csprogram_tree program.now).objects (look_of (cscheck_tree check.now) s ∷ []) ≡ Passes
        → out.new.items ≡ out.old.items) }
    ensures alone { OnOk result ((s : State) (wrong : Kind) (operand : Operand) → M.sharp state.now s
        → judged (csprogram_tree program.now).objects (look_of (cscheck_tree check.now) s ∷ []) ≡ FailsAs wrong operand → out.old.items ≡ []
        → ListedAlone (csprogram_tree program.now) out.new.items [] check.now.pos wrong operand s.memory) }
{
    let shown = state.show(check)?;
    match decide(&check.check, &shown, program.objects.as_slice()) {
        Decision::Holds => Ok(()),
        Decision::May(example) => {
            raise(alloc, program, check, shown, example, state, out)?;
            Ok(())
        }
    }
}

// Lists the alarm of a check.
fn raise<M: MemDomain>(
    alloc: Global,
    program: &CsProgram,
    check: &CsCheck,
    shown: Shown,
    example: Example,
    state: &M,
    out: &mut Vec<Alarm>,
) -> Result<(), NoMemory>
    requires is_for { M.is_for state.now (csprogram_tree program.now) }
    requires failing { IsFailing (csprogram_tree program.now).objects check.now.check shown (operand_of example) }
    requires form { HasForm check.now.check.kind (cscheck_tree check.now).operands shown }
    requires proper { IsProper shown }
    requires names { NamesObjects (length (csprogram_tree program.now).objects) shown }
    ensures old { OnOk result ((calls : List Place) (at : Place) (wrong : Kind) (operand : Operand) (memory : ObjectMemory)
        → Listed (csprogram_tree program.now) out.old.items calls at wrong operand memory → Listed (csprogram_tree program.now) out.new.items calls at wrong operand memory) }
    ensures new { OnOk result ((s : State) (operand : Operand) → M.stands state.now s → IsInShown (csprogram_tree program.now).objects operand shown
        → Listed (csprogram_tree program.now) out.new.items [] check.now.pos check.now.check.kind operand s.memory) }
    ensures gains { OnOk result (Gains (csprogram_tree program.now) (code.Checked (cscheck_tree check.now)) out.old.items out.new.items) }
    ensures alone { OnOk result ((s : State) (operand : Operand) → M.sharp state.now s → IsAlone (csprogram_tree program.now).objects operand shown → out.old.items ≡ []
        → ListedAlone (csprogram_tree program.now) out.new.items [] check.now.pos check.now.check.kind operand s.memory) }
{
    let mut facts = Facts::new(alloc);
    state.facts(&mut facts)?;
    out.push(Alarm {
        chain: Places::new(alloc),
        pos: check.pos,
        kind: check.check.kind,
        check: check.check,
        shown,
        example,
        facts,
    })?;
    Ok(())
}

/// The alarms of a call, with the call's place before each chain.
pub fn prefix(at: Pos, mut inner: Vec<Alarm>, out: &mut Vec<Alarm>) -> Result<(), NoMemory>
    ensures old { OnOk result ((q : CsProgramTree) (calls : List Place) (place : Place) (wrong : Kind) (operand : Operand) (memory : ObjectMemory)
        → Listed q out.old.items calls place wrong operand memory → Listed q out.new.items calls place wrong operand memory) }
    ensures new { OnOk result ((q : CsProgramTree) (calls : List Place) (place : Place) (wrong : Kind) (operand : Operand) (memory : ObjectMemory)
        → Listed q inner.items calls place wrong operand memory → Listed q out.new.items (at ∷ calls) place wrong operand memory) }
    ensures gains { OnOk result ((q : CsProgramTree) (c : CsCallTree) (f : CsFunctionTree) → c.pos ≡ at → slice_get q.functions c.function ≡ Some f
        → All (IsAdmittedIn q f.body) inner.items → Gains q (code.Call c) out.old.items out.new.items) }
    ensures none { OnOk result (inner.items ≡ [] → out.new.items ≡ out.old.items) }
    ensures one { OnOk result ((x : Alarm) → inner.items ≡ x ∷ [] → out.old.items ≡ [] → (y : Alarm) × (out.new.items ≡ y ∷ []) × IsMoved at x y) }
{
    while let Some(alarm) = inner.pop() {
        let moved = prepend(at, alarm)?;
        out.push(moved)?;
    }
    Ok(())
}

/// More alarms.
pub fn add_alarms(mut found: Vec<Alarm>, out: &mut Vec<Alarm>) -> Result<(), NoMemory>
    ensures old { OnOk result ((q : CsProgramTree) (calls : List Place) (place : Place) (wrong : Kind) (operand : Operand) (memory : ObjectMemory)
        → Listed q out.old.items calls place wrong operand memory → Listed q out.new.items calls place wrong operand memory) }
    ensures new { OnOk result ((q : CsProgramTree) (calls : List Place) (place : Place) (wrong : Kind) (operand : Operand) (memory : ObjectMemory)
        → Listed q found.items calls place wrong operand memory → Listed q out.new.items calls place wrong operand memory) }
    ensures gains { OnOk result ((q : CsProgramTree) (a : CsStmtTree) → All (IsAdmittedIn q a) found.items → Gains q a out.old.items out.new.items) }
    ensures alone { OnOk result (out.old.items ≡ [] → out.new.items ≡ found.items) }
{
    out.append(&mut found)?;
    Ok(())
}

// An alarm with one more call before its chain.
fn prepend(at: Pos, alarm: Alarm) -> Result<Alarm, NoMemory>
    ensures { IfOk result (λ a. IsMoved at alarm a) }
{
    let Alarm {
        chain,
        pos,
        kind,
        check,
        shown,
        example,
        facts,
    } = alarm;
    let mut places = chain.into_vec();
    places.insert(0, at)?;
    Ok(Alarm {
        chain: Places::from_vec(places),
        pos,
        kind,
        check,
        shown,
        example,
        facts,
    })
}
