// Statements that act at once.
#![tactic(auto, using(csharp::proofs::CodeTrees::the_code_trees))]

ghost use Rattle.std.specs.Prelude.{◌≡◌, ℕ, Bool, List, IfOk, OnOk, Option, Some, None, option_map};
ghost use Rattle.c_syntax_written.specs.declared.place.Pos.{Pos as Place};
ghost use Rattle.c_syntax.specs.declared.alarm.WrongKind.{WrongKind as Kind};
ghost use Rattle.c_syntax.specs.Operand.{Operand};
ghost use Rattle.c_values.specs.Places.{ObjectMemory};
ghost use Rattle.csharp.specs.Trees.{cscheck_tree, csexpr_tree, csprogram_tree};
ghost use Rattle.csharp.specs.Trees as code;
ghost use Rattle.csharp.specs.States.{State};
ghost use Rattle.mem_api.specs.Given.{IsOf};
ghost use Rattle.alarm_claims.specs.Admitted.{Gains};
ghost use Rattle.alarm_claims.specs.Analyzed.{Listed};
ghost use Rattle.walk_owes.specs.declared.way.Way.{Way as Ways};
ghost use Rattle.walk_owes.specs.Owes.{AllFor, HasTyped, KeepsState, SomeFor, Sound};
ghost use Rattle.walk_owes.specs.Walkable.{IsGivenTo, IsTarget};
ghost use Rattle.walk_owes.specs.Exactly.{Exact};

use crate::give::give;
use block_mem::Scalar;
use c_syntax::{Alarm, IntType};
use csharp::{CsCheck, CsExpr, CsProgram};
use csharp_typed_laws::actions_keep_states_typed;
use ext_int::Live;
use mem_api::MemDomain;
use std::alloc::{AllocError as NoMemory, Global};
use walk_alarms::judge;
use walk_kept::keep;
use walk_owes::{Kept, Target, Way};

/// Puts a value into a temporary.
pub fn walk_set<M: MemDomain>(
    program: &CsProgram,
    temp: u64,
    value: &CsExpr,
    mut state: M,
) -> Result<M, NoMemory>
    requires is_for { M.is_for state (csprogram_tree program.now) }
    requires given { IsOf (csprogram_tree program.now) (code.Set temp (csexpr_tree value.now)) }
    ensures is_for { IfOk result (λ m. M.is_for m (csprogram_tree program.now)) }
    ensures sound { IfOk result (λ m. (to : Target) (kept : List (Kept M)) (out : List Alarm) → Sound (HasTyped M.stands (csprogram_tree program.now)) (csprogram_tree program.now) to (code.Set temp (csexpr_tree value.now)) (Some state) (Some m) kept out) }
    ensures exact { IfOk result (λ m. (over : ℕ → Bool) (to : Target) (kept : List (Kept M)) (out : List Alarm)
        → Exact (HasTyped M.sharp (csprogram_tree program.now)) over (csprogram_tree program.now) to (code.Set temp (csexpr_tree value.now)) (Some state) (Some m) kept out kept out) }
{
    actions_keep_states_typed();
    state.set(temp, value)?;
    Ok(state)
}

/// Puts what stands at an address into a temporary.
pub fn walk_load<M: MemDomain>(
    program: &CsProgram,
    temp: u64,
    ty: Scalar,
    address: &CsExpr,
    mut state: M,
) -> Result<M, NoMemory>
    requires is_for { M.is_for state (csprogram_tree program.now) }
    requires given { IsOf (csprogram_tree program.now) (code.Load temp ty (csexpr_tree address.now)) }
    ensures is_for { IfOk result (λ m. M.is_for m (csprogram_tree program.now)) }
    ensures sound { IfOk result (λ m. (to : Target) (kept : List (Kept M)) (out : List Alarm) → Sound (HasTyped M.stands (csprogram_tree program.now)) (csprogram_tree program.now) to (code.Load temp ty (csexpr_tree address.now)) (Some state) (Some m) kept out) }
    ensures exact { IfOk result (λ m. (over : ℕ → Bool) (to : Target) (kept : List (Kept M)) (out : List Alarm)
        → Exact (HasTyped M.sharp (csprogram_tree program.now)) over (csprogram_tree program.now) to (code.Load temp ty (csexpr_tree address.now)) (Some state) (Some m) kept out kept out) }
{
    actions_keep_states_typed();
    state.load(temp, address, ty)?;
    Ok(state)
}

/// Puts a value at an address.
pub fn walk_store<M: MemDomain>(
    program: &CsProgram,
    ty: Scalar,
    address: &CsExpr,
    value: &CsExpr,
    mut state: M,
) -> Result<M, NoMemory>
    requires is_for { M.is_for state (csprogram_tree program.now) }
    requires given { IsOf (csprogram_tree program.now) (code.Store ty (csexpr_tree address.now) (csexpr_tree value.now)) }
    ensures is_for { IfOk result (λ m. M.is_for m (csprogram_tree program.now)) }
    ensures sound { IfOk result (λ m. (to : Target) (kept : List (Kept M)) (out : List Alarm) → Sound (HasTyped M.stands (csprogram_tree program.now)) (csprogram_tree program.now) to (code.Store ty (csexpr_tree address.now) (csexpr_tree value.now)) (Some state) (Some m) kept out) }
    ensures exact { IfOk result (λ m. (over : ℕ → Bool) (to : Target) (kept : List (Kept M)) (out : List Alarm)
        → Exact (HasTyped M.sharp (csprogram_tree program.now)) over (csprogram_tree program.now) to (code.Store ty (csexpr_tree address.now) (csexpr_tree value.now)) (Some state) (Some m) kept out kept out) }
{
    actions_keep_states_typed();
    state.store(address, ty, value)?;
    Ok(state)
}

/// Copies bytes.
pub fn walk_copy<M: MemDomain>(
    program: &CsProgram,
    size: u64,
    place: &CsExpr,
    from: &CsExpr,
    mut state: M,
) -> Result<M, NoMemory>
    requires is_for { M.is_for state (csprogram_tree program.now) }
    requires given { IsOf (csprogram_tree program.now) (code.CopyBytes size (csexpr_tree place.now) (csexpr_tree from.now)) }
    ensures is_for { IfOk result (λ m. M.is_for m (csprogram_tree program.now)) }
    ensures sound { IfOk result (λ m. (to : Target) (kept : List (Kept M)) (out : List Alarm) → Sound (HasTyped M.stands (csprogram_tree program.now)) (csprogram_tree program.now) to (code.CopyBytes size (csexpr_tree place.now) (csexpr_tree from.now)) (Some state) (Some m) kept out) }
    ensures exact { IfOk result (λ m. (over : ℕ → Bool) (to : Target) (kept : List (Kept M)) (out : List Alarm)
        → Exact (HasTyped M.sharp (csprogram_tree program.now)) over (csprogram_tree program.now) to (code.CopyBytes size (csexpr_tree place.now) (csexpr_tree from.now)) (Some state) (Some m) kept out kept out) }
{
    actions_keep_states_typed();
    state.copy_bytes(place, from, size)?;
    Ok(state)
}

/// Takes the values of all bytes of an object.
pub fn walk_undefine<M: MemDomain>(
    program: &CsProgram,
    object: u64,
    mut state: M,
) -> Result<M, NoMemory>
    requires is_for { M.is_for state (csprogram_tree program.now) }
    requires given { IsOf (csprogram_tree program.now) (code.Undefine object) }
    ensures is_for { IfOk result (λ m. M.is_for m (csprogram_tree program.now)) }
    ensures sound { IfOk result (λ m. (to : Target) (kept : List (Kept M)) (out : List Alarm) → Sound (HasTyped M.stands (csprogram_tree program.now)) (csprogram_tree program.now) to (code.Undefine object) (Some state) (Some m) kept out) }
    ensures exact { IfOk result (λ m. (over : ℕ → Bool) (to : Target) (kept : List (Kept M)) (out : List Alarm)
        → Exact (HasTyped M.sharp (csprogram_tree program.now)) over (csprogram_tree program.now) to (code.Undefine object) (Some state) (Some m) kept out kept out) }
{
    actions_keep_states_typed();
    state.undefine(object)?;
    Ok(state)
}

/// Puts the next input into a temporary.
pub fn walk_input<M: MemDomain>(
    program: &CsProgram,
    temp: u64,
    ty: IntType,
    mut state: M,
) -> Result<M, NoMemory>
    requires is_for { M.is_for state (csprogram_tree program.now) }
    requires given { IsOf (csprogram_tree program.now) (code.Input temp ty) }
    ensures is_for { IfOk result (λ m. M.is_for m (csprogram_tree program.now)) }
    ensures sound { IfOk result (λ m. (to : Target) (kept : List (Kept M)) (out : List Alarm) → Sound (HasTyped M.stands (csprogram_tree program.now)) (csprogram_tree program.now) to (code.Input temp ty) (Some state) (Some m) kept out) }
    ensures exact { IfOk result (λ m. (over : ℕ → Bool) (to : Target) (kept : List (Kept M)) (out : List Alarm)
        → Exact (HasTyped M.sharp (csprogram_tree program.now)) over (csprogram_tree program.now) to (code.Input temp ty) (Some state) (Some m) kept out kept out) }
{
    actions_keep_states_typed();
    state.input(temp, ty)?;
    Ok(state)
}

/// Goes on where a condition holds.
pub fn walk_assume<M: MemDomain>(
    program: &CsProgram,
    condition: &CsExpr,
    mut state: M,
) -> Result<Option<M>, NoMemory>
    requires is_for { M.is_for state (csprogram_tree program.now) }
    requires given { IsOf (csprogram_tree program.now) (code.Assume (csexpr_tree condition.now)) }
    ensures is_for { IfOk result (λ after. SomeFor M.is_for (csprogram_tree program.now) after) }
    ensures sound { IfOk result (λ after. (to : Target) (kept : List (Kept M)) (out : List Alarm) → Sound (HasTyped M.stands (csprogram_tree program.now)) (csprogram_tree program.now) to (code.Assume (csexpr_tree condition.now)) (Some state) after kept out) }
    ensures exact { IfOk result (λ after. (over : ℕ → Bool) (to : Target) (kept : List (Kept M)) (out : List Alarm)
        → Exact (HasTyped M.sharp (csprogram_tree program.now)) over (csprogram_tree program.now) to (code.Assume (csexpr_tree condition.now)) (Some state) after kept out kept out) }
{
    match state.assume(condition, true)? {
        Live::Live => Ok(Some(state)),
        Live::Dead => Ok(None),
    }
}

/// A check: an alarm where it may fail, and the states in which it passed.
pub fn walk_check<M: MemDomain>(
    alloc: Global,
    program: &CsProgram,
    check: &CsCheck,
    mut state: M,
    out: &mut Vec<Alarm>,
) -> Result<Option<M>, NoMemory>
    requires is_for { M.is_for state (csprogram_tree program.now) }
    requires given { IsOf (csprogram_tree program.now) (code.Checked (cscheck_tree check.now)) }
    ensures is_for { IfOk result (λ after. SomeFor M.is_for (csprogram_tree program.now) after) }
    ensures sound { IfOk result (λ after. (to : Target) (kept : List (Kept M))
        → Sound (HasTyped M.stands (csprogram_tree program.now)) (csprogram_tree program.now) to (code.Checked (cscheck_tree check.now)) (Some state) after kept out.new.items) }
    ensures exact { IfOk result (λ after. (over : ℕ → Bool) (to : Target) (kept : List (Kept M))
        → Exact (HasTyped M.sharp (csprogram_tree program.now)) over (csprogram_tree program.now) to (code.Checked (cscheck_tree check.now)) (Some state) after kept out.old.items kept out.new.items) }
    ensures lists { OnOk result ((calls : List Place) (at : Place) (wrong : Kind) (operand : Operand) (memory : ObjectMemory)
        → Listed (csprogram_tree program.now) out.old.items calls at wrong operand memory → Listed (csprogram_tree program.now) out.new.items calls at wrong operand memory) }
    ensures gains { OnOk result (Gains (csprogram_tree program.now) (code.Checked (cscheck_tree check.now)) out.old.items out.new.items) }
{
    judge(alloc, program, check, &state, out)?;
    match state.pass(check)? {
        Live::Live => Ok(Some(state)),
        Live::Dead => Ok(None),
    }
}

/// Keeps what a return gives.
pub fn walk_return<M: MemDomain>(
    program: &CsProgram,
    to: Target,
    value: &Option<CsExpr>,
    mut state: M,
    kept: &mut Vec<Kept<M>>,
) -> Result<(), NoMemory>
    requires is_for { M.is_for state (csprogram_tree program.now) }
    requires kept_for { AllFor M.is_for (csprogram_tree program.now) kept.old.items }
    requires target { IsTarget (csprogram_tree program.now) to }
    requires given { IsGivenTo (csprogram_tree program.now) to (option_map csexpr_tree value.now) }
    ensures kept_for { OnOk result (AllFor M.is_for (csprogram_tree program.now) kept.new.items) }
    ensures sound { OnOk result ((out : List Alarm) → Sound (HasTyped M.stands (csprogram_tree program.now)) (csprogram_tree program.now) to (code.Return (option_map csexpr_tree value.now)) (Some state) None kept.new.items out) }
    ensures exact { OnOk result ((over : ℕ → Bool) (out : List Alarm)
        → Exact (HasTyped M.sharp (csprogram_tree program.now)) over (csprogram_tree program.now) to (code.Return (option_map csexpr_tree value.now)) (Some state) None kept.old.items out kept.new.items out) }
    ensures keeps { OnOk result ((w : Ways) (s : State) → KeepsState M.stands kept.old.items w s → KeepsState M.stands kept.new.items w s) }
{
    actions_keep_states_typed();
    give(to, value, &mut state)?;
    keep(kept, Way::Return, state)?;
    Ok(())
}
