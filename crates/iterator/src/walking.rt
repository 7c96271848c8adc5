// The walk.
#![tactic(auto, using(csharp::proofs::CodeTrees::the_code_trees))]

ghost use Rattle.std.specs.Prelude.{◌≡◌, ℕ, [], Bool, true, false, IfOk, OnOk, Option, Some, None};
ghost use Rattle.c_syntax_written.specs.declared.place.Pos.{Pos as Place};
ghost use Rattle.num_api.specs.Told.{Keeps};
ghost use Rattle.csharp.specs.Trees.{cscall_tree, csexpr_tree, csprogram_tree, csstmt_tree, csstmts_from, csstmts_tree};
ghost use Rattle.csharp.specs.Trees as code;
ghost use Rattle.csharp.specs.States.{State};
ghost use Rattle.csharp.specs.Meaning.{beyond};
ghost use Rattle.mem_api.specs.Given.{IsOf};
ghost use Rattle.alarm_claims.specs.Admitted.{Gains};
ghost use Rattle.walk_owes.specs.Owes.{AllFor, Grows, HasTyped, SomeFor, Sound, SoundIf};
ghost use Rattle.walk_owes.specs.Loops.{Reaches, SoundLoop};
ghost use Rattle.walk_owes.specs.Items.{Begins, CoveredAll, HeadsFor, SoundItems};
ghost use Rattle.walk_owes.specs.Heads.{HeadsAmong, IsHead, IsMore, LabelsHave};
ghost use Rattle.walk_owes.specs.Exactly.{Exact, ExactAll, ExactIf, ExactLoop, GoesOn, LastPass, StaysDead};
ghost use Rattle.walk_owes.specs.Walkable.{AreWalkable, IsTarget, IsWalkable};
ghost use Rattle.iterator.specs.Begun.{BeginsOn};

use crate::heads::{next_head, widen_by};
use crate::passes::{Pass, Settled, Turned};
use crate::switches::{Parts, enter_default, part_cases, value_type};
use block_mem::Scalar;
use c_syntax::{Alarm, Numbers};
use csharp::{CsCall, CsExpr, CsProgram, CsStmt, CsStmts};
use csharp_typed_laws::{actions_keep_states_typed, values_are_typed};
use ext_int::Live;
use mem_api::MemDomain;
use num_api::{Ramp, Steps};
use std::alloc::{AllocError as NoMemory, Global};
use walk_acts::{
    give_none, pass_args, walk_assume, walk_check, walk_copy, walk_input, walk_load, walk_return,
    walk_set, walk_store, walk_undefine,
};
use walk_alarms::{add_alarms, prefix};
use walk_kept::{
    Stepped, add_labels, arrive, copy_flow, has_label, keep, keep_all, leave, leave_objects,
    leave_scope, merge_either, step_heads, take_returns,
};
use walk_owes::{Change, Head, Kept, Target, Way};

/// How a walk goes on: turns of a loop that are walked one by one, steps of narrowing, and the ramp of widening.
#[derive(Drop)]
pub struct Settings<'r, U> {
    pub alloc: Global,
    pub unroll: u32,
    pub narrow: u32,
    pub ramp: &'r Ramp<U>,
}

/// The walk of a statement: the set behind it, where it may end.
#[cycle(walk)]
pub fn walk<M: MemDomain, U: Fn(i128) -> Option<i128>, S: Steps>(
    set: &Settings<'_, U>,
    program: &CsProgram,
    depth: u64,
    to: Target,
    a: &CsStmt,
    state: M,
    kept: &mut Vec<Kept<M>>,
    out: &mut Vec<Alarm>,
) -> Result<Option<M>, NoMemory>
    requires ramp { Keeps U.pre U.post set.now.ramp.now S.list }
    requires walkable { IsWalkable (csprogram_tree program.now) depth to (csstmt_tree a.now) }
    requires target { IsTarget (csprogram_tree program.now) to }
    requires is_for { M.is_for state (csprogram_tree program.now) }
    requires kept_for { AllFor M.is_for (csprogram_tree program.now) kept.old.items }
    ensures is_for { IfOk result (λ after. SomeFor M.is_for (csprogram_tree program.now) after) }
    ensures kept_for { OnOk result (AllFor M.is_for (csprogram_tree program.now) kept.new.items) }
    ensures sound { IfOk result (λ after. Sound (HasTyped M.stands (csprogram_tree program.now)) (csprogram_tree program.now) to (csstmt_tree a.now) (Some state) after kept.new.items out.new.items) }
    ensures grows { OnOk result (Grows (HasTyped M.stands (csprogram_tree program.now)) (csprogram_tree program.now) kept.old.items out.old.items kept.new.items out.new.items) }
    ensures gains { OnOk result (Gains (csprogram_tree program.now) (csstmt_tree a.now) out.old.items out.new.items) }
    ensures exact { IfOk result (λ after. Exact (HasTyped M.sharp (csprogram_tree program.now)) (beyond set.now.unroll) (csprogram_tree program.now) to (csstmt_tree a.now) (Some state) after kept.old.items out.old.items kept.new.items out.new.items) }
{
    match a {
        CsStmt::Nothing | CsStmt::Default => Ok(Some(state)),
        CsStmt::Label { .. } | CsStmt::Case { .. } => Ok(Some(state)),
        CsStmt::Set { temp, value } => {
            let after = walk_set(program, *temp, value, state)?;
            Ok(Some(after))
        }
        CsStmt::Load { temp, ty, address } => {
            let after = walk_load(program, *temp, *ty, address, state)?;
            Ok(Some(after))
        }
        CsStmt::Store { ty, address, value } => {
            let after = walk_store(program, *ty, address, value, state)?;
            Ok(Some(after))
        }
        CsStmt::CopyBytes {
            size,
            to: place,
            from,
        } => {
            let after = walk_copy(program, *size, place, from, state)?;
            Ok(Some(after))
        }
        CsStmt::Undefine { object } => {
            let after = walk_undefine(program, *object, state)?;
            Ok(Some(after))
        }
        CsStmt::Input { temp, ty } => {
            let after = walk_input(program, *temp, *ty, state)?;
            Ok(Some(after))
        }
        CsStmt::Checked { check } => {
            let after = walk_check(set.alloc, program, check, state, out)?;
            Ok(after)
        }
        CsStmt::Assume { condition } => {
            let after = walk_assume(program, condition, state)?;
            Ok(after)
        }
        CsStmt::Sequence { first, second } => {
            let after = walk_sequence::<M, U, S>(
                set, program, depth, to, first, second, state, kept, out,
            )?;
            Ok(after)
        }
        CsStmt::If {
            condition,
            then,
            otherwise,
        } => {
            let after = walk_if::<M, U, S>(
                set, program, depth, to, condition, then, otherwise, state, kept, out,
            )?;
            Ok(after)
        }
        CsStmt::Loop { body, .. } => {
            walk_loop::<M, U, S>(set, program, depth, to, body, state, kept, out)?;
            Ok(None)
        }
        CsStmt::Block { body } => {
            let after = walk_block::<M, U, S>(set, program, depth, to, body, state, kept, out)?;
            Ok(after)
        }
        CsStmt::Exit { level } => {
            keep(kept, Way::Exit(*level), state)?;
            Ok(None)
        }
        CsStmt::Goto { label } => {
            keep(kept, Way::Goto(*label), state)?;
            Ok(None)
        }
        CsStmt::Return { value } => {
            walk_return(program, to, value, state, kept)?;
            Ok(None)
        }
        CsStmt::Call { call } => {
            let after = walk_call::<M, U, S>(set, program, depth, to, call, state, kept, out)?;
            Ok(after)
        }
        CsStmt::Scope { objects, items } => {
            let after = walk_scope::<M, U, S>(
                set, program, depth, to, objects, items, state, kept, out,
            )?;
            Ok(after)
        }
        CsStmt::Switch {
            value,
            objects,
            items,
        } => {
            let after = walk_switch::<M, U, S>(
                set, program, depth, to, value, objects, items, state, kept, out,
            )?;
            Ok(after)
        }
    }
}

// Two statements, the second behind the first.
#[cycle(walk)]
fn walk_sequence<M: MemDomain, U: Fn(i128) -> Option<i128>, S: Steps>(
    set: &Settings<'_, U>,
    program: &CsProgram,
    depth: u64,
    to: Target,
    first: &CsStmt,
    second: &CsStmt,
    state: M,
    kept: &mut Vec<Kept<M>>,
    out: &mut Vec<Alarm>,
) -> Result<Option<M>, NoMemory>
    requires ramp { Keeps U.pre U.post set.now.ramp.now S.list }
    requires walkable { IsWalkable (csprogram_tree program.now) depth to (code.Sequence (csstmt_tree first.now) (csstmt_tree second.now)) }
    requires target { IsTarget (csprogram_tree program.now) to }
    requires is_for { M.is_for state (csprogram_tree program.now) }
    requires kept_for { AllFor M.is_for (csprogram_tree program.now) kept.old.items }
    ensures is_for { IfOk result (λ after. SomeFor M.is_for (csprogram_tree program.now) after) }
    ensures kept_for { OnOk result (AllFor M.is_for (csprogram_tree program.now) kept.new.items) }
    ensures sound { IfOk result (λ after. Sound (HasTyped M.stands (csprogram_tree program.now)) (csprogram_tree program.now) to (code.Sequence (csstmt_tree first.now) (csstmt_tree second.now)) (Some state) after kept.new.items out.new.items) }
    ensures grows { OnOk result (Grows (HasTyped M.stands (csprogram_tree program.now)) (csprogram_tree program.now) kept.old.items out.old.items kept.new.items out.new.items) }
    ensures gains { OnOk result (Gains (csprogram_tree program.now) (code.Sequence (csstmt_tree first.now) (csstmt_tree second.now)) out.old.items out.new.items) }
    ensures exact { IfOk result (λ after. Exact (HasTyped M.sharp (csprogram_tree program.now)) (beyond set.now.unroll) (csprogram_tree program.now) to (code.Sequence (csstmt_tree first.now) (csstmt_tree second.now)) (Some state) after kept.old.items out.old.items kept.new.items out.new.items) }
{
    let mid = walk::<M, U, S>(set, program, depth, to, first, state, kept, out)?;
    let after = walk_live::<M, U, S>(set, program, depth, to, second, mid, kept, out)?;
    Ok(after)
}

// A choice: each side from the states in which its condition holds.
#[cycle(walk)]
fn walk_if<M: MemDomain, U: Fn(i128) -> Option<i128>, S: Steps>(
    set: &Settings<'_, U>,
    program: &CsProgram,
    depth: u64,
    to: Target,
    condition: &CsExpr,
    then: &CsStmt,
    otherwise: &CsStmt,
    state: M,
    kept: &mut Vec<Kept<M>>,
    out: &mut Vec<Alarm>,
) -> Result<Option<M>, NoMemory>
    requires ramp { Keeps U.pre U.post set.now.ramp.now S.list }
    requires walkable { IsWalkable (csprogram_tree program.now) depth to (code.If (csexpr_tree condition.now) (csstmt_tree then.now) (csstmt_tree otherwise.now)) }
    requires target { IsTarget (csprogram_tree program.now) to }
    requires is_for { M.is_for state (csprogram_tree program.now) }
    requires kept_for { AllFor M.is_for (csprogram_tree program.now) kept.old.items }
    ensures is_for { IfOk result (λ after. SomeFor M.is_for (csprogram_tree program.now) after) }
    ensures kept_for { OnOk result (AllFor M.is_for (csprogram_tree program.now) kept.new.items) }
    ensures sound { IfOk result (λ after. Sound (HasTyped M.stands (csprogram_tree program.now)) (csprogram_tree program.now) to (code.If (csexpr_tree condition.now) (csstmt_tree then.now) (csstmt_tree otherwise.now)) (Some state) after kept.new.items out.new.items) }
    ensures grows { OnOk result (Grows (HasTyped M.stands (csprogram_tree program.now)) (csprogram_tree program.now) kept.old.items out.old.items kept.new.items out.new.items) }
    ensures gains { OnOk result (Gains (csprogram_tree program.now) (code.If (csexpr_tree condition.now) (csstmt_tree then.now) (csstmt_tree otherwise.now)) out.old.items out.new.items) }
    ensures exact { IfOk result (λ after. Exact (HasTyped M.sharp (csprogram_tree program.now)) (beyond set.now.unroll) (csprogram_tree program.now) to (code.If (csexpr_tree condition.now) (csstmt_tree then.now) (csstmt_tree otherwise.now)) (Some state) after kept.old.items out.old.items kept.new.items out.new.items) }
{
    let other = state.copy()?;
    let first = walk_side::<M, U, S>(
        set, program, depth, to, condition, true, then, state, kept, out,
    )?;
    let second = walk_side::<M, U, S>(
        set, program, depth, to, condition, false, otherwise, other, kept, out,
    )?;
    let after = merge_either(first, second)?;
    Ok(after)
}

// A block, behind which its exits go on.
#[cycle(walk)]
fn walk_block<M: MemDomain, U: Fn(i128) -> Option<i128>, S: Steps>(
    set: &Settings<'_, U>,
    program: &CsProgram,
    depth: u64,
    to: Target,
    body: &CsStmt,
    state: M,
    kept: &mut Vec<Kept<M>>,
    out: &mut Vec<Alarm>,
) -> Result<Option<M>, NoMemory>
    requires ramp { Keeps U.pre U.post set.now.ramp.now S.list }
    requires walkable { IsWalkable (csprogram_tree program.now) depth to (code.Block (csstmt_tree body.now)) }
    requires target { IsTarget (csprogram_tree program.now) to }
    requires is_for { M.is_for state (csprogram_tree program.now) }
    requires kept_for { AllFor M.is_for (csprogram_tree program.now) kept.old.items }
    ensures is_for { IfOk result (λ after. SomeFor M.is_for (csprogram_tree program.now) after) }
    ensures kept_for { OnOk result (AllFor M.is_for (csprogram_tree program.now) kept.new.items) }
    ensures sound { IfOk result (λ after. Sound (HasTyped M.stands (csprogram_tree program.now)) (csprogram_tree program.now) to (code.Block (csstmt_tree body.now)) (Some state) after kept.new.items out.new.items) }
    ensures grows { OnOk result (Grows (HasTyped M.stands (csprogram_tree program.now)) (csprogram_tree program.now) kept.old.items out.old.items kept.new.items out.new.items) }
    ensures gains { OnOk result (Gains (csprogram_tree program.now) (code.Block (csstmt_tree body.now)) out.old.items out.new.items) }
    ensures exact { IfOk result (λ after. Exact (HasTyped M.sharp (csprogram_tree program.now)) (beyond set.now.unroll) (csprogram_tree program.now) to (code.Block (csstmt_tree body.now)) (Some state) after kept.old.items out.old.items kept.new.items out.new.items) }
{
    let mut inner = Vec::new(set.alloc);
    let mid = walk::<M, U, S>(set, program, depth, to, body, state, &mut inner, out)?;
    let after = leave(inner, mid, kept)?;
    Ok(after)
}

// The walk of a statement from a set that may be there.
#[cycle(walk)]
fn walk_live<M: MemDomain, U: Fn(i128) -> Option<i128>, S: Steps>(
    set: &Settings<'_, U>,
    program: &CsProgram,
    depth: u64,
    to: Target,
    a: &CsStmt,
    flow: Option<M>,
    kept: &mut Vec<Kept<M>>,
    out: &mut Vec<Alarm>,
) -> Result<Option<M>, NoMemory>
    requires ramp { Keeps U.pre U.post set.now.ramp.now S.list }
    requires walkable { IsWalkable (csprogram_tree program.now) depth to (csstmt_tree a.now) }
    requires target { IsTarget (csprogram_tree program.now) to }
    requires is_for { SomeFor M.is_for (csprogram_tree program.now) flow }
    requires kept_for { AllFor M.is_for (csprogram_tree program.now) kept.old.items }
    ensures is_for { IfOk result (λ after. SomeFor M.is_for (csprogram_tree program.now) after) }
    ensures kept_for { OnOk result (AllFor M.is_for (csprogram_tree program.now) kept.new.items) }
    ensures sound { IfOk result (λ after. Sound (HasTyped M.stands (csprogram_tree program.now)) (csprogram_tree program.now) to (csstmt_tree a.now) flow after kept.new.items out.new.items) }
    ensures grows { OnOk result (Grows (HasTyped M.stands (csprogram_tree program.now)) (csprogram_tree program.now) kept.old.items out.old.items kept.new.items out.new.items) }
    ensures gains { OnOk result (Gains (csprogram_tree program.now) (csstmt_tree a.now) out.old.items out.new.items) }
    ensures exact { IfOk result (λ after. Exact (HasTyped M.sharp (csprogram_tree program.now)) (beyond set.now.unroll) (csprogram_tree program.now) to (csstmt_tree a.now) flow after kept.old.items out.old.items kept.new.items out.new.items) }
    ensures stays { IfOk result (λ after. StaysDead flow after kept.old.items out.old.items kept.new.items out.new.items) }
{
    match flow {
        None => Ok(None),
        Some(state) => {
            let after = walk::<M, U, S>(set, program, depth, to, a, state, kept, out)?;
            Ok(after)
        }
    }
}

// One side of a choice.
#[cycle(walk)]
fn walk_side<M: MemDomain, U: Fn(i128) -> Option<i128>, S: Steps>(
    set: &Settings<'_, U>,
    program: &CsProgram,
    depth: u64,
    to: Target,
    condition: &CsExpr,
    truth: bool,
    a: &CsStmt,
    mut state: M,
    kept: &mut Vec<Kept<M>>,
    out: &mut Vec<Alarm>,
) -> Result<Option<M>, NoMemory>
    requires ramp { Keeps U.pre U.post set.now.ramp.now S.list }
    requires walkable { IsWalkable (csprogram_tree program.now) depth to (csstmt_tree a.now) }
    requires target { IsTarget (csprogram_tree program.now) to }
    requires is_for { M.is_for state (csprogram_tree program.now) }
    requires kept_for { AllFor M.is_for (csprogram_tree program.now) kept.old.items }
    requires given { IsOf (csprogram_tree program.now) (code.Assume (csexpr_tree condition.now)) }
    ensures is_for { IfOk result (λ after. SomeFor M.is_for (csprogram_tree program.now) after) }
    ensures kept_for { OnOk result (AllFor M.is_for (csprogram_tree program.now) kept.new.items) }
    ensures sound { IfOk result (λ after. SoundIf (HasTyped M.stands (csprogram_tree program.now)) (csprogram_tree program.now) to (csexpr_tree condition.now) truth (csstmt_tree a.now) state after kept.new.items out.new.items) }
    ensures grows { OnOk result (Grows (HasTyped M.stands (csprogram_tree program.now)) (csprogram_tree program.now) kept.old.items out.old.items kept.new.items out.new.items) }
    ensures gains { OnOk result (Gains (csprogram_tree program.now) (csstmt_tree a.now) out.old.items out.new.items) }
    ensures exact { IfOk result (λ after. ExactIf (HasTyped M.sharp (csprogram_tree program.now)) (beyond set.now.unroll) (csprogram_tree program.now) to (csexpr_tree condition.now) truth (csstmt_tree a.now) state after kept.old.items out.old.items kept.new.items out.new.items) }
{
    match state.assume(condition, truth)? {
        Live::Live => {
            let after = walk::<M, U, S>(set, program, depth, to, a, state, kept, out)?;
            Ok(after)
        }
        Live::Dead => Ok(None),
    }
}

// A loop: some turns one by one, and then all that follow at once.
#[cycle(walk)]
fn walk_loop<M: MemDomain, U: Fn(i128) -> Option<i128>, S: Steps>(
    set: &Settings<'_, U>,
    program: &CsProgram,
    depth: u64,
    to: Target,
    body: &CsStmt,
    state: M,
    kept: &mut Vec<Kept<M>>,
    out: &mut Vec<Alarm>,
) -> Result<(), NoMemory>
    requires ramp { Keeps U.pre U.post set.now.ramp.now S.list }
    requires walkable { IsWalkable (csprogram_tree program.now) depth to (csstmt_tree body.now) }
    requires target { IsTarget (csprogram_tree program.now) to }
    requires is_for { M.is_for state (csprogram_tree program.now) }
    requires kept_for { AllFor M.is_for (csprogram_tree program.now) kept.old.items }
    ensures kept_for { OnOk result (AllFor M.is_for (csprogram_tree program.now) kept.new.items) }
    ensures sound { OnOk result ((at : Place) → SoundLoop (HasTyped M.stands (csprogram_tree program.now)) (csprogram_tree program.now) to at (csstmt_tree body.now) state kept.new.items out.new.items) }
    ensures grows { OnOk result (Grows (HasTyped M.stands (csprogram_tree program.now)) (csprogram_tree program.now) kept.old.items out.old.items kept.new.items out.new.items) }
    ensures gains { OnOk result (Gains (csprogram_tree program.now) (csstmt_tree body.now) out.old.items out.new.items) }
    ensures exact { OnOk result ((at : Place) → ExactLoop (HasTyped M.sharp (csprogram_tree program.now)) (beyond set.now.unroll) (csprogram_tree program.now) to at (csstmt_tree body.now) 0 state kept.old.items out.old.items kept.new.items out.new.items) }
{
    let mut head = state;
    let unroll = set.unroll;
    let mut turns: u32 = 0;
    while turns < unroll {
        match walk::<M, U, S>(set, program, depth, to, body, head, kept, out)? {
            None => return Ok(()),
            Some(next) => head = next,
        }
        turns += 1;
    }
    walk_rest::<M, U, S>(set, program, depth, to, body, head, kept, out)?;
    Ok(())
}

// All turns from a set on: a set that a turn stays in, some smaller ones, and what the turn from the last comes to.
#[cycle(walk)]
fn walk_rest<M: MemDomain, U: Fn(i128) -> Option<i128>, S: Steps>(
    set: &Settings<'_, U>,
    program: &CsProgram,
    depth: u64,
    to: Target,
    body: &CsStmt,
    entry: M,
    kept: &mut Vec<Kept<M>>,
    out: &mut Vec<Alarm>,
) -> Result<(), NoMemory>
    requires ramp { Keeps U.pre U.post set.now.ramp.now S.list }
    requires walkable { IsWalkable (csprogram_tree program.now) depth to (csstmt_tree body.now) }
    requires target { IsTarget (csprogram_tree program.now) to }
    requires is_for { M.is_for entry (csprogram_tree program.now) }
    requires kept_for { AllFor M.is_for (csprogram_tree program.now) kept.old.items }
    ensures kept_for { OnOk result (AllFor M.is_for (csprogram_tree program.now) kept.new.items) }
    ensures sound { OnOk result ((at : Place) → SoundLoop (HasTyped M.stands (csprogram_tree program.now)) (csprogram_tree program.now) to at (csstmt_tree body.now) entry kept.new.items out.new.items) }
    ensures grows { OnOk result (Grows (HasTyped M.stands (csprogram_tree program.now)) (csprogram_tree program.now) kept.old.items out.old.items kept.new.items out.new.items) }
    ensures gains { OnOk result (Gains (csprogram_tree program.now) (csstmt_tree body.now) out.old.items out.new.items) }
    ensures exact { OnOk result ((at : Place) → ExactLoop (HasTyped M.sharp (csprogram_tree program.now)) (beyond set.now.unroll) (csprogram_tree program.now) to at (csstmt_tree body.now) set.now.unroll entry kept.old.items out.old.items kept.new.items out.new.items) }
{
    let start = entry.copy()?;
    let turned = settle::<M, U, S>(set, program, depth, to, body, start)?;
    let pass = narrow::<M, U, S>(set, program, depth, to, body, &entry, turned)?;
    let Pass {
        after: _,
        kept: inner,
        out: found,
    } = pass;
    keep_all(inner, kept)?;
    add_alarms(found, out)?;
    Ok(())
}

// A set that has all that turns from the given one lead to, and what the turn from it comes to, which stays in it.
#[cycle(walk)]
fn settle<M: MemDomain, U: Fn(i128) -> Option<i128>, S: Steps>(
    set: &Settings<'_, U>,
    program: &CsProgram,
    depth: u64,
    to: Target,
    body: &CsStmt,
    mut head: M,
) -> Result<Turned<M>, NoMemory>
    requires ramp { Keeps U.pre U.post set.now.ramp.now S.list }
    requires walkable { IsWalkable (csprogram_tree program.now) depth to (csstmt_tree body.now) }
    requires target { IsTarget (csprogram_tree program.now) to }
    requires is_for { M.is_for head (csprogram_tree program.now) }
    ensures is_for { IfOk result (λ t. M.is_for t.head (csprogram_tree program.now)) }
    ensures pass_for { IfOk result (λ t. SomeFor M.is_for (csprogram_tree program.now) t.pass.after × AllFor M.is_for (csprogram_tree program.now) t.pass.kept.items) }
    ensures reaches { IfOk result (λ t. Reaches (HasTyped M.stands (csprogram_tree program.now)) (csprogram_tree program.now) (csstmt_tree body.now) head t.head) }
    ensures sound { IfOk result (λ t. Sound (HasTyped M.stands (csprogram_tree program.now)) (csprogram_tree program.now) to (csstmt_tree body.now) (Some t.head) t.pass.after t.pass.kept.items t.pass.out.items) }
    ensures gains { IfOk result (λ t. Gains (csprogram_tree program.now) (csstmt_tree body.now) [] t.pass.out.items) }
    ensures last { IfOk result (λ t. LastPass (HasTyped M.sharp (csprogram_tree program.now)) (beyond set.now.unroll) (csprogram_tree program.now) to (csstmt_tree body.now) head t.pass.after t.pass.kept.items t.pass.out.items) }
{
    loop {
        let pass = turn_from::<M, U, S>(set, program, depth, to, body, &head)?;
        if !widen_by::<M, U, S>(&mut head, &pass.after, set.ramp)? {
            return Ok(Turned { head, pass });
        }
    }
}

// A turn from a set, with what leaves it and its alarms apart.
#[cycle(walk)]
fn turn_from<M: MemDomain, U: Fn(i128) -> Option<i128>, S: Steps>(
    set: &Settings<'_, U>,
    program: &CsProgram,
    depth: u64,
    to: Target,
    body: &CsStmt,
    head: &M,
) -> Result<Pass<M>, NoMemory>
    requires ramp { Keeps U.pre U.post set.now.ramp.now S.list }
    requires walkable { IsWalkable (csprogram_tree program.now) depth to (csstmt_tree body.now) }
    requires target { IsTarget (csprogram_tree program.now) to }
    requires is_for { M.is_for head.now (csprogram_tree program.now) }
    ensures pass_for { IfOk result (λ p. SomeFor M.is_for (csprogram_tree program.now) p.after × AllFor M.is_for (csprogram_tree program.now) p.kept.items) }
    ensures sound { IfOk result (λ p. Sound (HasTyped M.stands (csprogram_tree program.now)) (csprogram_tree program.now) to (csstmt_tree body.now) (Some head.now) p.after p.kept.items p.out.items) }
    ensures gains { IfOk result (λ p. Gains (csprogram_tree program.now) (csstmt_tree body.now) [] p.out.items) }
    ensures exact { IfOk result (λ p. Exact (HasTyped M.sharp (csprogram_tree program.now)) (beyond set.now.unroll) (csprogram_tree program.now) to (csstmt_tree body.now) (Some head.now) p.after [] [] p.kept.items p.out.items) }
{
    let mut kept = Vec::new(set.alloc);
    let mut out = Vec::new(set.alloc);
    let start = head.copy()?;
    let after = walk::<M, U, S>(set, program, depth, to, body, start, &mut kept, &mut out)?;
    Ok(Pass { after, kept, out })
}

// Smaller sets that still have all that turns from the entry lead to, and what a turn from the last comes to.
#[cycle(walk)]
fn narrow<M: MemDomain, U: Fn(i128) -> Option<i128>, S: Steps>(
    set: &Settings<'_, U>,
    program: &CsProgram,
    depth: u64,
    to: Target,
    body: &CsStmt,
    entry: &M,
    turned: Turned<M>,
) -> Result<Pass<M>, NoMemory>
    requires ramp { Keeps U.pre U.post set.now.ramp.now S.list }
    requires walkable { IsWalkable (csprogram_tree program.now) depth to (csstmt_tree body.now) }
    requires target { IsTarget (csprogram_tree program.now) to }
    requires entry_for { M.is_for entry.now (csprogram_tree program.now) }
    requires is_for { M.is_for turned.head (csprogram_tree program.now) }
    requires pass_for { SomeFor M.is_for (csprogram_tree program.now) turned.pass.after × AllFor M.is_for (csprogram_tree program.now) turned.pass.kept.items }
    requires reaches { Reaches (HasTyped M.stands (csprogram_tree program.now)) (csprogram_tree program.now) (csstmt_tree body.now) entry.now turned.head }
    requires sound { Sound (HasTyped M.stands (csprogram_tree program.now)) (csprogram_tree program.now) to (csstmt_tree body.now) (Some turned.head) turned.pass.after turned.pass.kept.items turned.pass.out.items }
    requires gains { Gains (csprogram_tree program.now) (csstmt_tree body.now) [] turned.pass.out.items }
    requires last { LastPass (HasTyped M.sharp (csprogram_tree program.now)) (beyond set.now.unroll) (csprogram_tree program.now) to (csstmt_tree body.now) entry.now turned.pass.after turned.pass.kept.items turned.pass.out.items }
    ensures kept_for { IfOk result (λ p. AllFor M.is_for (csprogram_tree program.now) p.kept.items) }
    ensures sound { IfOk result (λ p. (at : Place) → SoundLoop (HasTyped M.stands (csprogram_tree program.now)) (csprogram_tree program.now) to at (csstmt_tree body.now) entry.now p.kept.items p.out.items) }
    ensures gains { IfOk result (λ p. Gains (csprogram_tree program.now) (csstmt_tree body.now) [] p.out.items) }
    ensures last { IfOk result (λ p. LastPass (HasTyped M.sharp (csprogram_tree program.now)) (beyond set.now.unroll) (csprogram_tree program.now) to (csstmt_tree body.now) entry.now p.after p.kept.items p.out.items) }
{
    let Turned { mut head, mut pass } = turned;
    let most = set.narrow;
    let mut steps: u32 = 0;
    while steps < most {
        let next = next_head(entry, &pass.after)?;
        if next.covers(&head)? {
            return Ok(pass);
        }
        pass = turn_from::<M, U, S>(set, program, depth, to, body, &next)?;
        head = next;
        steps += 1;
    }
    Ok(pass)
}

// A scope: its objects live while its items are walked, and end at each way out.
#[cycle(walk)]
fn walk_scope<M: MemDomain, U: Fn(i128) -> Option<i128>, S: Steps>(
    set: &Settings<'_, U>,
    program: &CsProgram,
    depth: u64,
    to: Target,
    objects: &Numbers,
    items: &CsStmts,
    mut state: M,
    kept: &mut Vec<Kept<M>>,
    out: &mut Vec<Alarm>,
) -> Result<Option<M>, NoMemory>
    requires ramp { Keeps U.pre U.post set.now.ramp.now S.list }
    requires walkable { IsWalkable (csprogram_tree program.now) depth to (code.Scope objects.now (csstmts_tree items.now)) }
    requires target { IsTarget (csprogram_tree program.now) to }
    requires is_for { M.is_for state (csprogram_tree program.now) }
    requires kept_for { AllFor M.is_for (csprogram_tree program.now) kept.old.items }
    ensures is_for { IfOk result (λ after. SomeFor M.is_for (csprogram_tree program.now) after) }
    ensures kept_for { OnOk result (AllFor M.is_for (csprogram_tree program.now) kept.new.items) }
    ensures sound { IfOk result (λ after. Sound (HasTyped M.stands (csprogram_tree program.now)) (csprogram_tree program.now) to (code.Scope objects.now (csstmts_tree items.now)) (Some state) after kept.new.items out.new.items) }
    ensures grows { OnOk result (Grows (HasTyped M.stands (csprogram_tree program.now)) (csprogram_tree program.now) kept.old.items out.old.items kept.new.items out.new.items) }
    ensures gains { OnOk result (Gains (csprogram_tree program.now) (code.Scope objects.now (csstmts_tree items.now)) out.old.items out.new.items) }
    ensures exact { IfOk result (λ after. Exact (HasTyped M.sharp (csprogram_tree program.now)) (beyond set.now.unroll) (csprogram_tree program.now) to (code.Scope objects.now (csstmts_tree items.now)) (Some state) after kept.old.items out.old.items kept.new.items out.new.items) }
{
    actions_keep_states_typed();
    let names = objects.as_slice();
    state.enter(names)?;
    let heads = Vec::new(set.alloc);
    let pass = walk_all::<M, U, S>(
        set,
        program,
        depth,
        to,
        items.as_slice(),
        heads,
        Some(state),
    )?;
    let Pass {
        after: mid,
        kept: inner,
        out: found,
    } = pass;
    add_alarms(found, out)?;
    let after = leave_objects(names, mid)?;
    leave_scope(names, inner, kept)?;
    Ok(after)
}

// A switch: each case from the states in which the value is its number, and the default from those that are left.
#[cycle(walk)]
fn walk_switch<M: MemDomain, U: Fn(i128) -> Option<i128>, S: Steps>(
    set: &Settings<'_, U>,
    program: &CsProgram,
    depth: u64,
    to: Target,
    value: &CsExpr,
    objects: &Numbers,
    items: &CsStmts,
    state: M,
    kept: &mut Vec<Kept<M>>,
    out: &mut Vec<Alarm>,
) -> Result<Option<M>, NoMemory>
    requires ramp { Keeps U.pre U.post set.now.ramp.now S.list }
    requires walkable { IsWalkable (csprogram_tree program.now) depth to (code.Switch (csexpr_tree value.now) objects.now (csstmts_tree items.now)) }
    requires target { IsTarget (csprogram_tree program.now) to }
    requires is_for { M.is_for state (csprogram_tree program.now) }
    requires kept_for { AllFor M.is_for (csprogram_tree program.now) kept.old.items }
    ensures is_for { IfOk result (λ after. SomeFor M.is_for (csprogram_tree program.now) after) }
    ensures kept_for { OnOk result (AllFor M.is_for (csprogram_tree program.now) kept.new.items) }
    ensures sound { IfOk result (λ after. Sound (HasTyped M.stands (csprogram_tree program.now)) (csprogram_tree program.now) to (code.Switch (csexpr_tree value.now) objects.now (csstmts_tree items.now)) (Some state) after kept.new.items out.new.items) }
    ensures grows { OnOk result (Grows (HasTyped M.stands (csprogram_tree program.now)) (csprogram_tree program.now) kept.old.items out.old.items kept.new.items out.new.items) }
    ensures gains { OnOk result (Gains (csprogram_tree program.now) (code.Switch (csexpr_tree value.now) objects.now (csstmts_tree items.now)) out.old.items out.new.items) }
    ensures exact { IfOk result (λ after. Exact (HasTyped M.sharp (csprogram_tree program.now)) (beyond set.now.unroll) (csprogram_tree program.now) to (code.Switch (csexpr_tree value.now) objects.now (csstmts_tree items.now)) (Some state) after kept.old.items out.old.items kept.new.items out.new.items) }
{
    actions_keep_states_typed();
    values_are_typed();
    let Some(Scalar::Int(ty)) = value_type(program, value) else {
        return Ok(None);
    };
    let names = objects.as_slice();
    let cases = part_cases(
        set.alloc,
        program,
        value,
        ty,
        names,
        items.as_slice(),
        state,
    )?;
    let Parts {
        heads,
        left: behind,
    } = enter_default(program, names, items.as_slice(), cases)?;
    let pass = walk_all::<M, U, S>(set, program, depth, to, items.as_slice(), heads, None)?;
    let Pass {
        after: mid,
        kept: inner,
        out: found,
    } = pass;
    add_alarms(found, out)?;
    let ended = leave_objects(names, mid)?;
    leave_scope(names, inner, kept)?;
    let after = merge_either(ended, behind)?;
    Ok(after)
}

// Items with all gotos to their labels: passes, until one is closed.
#[cycle(walk)]
fn walk_all<M: MemDomain, U: Fn(i128) -> Option<i128>, S: Steps>(
    set: &Settings<'_, U>,
    program: &CsProgram,
    depth: u64,
    to: Target,
    items: &[CsStmt],
    mut heads: Vec<Head<M>>,
    flow: Option<M>,
) -> Result<Pass<M>, NoMemory>
    requires ramp { Keeps U.pre U.post set.now.ramp.now S.list }
    requires walkable { AreWalkable (csprogram_tree program.now) depth to (csstmts_from items.now) }
    requires target { IsTarget (csprogram_tree program.now) to }
    requires flow_for { SomeFor M.is_for (csprogram_tree program.now) flow }
    requires heads_for { HeadsFor M.is_for (csprogram_tree program.now) heads.items }
    requires no_labels { (l : ℕ) → IsHead heads.items l → ⊥ }
    ensures is_for { IfOk result (λ p. SomeFor M.is_for (csprogram_tree program.now) p.after × AllFor M.is_for (csprogram_tree program.now) p.kept.items) }
    ensures sound { IfOk result (λ p. CoveredAll (HasTyped M.stands (csprogram_tree program.now)) (csprogram_tree program.now) to (csstmts_from items.now) (Begins (HasTyped M.stands (csprogram_tree program.now)) (csstmts_from items.now) heads.items flow) p.after p.kept.items p.out.items) }
    ensures gains { IfOk result (λ p. Gains (csprogram_tree program.now) (code.Scope [] (csstmts_from items.now)) [] p.out.items) }
    ensures exact { IfOk result (λ p. ExactAll (HasTyped M.sharp (csprogram_tree program.now)) (beyond set.now.unroll) (csprogram_tree program.now) to (csstmts_from items.now) heads.items flow p.after p.kept.items p.out.items) }
{
    if !has_label(items) {
        let pass = one_pass::<M, U, S>(set, program, depth, to, items, heads.as_slice(), flow)?;
        return Ok(pass);
    }
    add_labels(items, &mut heads)?;
    loop {
        match settle_heads::<M, U, S>(set, program, depth, to, items, heads, &flow)? {
            Settled::Closed(pass) => return Ok(pass),
            Settled::More(more) => heads = more,
        }
    }
}

// Passes that widen heads, until one is closed or a label gets its first head.
#[cycle(walk)]
fn settle_heads<M: MemDomain, U: Fn(i128) -> Option<i128>, S: Steps>(
    set: &Settings<'_, U>,
    program: &CsProgram,
    depth: u64,
    to: Target,
    items: &[CsStmt],
    mut heads: Vec<Head<M>>,
    flow: &Option<M>,
) -> Result<Settled<M>, NoMemory>
    requires ramp { Keeps U.pre U.post set.now.ramp.now S.list }
    requires walkable { AreWalkable (csprogram_tree program.now) depth to (csstmts_from items.now) }
    requires target { IsTarget (csprogram_tree program.now) to }
    requires flow_for { SomeFor M.is_for (csprogram_tree program.now) flow.now }
    requires heads_for { HeadsFor M.is_for (csprogram_tree program.now) heads.items }
    requires labels { LabelsHave (csstmts_from items.now) heads.items }
    requires among { HeadsAmong (csstmts_from items.now) heads.items }
    ensures is_for { IfOk result (λ r. (p : _) → r ≡ Settled.Closed p → SomeFor M.is_for (csprogram_tree program.now) p.after × AllFor M.is_for (csprogram_tree program.now) p.kept.items) }
    ensures sound { IfOk result (λ r. (p : _) → r ≡ Settled.Closed p
        → CoveredAll (HasTyped M.stands (csprogram_tree program.now)) (csprogram_tree program.now) to (csstmts_from items.now)
        (Begins (HasTyped M.stands (csprogram_tree program.now)) (csstmts_from items.now) heads.items flow.now) p.after p.kept.items p.out.items) }
    ensures gains { IfOk result (λ r. (p : _) → r ≡ Settled.Closed p → Gains (csprogram_tree program.now) (code.Scope [] (csstmts_from items.now)) [] p.out.items) }
    ensures more { IfOk result (λ r. (h : _) → r ≡ Settled.More h → IsMore M.is_for M.stands (csprogram_tree program.now) (csstmts_from items.now) heads.items h.items) }
    ensures exact { IfOk result (λ r. (p : _) → r ≡ Settled.Closed p
        → ExactAll (HasTyped M.sharp (csprogram_tree program.now)) (beyond set.now.unroll) (csprogram_tree program.now) to (csstmts_from items.now) heads.items flow.now p.after p.kept.items p.out.items) }
    ensures begins { IfOk result (λ r. (h : _) → r ≡ Settled.More h
        → BeginsOn (HasTyped M.sharp (csprogram_tree program.now)) (beyond set.now.unroll) (csprogram_tree program.now) (csstmts_from items.now) heads.items flow.now h.items) }
{
    loop {
        let start = copy_flow(flow)?;
        let pass = one_pass::<M, U, S>(set, program, depth, to, items, heads.as_slice(), start)?;
        let Pass { after, kept, out } = pass;
        let Stepped {
            heads: next,
            kept: left,
            change,
        } = step_heads::<M, U, S>(set.alloc, set.ramp, heads, kept)?;
        match change {
            Change::Same => {
                return Ok(Settled::Closed(Pass {
                    after,
                    kept: left,
                    out,
                }));
            }
            Change::New => return Ok(Settled::More(next)),
            Change::Wider => heads = next,
        }
    }
}

// One pass over items.
#[cycle(walk)]
fn one_pass<M: MemDomain, U: Fn(i128) -> Option<i128>, S: Steps>(
    set: &Settings<'_, U>,
    program: &CsProgram,
    depth: u64,
    to: Target,
    items: &[CsStmt],
    heads: &[Head<M>],
    flow: Option<M>,
) -> Result<Pass<M>, NoMemory>
    requires ramp { Keeps U.pre U.post set.now.ramp.now S.list }
    requires walkable { AreWalkable (csprogram_tree program.now) depth to (csstmts_from items.now) }
    requires target { IsTarget (csprogram_tree program.now) to }
    requires flow_for { SomeFor M.is_for (csprogram_tree program.now) flow }
    requires heads_for { HeadsFor M.is_for (csprogram_tree program.now) heads.now }
    ensures is_for { IfOk result (λ p. SomeFor M.is_for (csprogram_tree program.now) p.after × AllFor M.is_for (csprogram_tree program.now) p.kept.items) }
    ensures sound { IfOk result (λ p. (gone : _) × SoundItems (HasTyped M.stands (csprogram_tree program.now)) (csprogram_tree program.now) to (csstmts_from items.now) heads.now flow [] p.after gone p.kept.items p.out.items) }
    ensures gains { IfOk result (λ p. Gains (csprogram_tree program.now) (code.Scope [] (csstmts_from items.now)) [] p.out.items) }
    ensures goes { IfOk result (λ p. GoesOn (HasTyped M.sharp (csprogram_tree program.now)) (beyond set.now.unroll) (csprogram_tree program.now) to (csstmts_from items.now) code.none heads.now flow p.after p.kept.items p.out.items) }
{
    let mut gone = Vec::new(set.alloc);
    let mut kept = Vec::new(set.alloc);
    let mut out = Vec::new(set.alloc);
    let mut after = flow;
    let mut rest = items;
    while let Some((item, more)) = rest.split_first() {
        let begun = arrive(item, heads, after, &mut gone, &mut kept)?;
        after = walk_live::<M, U, S>(set, program, depth, to, item, begun, &mut kept, &mut out)?;
        rest = more;
    }
    Ok(Pass { after, kept, out })
}

// A call, whose body is walked where it stands.
#[cycle(walk)]
fn walk_call<M: MemDomain, U: Fn(i128) -> Option<i128>, S: Steps>(
    set: &Settings<'_, U>,
    program: &CsProgram,
    depth: u64,
    to: Target,
    call: &CsCall,
    mut state: M,
    kept: &mut Vec<Kept<M>>,
    out: &mut Vec<Alarm>,
) -> Result<Option<M>, NoMemory>
    requires ramp { Keeps U.pre U.post set.now.ramp.now S.list }
    requires walkable { IsWalkable (csprogram_tree program.now) depth to (code.Call (cscall_tree call.now)) }
    requires target { IsTarget (csprogram_tree program.now) to }
    requires is_for { M.is_for state (csprogram_tree program.now) }
    requires kept_for { AllFor M.is_for (csprogram_tree program.now) kept.old.items }
    ensures is_for { IfOk result (λ after. SomeFor M.is_for (csprogram_tree program.now) after) }
    ensures kept_for { OnOk result (AllFor M.is_for (csprogram_tree program.now) kept.new.items) }
    ensures sound { IfOk result (λ after. Sound (HasTyped M.stands (csprogram_tree program.now)) (csprogram_tree program.now) to (code.Call (cscall_tree call.now)) (Some state) after kept.new.items out.new.items) }
    ensures grows { OnOk result (Grows (HasTyped M.stands (csprogram_tree program.now)) (csprogram_tree program.now) kept.old.items out.old.items kept.new.items out.new.items) }
    ensures gains { OnOk result (Gains (csprogram_tree program.now) (code.Call (cscall_tree call.now)) out.old.items out.new.items) }
    ensures exact { IfOk result (λ after. Exact (HasTyped M.sharp (csprogram_tree program.now)) (beyond set.now.unroll) (csprogram_tree program.now) to (code.Call (cscall_tree call.now)) (Some state) after kept.old.items out.old.items kept.new.items out.new.items) }
{
    let Some(function) = program.functions.as_slice().get(call.function as usize) else {
        return Ok(None);
    };
    if depth == 0 {
        return Ok(None);
    }
    actions_keep_states_typed();
    pass_args(call.args.as_slice(), function.params.as_slice(), &mut state)?;
    let own = Target {
        value: call.value,
        flag: call.flag,
    };
    let mut inner = Vec::new(set.alloc);
    let mut found = Vec::new(set.alloc);
    let mid = walk::<M, U, S>(
        set,
        program,
        depth - 1,
        own,
        &function.body,
        state,
        &mut inner,
        &mut found,
    )?;
    prefix(call.pos, found, out)?;
    let fallen = give_none(own, mid)?;
    let given = take_returns(inner)?;
    let after = merge_either(fallen, given)?;
    Ok(after)
}
