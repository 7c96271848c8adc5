// Statements with others in them, and calls.
#![tactic(auto, using(csharp::proofs::CodeTrees::the_code_trees))]

ghost use Rattle.std.specs.Prelude.{◌≡◌, ◌<◌, All, Bool, IfNone, IfOk, OnOk, false, length, option_map, true};
ghost use Rattle.csharp.specs.Trees.{cscall_tree, csexpr_tree, csprogram_tree, csstmt_tree, csstmts_from, csstmts_tree};
ghost use Rattle.csharp.specs.Trees as trees;
ghost use Rattle.csharp.specs.States as states;
ghost use Rattle.csharp.specs.Meaning.{bounded_exec};
ghost use Rattle.csharp.specs.Outcomes as outcomes;
ghost use Rattle.csharp_state.specs.Answers.{GivesUp};
ghost use Rattle.csharp_state.specs.Belongs.{Belongs};
ghost use Rattle.csharp_exec.specs.Meets.{comes_past, met_by_gotos, met_in_scope, met_row};
ghost use Rattle.csharp_exec.specs.Meets as meets;
ghost use Rattle.csharp_exec.specs.Stages.{IsLanding, behind, catching, row, scoped};
ghost use Rattle.csharp_exec.specs.Told.{mark_of, over_of, told};

use crate::actions::act;
use crate::marks::{Mark, chosen, has, is_mark};
use crate::outcome::{Limits, Outcome, Way, at_block, at_call, at_scope};
use c_syntax::{Numbers, Objects, Pos};
use c_values::truth;
use csharp::{CsCall, CsExpr, CsProgram, CsStmt, CsStmts};
use csharp_state::{State, Step, Unanswered};
use std::alloc::Global;

/// Does a statement, as far as it may go. The state is then the one of the outcome: behind a failure,
/// that of the check.
#[cycle(runs)]
pub fn exec(
    alloc: Global,
    program: &CsProgram,
    limits: Limits,
    stmt: &CsStmt,
    state: &mut State,
) -> Result<Outcome, Unanswered>
    requires { Belongs (csprogram_tree program.now).objects state.old.memory }
    ensures told { IfOk result (λ o. told o state.new
        ≡ bounded_exec (over_of limits.turns) (csprogram_tree program.now) limits.fuel (csstmt_tree stmt.now) state.old) }
    ensures objects { OnOk result (Belongs (csprogram_tree program.now).objects state.new.memory) }
    ensures past { GivesUp result (comes_past (over_of limits.turns) (csprogram_tree program.now) limits.fuel (csstmt_tree stmt.now) state.old) }
{
    match stmt {
        CsStmt::Nothing | CsStmt::Default | CsStmt::Set { .. } => act(alloc, program, stmt, state),
        CsStmt::Load { .. } | CsStmt::Store { .. } => act(alloc, program, stmt, state),
        CsStmt::CopyBytes { .. } | CsStmt::Undefine { .. } => act(alloc, program, stmt, state),
        CsStmt::Checked { .. } | CsStmt::Input { .. } => act(alloc, program, stmt, state),
        CsStmt::Assume { .. } | CsStmt::Return { .. } => act(alloc, program, stmt, state),
        CsStmt::Exit { .. } | CsStmt::Goto { .. } => act(alloc, program, stmt, state),
        CsStmt::Label { .. } | CsStmt::Case { .. } => act(alloc, program, stmt, state),
        CsStmt::Sequence { first, second } => in_turn(alloc, program, limits, first, second, state),
        CsStmt::If {
            condition,
            then,
            otherwise,
        } => { exec_if(alloc, program, limits, condition, then, otherwise, state) }
        CsStmt::Loop { body, .. } => exec_loop(alloc, program, limits, body, state),
        CsStmt::Block { body } => exec_block(alloc, program, limits, body, state),
        CsStmt::Scope { objects, items } => {
            exec_scope(alloc, program, limits, objects, None, items, state)
        }
        CsStmt::Switch {
            value,
            objects,
            items,
        } => { exec_switch(alloc, program, limits, value, objects, items, state) }
        CsStmt::Call { call } => exec_call(alloc, program, limits, call, state),
    }
}

// Two statements, the second behind the first.
#[cycle(runs)]
fn in_turn(
    alloc: Global,
    program: &CsProgram,
    limits: Limits,
    first: &CsStmt,
    second: &CsStmt,
    state: &mut State,
) -> Result<Outcome, Unanswered>
    requires { Belongs (csprogram_tree program.now).objects state.old.memory }
    ensures told { IfOk result (λ o. told o state.new ≡ bounded_exec (over_of limits.turns) (csprogram_tree program.now) limits.fuel
        (trees.Sequence (csstmt_tree first.now) (csstmt_tree second.now)) state.old) }
    ensures objects { OnOk result (Belongs (csprogram_tree program.now).objects state.new.memory) }
    ensures past { GivesUp result (comes_past (over_of limits.turns) (csprogram_tree program.now) limits.fuel
        (trees.Sequence (csstmt_tree first.now) (csstmt_tree second.now)) state.old) }
{
    match exec(alloc, program, limits, first, state)? {
        Outcome::Normal => exec(alloc, program, limits, second, state),
        other => Ok(other),
    }
}

#[cycle(runs)]
fn exec_if(
    alloc: Global,
    program: &CsProgram,
    limits: Limits,
    condition: &CsExpr,
    then: &CsStmt,
    otherwise: &CsStmt,
    state: &mut State,
) -> Result<Outcome, Unanswered>
    requires { Belongs (csprogram_tree program.now).objects state.old.memory }
    ensures told { IfOk result (λ o. told o state.new ≡ bounded_exec (over_of limits.turns) (csprogram_tree program.now) limits.fuel
        (trees.If (csexpr_tree condition.now) (csstmt_tree then.now) (csstmt_tree otherwise.now)) state.old) }
    ensures objects { OnOk result (Belongs (csprogram_tree program.now).objects state.new.memory) }
    ensures past { GivesUp result (comes_past (over_of limits.turns) (csprogram_tree program.now) limits.fuel
        (trees.If (csexpr_tree condition.now) (csstmt_tree then.now) (csstmt_tree otherwise.now)) state.old) }
{
    match state.value(condition)? {
        Some(v) => if truth(v) {
            exec(alloc, program, limits, then, state)
        } else {
            exec(alloc, program, limits, otherwise, state)
        },
        None => Ok(Outcome::Stuck),
    }
}

// Each turn behind the first takes one unit of fuel.
#[cycle(runs)]
fn exec_loop(
    alloc: Global,
    program: &CsProgram,
    limits: Limits,
    body: &CsStmt,
    state: &mut State,
) -> Result<Outcome, Unanswered>
    requires { Belongs (csprogram_tree program.now).objects state.old.memory }
    ensures told { IfOk result (λ o. (at : Pos) → told o state.new ≡ bounded_exec (over_of limits.turns) (csprogram_tree program.now) limits.fuel
        (trees.Loop at (csstmt_tree body.now)) state.old) }
    ensures objects { OnOk result (Belongs (csprogram_tree program.now).objects state.new.memory) }
    ensures past { (at : Pos) → GivesUp result (comes_past (over_of limits.turns) (csprogram_tree program.now) limits.fuel
        (trees.Loop at (csstmt_tree body.now)) state.old) }
{
    let mut left = limits;
    let mut turns = 0;
    loop {
        if is_over(limits.turns, turns) {
            return Ok(Outcome::Over);
        }
        let outcome = exec(alloc, program, left, body, state)?;
        if !is_normal(&outcome) {
            return Ok(outcome);
        }
        if left.fuel == 0 {
            return Ok(Outcome::NoFuel);
        }
        left.fuel -= 1;
        turns += 1;
    }
}

#[cycle(runs)]
fn exec_block(
    alloc: Global,
    program: &CsProgram,
    limits: Limits,
    body: &CsStmt,
    state: &mut State,
) -> Result<Outcome, Unanswered>
    requires { Belongs (csprogram_tree program.now).objects state.old.memory }
    ensures told { IfOk result (λ o. told o state.new ≡ bounded_exec (over_of limits.turns) (csprogram_tree program.now) limits.fuel
        (trees.Block (csstmt_tree body.now)) state.old) }
    ensures objects { OnOk result (Belongs (csprogram_tree program.now).objects state.new.memory) }
    ensures past { GivesUp result (comes_past (over_of limits.turns) (csprogram_tree program.now) limits.fuel (trees.Block (csstmt_tree body.now)) state.old) }
{
    let outcome = exec(alloc, program, limits, body, state)?;
    Ok(at_block(outcome))
}

// A scope, from behind a mark on where there is one.
#[cycle(runs)]
fn exec_scope(
    alloc: Global,
    program: &CsProgram,
    limits: Limits,
    objects: &Numbers,
    from: Option<Mark>,
    list: &CsStmts,
    state: &mut State,
) -> Result<Outcome, Unanswered>
    requires { Belongs (csprogram_tree program.now).objects state.old.memory }
    ensures told { IfOk result (λ o. told o state.new ≡ scoped (over_of limits.turns) (csprogram_tree program.now) limits.fuel objects.now
        (option_map mark_of from) (csstmts_tree list.now) state.old) }
    ensures objects { OnOk result (Belongs (csprogram_tree program.now).objects state.new.memory) }
    ensures past { GivesUp result (met_in_scope (over_of limits.turns) (csprogram_tree program.now) limits.fuel objects.now
        (option_map mark_of from) (csstmts_tree list.now) state.old) }
{
    let names = objects.as_slice();
    if !state.are_free(names) {
        return Ok(Outcome::Clash);
    }
    if !are_there(&program.objects, names) {
        return Err(Unanswered::Unheld);
    }
    state.enter(program.objects.as_slice(), names)?;
    let outcome = exec_items(alloc, program, limits, from, list.as_slice(), state)?;
    Ok(at_scope(names, outcome, state))
}

#[cycle(runs)]
fn exec_switch(
    alloc: Global,
    program: &CsProgram,
    limits: Limits,
    value: &CsExpr,
    objects: &Numbers,
    list: &CsStmts,
    state: &mut State,
) -> Result<Outcome, Unanswered>
    requires { Belongs (csprogram_tree program.now).objects state.old.memory }
    ensures told { IfOk result (λ o. told o state.new ≡ bounded_exec (over_of limits.turns) (csprogram_tree program.now) limits.fuel
        (trees.Switch (csexpr_tree value.now) objects.now (csstmts_tree list.now)) state.old) }
    ensures objects { OnOk result (Belongs (csprogram_tree program.now).objects state.new.memory) }
    ensures past { GivesUp result (comes_past (over_of limits.turns) (csprogram_tree program.now) limits.fuel
        (trees.Switch (csexpr_tree value.now) objects.now (csstmts_tree list.now)) state.old) }
{
    match state.value(value)? {
        Some(v) => match chosen(v, list.as_slice()) {
            Some(mark) => exec_scope(alloc, program, limits, objects, Some(mark), list, state),
            None => Ok(Outcome::Normal),
        },
        None => Ok(Outcome::Stuck),
    }
}

// Items, to whose labels gotos come back. Each goto takes one unit of fuel.
#[cycle(runs)]
fn exec_items(
    alloc: Global,
    program: &CsProgram,
    limits: Limits,
    from: Option<Mark>,
    list: &[CsStmt],
    state: &mut State,
) -> Result<Outcome, Unanswered>
    requires { Belongs (csprogram_tree program.now).objects state.old.memory }
    ensures told { IfOk result (λ o. told o state.new ≡ catching (over_of limits.turns) (csprogram_tree program.now) limits.fuel
        (option_map mark_of from) (csstmts_from list.now) state.old) }
    ensures objects { OnOk result (Belongs (csprogram_tree program.now).objects state.new.memory) }
    ensures past { GivesUp result (met_by_gotos (over_of limits.turns) (csprogram_tree program.now) limits.fuel
        (option_map mark_of from) (csstmts_from list.now) state.old) }
{
    let mut left = limits;
    let mut from = from;
    loop {
        let outcome = exec_row(alloc, program, left, from, list, state)?;
        let Some(label) = landing(&outcome, list) else {
            return Ok(outcome);
        };
        if left.fuel == 0 {
            return Ok(Outcome::NoFuel);
        }
        left.fuel -= 1;
        from = Some(Mark::Label(label));
    }
}

// Items in their order, from behind a mark on where there is one.
#[cycle(runs)]
fn exec_row(
    alloc: Global,
    program: &CsProgram,
    limits: Limits,
    from: Option<Mark>,
    list: &[CsStmt],
    state: &mut State,
) -> Result<Outcome, Unanswered>
    requires { Belongs (csprogram_tree program.now).objects state.old.memory }
    ensures told { IfOk result (λ o. told o state.new ≡ row (over_of limits.turns) (csprogram_tree program.now) limits.fuel
        (option_map mark_of from) (csstmts_from list.now) state.old) }
    ensures objects { OnOk result (Belongs (csprogram_tree program.now).objects state.new.memory) }
    ensures past { GivesUp result (met_row (over_of limits.turns) (csprogram_tree program.now) limits.fuel
        (option_map mark_of from) (csstmts_from list.now) state.old) }
{
    let mut from = from;
    for item in list {
        match from {
            Some(mark) => from = behind(mark, item),
            None => {
                let outcome = exec(alloc, program, limits, item, state)?;
                if !is_normal(&outcome) {
                    return Ok(outcome);
                }
            }
        }
    }
    Ok(Outcome::Normal)
}

// A call takes one unit of fuel.
#[cycle(runs)]
fn exec_call(
    alloc: Global,
    program: &CsProgram,
    limits: Limits,
    call: &CsCall,
    state: &mut State,
) -> Result<Outcome, Unanswered>
    requires { Belongs (csprogram_tree program.now).objects state.old.memory }
    ensures told { IfOk result (λ o. told o state.new ≡ bounded_exec (over_of limits.turns) (csprogram_tree program.now) limits.fuel
        (trees.Call (cscall_tree call.now)) state.old) }
    ensures objects { OnOk result (Belongs (csprogram_tree program.now).objects state.new.memory) }
    ensures past { GivesUp result (comes_past (over_of limits.turns) (csprogram_tree program.now) limits.fuel (trees.Call (cscall_tree call.now)) state.old) }
{
    let Some(function) = program.functions.as_slice().get(call.function as usize) else {
        return Ok(Outcome::Stuck);
    };
    match state.pass(alloc, call.args.as_slice(), function.params.as_slice())? {
        Step::Done => {
            if limits.fuel == 0 {
                return Ok(Outcome::NoFuel);
            }
            let less = Limits {
                fuel: limits.fuel - 1,
                turns: limits.turns,
            };
            let outcome = exec(alloc, program, less, &function.body, state)?;
            Ok(at_call(call, outcome, state)?)
        }
        Step::Barred => Ok(Outcome::Stuck),
    }
}

// One more turn is more than the bound.
fn is_over(bound: Option<u64>, turns: u64) -> bool
    ensures { result ≡ over_of bound turns }
{
    match bound {
        Some(bound) => bound < turns,
        None => false,
    }
}

fn is_normal(outcome: &Outcome) -> bool
    ensures normal { result ≡ true → outcome.now ≡ Outcome.Normal }
    ensures other { result ≡ false → (s : states.State) (next : states.State → outcomes.Outcome) → outcomes.then_do (told outcome.now s) next ≡ told outcome.now s }
    ensures last { result ≡ false → (s : states.State) (next : states.State → Bool) → meets.behind_normal (told outcome.now s) next ≡ false }
{
    match outcome {
        Outcome::Normal => true,
        _ => false,
    }
}

// The label of these items to which a goto comes back.
fn landing(outcome: &Outcome, list: &[CsStmt]) -> Option<u64>
    ensures lands { IsLanding result outcome.now (csstmts_from list.now) }
    ensures last { IfNone result ((less : meets.Less) (s : states.State) → meets.behind_goto less (csstmts_from list.now) (told outcome.now s) ≡ false) }
{
    match outcome {
        Outcome::Leaves(Way::Goto(label)) if has(Mark::Label(*label), list) => Some(*label),
        _ => None,
    }
}

// What is looked for behind an item.
fn behind(mark: Mark, item: &CsStmt) -> Option<Mark>
    ensures { option_map mark_of result ≡ behind (mark_of mark) (csstmt_tree item.now) }
{
    if is_mark(mark, item) {
        None
    } else {
        Some(mark)
    }
}

// The program has each of the objects.
fn are_there(objects: &Objects, names: &[u64]) -> bool
    ensures test { (q : trees.CsProgramTree) → length q.objects ≡ length objects.now → result ≡ meets.are_there q names.now }
    ensures there { result ≡ true → All (λ name. name < length objects.now) names.now }
{
    let count = objects.as_slice().len() as u64;
    for name in names {
        if *name >= count {
            return false;
        }
    }
    true
}
