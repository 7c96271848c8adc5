// Statements. Each full expression begins at the function's first row.
#![tactic(auto, unfolding(c_syntax::specs::TypedStmt::tstmt_tree))]

ghost use Rattle.std.specs.Prelude.{◌≡◌, max, IfOk, option_map};
ghost use Rattle.c_syntax.specs.Program.{tprogram_tree};
ghost use Rattle.c_syntax.specs.TypedExpr.{texpr_tree};
ghost use Rattle.c_syntax.specs.TypedStmt.{For, Return, tstmt_tree, tstmts_tree};
ghost use Rattle.csharp.specs.Trees.{Block, Scope, Sequence, Switch};
ghost use Rattle.lower_trees.specs.LowerExpr as lowering;
ghost use Rattle.lower_trees.specs.LowerStmt as statements;
ghost use Rattle.lower_nodes.specs.Parts.{coded_tree};
ghost use Rattle.lower_stmt.specs.Views.{context_tree, listed_tree};

use crate::codes::{do_loop, only, returned, scope, switched, test_loop, two_ways};
use crate::context::{Context, break_level, continue_level};
use crate::inits::declare;
use crate::listed::Listed;
use c_syntax::{Numbers, Pos, TExpr, TProgram, TStmt, TStmts};
use csharp::CsStmt;
use lower_expr::{lower_expr, lower_test};
use lower_nodes::{Coded, Leave};
use std::alloc::{AllocError as NoMemory, Global};

/// A statement, with what is around it; `d` is the first row of the function's own.
#[tactic(auto, using(c_syntax::proofs::TypedStmtTrees::typed_stmt_trees, csharp::proofs::CodeTrees::the_code_trees))]
#[cycle(lowers)]
pub fn lower_stmt(
    alloc: Global,
    program: &TProgram,
    d: u64,
    context: &Context,
    s: &TStmt,
) -> Result<Coded, NoMemory>
    ensures { IfOk result (λ c. coded_tree c ≡ statements.lower_stmt (tprogram_tree program.now) d (context_tree context.now) (tstmt_tree s.now)) }
{
    match s {
        TStmt::Empty { .. } | TStmt::Static { .. } => Ok(only(d, CsStmt::Nothing)),
        TStmt::Expr { value, .. } => effect(alloc, program, d, value),
        TStmt::Block { objects, items, .. } => block(alloc, program, d, context, objects, items),
        TStmt::Declare {
            object,
            inits,
            zeroes_rest,
            ..
        } => declare(alloc, program, d, *object, inits, *zeroes_rest),
        TStmt::If {
            condition,
            then,
            otherwise,
            pos,
        } => choice(alloc, program, d, context, *pos, condition, then, otherwise),
        TStmt::While {
            pos,
            condition,
            body,
        } => {
            let test = lower_test(alloc, program, d, condition, *pos, 0, Leave::IfFalse)?;
            let body = lower_stmt(alloc, program, d, &Context::InLoop, body)?;
            test_loop(alloc, *pos, test, body, only(d, CsStmt::Nothing))
        }
        TStmt::DoWhile {
            pos,
            body,
            condition,
        } => {
            let body = lower_stmt(alloc, program, d, &Context::InLoop, body)?;
            let test = lower_test(alloc, program, d, condition, *pos, 0, Leave::IfFalse)?;
            do_loop(alloc, *pos, test, body)
        }
        TStmt::For {
            pos,
            objects,
            head,
            condition,
            step,
            body,
        } => for_stmt(
            alloc, program, d, context, *pos, objects, head, condition, step, body,
        ),
        TStmt::Switch {
            value,
            objects,
            items,
            ..
        } => switch(alloc, program, d, context, value, objects, items),
        TStmt::Break { .. } => {
            let level = break_level(context)?;
            Ok(only(d, CsStmt::Exit { level }))
        }
        TStmt::Continue { .. } => {
            let level = continue_level(context)?;
            Ok(only(d, CsStmt::Exit { level }))
        }
        TStmt::Goto { label, .. } => Ok(only(d, CsStmt::Goto { label: *label })),
        TStmt::Return { value, .. } => give(alloc, program, d, value),
        TStmt::Label { pos, label } => Ok(only(
            d,
            CsStmt::Label {
                pos: *pos,
                label: *label,
            },
        )),
        TStmt::Case { value, .. } => Ok(only(d, CsStmt::Case { value: *value })),
        TStmt::Default { .. } => Ok(only(d, CsStmt::Default)),
    }
}

/// Items of a scope, in their order.
#[tactic(auto, using(c_syntax::proofs::Sizes::the_typed_sizes))]
#[cycle(lowers)]
pub fn lower_items(
    alloc: Global,
    program: &TProgram,
    d: u64,
    context: &Context,
    items: &TStmts,
) -> Result<Listed, NoMemory>
    ensures { IfOk result (λ l. listed_tree l ≡ statements.lower_items (tprogram_tree program.now) d (context_tree context.now) (tstmts_tree items.now)) }
{
    let mut listed = Listed::new(alloc);
    for item in items.as_slice() {
        let coded = lower_stmt(alloc, program, d, context, item)?;
        listed.push(coded)?;
    }
    Ok(listed.finish(d))
}

#[cycle(lowers)]
fn block(
    alloc: Global,
    program: &TProgram,
    d: u64,
    context: &Context,
    objects: &Numbers,
    items: &TStmts,
) -> Result<Coded, NoMemory>
    ensures { IfOk result (λ c. coded_tree c
        ≡ statements.scope_code objects.now (statements.lower_items (tprogram_tree program.now) d (context_tree context.now) (tstmts_tree items.now))) }
{
    let listed = lower_items(alloc, program, d, context, items)?;
    scope(objects, listed)
}

#[cycle(lowers)]
fn choice(
    alloc: Global,
    program: &TProgram,
    d: u64,
    context: &Context,
    at: Pos,
    condition: &TExpr,
    then: &TStmt,
    otherwise: &TStmt,
) -> Result<Coded, NoMemory>
    ensures { IfOk result (λ c. coded_tree c
        ≡ statements.coded
        (lowering.branch ((lowering.lower_expr (tprogram_tree program.now) d (texpr_tree condition.now)).unless at 0)
        (statements.lower_stmt (tprogram_tree program.now) d (statements.Past (statements.Past (context_tree context.now))) (tstmt_tree then.now)).code
        (statements.lower_stmt (tprogram_tree program.now) d (statements.Past (context_tree context.now)) (tstmt_tree otherwise.now)).code)
        (max (lowering.lower_expr (tprogram_tree program.now) d (texpr_tree condition.now)).value.top
        (max (statements.lower_stmt (tprogram_tree program.now) d (statements.Past (statements.Past (context_tree context.now))) (tstmt_tree then.now)).top
        (statements.lower_stmt (tprogram_tree program.now) d (statements.Past (context_tree context.now)) (tstmt_tree otherwise.now)).top))) }
{
    let past = Context::Past(&*context);
    let further = Context::Past(&past);
    let test = lower_test(alloc, program, d, condition, at, 0, Leave::IfFalse)?;
    let first = lower_stmt(alloc, program, d, &further, then)?;
    let second = lower_stmt(alloc, program, d, &past, otherwise)?;
    two_ways(alloc, test, first, second)
}

#[cycle(lowers)]
fn for_stmt(
    alloc: Global,
    program: &TProgram,
    d: u64,
    context: &Context,
    at: Pos,
    objects: &Numbers,
    head: &TStmts,
    condition: &Option<TExpr>,
    step: &Option<TExpr>,
    body: &TStmt,
) -> Result<Coded, NoMemory>
    ensures { IfOk result (λ c. coded_tree c
        ≡ statements.lower_stmt (tprogram_tree program.now) d (context_tree context.now)
        (For at objects.now (tstmts_tree head.now) (option_map texpr_tree condition.now) (option_map texpr_tree step.now) (tstmt_tree body.now))) }
{
    let coded = turns(alloc, program, d, at, condition, step, body)?;
    for_loop(alloc, program, d, context, objects, head, coded)
}

// The turns of a `for`.
#[cycle(lowers)]
fn turns(
    alloc: Global,
    program: &TProgram,
    d: u64,
    at: Pos,
    condition: &Option<TExpr>,
    step: &Option<TExpr>,
    body: &TStmt,
) -> Result<Coded, NoMemory>
    ensures { IfOk result (λ c. coded_tree c
        ≡ statements.loop_code at
        (statements.test_of (tprogram_tree program.now) d at (option_map texpr_tree condition.now))
        (statements.lower_stmt (tprogram_tree program.now) d statements.InLoop (tstmt_tree body.now))
        (statements.step_of (tprogram_tree program.now) d (option_map texpr_tree step.now))) }
{
    let test = test_if_there(alloc, program, d, at, condition)?;
    let body = lower_stmt(alloc, program, d, &Context::InLoop, body)?;
    let step = step_if_there(alloc, program, d, step)?;
    test_loop(alloc, at, test, body, step)
}

#[tactic(auto, using(csharp::proofs::CodeTrees::the_code_trees))]
fn test_if_there(
    alloc: Global,
    program: &TProgram,
    d: u64,
    at: Pos,
    condition: &Option<TExpr>,
) -> Result<Coded, NoMemory>
    ensures { IfOk result (λ c. coded_tree c
        ≡ statements.test_of (tprogram_tree program.now) d at (option_map texpr_tree condition.now)) }
{
    match condition {
        None => Ok(only(d, CsStmt::Nothing)),
        Some(e) => lower_test(alloc, program, d, e, at, 0, Leave::IfFalse),
    }
}

#[tactic(auto, using(csharp::proofs::CodeTrees::the_code_trees))]
fn step_if_there(
    alloc: Global,
    program: &TProgram,
    d: u64,
    step: &Option<TExpr>,
) -> Result<Coded, NoMemory>
    ensures { IfOk result (λ c. coded_tree c
        ≡ statements.step_of (tprogram_tree program.now) d (option_map texpr_tree step.now)) }
{
    match step {
        None => Ok(only(d, CsStmt::Nothing)),
        Some(e) => effect(alloc, program, d, e),
    }
}

// An expression whose value is dropped.
fn effect(alloc: Global, program: &TProgram, d: u64, e: &TExpr) -> Result<Coded, NoMemory>
    ensures { IfOk result (λ c. coded_tree c
        ≡ statements.effect (lowering.lower_expr (tprogram_tree program.now) d (texpr_tree e.now)).value) }
{
    let part = lower_expr(alloc, program, d, e)?;
    Ok(Coded {
        code: part.before,
        top: part.top,
    })
}

#[cycle(lowers)]
fn for_loop(
    alloc: Global,
    program: &TProgram,
    d: u64,
    context: &Context,
    objects: &Numbers,
    head: &TStmts,
    turns: Coded,
) -> Result<Coded, NoMemory>
    ensures { IfOk result (λ c. coded_tree c
        ≡ statements.coded
        (Scope objects.now (statements.with_last (statements.lower_items (tprogram_tree program.now) d (context_tree context.now) (tstmts_tree head.now)).items
        (coded_tree turns).code))
        (max (statements.lower_items (tprogram_tree program.now) d (context_tree context.now) (tstmts_tree head.now)).top (coded_tree turns).top)) }
{
    let mut listed = lower_items(alloc, program, d, context, head)?;
    let Coded { code, top } = turns;
    listed.put_last(code)?;
    listed.top = listed.top.max(top);
    scope(objects, listed)
}

#[cycle(lowers)]
fn switch(
    alloc: Global,
    program: &TProgram,
    d: u64,
    context: &Context,
    value: &TExpr,
    objects: &Numbers,
    items: &TStmts,
) -> Result<Coded, NoMemory>
    ensures { IfOk result (λ c. coded_tree c
        ≡ statements.coded
        (Sequence (lowering.lower_expr (tprogram_tree program.now) d (texpr_tree value.now)).value.before
        (Block (Switch (lowering.lower_expr (tprogram_tree program.now) d (texpr_tree value.now)).value.value objects.now
        (statements.lower_items (tprogram_tree program.now) d (statements.InSwitch (context_tree context.now)) (tstmts_tree items.now)).items)))
        (max (lowering.lower_expr (tprogram_tree program.now) d (texpr_tree value.now)).value.top
        (statements.lower_items (tprogram_tree program.now) d (statements.InSwitch (context_tree context.now)) (tstmts_tree items.now)).top)) }
{
    let inside = Context::InSwitch(&*context);
    let part = lower_expr(alloc, program, d, value)?;
    let listed = lower_items(alloc, program, d, &inside, items)?;
    switched(alloc, part, objects, listed)
}

// A `return`.
#[tactic(auto, using(csharp::proofs::CodeTrees::the_code_trees))]
fn give(alloc: Global, program: &TProgram, d: u64, value: &Option<TExpr>) -> Result<Coded, NoMemory>
    ensures { (at : Pos) → IfOk result (λ c. coded_tree c
        ≡ statements.lower_stmt (tprogram_tree program.now) d statements.InLoop (Return at (option_map texpr_tree value.now))) }
{
    match value {
        None => Ok(only(d, CsStmt::Return { value: None })),
        Some(e) => {
            let part = lower_expr(alloc, program, d, e)?;
            returned(alloc, part)
        }
    }
}
