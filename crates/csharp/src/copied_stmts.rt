// Copies of statements. Expressions are copied last, as a step that fails then has few of them to drop.
#![tactic(auto, using(crate::proofs::CodeTrees::the_code_trees, crate::proofs::CodeTrees::the_code_sizes))]

ghost use Rattle.std.specs.Prelude.{◌≡◌, IfOk, option_map};
ghost use Rattle.csharp.specs.Trees.{csexpr_tree, csstmt_tree, csstmts_tree};
ghost use Rattle.csharp.specs.Trees as trees;
ghost use Rattle.csharp.specs.Shapes.{HoldsExpressions, HoldsNothing};

use crate::copied_exprs::{copy_call, copy_check, copy_expr};
use crate::expression::CsExpr;
use crate::statement::{CsStmt, CsStmts};
use c_syntax::Numbers;
use std::alloc::{AllocError as NoMemory, Global};

/// The same statement once more.
#[cycle(copies)]
pub fn copy_stmt(alloc: Global, stmt: &CsStmt) -> Result<CsStmt, NoMemory>
    ensures { IfOk result (λ copy. csstmt_tree copy ≡ csstmt_tree stmt.now) }
{
    match stmt {
        CsStmt::Nothing | CsStmt::Default => Ok(copy_bare(stmt)),
        CsStmt::Undefine { .. } | CsStmt::Input { .. } => Ok(copy_bare(stmt)),
        CsStmt::Exit { .. } | CsStmt::Goto { .. } => Ok(copy_bare(stmt)),
        CsStmt::Label { .. } | CsStmt::Case { .. } => Ok(copy_bare(stmt)),
        CsStmt::Set { .. } | CsStmt::Load { .. } => copy_plain(alloc, stmt),
        CsStmt::Store { .. } | CsStmt::CopyBytes { .. } => copy_plain(alloc, stmt),
        CsStmt::Checked { .. } | CsStmt::Assume { .. } => copy_plain(alloc, stmt),
        CsStmt::Call { .. } | CsStmt::Return { .. } => copy_plain(alloc, stmt),
        CsStmt::Sequence { first, second } => copy_sequence(alloc, first, second),
        CsStmt::If {
            condition,
            then,
            otherwise,
        } => copy_if(alloc, condition, then, otherwise),
        CsStmt::Loop { pos, body } => Ok(CsStmt::Loop {
            pos: *pos,
            body: boxed(alloc, body)?,
        }),
        CsStmt::Block { body } => Ok(CsStmt::Block {
            body: boxed(alloc, body)?,
        }),
        CsStmt::Scope { objects, items } => copy_scope(alloc, objects, items),
        CsStmt::Switch {
            value,
            objects,
            items,
        } => copy_switch(alloc, value, objects, items),
    }
}

// A statement that holds no expression and no other statement.
fn copy_bare(stmt: &CsStmt) -> CsStmt
    requires { HoldsNothing (csstmt_tree stmt.now) }
    ensures { csstmt_tree result ≡ csstmt_tree stmt.now }
{
    match stmt {
        CsStmt::Nothing => CsStmt::Nothing,
        CsStmt::Undefine { object } => CsStmt::Undefine { object: *object },
        CsStmt::Input { temp, ty } => CsStmt::Input {
            temp: *temp,
            ty: *ty,
        },
        CsStmt::Exit { level } => CsStmt::Exit { level: *level },
        CsStmt::Goto { label } => CsStmt::Goto { label: *label },
        CsStmt::Label { pos, label } => CsStmt::Label {
            pos: *pos,
            label: *label,
        },
        CsStmt::Case { value } => CsStmt::Case { value: *value },
        CsStmt::Default => CsStmt::Default,
        _ => unreachable!(),
    }
}

// A statement that holds expressions and no other statement.
fn copy_plain(alloc: Global, stmt: &CsStmt) -> Result<CsStmt, NoMemory>
    requires { HoldsExpressions (csstmt_tree stmt.now) }
    ensures { IfOk result (λ copy. csstmt_tree copy ≡ csstmt_tree stmt.now) }
{
    match stmt {
        CsStmt::Set { temp, value } => Ok(CsStmt::Set {
            temp: *temp,
            value: copy_expr(alloc, value)?,
        }),
        CsStmt::Load { temp, ty, address } => Ok(CsStmt::Load {
            temp: *temp,
            ty: *ty,
            address: copy_expr(alloc, address)?,
        }),
        CsStmt::Store { ty, address, value } => Ok(CsStmt::Store {
            ty: *ty,
            address: copy_expr(alloc, address)?,
            value: copy_expr(alloc, value)?,
        }),
        CsStmt::CopyBytes { size, to, from } => Ok(CsStmt::CopyBytes {
            size: *size,
            to: copy_expr(alloc, to)?,
            from: copy_expr(alloc, from)?,
        }),
        CsStmt::Checked { check } => Ok(CsStmt::Checked {
            check: copy_check(alloc, check)?,
        }),
        CsStmt::Assume { condition } => Ok(CsStmt::Assume {
            condition: copy_expr(alloc, condition)?,
        }),
        CsStmt::Call { call } => Ok(CsStmt::Call {
            call: copy_call(alloc, call)?,
        }),
        CsStmt::Return { value } => Ok(CsStmt::Return {
            value: copy_option(alloc, value)?,
        }),
        _ => unreachable!(),
    }
}

fn copy_option(alloc: Global, value: &Option<CsExpr>) -> Result<Option<CsExpr>, NoMemory>
    ensures { IfOk result (λ copy. option_map csexpr_tree copy ≡ option_map csexpr_tree value.now) }
{
    match value {
        None => Ok(None),
        Some(expr) => Ok(Some(copy_expr(alloc, expr)?)),
    }
}

/// The same items once more.
#[cycle(copies)]
pub fn copy_stmts(alloc: Global, stmts: &CsStmts) -> Result<CsStmts, NoMemory>
    ensures { IfOk result (λ copy. csstmts_tree copy ≡ csstmts_tree stmts.now) }
{
    let mut items = Vec::new(alloc);
    for item in stmts.as_slice() {
        items.push(copy_stmt(alloc, item)?)?;
    }
    Ok(CsStmts::from_vec(items))
}

#[cycle(copies)]
fn boxed(alloc: Global, stmt: &CsStmt) -> Result<Box<CsStmt>, NoMemory>
    ensures { IfOk result (λ copy. csstmt_tree copy.value ≡ csstmt_tree stmt.now) }
{
    let copy = copy_stmt(alloc, stmt)?;
    Ok(Box::new(alloc, copy)?)
}

#[cycle(copies)]
fn copy_sequence(alloc: Global, first: &CsStmt, second: &CsStmt) -> Result<CsStmt, NoMemory>
    ensures { IfOk result (λ copy. csstmt_tree copy ≡ trees.Sequence (csstmt_tree first.now) (csstmt_tree second.now)) }
{
    Ok(CsStmt::Sequence {
        first: boxed(alloc, first)?,
        second: boxed(alloc, second)?,
    })
}

#[cycle(copies)]
fn copy_if(
    alloc: Global,
    condition: &CsExpr,
    then: &CsStmt,
    otherwise: &CsStmt,
) -> Result<CsStmt, NoMemory>
    ensures { IfOk result (λ copy. csstmt_tree copy ≡ trees.If (csexpr_tree condition.now) (csstmt_tree then.now) (csstmt_tree otherwise.now)) }
{
    let then = boxed(alloc, then)?;
    let otherwise = boxed(alloc, otherwise)?;
    Ok(CsStmt::If {
        condition: copy_expr(alloc, condition)?,
        then,
        otherwise,
    })
}

#[cycle(copies)]
fn copy_scope(alloc: Global, objects: &Numbers, items: &CsStmts) -> Result<CsStmt, NoMemory>
    ensures { IfOk result (λ copy. csstmt_tree copy ≡ trees.Scope objects.now (csstmts_tree items.now)) }
{
    Ok(CsStmt::Scope {
        objects: objects.copy()?,
        items: copy_stmts(alloc, items)?,
    })
}

#[cycle(copies)]
fn copy_switch(
    alloc: Global,
    value: &CsExpr,
    objects: &Numbers,
    items: &CsStmts,
) -> Result<CsStmt, NoMemory>
    ensures { IfOk result (λ copy. csstmt_tree copy ≡ trees.Switch (csexpr_tree value.now) objects.now (csstmts_tree items.now)) }
{
    let objects = objects.copy()?;
    let items = copy_stmts(alloc, items)?;
    Ok(CsStmt::Switch {
        value: copy_expr(alloc, value)?,
        objects,
        items,
    })
}
