// Typed statements, and what initialises an object, are given parts that are shared.
#![tactic(auto, using(crate::proofs::SharedStmtTrees::shared_stmt_trees))]

ghost use Rattle.std.specs.Prelude.{◌≡◌, IfOk, map, option_map};
ghost use Rattle.c_syntax.specs.TypedExpr.{texpr_tree};
ghost use Rattle.c_syntax.specs.TypedStmt.{tinit_tree, tstmt_tree, tstmts_tree};
ghost use Rattle.c_syntax.specs.TypedStmt as trees;
ghost use Rattle.c_machine_trees.specs.Shapes.{HoldsExpressions, HoldsNothing, IsGuarded};
ghost use Rattle.c_machine_trees.specs.Expressions.{expr_tree};
ghost use Rattle.c_machine_trees.specs.Statements.{init_tree, inits_tree, option_tree, stmt_tree, stmts_tree};

use crate::expression::SharedExpr;
use crate::of_exprs::shared_expr;
use crate::statement::{SharedInit, SharedInits, SharedStmt, SharedStmts};
use c_syntax::{BlockKind, Numbers, Pos, TExpr, TInit, TInits, TStmt, TStmts};
use std::alloc::{AllocError as NoMemory, Global};
use std::rc::Rc;

/// The item with a value that is shared.
#[tactic(auto, using(c_syntax::proofs::TypedStmtTrees::typed_stmt_trees, crate::proofs::SharedStmtTrees::shared_stmt_trees))]
pub fn share_init(alloc: Global, init: &TInit) -> Result<SharedInit, NoMemory>
    ensures { IfOk result (λ item. init_tree item ≡ tinit_tree init.now) }
{
    match init {
        TInit::Store { offset, ty, value } => Ok(SharedInit::Store {
            offset: *offset,
            ty: ty.copy()?,
            value: shared_expr(alloc, value)?,
        }),
        TInit::Copy {
            offset,
            extent,
            source,
        } => Ok(SharedInit::Copy {
            offset: *offset,
            extent: *extent,
            source: shared_expr(alloc, source)?,
        }),
    }
}

/// The items, with values that are shared.
pub fn share_inits(alloc: Global, inits: &TInits) -> Result<SharedInits, NoMemory>
    ensures { IfOk result (λ list. inits_tree list ≡ map tinit_tree inits.now) }
{
    let mut items = Vec::new(alloc);
    for item in inits.as_slice() {
        items.push(share_init(alloc, item)?)?;
    }
    Ok(SharedInits::from_vec(items))
}

/// The statement with parts that are shared.
#[tactic(auto, using(c_syntax::proofs::TypedStmtTrees::typed_stmt_trees))]
#[cycle(shares)]
pub fn share_stmt(alloc: Global, stmt: &TStmt) -> Result<SharedStmt, NoMemory>
    ensures { IfOk result (λ node. stmt_tree node ≡ tstmt_tree stmt.now) }
{
    match stmt {
        TStmt::Empty { .. } => Ok(share_bare(stmt)),
        TStmt::Static { .. } => Ok(share_bare(stmt)),
        TStmt::Break { .. } | TStmt::Continue { .. } => Ok(share_bare(stmt)),
        TStmt::Goto { .. } => Ok(share_bare(stmt)),
        TStmt::Label { .. } => Ok(share_bare(stmt)),
        TStmt::Case { .. } => Ok(share_bare(stmt)),
        TStmt::Default { .. } => Ok(share_bare(stmt)),
        TStmt::Expr { .. } => share_plain(alloc, stmt),
        TStmt::Declare { .. } => share_plain(alloc, stmt),
        TStmt::Return { .. } => share_plain(alloc, stmt),
        TStmt::Block {
            pos,
            kind,
            objects,
            items,
        } => share_block(alloc, *pos, *kind, objects, items),
        TStmt::If { .. } => share_guarded(alloc, stmt),
        TStmt::While { .. } | TStmt::DoWhile { .. } => share_guarded(alloc, stmt),
        TStmt::Switch {
            pos,
            value,
            kind,
            objects,
            items,
        } => share_switch(alloc, *pos, value, *kind, objects, items),
        TStmt::For {
            pos,
            objects,
            head,
            condition,
            step,
            body,
        } => share_for(alloc, *pos, objects, head, condition, step, body),
    }
}

// A statement that holds no expression and no other statement.
#[tactic(auto, using(c_syntax::proofs::TypedStmtTrees::typed_stmt_trees, crate::proofs::SharedStmtTrees::shared_stmt_trees))]
fn share_bare(stmt: &TStmt) -> SharedStmt
    requires { HoldsNothing (tstmt_tree stmt.now) }
    ensures { stmt_tree result ≡ tstmt_tree stmt.now }
{
    match stmt {
        TStmt::Empty { pos } => SharedStmt::Empty { pos: *pos },
        TStmt::Static { pos, object } => SharedStmt::Static {
            pos: *pos,
            object: *object,
        },
        TStmt::Break { pos } => SharedStmt::Break { pos: *pos },
        TStmt::Continue { pos } => SharedStmt::Continue { pos: *pos },
        TStmt::Goto { pos, label } => SharedStmt::Goto {
            pos: *pos,
            label: *label,
        },
        TStmt::Label { pos, label } => SharedStmt::Label {
            pos: *pos,
            label: *label,
        },
        TStmt::Case { pos, value } => SharedStmt::Case {
            pos: *pos,
            value: *value,
        },
        TStmt::Default { pos } => SharedStmt::Default { pos: *pos },
        _ => unreachable!(),
    }
}

// A statement that holds expressions and no other statement.
#[tactic(auto, using(c_syntax::proofs::TypedStmtTrees::typed_stmt_trees, crate::proofs::SharedStmtTrees::shared_stmt_trees))]
fn share_plain(alloc: Global, stmt: &TStmt) -> Result<SharedStmt, NoMemory>
    requires { HoldsExpressions (tstmt_tree stmt.now) }
    ensures { IfOk result (λ node. stmt_tree node ≡ tstmt_tree stmt.now) }
{
    match stmt {
        TStmt::Expr { pos, value } => Ok(SharedStmt::Expr {
            pos: *pos,
            value: shared_expr(alloc, value)?,
        }),
        TStmt::Declare {
            pos,
            object,
            inits,
            zeroes_rest,
        } => Ok(SharedStmt::Declare {
            pos: *pos,
            object: *object,
            inits: shared_inits(alloc, inits)?,
            zeroes_rest: *zeroes_rest,
        }),
        TStmt::Return { pos, value } => Ok(SharedStmt::Return {
            pos: *pos,
            value: share_option(alloc, value)?,
        }),
        _ => unreachable!(),
    }
}

// A statement that goes by a condition.
#[tactic(auto, using(c_syntax::proofs::TypedStmtTrees::typed_stmt_trees))]
#[cycle(shares)]
fn share_guarded(alloc: Global, stmt: &TStmt) -> Result<SharedStmt, NoMemory>
    requires { IsGuarded (tstmt_tree stmt.now) }
    ensures { IfOk result (λ node. stmt_tree node ≡ tstmt_tree stmt.now) }
{
    match stmt {
        TStmt::If {
            pos,
            condition,
            then,
            otherwise,
        } => share_if(alloc, *pos, condition, then, otherwise),
        TStmt::While {
            pos,
            condition,
            body,
        } => share_while(alloc, *pos, condition, body),
        TStmt::DoWhile {
            pos,
            body,
            condition,
        } => share_do_while(alloc, *pos, body, condition),
        _ => unreachable!(),
    }
}

/// The statements, each shared.
#[tactic(auto, using(c_syntax::proofs::TypedStmtTrees::typed_stmt_trees, c_syntax::proofs::Sizes::the_typed_sizes, crate::proofs::SharedStmtTrees::shared_stmt_trees))]
#[cycle(shares)]
pub fn share_stmts(alloc: Global, stmts: &TStmts) -> Result<SharedStmts, NoMemory>
    ensures { IfOk result (λ list. stmts_tree list ≡ tstmts_tree stmts.now) }
{
    let mut items = Vec::new(alloc);
    for item in stmts.as_slice() {
        items.push(shared_stmt(alloc, item)?)?;
    }
    Ok(SharedStmts::from_vec(items))
}

/// A share of the statement.
#[cycle(shares)]
pub fn shared_stmt(alloc: Global, stmt: &TStmt) -> Result<Rc<SharedStmt>, NoMemory>
    ensures { IfOk result (λ share. stmt_tree share.value ≡ tstmt_tree stmt.now) }
{
    let node = share_stmt(alloc, stmt)?;
    Ok(Rc::new(alloc, node)?)
}

#[cycle(shares)]
fn shared_stmts(alloc: Global, stmts: &TStmts) -> Result<Rc<SharedStmts>, NoMemory>
    ensures { IfOk result (λ share. stmts_tree share.value ≡ tstmts_tree stmts.now) }
{
    let list = share_stmts(alloc, stmts)?;
    Ok(Rc::new(alloc, list)?)
}

fn shared_inits(alloc: Global, inits: &TInits) -> Result<Rc<SharedInits>, NoMemory>
    ensures { IfOk result (λ share. inits_tree share.value ≡ map tinit_tree inits.now) }
{
    let list = share_inits(alloc, inits)?;
    Ok(Rc::new(alloc, list)?)
}

fn shared_numbers(alloc: Global, numbers: &Numbers) -> Result<Rc<Numbers>, NoMemory>
    ensures { IfOk result (λ share. share.value ≡ numbers.now) }
{
    let list = numbers.copy()?;
    Ok(Rc::new(alloc, list)?)
}

fn share_option(alloc: Global, value: &Option<TExpr>) -> Result<Option<Rc<SharedExpr>>, NoMemory>
    ensures { IfOk result (λ share. option_tree share ≡ option_map texpr_tree value.now) }
{
    match value {
        None => Ok(None),
        Some(expr) => Ok(Some(shared_expr(alloc, expr)?)),
    }
}

#[cycle(shares)]
fn share_block(
    alloc: Global,
    pos: Pos,
    kind: BlockKind,
    objects: &Numbers,
    items: &TStmts,
) -> Result<SharedStmt, NoMemory>
    ensures { IfOk result (λ node. stmt_tree node ≡ trees.Block pos kind objects.now (tstmts_tree items.now)) }
{
    Ok(SharedStmt::Block {
        pos,
        kind,
        objects: shared_numbers(alloc, objects)?,
        items: shared_stmts(alloc, items)?,
    })
}

#[cycle(shares)]
fn share_if(
    alloc: Global,
    pos: Pos,
    condition: &TExpr,
    then: &TStmt,
    otherwise: &TStmt,
) -> Result<SharedStmt, NoMemory>
    ensures { IfOk result (λ node. stmt_tree node ≡ trees.If pos (texpr_tree condition.now)
        (tstmt_tree then.now) (tstmt_tree otherwise.now)) }
{
    let then = shared_stmt(alloc, then)?;
    let otherwise = shared_stmt(alloc, otherwise)?;
    Ok(SharedStmt::If {
        pos,
        condition: shared_expr(alloc, condition)?,
        then,
        otherwise,
    })
}

#[cycle(shares)]
fn share_while(
    alloc: Global,
    pos: Pos,
    condition: &TExpr,
    body: &TStmt,
) -> Result<SharedStmt, NoMemory>
    ensures { IfOk result (λ node. stmt_tree node ≡ trees.While pos (texpr_tree condition.now) (tstmt_tree body.now)) }
{
    let body = shared_stmt(alloc, body)?;
    Ok(SharedStmt::While {
        pos,
        condition: shared_expr(alloc, condition)?,
        body,
    })
}

#[cycle(shares)]
fn share_do_while(
    alloc: Global,
    pos: Pos,
    body: &TStmt,
    condition: &TExpr,
) -> Result<SharedStmt, NoMemory>
    ensures { IfOk result (λ node. stmt_tree node ≡ trees.DoWhile pos (tstmt_tree body.now) (texpr_tree condition.now)) }
{
    Ok(SharedStmt::DoWhile {
        pos,
        body: shared_stmt(alloc, body)?,
        condition: shared_expr(alloc, condition)?,
    })
}

#[cycle(shares)]
fn share_for(
    alloc: Global,
    pos: Pos,
    objects: &Numbers,
    head: &TStmts,
    condition: &Option<TExpr>,
    step: &Option<TExpr>,
    body: &TStmt,
) -> Result<SharedStmt, NoMemory>
    ensures { IfOk result (λ node. stmt_tree node ≡ trees.For pos objects.now (tstmts_tree head.now)
        (option_map texpr_tree condition.now) (option_map texpr_tree step.now) (tstmt_tree body.now)) }
{
    let head = shared_stmts(alloc, head)?;
    let body = shared_stmt(alloc, body)?;
    Ok(SharedStmt::For {
        pos,
        objects: shared_numbers(alloc, objects)?,
        head,
        condition: share_option(alloc, condition)?,
        step: share_option(alloc, step)?,
        body,
    })
}

#[cycle(shares)]
fn share_switch(
    alloc: Global,
    pos: Pos,
    value: &TExpr,
    kind: BlockKind,
    objects: &Numbers,
    items: &TStmts,
) -> Result<SharedStmt, NoMemory>
    ensures { IfOk result (λ node. stmt_tree node ≡ trees.Switch pos (texpr_tree value.now) kind objects.now (tstmts_tree items.now)) }
{
    let objects = shared_numbers(alloc, objects)?;
    let items = shared_stmts(alloc, items)?;
    Ok(SharedStmt::Switch {
        pos,
        value: shared_expr(alloc, value)?,
        kind,
        objects,
        items,
    })
}
