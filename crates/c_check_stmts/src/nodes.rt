// The nodes of statements, of typed parts.
#![tactic(auto, using(c_syntax::proofs::Trees::the_trees))]

ghost use Rattle.std.specs.Prelude.{◌≡◌, IfOk, option_map};
ghost use Rattle.c_syntax.specs.TypedExpr.{texpr_tree};
ghost use Rattle.c_syntax.specs.TypedStmt as trees;
ghost use Rattle.c_syntax.specs.TypedStmt.{tstmt_tree};
ghost use Rattle.c_typing.specs.Stmts as stmts;
ghost use Rattle.c_check_decls.specs.MadeViews.{made_tree};

use c_check_decls::Made;
use c_syntax::{BlockKind, Numbers, Pos, TExpr, TStmt, TStmts};
use std::alloc::{AllocError as NoMemory, Global};

/// `;`
pub fn empty_node(pos: Pos) -> TStmt
    ensures { tstmt_tree result ≡ trees.Empty pos }
{
    TStmt::Empty { pos }
}

/// An expression whose value is dropped.
pub fn expression_node(pos: Pos, value: TExpr) -> TStmt
    ensures { tstmt_tree result ≡ trees.Expr pos (texpr_tree value) }
{
    TStmt::Expr { pos, value }
}

/// A block of this kind, of what was made between its braces.
pub fn block_node(pos: Pos, kind: BlockKind, made: Made) -> TStmt
    ensures { tstmt_tree result ≡ trees.Block pos kind (made_tree made).objects (made_tree made).items }
{
    let Made { objects, items } = made;
    TStmt::Block {
        pos,
        kind,
        objects: Numbers::from_vec(objects),
        items: TStmts::from_vec(items),
    }
}

/// An empty block in the place of an else.
pub fn no_else(alloc: Global, pos: Pos) -> TStmt
    ensures { tstmt_tree result ≡ stmts.no_else pos }
{
    TStmt::Block {
        pos,
        kind: BlockKind::Added,
        objects: Numbers::new(alloc),
        items: TStmts::new(alloc),
    }
}

/// An `if` with both its statements.
pub fn if_node(
    alloc: Global,
    pos: Pos,
    condition: TExpr,
    first: TStmt,
    second: TStmt,
) -> Result<TStmt, NoMemory>
    ensures { IfOk result (λ node. tstmt_tree node ≡ trees.If pos (texpr_tree condition) (tstmt_tree first) (tstmt_tree second)) }
{
    let then = Box::new(alloc, first)?;
    let otherwise = Box::new(alloc, second)?;
    Ok(TStmt::If {
        pos,
        condition,
        then,
        otherwise,
    })
}

/// A `while` with its body.
pub fn while_node(alloc: Global, pos: Pos, condition: TExpr, body: TStmt) -> Result<TStmt, NoMemory>
    ensures { IfOk result (λ node. tstmt_tree node ≡ trees.While pos (texpr_tree condition) (tstmt_tree body)) }
{
    let body = Box::new(alloc, body)?;
    Ok(TStmt::While {
        pos,
        condition,
        body,
    })
}

/// A `do` with its body.
pub fn do_while_node(
    alloc: Global,
    pos: Pos,
    body: TStmt,
    condition: TExpr,
) -> Result<TStmt, NoMemory>
    ensures { IfOk result (λ node. tstmt_tree node ≡ trees.DoWhile pos (tstmt_tree body) (texpr_tree condition)) }
{
    let body = Box::new(alloc, body)?;
    Ok(TStmt::DoWhile {
        pos,
        body,
        condition,
    })
}

/// A `for` that begins with what was made, with its condition, its step and its body.
pub fn for_node(
    alloc: Global,
    pos: Pos,
    start: Made,
    condition: Option<TExpr>,
    step: Option<TExpr>,
    body: TStmt,
) -> Result<TStmt, NoMemory>
    ensures { IfOk result (λ node. tstmt_tree node ≡ trees.For pos (made_tree start).objects (made_tree start).items (option_map texpr_tree condition)
        (option_map texpr_tree step) (tstmt_tree body)) }
{
    let Made { objects, items } = start;
    let body = Box::new(alloc, body)?;
    Ok(TStmt::For {
        pos,
        objects: Numbers::from_vec(objects),
        head: TStmts::from_vec(items),
        condition,
        step,
        body,
    })
}

/// A `switch` by its value, over a block of this kind, of what was made in it.
pub fn switch_node(pos: Pos, value: TExpr, kind: BlockKind, made: Made) -> TStmt
    ensures { tstmt_tree result ≡ trees.Switch pos (texpr_tree value) kind (made_tree made).objects (made_tree made).items }
{
    let Made { objects, items } = made;
    TStmt::Switch {
        pos,
        value,
        kind,
        objects: Numbers::from_vec(objects),
        items: TStmts::from_vec(items),
    }
}
