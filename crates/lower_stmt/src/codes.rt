// Statements, from what their parts are lowered to.
#![tactic(auto, using(csharp::proofs::CodeTrees::the_code_trees))]

ghost use Rattle.std.specs.Prelude.{◌≡◌, max, IfOk};
ghost use Rattle.csharp.specs.Trees.{csexpr_tree, csstmt_tree, csstmts_from};
ghost use Rattle.csharp.specs.Trees as trees;
ghost use Rattle.lower_trees.specs.LowerExpr as lowering;
ghost use Rattle.lower_trees.specs.LowerStmt as statements;
ghost use Rattle.lower_nodes.specs.Parts.{coded_tree, part_tree};
ghost use Rattle.lower_stmt.specs.Views.{listed_tree};

use crate::listed::Listed;
use c_syntax::{Numbers, Pos};
use csharp::{CsStmt, CsStmts};
use lower_nodes::{Coded, Part, block, branch, in_turn, sequence};
use std::alloc::{AllocError as NoMemory, Global};

/// A statement that uses no temporaries.
pub fn only(d: u64, code: CsStmt) -> Coded
    ensures { coded_tree result ≡ statements.coded (csstmt_tree code) d }
{
    Coded { code, top: d }
}

/// Items with the objects that live while they are done.
pub fn scope(objects: &Numbers, listed: Listed) -> Result<Coded, NoMemory>
    ensures { IfOk result (λ c. coded_tree c ≡ statements.scope_code objects.now (listed_tree listed)) }
{
    let objects = objects.copy()?;
    let Listed { items, top } = listed;
    let items = CsStmts::from_vec(items);
    Ok(Coded {
        code: CsStmt::Scope { objects, items },
        top,
    })
}

/// Two statements behind a test that leaves by exit 0 where it is false.
pub fn two_ways(alloc: Global, test: Coded, first: Coded, second: Coded) -> Result<Coded, NoMemory>
    ensures { IfOk result (λ c. coded_tree c
        ≡ statements.coded (lowering.branch (coded_tree test).code (coded_tree first).code (coded_tree second).code)
        (max (coded_tree test).top (max (coded_tree first).top (coded_tree second).top))) }
{
    let top = test.top.max(first.top.max(second.top));
    let code = branch(alloc, test.code, first.code, second.code)?;
    Ok(Coded { code, top })
}

/// A loop that tests before its body.
pub fn test_loop(
    alloc: Global,
    at: Pos,
    test: Coded,
    body: Coded,
    step: Coded,
) -> Result<Coded, NoMemory>
    ensures { IfOk result (λ c. coded_tree c
        ≡ statements.loop_code at (coded_tree test) (coded_tree body) (coded_tree step)) }
{
    let top = test.top.max(body.top.max(step.top));
    let body = block(alloc, body.code)?;
    let turn = in_turn(alloc, test.code, body, step.code)?;
    let code = loop_of(alloc, at, turn)?;
    Ok(Coded { code, top })
}

/// A loop that tests behind its body.
pub fn do_loop(alloc: Global, at: Pos, test: Coded, body: Coded) -> Result<Coded, NoMemory>
    ensures { IfOk result (λ c. coded_tree c ≡ statements.do_code at (coded_tree test) (coded_tree body)) }
{
    let top = test.top.max(body.top);
    let body = block(alloc, body.code)?;
    let turn = sequence(alloc, body, test.code)?;
    let code = loop_of(alloc, at, turn)?;
    Ok(Coded { code, top })
}

fn loop_of(alloc: Global, at: Pos, turn: CsStmt) -> Result<CsStmt, NoMemory>
    ensures { IfOk result (λ s. csstmt_tree s ≡ trees.Block (trees.Loop at (csstmt_tree turn))) }
{
    let body = Box::new(alloc, turn)?;
    block(alloc, CsStmt::Loop { pos: at, body })
}

/// A switch on a value.
pub fn switched(
    alloc: Global,
    value: Part,
    objects: &Numbers,
    listed: Listed,
) -> Result<Coded, NoMemory>
    ensures { IfOk result (λ c. coded_tree c
        ≡ statements.coded
        (trees.Sequence (part_tree value).before (trees.Block (trees.Switch (part_tree value).value objects.now (listed_tree listed).items)))
        (max (part_tree value).top (listed_tree listed).top)) }
{
    let top = value.top.max(listed.top);
    let objects = objects.copy()?;
    let items = CsStmts::from_vec(listed.items);
    let switch = CsStmt::Switch {
        value: value.value,
        objects,
        items,
    };
    let switch = block(alloc, switch)?;
    let code = sequence(alloc, value.before, switch)?;
    Ok(Coded { code, top })
}

/// A return of a value.
pub fn returned(alloc: Global, value: Part) -> Result<Coded, NoMemory>
    ensures { IfOk result (λ c. coded_tree c
        ≡ statements.coded (trees.Sequence (part_tree value).before (trees.Return (Some (part_tree value).value))) (part_tree value).top) }
{
    let Part {
        before,
        value,
        next: _,
        top,
    } = value;
    let give = CsStmt::Return { value: Some(value) };
    let code = sequence(alloc, before, give)?;
    Ok(Coded { code, top })
}
