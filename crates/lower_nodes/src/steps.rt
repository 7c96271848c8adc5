// Statements of the analysed language.
#![tactic(auto, using(csharp::proofs::CodeTrees::the_code_trees))]

ghost use Rattle.std.specs.Prelude.{◌≡◌, IfOk};
ghost use Rattle.csharp.specs.Trees.{csexpr_tree, csstmt_tree};
ghost use Rattle.csharp.specs.Trees as trees;
ghost use Rattle.lower_trees.specs.LowerExpr as lowering;
ghost use Rattle.lower_nodes.specs.Parts.{leaving};

use csharp::{CsExpr, CsStmt};
use std::alloc::{AllocError as NoMemory, Global};

/// Which way a test leaves by its exit.
#[derive(Clone, Copy)]
pub enum Leave {
    /// Where the expression is false.
    IfFalse,
    /// Where it is true.
    IfTrue,
}

impl Leave {
    ghost use Rattle.std.specs.Prelude.{◌≡◌};
    ghost use Rattle.lower_nodes.specs.Parts.{opposite};

    /// The other way.
    pub fn opposite(self) -> Leave
        ensures { result ≡ opposite self }
    {
        match self {
            Leave::IfFalse => Leave::IfTrue,
            Leave::IfTrue => Leave::IfFalse,
        }
    }
}

/// One statement behind the other.
pub fn sequence(alloc: Global, first: CsStmt, second: CsStmt) -> Result<CsStmt, NoMemory>
    ensures { IfOk result (λ s. csstmt_tree s ≡ trees.Sequence (csstmt_tree first) (csstmt_tree second)) }
{
    let first = Box::new(alloc, first)?;
    let second = Box::new(alloc, second)?;
    Ok(CsStmt::Sequence { first, second })
}

/// Three statements, one behind the other.
pub fn in_turn(
    alloc: Global,
    first: CsStmt,
    second: CsStmt,
    third: CsStmt,
) -> Result<CsStmt, NoMemory>
    ensures { IfOk result (λ s. csstmt_tree s
        ≡ trees.Sequence (csstmt_tree first) (trees.Sequence (csstmt_tree second) (csstmt_tree third))) }
{
    let rest = sequence(alloc, second, third)?;
    sequence(alloc, first, rest)
}

/// A statement in a block, which its exit 0 leaves.
pub fn block(alloc: Global, body: CsStmt) -> Result<CsStmt, NoMemory>
    ensures { IfOk result (λ s. csstmt_tree s ≡ trees.Block (csstmt_tree body)) }
{
    let body = Box::new(alloc, body)?;
    Ok(CsStmt::Block { body })
}

/// Leaves by an exit by what a condition is, and else does nothing.
pub fn exit_by(
    alloc: Global,
    leave: Leave,
    condition: CsExpr,
    level: u64,
) -> Result<CsStmt, NoMemory>
    ensures { IfOk result (λ s. csstmt_tree s ≡ leaving leave (csexpr_tree condition) level) }
{
    let exit = Box::new(alloc, CsStmt::Exit { level })?;
    let stay = Box::new(alloc, CsStmt::Nothing)?;
    Ok(match leave {
        Leave::IfFalse => CsStmt::If {
            condition,
            then: stay,
            otherwise: exit,
        },
        Leave::IfTrue => CsStmt::If {
            condition,
            then: exit,
            otherwise: stay,
        },
    })
}

/// Two ways behind a test that leaves by exit 0 where it is false.
pub fn branch(
    alloc: Global,
    test: CsStmt,
    first: CsStmt,
    second: CsStmt,
) -> Result<CsStmt, NoMemory>
    ensures { IfOk result (λ s. csstmt_tree s
        ≡ lowering.branch (csstmt_tree test) (csstmt_tree first) (csstmt_tree second)) }
{
    let passed = in_turn(alloc, test, first, CsStmt::Exit { level: 1 })?;
    let passed = block(alloc, passed)?;
    let both = sequence(alloc, passed, second)?;
    block(alloc, both)
}
