// The arguments of a call, as they are lowered one by one.
#![tactic(auto, using(csharp::proofs::CodeTrees::the_code_trees))]

use crate::part::{Arguments, Part};
use crate::steps::sequence;
use csharp::{CsExpr, CsExprs, CsStmt};
use std::alloc::{AllocError as NoMemory, Global};

/// The arguments that were lowered, the next depth that is free, and how many rows they use.
#[derive(Drop)]
pub struct Gathered {
    pub befores: Vec<CsStmt>,
    pub values: Vec<CsExpr>,
    pub next: u64,
    pub top: u64,
}

impl Gathered {
    ghost use Rattle.std.specs.Prelude.{◌≡◌, IfOk, OnOk};
    ghost use Rattle.lower_trees.specs.LowerExpr.{Args};
    ghost use Rattle.lower_nodes.specs.Parts.{args_more, arguments_tree, no_args, part_tree, with_rest};

    /// No arguments, from a depth on.
    pub fn new(alloc: Global, d: u64) -> Gathered
        ensures rest { (rest : Args) → with_rest result rest ≡ rest }
        ensures next { result.next ≡ d }
    {
        Gathered {
            befores: Vec::new(alloc),
            values: Vec::new(alloc),
            next: d,
            top: 0,
        }
    }

    /// One argument more, at the depth that is free.
    pub fn push(&mut self, part: Part) -> Result<(), NoMemory>
        ensures rest { OnOk result ((rest : Args) → with_rest self.new rest ≡ with_rest self.old (args_more (part_tree part) rest)) }
        ensures next { OnOk result (self.new.next ≡ part.next) }
    {
        let Part {
            before,
            value,
            next,
            top,
        } = part;
        self.befores.push(before)?;
        self.values.push(value)?;
        self.next = next;
        self.top = self.top.max(top);
        Ok(())
    }

    /// The arguments together.
    pub fn finish(self, alloc: Global) -> Result<Arguments, NoMemory>
        ensures { IfOk result (λ args. arguments_tree args ≡ with_rest self (no_args self.next)) }
    {
        let Gathered {
            befores,
            values,
            next,
            top,
        } = self;
        let before = in_sequence(alloc, befores)?;
        Ok(Arguments {
            before,
            values: CsExprs::from_vec(values),
            next,
            top: top.max(next),
        })
    }
}

ghost use Rattle.std.specs.Prelude.{◌≡◌, IfOk, map};
ghost use Rattle.csharp.specs.Trees.{csstmt_tree};
ghost use Rattle.csharp.specs.Trees as trees;
ghost use Rattle.lower_nodes.specs.Parts.{in_sequence};

fn in_sequence(alloc: Global, mut befores: Vec<CsStmt>) -> Result<CsStmt, NoMemory>
    ensures { IfOk result (λ s. csstmt_tree s ≡ in_sequence (map csstmt_tree befores.items) trees.Nothing) }
{
    let mut behind = CsStmt::Nothing;
    while let Some(before) = befores.pop() {
        behind = sequence(alloc, before, behind)?;
    }
    Ok(behind)
}
