// Functions by their numbers, as they are lowered one by one.
#![tactic(auto, using(csharp::proofs::CodeTrees::the_code_trees))]

use c_rules_calls::Call;
use c_syntax::Numbers;
use csharp::{CsFunction, CsStmt};
use lower_stmt::Placed;
use std::alloc::{AllocError as NoMemory, Global};

/// The functions that were lowered, in the places of their numbers; the rows that each uses; and the rows that all use.
#[derive(Drop)]
pub struct Done {
    pub functions: Vec<CsFunction>,
    pub tops: Vec<u64>,
    pub highest: u64,
}

impl Done {
    ghost use Rattle.std.specs.Prelude.{◌≡◌, ◌<◌, [], ◌∷◌, ℕ, List, length, map, IfOk};
    ghost use Rattle.c_rules_calls.specs.Placed.{placed as placed_call};
    ghost use Rattle.lower_trees.specs.LowerProgram as programs;
    ghost use Rattle.lower_program.specs.Order.{AreDone, HasTops, placed_tree};

    /// No function of so many.
    pub fn new(alloc: Global, count: usize) -> Result<Done, NoMemory>
        ensures { IfOk result (λ done. AreDone count done []) }
    {
        let mut functions = Vec::new(alloc);
        let mut tops = Vec::new(alloc);
        while functions.len() < count {
            functions.push(CsFunction {
                params: Numbers::new(alloc),
                body: CsStmt::Nothing,
            })?;
            tops.push(0)?;
        }
        Ok(Done {
            functions,
            tops,
            highest: 0,
        })
    }

    /// The first row behind those of all these calls.
    pub fn behind(&self, calls: &[Call]) -> u64
        ensures { (all : List programs.Placed) → HasTops self.now all → result ≡ programs.behind_calls all (map placed_call calls.now) }
    {
        let mut row = 0;
        for call in calls {
            row = row.max(self.top(call.callee));
        }
        row
    }

    fn top(&self, f: u64) -> u64
        ensures { (all : List programs.Placed) → HasTops self.now all → result ≡ programs.top_in all f }
    {
        match self.tops.get(f as usize) {
            None => 0,
            Some(top) => *top,
        }
    }

    /// One function more, whose number is below that of all.
    pub fn put(&mut self, f: u64, placed: Placed)
        requires functions { f < length self.old.functions.items }
        requires tops { f < length self.old.tops.items }
        ensures { (count : ℕ) (all : List programs.Placed) → f < count → AreDone count self.old all
            → AreDone count self.new (placed_tree f placed ∷ all) }
    {
        let Placed { function, top } = placed;
        self.functions[f as usize] = function;
        self.tops[f as usize] = top;
        self.highest = self.highest.max(top);
    }
}
