// The calls that each function of a program makes.
#![tactic(auto, using(c_syntax::proofs::Trees::the_trees))]

ghost use Rattle.std.specs.Prelude.{◌≡◌, IfOk};
ghost use Rattle.c_syntax.specs.Program.{tfunction_tree};
ghost use Rattle.c_rules_calls.specs.Graph.{calls_in};

use crate::call::{Call, Calls};
use crate::stmts::add_stmt;
use c_syntax::{TFunction, TProgram};
use std::alloc::{AllocError as NoMemory, Global};
use std::marker::Model;

/// The calls that each function of a program makes, by the number of the function, where it has a body.
#[derive(Drop)]
pub struct CallGraph {
    functions: Vec<Option<Calls>>,
}

impl Model for CallGraph {
    ghost use Rattle.std.specs.Prelude.{List, Option};
    ghost use Rattle.c_layout.specs.Calls.{PlacedCall};

    ghost Value = { List (Option (List PlacedCall)) };

    ghost view = { λ g. g.functions.items };
}

impl CallGraph {
    ghost use Rattle.std.specs.Prelude.{◌≡◌, map, length, IfOk, MatchBool};
    ghost use Rattle.c_syntax.specs.Program.{tprogram_tree};
    ghost use Rattle.c_rules_calls.specs.Placed.{placed};
    ghost use Rattle.c_rules_calls.specs.Graph.{calls_from, graph_of, IsDefined};

    /// The calls of this program.
    pub fn of(alloc: Global, program: &TProgram) -> Result<CallGraph, NoMemory>
        ensures { IfOk result (λ graph. graph ≡ graph_of (tprogram_tree program.now)) }
    {
        let mut functions = Vec::new(alloc);
        for function in program.functions.as_slice() {
            functions.push(body_calls(alloc, function)?)?;
        }
        Ok(CallGraph { functions })
    }

    /// How many functions the program has.
    pub fn len(&self) -> usize
        ensures { result ≡ length self.now }
    {
        self.functions.len()
    }

    /// Whether the function of this number is there, and has a body.
    pub fn is_defined(&self, function: u64) -> bool
        ensures { MatchBool result (IsDefined self.now function) (IsDefined self.now function → ⊥) }
    {
        match self.functions.get(function as usize) {
            Some(Some(_)) => true,
            Some(None) | None => false,
        }
    }

    /// The calls that the function of this number makes; none where it has no body or is not there.
    pub fn calls(&self, function: u64) -> &[Call]
        ensures { map placed result.now ≡ calls_from self.now function }
    {
        match self.functions.get(function as usize) {
            Some(Some(calls)) => calls.as_slice(),
            Some(None) | None => &[],
        }
    }
}

fn body_calls(alloc: Global, function: &TFunction) -> Result<Option<Calls>, NoMemory>
    ensures { IfOk result (λ calls. calls ≡ calls_in (tfunction_tree function.now)) }
{
    match &function.body {
        Some(body) => {
            let mut calls = Calls::new(alloc);
            add_stmt(body, &mut calls)?;
            Ok(Some(calls))
        }
        None => Ok(None),
    }
}
