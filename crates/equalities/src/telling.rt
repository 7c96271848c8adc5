// Equalities that are told.
#![tactic(auto, using(num_api::proofs::Trees::nexpr_trees))]

ghost use Rattle.std.specs.Prelude.{◌≡◌, ℤ, List, IsTrue, OnOk, Some};
ghost use Rattle.num_api.specs.Exprs.{nexpr_tree};
ghost use Rattle.num_api.specs.Messages.{Adds, TellsOf};
ghost use Rattle.num_api.specs.Value.{value_of, has_truth};
ghost use Rattle.equalities.specs.Pairs.{IsSo, AreSo, equality, equalities_of};

use crate::following::{follow, tested_variable};
use crate::pairs::Equation;
use crate::solving::tell_solved;
use crate::ties::{is_tied, tied};
use num_api::{Message, Messages, NExpr, NumFacts, Oracle, Var};
use std::alloc::{AllocError as NoMemory, Global};

// Puts out each equality.
pub fn tell_all(alloc: Global, pairs: &[Equation], out: &mut NumFacts) -> Result<(), NoMemory>
    ensures kept { OnOk result (Adds out.old out.new) }
    ensures told { OnOk result ((v : List ℤ) → AreSo v (equalities_of pairs.now) → TellsOf v out.old out.new) }
{
    for p in pairs {
        let e = p.e.copy(alloc)?;
        out.push(Message::Equal(p.x, e))?;
    }
    Ok(())
}

// Puts out an equality that speaks of one of the variables.
fn tell_where_tied(
    alloc: Global,
    p: &Equation,
    vars: &[Var],
    out: &mut Messages,
) -> Result<(), NoMemory>
    ensures kept { OnOk result (Adds out.old out.new) }
    ensures told { OnOk result ((v : List ℤ) → IsSo v (equality p.now) → TellsOf v out.old out.new) }
{
    if is_tied(p, vars) {
        tell_solved(alloc, p.x, &p.e, out)
    } else {
        Ok(())
    }
}

// Puts out the equalities that speak of one of the variables.
fn tell_tied(
    alloc: Global,
    pairs: &[Equation],
    vars: &[Var],
    out: &mut Messages,
) -> Result<(), NoMemory>
    ensures kept { OnOk result (Adds out.old out.new) }
    ensures told { OnOk result ((v : List ℤ) → AreSo v (equalities_of pairs.now) → TellsOf v out.old out.new) }
{
    for p in pairs {
        tell_where_tied(alloc, p, vars, out)?;
    }
    Ok(())
}

// Puts out what equalities say where the test has this truth: what its truth comes to, and those that speak of
// its variables and of the variables that are tied to these.
pub fn tell_test<O: Oracle>(
    alloc: Global,
    pairs: &[Equation],
    e: &NExpr,
    truth: bool,
    ask: &O,
    out: &mut Messages,
) -> Result<(), NoMemory>
    ensures kept { OnOk result (Adds out.old out.new) }
    ensures told { OnOk result ((v : List ℤ) (n : ℤ) → AreSo v (equalities_of pairs.now) → O.admits ask.now v → value_of v (nexpr_tree e.now) ≡ Some n
        → IsTrue (has_truth truth n) → TellsOf v out.old out.new) }
{
    follow(pairs, tested_variable(e, truth), ask, out)?;
    let vars = tied(alloc, pairs, e)?;
    tell_tied(alloc, pairs, vars.as_slice(), out)?;
    Ok(())
}
