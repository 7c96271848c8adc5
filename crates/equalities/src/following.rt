// The truth of a test, followed from a variable to what it equals.
#![tactic(auto, using(num_api::proofs::Trees::nexpr_trees))]

ghost use Rattle.std.specs.Prelude.{◌≡◌, ℤ, List, IsTrue, IfSome, OnOk, Some};
ghost use Rattle.num_api.specs.Exprs.{nexpr_tree};
ghost use Rattle.num_api.specs.Messages.{Adds, TellsOf};
ghost use Rattle.num_api.specs.Ranges.{InRange};
ghost use Rattle.num_api.specs.Standings.{standing_of, Stands};
ghost use Rattle.num_api.specs.Value.{value_of, has_truth};

use crate::changes::variable;
use crate::pairs::{Equation, find};
use num_api::{
    Message, Messages, NExpr, NOp, Oracle, Range, Standing, Var, compared, cut_range, turned,
};
use std::alloc::AllocError as NoMemory;

// How many equalities the truth of a test is followed along.
const FOLLOWED: u32 = 8;

/// A variable and whether it is other than 0.
#[derive(Clone, Copy)]
pub struct Truth {
    pub x: Var,
    pub holds: bool,
}

ghost use Rattle.equalities.specs.Pairs.{AreSo, equalities_of};
ghost use Rattle.equalities.specs.Telling.{HasTruth};

// Whether a number that stands so to the expression is other than 0, where that is 0.
fn truth_against(how: Standing, b: &NExpr) -> Option<bool>
    ensures { IfSome result (λ t. (v : List ℤ) (m n : ℤ) → value_of v (nexpr_tree b.now) ≡ Some n → Stands (standing_of how) m n → IsTrue (has_truth t m)) }
{
    match b {
        NExpr::Const(n) if *n == 0 => match how {
            Standing::Same => Some(false),
            Standing::Other => Some(true),
            _ => None,
        },
        _ => None,
    }
}

// The variable whose truth the test asks for.
pub fn tested_variable(e: &NExpr, truth: bool) -> Option<Truth>
    ensures { IfSome result (λ t. (v : List ℤ) (n : ℤ) → value_of v (nexpr_tree e.now) ≡ Some n → IsTrue (has_truth truth n) → HasTruth v t) }
{
    match e {
        NExpr::Const(_) => None,
        NExpr::Read(x) => Some(Truth {
            x: *x,
            holds: truth,
        }),
        NExpr::Unary(op, a) => match op {
            NOp::Not => tested_variable(a, !truth),
            _ => None,
        },
        NExpr::Binary(op, a, b) => {
            let how = compared(*op, truth)?;
            let truth = truth_against(how, b)?;
            tested_variable(a, truth)
        }
    }
}

// The range of the expression's value; no oracle is needed for a constant.
fn range_of<O: Oracle>(e: &NExpr, ask: &O) -> Range
    ensures { (v : List ℤ) (n : ℤ) → O.admits ask.now v → value_of v (nexpr_tree e.now) ≡ Some n → InRange result n }
{
    match e {
        NExpr::Const(n) => Range::point(*n),
        _ => ask.range(e),
    }
}

// Puts out where a side of a comparison lies, if it is a variable.
fn tell_side<O: Oracle>(
    a: &NExpr,
    how: Standing,
    b: &NExpr,
    ask: &O,
    out: &mut Messages,
) -> Result<(), NoMemory>
    ensures kept { OnOk result (Adds out.old out.new) }
    ensures told { OnOk result ((v : List ℤ) (m n : ℤ) → O.admits ask.now v → value_of v (nexpr_tree a.now) ≡ Some m → value_of v (nexpr_tree b.now) ≡ Some n
        → Stands (standing_of how) m n → TellsOf v out.old out.new) }
{
    let Some(x) = variable(a) else {
        return Ok(());
    };
    let r = cut_range(how, range_of(a, ask), range_of(b, ask));
    out.push(Message::Between(x, r))?;
    Ok(())
}

// Puts out where both sides of a comparison of this truth lie.
fn tell_comparison<O: Oracle>(
    e: &NExpr,
    truth: bool,
    ask: &O,
    out: &mut Messages,
) -> Result<(), NoMemory>
    ensures kept { OnOk result (Adds out.old out.new) }
    ensures told { OnOk result ((v : List ℤ) (n : ℤ) → O.admits ask.now v → value_of v (nexpr_tree e.now) ≡ Some n → IsTrue (has_truth truth n)
        → TellsOf v out.old out.new) }
{
    let NExpr::Binary(op, a, b) = e else {
        return Ok(());
    };
    let Some(how) = compared(*op, truth) else {
        return Ok(());
    };
    tell_side(a, how, b, ask, out)?;
    tell_side(b, turned(how), a, ask, out)?;
    Ok(())
}

// Follows the truth of a variable along equalities, and puts out what the comparisons on the way say.
pub fn follow<O: Oracle>(
    pairs: &[Equation],
    from: Option<Truth>,
    ask: &O,
    out: &mut Messages,
) -> Result<(), NoMemory>
    ensures kept { OnOk result (Adds out.old out.new) }
    ensures told { OnOk result ((v : List ℤ) → AreSo v (equalities_of pairs.now) → O.admits ask.now v → IfSome from (HasTruth v) → TellsOf v out.old out.new) }
{
    let mut next = from;
    for _ in 0..FOLLOWED {
        let Some(truth) = next else {
            return Ok(());
        };
        let Some(e) = find(pairs, truth.x) else {
            return Ok(());
        };
        tell_comparison(e, truth.holds, ask, out)?;
        next = tested_variable(e, truth.holds);
    }
    Ok(())
}
