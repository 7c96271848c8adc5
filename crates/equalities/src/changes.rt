// Changes of a list of equalities.
#![tactic(auto, using(num_api::proofs::Trees::nexpr_trees))]

ghost use Rattle.std.specs.Prelude.{◌≡◌, IfOk, OnOk, IfSome, IfNone, Some, None};
ghost use Rattle.num_api.specs.Exprs.{nexpr_tree};
ghost use Rattle.equalities.specs.Pairs.{pair_of, equality, equalities_of, apart_from, with_pair, assigned, learned, shared, variable_in, of_sides, told_by};

use crate::pairs::{Equation, is_there};
use num_api::{NExpr, NOp, Standing, Var, compared};
use std::alloc::{AllocError as NoMemory, Global};
use std::rc::Rc;

// How many equalities stay where one more comes.
const OTHERS: usize = 63;

// Drops the equalities that speak of the variable.
pub fn keep_apart(pairs: &mut Vec<Equation>, x: Var)
    ensures { equalities_of pairs.new.items ≡ apart_from x.0 (equalities_of pairs.old.items) }
{
    pairs.retain(|p| !p.speaks_of(x));
}

// Drops the equalities that the other list has not.
pub fn keep_shared(pairs: &mut Vec<Equation>, others: &[Equation])
    ensures { equalities_of pairs.new.items ≡ shared (equalities_of pairs.old.items) (equalities_of others.now) }
{
    pairs.retain(|p| is_there(p, others));
}

// Adds an equality; the oldest goes where there are too many.
fn add(pairs: &mut Vec<Equation>, pair: Equation) -> Result<(), NoMemory>
    ensures { OnOk result (equalities_of pairs.new.items ≡ with_pair (equality pair) (equalities_of pairs.old.items)) }
{
    pairs.truncate(OTHERS);
    pairs.insert(0, pair)?;
    Ok(())
}

// The equality of the variable with a copy of the expression.
fn pair(alloc: Global, x: Var, e: &NExpr) -> Result<Equation, NoMemory>
    ensures { IfOk result (λ p. equality p ≡ pair_of x.0 (nexpr_tree e.now)) }
{
    let e = Rc::new(alloc, e.copy(alloc)?)?;
    Ok(Equation { x, e })
}

// Keeps what is known behind an assignment.
pub fn set_pair(alloc: Global, pairs: &mut Vec<Equation>, x: Var, e: &NExpr) -> Result<(), NoMemory>
    ensures { OnOk result (equalities_of pairs.new.items ≡ assigned x.0 (nexpr_tree e.now) (equalities_of pairs.old.items)) }
{
    keep_apart(pairs, x);
    if e.reads(x) {
        return Ok(());
    }
    add(pairs, pair(alloc, x, e)?)
}

// Keeps that the variable has the expression's value.
pub fn learn(alloc: Global, pairs: &mut Vec<Equation>, x: Var, e: &NExpr) -> Result<(), NoMemory>
    ensures { OnOk result (equalities_of pairs.new.items ≡ learned x.0 (nexpr_tree e.now) (equalities_of pairs.old.items)) }
{
    if e.reads(x) {
        return Ok(());
    }
    let pair = pair(alloc, x, e)?;
    if is_there(&pair, pairs.as_slice()) {
        return Ok(());
    }
    add(pairs, pair)
}

// The variable that the expression is.
pub fn variable(e: &NExpr) -> Option<Var>
    ensures some { IfSome result (λ x. variable_in (nexpr_tree e.now) ≡ Some x.0) }
    ensures none { IfNone result (variable_in (nexpr_tree e.now) ≡ None) }
{
    match e {
        NExpr::Read(x) => Some(*x),
        NExpr::Const(_) => None,
        NExpr::Unary(_, _) => None,
        NExpr::Binary(_, _, _) => None,
    }
}

// The equality of one side with the other where that is a variable.
fn of_sides<'a>(a: &'a NExpr, b: &'a NExpr) -> Option<(Var, &'a NExpr)>
    ensures some { IfSome result (λ p. of_sides (nexpr_tree a.now) (nexpr_tree b.now) ≡ Some (pair_of p.0.0 (nexpr_tree p.1.now))) }
    ensures none { IfNone result (of_sides (nexpr_tree a.now) (nexpr_tree b.now) ≡ None) }
{
    match variable(a) {
        Some(x) => Some((x, b)),
        None => match variable(b) {
            Some(x) => Some((x, a)),
            None => None,
        },
    }
}

// The equality that the test tells where it has this truth.
pub fn told_by(e: &NExpr, truth: bool) -> Option<(Var, &NExpr)>
    ensures some { IfSome result (λ p. told_by (nexpr_tree e.now) truth ≡ Some (pair_of p.0.0 (nexpr_tree p.1.now))) }
    ensures none { IfNone result (told_by (nexpr_tree e.now) truth ≡ None) }
{
    match e {
        NExpr::Const(_) => None,
        NExpr::Read(_) => None,
        NExpr::Unary(op, a) => match op {
            NOp::Not => told_by(a, !truth),
            _ => None,
        },
        NExpr::Binary(op, a, b) => match compared(*op, truth) {
            Some(Standing::Same) => of_sides(a, b),
            _ => None,
        },
    }
}
