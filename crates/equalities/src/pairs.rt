// Pairs of a variable and an expression, and lists of them.
#![tactic(auto, using(num_api::proofs::Trees::nexpr_trees))]

ghost use Rattle.std.specs.Prelude.{◌≡◌, IfOk, IfSome, IfNone, Some, None};
ghost use Rattle.num_api.specs.Exprs.{nexpr_tree};

use num_api::{NExpr, Var};
use std::alloc::{AllocError as NoMemory, Global};
use std::rc::Rc;

/// A variable and an expression whose value it has.
#[derive(Drop)]
pub struct Equation {
    pub x: Var,
    pub e: Rc<NExpr>,
}

impl Equation {
    ghost use Rattle.equalities.specs.Pairs.{equality, touches, is_one};

    // Whether the equality speaks of the variable.
    pub fn speaks_of(&self, x: Var) -> bool
        ensures { result ≡ touches x.0 (equality self.now) }
    {
        self.x.0 == x.0 || self.e.reads(x)
    }

    // Whether the two are one equality.
    pub fn is_same(&self, other: &Equation) -> bool
        ensures { result ≡ is_one (equality self.now) (equality other.now) }
    {
        self.x.0 == other.x.0 && self.e.is_same(&other.e)
    }
}

ghost use Rattle.equalities.specs.Pairs.{equality, equalities_of, is_among, all_among, expr_of};

// Whether the equality is one of the list.
pub fn is_there(p: &Equation, list: &[Equation]) -> bool
    ensures { result ≡ is_among (equalities_of list.now) (equality p.now) }
{
    for q in list {
        if p.is_same(q) {
            return true;
        }
    }
    false
}

// Whether each equality of the first list is one of the second.
pub fn all_there(pairs: &[Equation], list: &[Equation]) -> bool
    ensures { result ≡ all_among (equalities_of pairs.now) (equalities_of list.now) }
{
    for p in pairs {
        if !is_there(p, list) {
            return false;
        }
    }
    true
}

// The expression that the variable equals, the newest of them.
pub fn find(pairs: &[Equation], x: Var) -> Option<&NExpr>
    ensures some { IfSome result (λ e. expr_of (equalities_of pairs.now) x.0 ≡ Some (nexpr_tree e.now)) }
    ensures none { IfNone result (expr_of (equalities_of pairs.now) x.0 ≡ None) }
{
    for p in pairs {
        if p.x.0 == x.0 {
            return Some(&*p.e);
        }
    }
    None
}

// A copy of the list, which shares the expressions.
pub fn copy_all(alloc: Global, pairs: &[Equation]) -> Result<Vec<Equation>, NoMemory>
    ensures { IfOk result (λ new. equalities_of new.items ≡ equalities_of pairs.now) }
{
    let mut new = Vec::new(alloc);
    for p in pairs {
        let e = p.e.clone()?;
        new.push(Equation { x: p.x, e })?;
    }
    Ok(new)
}
