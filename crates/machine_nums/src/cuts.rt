// What a test leaves of the variables that it compares.
#![tactic(auto, using(crate::proofs::Trees::mexpr_trees, num_api::proofs::Trees::nexpr_trees))]

ghost use Rattle.std.specs.Prelude.{◌≡◌, ℕ, ℤ, List, IsTrue, IfSome, IfOk, IsSomeAnd, Some};
ghost use Rattle.ext_int.specs.Valuation.{value_at};
ghost use Rattle.num_api.specs.Exprs.{Read, nexpr_tree};
ghost use Rattle.num_api.specs.Plain.{cut};
ghost use Rattle.num_api.specs.Ranges.{InRange, NoWider, IsUnder};
ghost use Rattle.num_api.specs.Spans.{Span, range_of};
ghost use Rattle.num_api.specs.Value.{value_of, has_truth};
ghost use Rattle.num_api.specs.Standings.{standing_of, Stands};
ghost use Rattle.machine_nums.specs.Cuts.{HoldCuts, AreCutBy};
ghost use Rattle.machine_nums.specs.MExprs.{mexpr_tree};
ghost use Rattle.machine_nums.specs.Machine.{machine_value};
ghost use Rattle.machine_nums.specs.Rule.{value_span, side_variable, cut_sides, tested};

use crate::MExpr;
use crate::evaluation::value;
use crate::parts::Part;
use num_api::{
    NExpr, NOp, NumDomain, Range, Standing, Var, compared, cut_range, no_numbers, turned,
};
use std::alloc::{AllocError as NoMemory, Global};

/// A variable and a range in which its number lies.
#[derive(Clone, Copy)]
pub struct Cut {
    pub x: Var,
    pub range: Range,
}

/// What a comparison leaves of its sides that are variables.
#[derive(Clone, Copy)]
pub struct Cuts {
    pub left: Option<Cut>,
    pub right: Option<Cut>,
}

// The numbers of the first range that stand so to some number of the second.
fn standing_range(how: Standing, s: Range, t: Range) -> Range
    ensures holds { (x y : ℤ) → InRange s x → InRange t y → Stands (standing_of how) x y → InRange result x }
    ensures plain { (p q : Span) → NoWider s (range_of p) → NoWider t (range_of q) → NoWider result (range_of (cut (standing_of how) p q)) }
{
    if t.holds_some() {
        cut_range(how, s, t)
    } else {
        no_numbers()
    }
}

// The cut of a side by a range in which its value lies, where the side is a variable.
fn cut_of(side: &Part, range: Range) -> Option<Cut>
    ensures holds { IfSome result (λ c. (v : List ℤ) (n : ℤ) → value_of v (nexpr_tree side.now.plain) ≡ Some n → InRange range n
        → InRange c.range (value_at v c.x.0)) }
    ensures read { (x : ℕ) → nexpr_tree side.now.plain ≡ Read x → IsSomeAnd result (λ c. (c.x.0 ≡ x) × (c.range ≡ range)) }
{
    match &side.plain {
        NExpr::Read(x) => Some(Cut { x: *x, range }),
        NExpr::Const(_) => None,
        NExpr::Unary(_, _) => None,
        NExpr::Binary(_, _, _) => None,
    }
}

// What is left of both sides where they stand so.
fn cut_both<D: NumDomain>(
    alloc: Global,
    state: &D,
    a: &MExpr,
    b: &MExpr,
    how: Standing,
) -> Result<Cuts, NoMemory>
    ensures holds { IfOk result (λ cuts. (v : List ℤ) (x y : ℤ) → D.admits state.now v → machine_value v (mexpr_tree a.now) ≡ Some x
        → machine_value v (mexpr_tree b.now) ≡ Some y → Stands (standing_of how) x y → HoldCuts v cuts) }
    ensures plain { IfOk result (λ cuts. (given known : ℕ → Range) → IsTrue D.exact → IsUnder (D.known state.now) given → IsUnder known given
        → AreCutBy known cuts → IsUnder known (cut_sides given (side_variable given (mexpr_tree a.now)) (side_variable given (mexpr_tree b.now))
        (Some (standing_of how)) (value_span given (mexpr_tree a.now)) (value_span given (mexpr_tree b.now)))) }
{
    let left = value(alloc, state, a)?;
    let right = value(alloc, state, b)?;
    let (s, t) = (left.range, right.range);
    Ok(Cuts {
        left: cut_of(&left, standing_range(how, s, t)),
        right: cut_of(&right, standing_range(turned(how), t, s)),
    })
}

// What a test of this truth leaves: a negation follows its part, and a comparison cuts its sides.
pub fn cuts_of<D: NumDomain>(
    alloc: Global,
    state: &D,
    e: &MExpr,
    truth: bool,
) -> Result<Cuts, NoMemory>
    ensures holds { IfOk result (λ cuts. (v : List ℤ) (n : ℤ) → D.admits state.now v → machine_value v (mexpr_tree e.now) ≡ Some n
        → IsTrue (has_truth truth n) → HoldCuts v cuts) }
    ensures plain { IfOk result (λ cuts. (given known : ℕ → Range) → IsTrue D.exact → IsUnder (D.known state.now) given → IsUnder known given
        → AreCutBy known cuts → IsUnder known (tested given (mexpr_tree e.now) truth)) }
{
    let none = Cuts {
        left: None,
        right: None,
    };
    match e {
        MExpr::Const(_, _) => Ok(none),
        MExpr::Read(_, _) => Ok(none),
        MExpr::Convert(_, _) => Ok(none),
        MExpr::Unary(op, _, a) => match op {
            NOp::Not => cuts_of(alloc, state, a, !truth),
            _ => Ok(none),
        },
        MExpr::Binary(op, _, a, b) => match compared(*op, truth) {
            Some(how) => cut_both(alloc, state, a, b, how),
            None => Ok(none),
        },
    }
}
