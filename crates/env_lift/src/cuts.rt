// Cuts of a state by a test.
#![tactic(auto, using(num_api::proofs::Trees::nexpr_trees))]

ghost use Rattle.std.specs.Prelude.{◌≡◌, ℕ, ℤ, not, false, List, IsTrue, IfSome, IfNone, IfOk, Some, None};
ghost use Rattle.num_api.specs.Exprs.{Read, nexpr_tree};
ghost use Rattle.num_api.specs.Value.{value_of, unary_value, binary_value, AllFit, has_truth};
ghost use Rattle.num_api.specs.Ranges.{NoWider, IsUnder};
ghost use Rattle.num_api.specs.Spans.{Span, range_of};
ghost use Rattle.num_api.specs.Plain.{plain, IsPlain, cut, turned, cut_sides, tested, excludes};
ghost use Rattle.num_api.specs.Known.{IsSharpOn};
ghost use Rattle.num_api.specs.Lives.{is_live};
ghost use Rattle.num_api.specs.declared.message.Range.{Range};
ghost use Rattle.env_lift.specs.States.{AllAdmit, known_in};
ghost use Rattle.num_api.specs.Standings.{standing_of, Stands};
ghost use Rattle.env_lift.specs.Changes.{IsCut, LiesIn, HasTruth, Compare};

use crate::changes::{narrow, part};
use crate::evaluation::eval;
use crate::inverses::{operand, operands, told_sides, with_truth};
use crate::map::VarMap;
use num_api::{Live, NExpr, NOp, Standing, ValueDomain, compared, cut_range, may_be, turned};
use std::alloc::AllocError as NoMemory;

// Whether the expression may have this truth.
pub fn may_hold<V: ValueDomain>(state: &VarMap<V>, e: &NExpr, truth: bool) -> bool
    ensures holds { (v : List ℤ) → AllAdmit V.admits state.now v → HasTruth (nexpr_tree e.now) truth v → IsTrue result }
    ensures point { (v : List ℤ) (n : ℤ) → IsTrue V.exact → AllAdmit V.admits state.now v
        → IsSharpOn (known_in V.known state.now) v (nexpr_tree e.now) → AllFit v (nexpr_tree e.now) → value_of v (nexpr_tree e.now) ≡ Some n
        → has_truth truth n ≡ false → result ≡ false }
    ensures plain { (given : ℕ → Range) (s : Span) → IsTrue V.exact → IsUnder (known_in V.known state.now) given → IsPlain given (nexpr_tree e.now)
        → plain given (nexpr_tree e.now) ≡ Some s → IsTrue (excludes truth s) → result ≡ false }
{
    match eval(state, e) {
        Some(value) => may_be(value.range(), truth),
        None => false,
    }
}

// What is left of both sides of a comparison; `None` only where they can't stand so.
fn sides<V: ValueDomain>(state: &VarMap<V>, a: &NExpr, b: &NExpr, how: Standing) -> Option<(V, V)>
    ensures some { IfSome result (λ p. (v : List ℤ) (x y : ℤ) → AllAdmit V.admits state.now v → value_of v (nexpr_tree a.now) ≡ Some x
        → value_of v (nexpr_tree b.now) ≡ Some y → Stands (standing_of how) x y → V.admits p.0 x × V.admits p.1 y) }
    ensures none { IfNone result ((v : List ℤ) (x y : ℤ) → AllAdmit V.admits state.now v → value_of v (nexpr_tree a.now) ≡ Some x
        → value_of v (nexpr_tree b.now) ≡ Some y → Stands (standing_of how) x y → ⊥) }
    ensures plain { IfSome result (λ p. (given : ℕ → Range) (s t : Span) → IsTrue V.exact → IsUnder (known_in V.known state.now) given
        → IsPlain given (nexpr_tree a.now) → IsPlain given (nexpr_tree b.now) → plain given (nexpr_tree a.now) ≡ Some s
        → plain given (nexpr_tree b.now) ≡ Some t → NoWider (V.known p.0) (range_of (cut (standing_of how) s t))
        × NoWider (V.known p.1) (range_of (cut (turned (standing_of how)) t s))) }
{
    let first = eval(state, a)?;
    let second = eval(state, b)?;
    let (s, t) = (first.range(), second.range());
    let left = part(&first, cut_range(how, s, t))?;
    let right = part(&second, cut_range(turned(how), t, s))?;
    Some((left, right))
}

// What is left of both operands where the whole lies in the value; `None` only where nothing is.
fn parts<V: ValueDomain>(
    state: &VarMap<V>,
    op: NOp,
    a: &NExpr,
    b: &NExpr,
    value: &V,
) -> Option<(V, V)>
    ensures some { IfSome result (λ p. (v : List ℤ) (x y n : ℤ) → AllAdmit V.admits state.now v → value_of v (nexpr_tree a.now) ≡ Some x
        → value_of v (nexpr_tree b.now) ≡ Some y → binary_value op x y ≡ Some n → V.admits value.now n → V.admits p.0 x × V.admits p.1 y) }
    ensures none { IfNone result ((v : List ℤ) (x y n : ℤ) → AllAdmit V.admits state.now v → value_of v (nexpr_tree a.now) ≡ Some x
        → value_of v (nexpr_tree b.now) ≡ Some y → binary_value op x y ≡ Some n → V.admits value.now n → ⊥) }
{
    match told_sides(op, value) {
        Some(how) => sides(state, a, b, how),
        None => {
            let first = eval(state, a)?;
            let second = eval(state, b)?;
            operands(op, &first, &second, value)
        }
    }
}

// What is left of the operand where the whole lies in the value; `None` only where nothing is.
fn part_of<V: ValueDomain>(state: &VarMap<V>, op: NOp, a: &NExpr, value: &V) -> Option<V>
    ensures some { IfSome result (λ p. (v : List ℤ) (x n : ℤ) → AllAdmit V.admits state.now v → value_of v (nexpr_tree a.now) ≡ Some x
        → unary_value op x ≡ Some n → V.admits value.now n → V.admits p x) }
    ensures none { IfNone result ((v : List ℤ) (x n : ℤ) → AllAdmit V.admits state.now v → value_of v (nexpr_tree a.now) ≡ Some x
        → unary_value op x ≡ Some n → V.admits value.now n → ⊥) }
{
    let own = eval(state, a)?;
    operand(op, &own, value)
}

// Keeps the valuations in which the expression lies in the value: each operand is given what the operator
// turned round leaves of it, down to the variables.
fn keep_within<V: ValueDomain>(
    state: &mut VarMap<V>,
    e: &NExpr,
    value: &V,
) -> Result<Live, NoMemory>
    ensures cut { IfOk result (IsCut V.admits V.known V.exact state.old state.new (LiesIn V.admits (nexpr_tree e.now) value.now)) }
    ensures read { IfOk result (λ live. (x : ℕ) → IsTrue V.exact → nexpr_tree e.now ≡ Read x → IsTrue (is_live live)
        → NoWider (known_in V.known state.new x) (V.known value.now)) }
{
    match e {
        NExpr::Const(_) => Ok(Live::Live),
        NExpr::Read(x) => narrow(state, *x, value),
        NExpr::Unary(op, a) => match part_of(state, *op, a, value) {
            Some(part) => keep_within(state, a, &part),
            None => Ok(Live::Dead),
        },
        NExpr::Binary(op, a, b) => {
            let Some(both) = parts(state, *op, a, b, value) else {
                return Ok(Live::Dead);
            };
            match keep_within(state, a, &both.0)? {
                Live::Dead => return Ok(Live::Dead),
                Live::Live => {}
            }
            keep_within(state, b, &both.1)
        }
    }
}

// Keeps the valuations in which the two sides stand so.
fn keep_compared<V: ValueDomain>(
    state: &mut VarMap<V>,
    a: &NExpr,
    b: &NExpr,
    how: Standing,
) -> Result<Live, NoMemory>
    ensures cut { IfOk result (IsCut V.admits V.known V.exact state.old state.new (Compare (nexpr_tree a.now) (nexpr_tree b.now) (standing_of how))) }
    ensures plain { IfOk result (λ live. (given : ℕ → Range) → IsTrue V.exact → IsUnder (known_in V.known state.old) given
        → IsPlain given (nexpr_tree a.now) → IsPlain given (nexpr_tree b.now) → IsTrue (is_live live)
        → IsUnder (known_in V.known state.new) (cut_sides given (nexpr_tree a.now) (nexpr_tree b.now) (Some (standing_of how))
        (plain given (nexpr_tree a.now)) (plain given (nexpr_tree b.now)))) }
{
    let Some(cut) = sides(state, a, b, how) else {
        return Ok(Live::Dead);
    };
    match keep_within(state, a, &cut.0)? {
        Live::Dead => return Ok(Live::Dead),
        Live::Live => {}
    }
    keep_within(state, b, &cut.1)
}

// Keeps the valuations in which an expression has this truth.
fn keep_any<V: ValueDomain>(state: &mut VarMap<V>, e: &NExpr, truth: bool) -> Result<Live, NoMemory>
    ensures { IfOk result (IsCut V.admits V.known V.exact state.old state.new (HasTruth (nexpr_tree e.now) truth)) }
{
    let Some(own) = eval(state, e) else {
        return Ok(Live::Dead);
    };
    match with_truth(&own, truth) {
        Some(value) => keep_within(state, e, &value),
        None => Ok(Live::Dead),
    }
}

// Keeps the valuations in which the expression has this truth: a negation follows its part, and a
// comparison cuts its sides.
pub fn keep_truth<V: ValueDomain>(
    state: &mut VarMap<V>,
    e: &NExpr,
    truth: bool,
) -> Result<Live, NoMemory>
    ensures cut { IfOk result (IsCut V.admits V.known V.exact state.old state.new (HasTruth (nexpr_tree e.now) truth)) }
    ensures plain { IfOk result (λ live. (given : ℕ → Range) → IsTrue V.exact → IsUnder (known_in V.known state.old) given
        → IsPlain given (nexpr_tree e.now) → IsTrue (is_live live) → IsUnder (known_in V.known state.new) (tested given (nexpr_tree e.now) truth)) }
{
    match e {
        NExpr::Const(_) => keep_any(state, e, truth),
        NExpr::Read(_) => keep_any(state, e, truth),
        NExpr::Unary(op, a) => match op {
            NOp::Not => keep_truth(state, a, !truth),
            _ => keep_any(state, e, truth),
        },
        NExpr::Binary(op, a, b) => match compared(*op, truth) {
            Some(how) => keep_compared(state, a, b, how),
            None => keep_any(state, e, truth),
        },
    }
}
