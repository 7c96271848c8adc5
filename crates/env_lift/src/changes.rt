// Changes of one variable's value.
#![tactic(auto, using(num_api::proofs::Trees::nexpr_trees))]

ghost use Rattle.std.specs.Prelude.{◌≡◌, ℤ, ◌+ℤ◌, ◌*ℤ◌, ◌≤ℤ◌, IsTrue, IfSome, IfNone, IfOk, Some};
ghost use Rattle.ext_int.specs.Ext.{Above};
ghost use Rattle.ext_int.specs.Valuation.{value_at};
ghost use Rattle.num_api.specs.Exprs.{nexpr_tree};
ghost use Rattle.num_api.specs.Value.{value_of};
ghost use Rattle.num_api.specs.Messages.{Holds, IsProper, IsSign};
ghost use Rattle.num_api.specs.Ranges.{InRange, NoWider};
ghost use Rattle.num_api.specs.Residues.{InResidue};
ghost use Rattle.num_api.specs.declared.message.Range.{Range};
ghost use Rattle.num_api.specs.declared.message.Message.TheVariants.{Between};
ghost use Rattle.num_api.specs.declared.expr.Var.{Var as Variable};
ghost use Rattle.num_api.specs.Lives.{is_live};
ghost use Rattle.env_lift.specs.States.{known_of, known_in};
ghost use Rattle.env_lift.specs.Changes.{MayAdmit, IsCut};

use crate::evaluation::eval;
use crate::map::VarMap;
use ext_int::{Ext, neg_low};
use num_api::{Live, Message, NExpr, NOp, Range, Residue, ValueDomain, Var};
use std::alloc::AllocError as NoMemory;

// What is left of a variable's value where it lies in another one too; `None` only where nothing is.
fn left_of<V: ValueDomain>(old: Option<V>, told: &V) -> Option<V>
    ensures some { IfSome result (λ r. (n : ℤ) → MayAdmit V.admits old n → V.admits told.now n → V.admits r n) }
    ensures none { IfNone result ((n : ℤ) → MayAdmit V.admits old n → V.admits told.now n → ⊥) }
    ensures under_old { IfSome result (λ r. IsTrue V.exact → NoWider (V.known r) (known_of V.known old)) }
    ensures under_told { IfSome result (λ r. IsTrue V.exact → NoWider (V.known r) (V.known told.now)) }
{
    match old {
        Some(value) => value.meet(told),
        None => Some(*told),
    }
}

// Keeps the valuations in which the variable lies in the value; a Dead answer leaves the state as it was.
pub fn narrow<V: ValueDomain>(state: &mut VarMap<V>, x: Var, told: &V) -> Result<Live, NoMemory>
    ensures cut { IfOk result (IsCut V.admits V.known V.exact state.old state.new (λ v. V.admits told.now (value_at v x.0))) }
    ensures told { IfOk result (λ live. IsTrue V.exact → IsTrue (is_live live) → NoWider (known_in V.known state.new x.0) (V.known told.now)) }
{
    let Some(value) = left_of(state.get(x), told) else {
        return Ok(Live::Dead);
    };
    state.set(x, value)?;
    Ok(Live::Live)
}

// The value, cut by a range that holds its number too; the value where the two share none.
fn met_range<V: ValueDomain>(value: V, r: Range) -> V
    ensures holds { (n : ℤ) → V.admits value n → InRange r n → V.admits result n }
    ensures plain { IsTrue V.exact → NoWider (V.known result) (V.known value) }
{
    match part(&value, r) {
        Some(both) => both,
        None => value,
    }
}

// The value, cut by a class that holds its number too; the value where the two share none.
fn met_class<V: ValueDomain>(value: V, c: Residue) -> V
    ensures holds { (n : ℤ) → V.admits value n → InResidue c n → V.admits result n }
    ensures plain { IsTrue V.exact → NoWider (V.known result) (V.known value) }
{
    match value.meet(&of_class(c)) {
        Some(both) => both,
        None => value,
    }
}

// The value, cut by a range and a class that hold its number too.
pub fn met<V: ValueDomain>(value: V, r: Range, c: Residue) -> V
    ensures holds { (n : ℤ) → V.admits value n → InRange r n → InResidue c n → V.admits result n }
    ensures plain { IsTrue V.exact → NoWider (V.known result) (V.known value) }
{
    met_class(met_range(value, r), c)
}

// The numbers of the value that lie in the range; `None` only where there is none.
pub fn part<V: ValueDomain>(value: &V, r: Range) -> Option<V>
    ensures some { IfSome result (λ p. (n : ℤ) → V.admits value.now n → InRange r n → V.admits p n) }
    ensures none { IfNone result ((n : ℤ) → V.admits value.now n → InRange r n → ⊥) }
    ensures plain { IfSome result (λ p. IsTrue V.exact → NoWider (V.known p) (V.known value.now) × NoWider (V.known p) r) }
{
    let within = V::within(r)?;
    value.meet(&within)
}

// A value that admits the numbers of the class: its remainder, and any product by its modulus.
fn of_class<V: ValueDomain>(c: Residue) -> V
    ensures { (n : ℤ) → InResidue c n → V.admits result n }
{
    let Some(rem) = V::within(Range::point(c.rem)) else {
        return V::top();
    };
    let Some(modulus) = V::within(Range::point(c.modulus)) else {
        return V::top();
    };
    let multiples = V::binary(NOp::Mul, &V::top(), &modulus);
    V::binary(NOp::Add, &rem, &multiples)
}

// Keeps the valuations in which the variable lies in the range.
fn keep_between<V: ValueDomain>(state: &mut VarMap<V>, x: Var, r: Range) -> Result<Live, NoMemory>
    ensures cut { IfOk result (IsCut V.admits V.known V.exact state.old state.new (λ v. InRange r (value_at v x.0))) }
    ensures between { IfOk result (λ live. IsTrue V.exact → IsTrue (is_live live) → NoWider (known_in V.known state.new x.0) r) }
{
    match V::within(r) {
        Some(told) => narrow(state, x, &told),
        None => Ok(Live::Dead),
    }
}

// Keeps the valuations in which the variable has the expression's value.
fn keep_equal<V: ValueDomain>(state: &mut VarMap<V>, x: Var, e: &NExpr) -> Result<Live, NoMemory>
    ensures { IfOk result (IsCut V.admits V.known V.exact state.old state.new (λ v. value_of v (nexpr_tree e.now) ≡ Some (value_at v x.0))) }
{
    match eval(state, e) {
        Some(told) => narrow(state, x, &told),
        None => Ok(Live::Dead),
    }
}

// The products of the value's numbers by the sign.
fn signed<V: ValueDomain>(sign: i8, value: V) -> V
    requires { IsSign sign }
    ensures { (n : ℤ) → V.admits value n → V.admits result (sign *ℤ n) }
{
    if sign == 1 {
        value
    } else {
        V::unary(NOp::Neg, &value)
    }
}

// The numbers whose product by the sign is at most the end.
fn up_to(sign: i8, end: Ext) -> Range
    requires { IsSign sign }
    ensures { (n m : ℤ) → Above end m → (sign *ℤ n) ≤ℤ m → InRange result n }
{
    if sign == 1 {
        Range {
            lo: Ext::Low,
            hi: end,
        }
    } else {
        Range {
            lo: neg_low(end),
            hi: Ext::High,
        }
    }
}

// Keeps the valuations in which the sum of both variables, each with its sign, is at most the bound, by a
// cut of the first.
fn keep_bounded<V: ValueDomain>(
    state: &mut VarMap<V>,
    sx: i8,
    x: Var,
    sy: i8,
    y: Var,
    bound: i128,
) -> Result<Live, NoMemory>
    requires first { IsSign sx }
    requires second { IsSign sy }
    ensures { IfOk result (IsCut V.admits V.known V.exact state.old state.new (λ v. ((sx *ℤ value_at v x.0) +ℤ (sy *ℤ value_at v y.0)) ≤ℤ bound)) }
{
    let Some(most) = V::within(Range::point(bound)) else {
        return Ok(Live::Live);
    };
    let Some(other) = state.get(y) else {
        return Ok(Live::Live);
    };
    let limit = V::binary(NOp::Sub, &most, &signed(sy, other));
    keep_between(state, x, up_to(sx, limit.range().hi))
}

// Keeps those valuations by a cut of both variables.
fn keep_at_most<V: ValueDomain>(
    state: &mut VarMap<V>,
    sx: i8,
    x: Var,
    sy: i8,
    y: Var,
    bound: i128,
) -> Result<Live, NoMemory>
    requires first { IsSign sx }
    requires second { IsSign sy }
    ensures { IfOk result (IsCut V.admits V.known V.exact state.old state.new (λ v. ((sx *ℤ value_at v x.0) +ℤ (sy *ℤ value_at v y.0)) ≤ℤ bound)) }
{
    match keep_bounded(state, sx, x, sy, y, bound)? {
        Live::Dead => return Ok(Live::Dead),
        Live::Live => {}
    }
    keep_bounded(state, sy, y, sx, x, bound)
}

// Keeps the valuations in which the message holds.
pub fn accepted<V: ValueDomain>(state: &mut VarMap<V>, m: &Message) -> Result<Live, NoMemory>
    requires { IsProper m.now }
    ensures cut { IfOk result (IsCut V.admits V.known V.exact state.old state.new (λ v. Holds v m.now)) }
    ensures between { IfOk result (λ live. (x : Variable) (r : Range) → IsTrue V.exact → m.now ≡ Between x r → IsTrue (is_live live)
        → NoWider (known_in V.known state.new x.0) r) }
{
    match m {
        Message::Between(x, r) => keep_between(state, *x, *r),
        Message::Class(x, c) => narrow(state, *x, &of_class::<V>(*c)),
        Message::Equal(x, e) => keep_equal(state, *x, e),
        Message::AtMost {
            sx,
            x,
            sy,
            y,
            bound,
        } => keep_at_most(state, *sx, *x, *sy, *y, *bound),
    }
}
