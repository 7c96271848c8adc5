// What the operands of an operator may be where its result lies in a value.

ghost use Rattle.std.specs.Prelude.{◌≡◌, ℤ, pos, ◌+ℤ◌, ◌-ℤ◌, ◌*ℤ◌, IsTrue, IfSome, IfNone, Some};
ghost use Rattle.num_api.specs.Value.{unary_value, binary_value, has_truth};
ghost use Rattle.num_api.specs.Standings.{standing_of, Stands};

use crate::changes::part;
use num_api::{NOp, Range, Standing, ValueDomain, compared, cut_range, may_be};

// How a number of this truth stands to 0.
fn to_zero(truth: bool) -> Standing
    ensures { (n : ℤ) → IsTrue (has_truth truth n) → Stands (standing_of result) n (pos 0) }
{
    if truth {
        Standing::Other
    } else {
        Standing::Same
    }
}

// The numbers of the value that have this truth; `None` only where there is none.
pub fn with_truth<V: ValueDomain>(value: &V, truth: bool) -> Option<V>
    ensures some { IfSome result (λ p. (n : ℤ) → V.admits value.now n → IsTrue (has_truth truth n) → V.admits p n) }
    ensures none { IfNone result ((n : ℤ) → V.admits value.now n → IsTrue (has_truth truth n) → ⊥) }
{
    part(
        value,
        cut_range(to_zero(truth), value.range(), Range::point(0)),
    )
}

// The truth that every number of the value has, where there is one.
fn truth_of<V: ValueDomain>(value: &V) -> Option<bool>
    ensures { IfSome result (λ truth. (n : ℤ) → V.admits value.now n → IsTrue (has_truth truth n)) }
{
    let r = value.range();
    if !may_be(r, false) {
        return Some(true);
    }
    if !may_be(r, true) {
        return Some(false);
    }
    None
}

// How the sides of a comparison stand to each other where its result lies in the value, where that is told.
pub fn told_sides<V: ValueDomain>(op: NOp, value: &V) -> Option<Standing>
    ensures { IfSome result (λ how. (x y n : ℤ) → binary_value op x y ≡ Some n → V.admits value.now n → Stands (standing_of how) x y) }
{
    let truth = truth_of(value)?;
    compared(op, truth)
}

// What is left of an operand; `None` only where nothing is.
pub fn operand<V: ValueDomain>(op: NOp, own: &V, value: &V) -> Option<V>
    ensures some { IfSome result (λ p. (x n : ℤ) → V.admits own.now x → unary_value op x ≡ Some n → V.admits value.now n → V.admits p x) }
    ensures none { IfNone result ((x n : ℤ) → V.admits own.now x → unary_value op x ≡ Some n → V.admits value.now n → ⊥) }
{
    match op {
        NOp::Neg => own.meet(&V::unary(NOp::Neg, value)),
        NOp::Not => match truth_of(value) {
            Some(truth) => with_truth(own, !truth),
            None => Some(*own),
        },
        _ => Some(*own),
    }
}

// What is left of the operands of a sum; `None` only where nothing is.
fn from_sum<V: ValueDomain>(a: &V, b: &V, sum: &V) -> Option<(V, V)>
    ensures some { IfSome result (λ p. (x y : ℤ) → V.admits a.now x → V.admits b.now y → V.admits sum.now (x +ℤ y) → V.admits p.0 x × V.admits p.1 y) }
    ensures none { IfNone result ((x y : ℤ) → V.admits a.now x → V.admits b.now y → V.admits sum.now (x +ℤ y) → ⊥) }
{
    let left = a.meet(&V::binary(NOp::Sub, sum, b))?;
    let right = b.meet(&V::binary(NOp::Sub, sum, &left))?;
    Some((left, right))
}

// What is left of the operands of a difference; `None` only where nothing is.
fn from_difference<V: ValueDomain>(a: &V, b: &V, difference: &V) -> Option<(V, V)>
    ensures some { IfSome result (λ p. (x y : ℤ) → V.admits a.now x → V.admits b.now y → V.admits difference.now (x -ℤ y) → V.admits p.0 x × V.admits p.1 y) }
    ensures none { IfNone result ((x y : ℤ) → V.admits a.now x → V.admits b.now y → V.admits difference.now (x -ℤ y) → ⊥) }
{
    let left = a.meet(&V::binary(NOp::Add, difference, b))?;
    let right = b.meet(&V::binary(NOp::Sub, &left, difference))?;
    Some((left, right))
}

// What is left of a factor, by the quotient where the other factor is not 0; `None` only where nothing is.
fn factor<V: ValueDomain>(own: &V, other: &V, product: &V) -> Option<V>
    ensures some { IfSome result (λ p. (x y : ℤ) → V.admits own.now x → V.admits other.now y → V.admits product.now (x *ℤ y) → V.admits p x) }
    ensures none { IfNone result ((x y : ℤ) → V.admits own.now x → V.admits other.now y → V.admits product.now (x *ℤ y) → ⊥) }
{
    if may_be(other.range(), false) {
        return Some(*own);
    }
    own.meet(&V::binary(NOp::Quot, product, other))
}

// What is left of the operands of a product; `None` only where nothing is.
fn from_product<V: ValueDomain>(a: &V, b: &V, product: &V) -> Option<(V, V)>
    ensures some { IfSome result (λ p. (x y : ℤ) → V.admits a.now x → V.admits b.now y → V.admits product.now (x *ℤ y) → V.admits p.0 x × V.admits p.1 y) }
    ensures none { IfNone result ((x y : ℤ) → V.admits a.now x → V.admits b.now y → V.admits product.now (x *ℤ y) → ⊥) }
{
    let left = factor(a, b, product)?;
    let right = factor(b, &left, product)?;
    Some((left, right))
}

// What is left of two operands; `None` only where nothing is.
pub fn operands<V: ValueDomain>(op: NOp, a: &V, b: &V, value: &V) -> Option<(V, V)>
    ensures some { IfSome result (λ p. (x y n : ℤ) → V.admits a.now x → V.admits b.now y → binary_value op x y ≡ Some n → V.admits value.now n
        → V.admits p.0 x × V.admits p.1 y) }
    ensures none { IfNone result ((x y n : ℤ) → V.admits a.now x → V.admits b.now y → binary_value op x y ≡ Some n → V.admits value.now n → ⊥) }
{
    match op {
        NOp::Add => from_sum(a, b, value),
        NOp::Sub => from_difference(a, b, value),
        NOp::Mul => from_product(a, b, value),
        _ => Some((*a, *b)),
    }
}
