// Products of classes, and remainders.

ghost use Rattle.std.specs.Prelude.{◌≡◌, ℤ, pos, ◌^◌, ◌+ℤ◌, ◌-ℤ◌, ◌*ℤ◌, ◌≤ℤ◌, ◌<ℤ◌, ◌⊎◌, IfNone, IfSome, Some};
ghost use Rattle.num_api.specs.Residues.{InResidue, IsMultiple, IsFoldResidue};
ghost use Rattle.num_api.specs.Fold.{IsAlignment};
ghost use Rattle.num_api.specs.Value.{binary_value};
ghost use Rattle.num_api.specs.declared.expr.NOp.TheVariants.{Rem};
ghost use Rattle.residues.specs.Class.{residue_of};
ghost use Rattle.num_api.specs.Residues.{class_of};
ghost use Rattle.residues.specs.Classes.{IsClassOf, IsGreatestDivisor, IsProductBy};
ghost use Rattle.residues.specs.ClassBounds.{ProductBounds, RestBounds, IsFactor, IsSize};
ghost use Rattle.std.specs.Int.RustNames.{FitsSigned};
ghost use mir.Syntax.{w128};

use super::Class;
use crate::numbers::{GREATEST_MODULUS, greatest_divisor};

// The powers of two up to this one are kept where a product passes the greatest modulus: the
// product of two of them is a modulus.
const GREATEST_POWER: i128 = 1 << 50;

// The products of the numbers of both. Where their class would pass the greatest modulus, it is
// that of the multiples of the powers of two that divide the operands.
pub(super) fn product(a: Class, b: Class) -> Class
    ensures holds { (x y : ℤ) → InResidue (residue_of a) x → InResidue (residue_of b) y → InResidue (residue_of result) (x *ℤ y) }
    ensures fold_left { (c : ℤ) → IsAlignment c → IsFoldResidue c (residue_of a) → IsFoldResidue c (residue_of result) }
    ensures fold_right { (c : ℤ) → IsAlignment c → IsFoldResidue c (residue_of b) → IsFoldResidue c (residue_of result) }
    ensures bounds { ProductBounds (residue_of a) (residue_of b) (residue_of result) }
{
    let f = factor(a);
    let g = factor(b);
    match exact_product(a, b, f, g) {
        Some(class) => class,
        None => multiples(f, g),
    }
}

// The remainders of the numbers of the first by those of the second.
pub(super) fn rest(a: Class, b: Class) -> Class
    ensures bounds { RestBounds (residue_of a) (residue_of b) (residue_of result) }
    ensures holds { (x y n : ℤ) → InResidue (residue_of a) x → InResidue (residue_of b) y → binary_value Rem x y ≡ Some n → InResidue (residue_of result) n }
{
    let step = greatest_divisor(a.residue.modulus, factor(b));
    if step > GREATEST_MODULUS {
        return Class::all();
    }
    Class::of(a.residue.rem, step)
}

// The class of the products, where its modulus and the product of the remainders are small enough.
fn exact_product(a: Class, b: Class, f: i128, g: i128) -> Option<Class>
    requires f_is_not_negative { pos 0 ≤ℤ f }
    requires g_is_not_negative { pos 0 ≤ℤ g }
    ensures some { IfSome result (λ r. IsProductBy (residue_of a) (residue_of b) f g (residue_of r)) }
    ensures none { IfNone result (FitsSigned w128 ((residue_of a).rem *ℤ (residue_of b).rem) → ((residue_of a).modulus *ℤ g) ≤ℤ pos (2 ^ 100)
        → (f *ℤ (residue_of b).modulus) ≤ℤ pos (2 ^ 100) → ⊥) }
{
    let rem = a.residue.rem.checked_mul(b.residue.rem)?;
    let left = a.residue.modulus.checked_mul(g)?;
    let right = f.checked_mul(b.residue.modulus)?;
    small_class(rem, left, right)
}

// The class of the number by the greatest common divisor of two others, where that may be a modulus.
pub(super) fn small_class(rem: i128, m: i128, n: i128) -> Option<Class>
    requires m_is_not_negative { pos 0 ≤ℤ m }
    requires n_is_not_negative { pos 0 ≤ℤ n }
    ensures some { IfSome result (λ r. (d : ℤ) × IsGreatestDivisor m n d × IsClassOf rem d (residue_of r)) }
    ensures none { IfNone result ((d : ℤ) × IsGreatestDivisor m n d × (pos (2 ^ 100) <ℤ d)) }
{
    let step = greatest_divisor(m, n);
    if step > GREATEST_MODULUS {
        return None;
    }
    Some(Class::of(rem, step))
}

// The products of multiples of `f` and of `g`, as multiples of a power of two.
fn multiples(f: i128, g: i128) -> Class
    requires f_is_not_negative { pos 0 ≤ℤ f }
    requires g_is_not_negative { pos 0 ≤ℤ g }
    ensures holds { (x y : ℤ) → IsMultiple f x → IsMultiple g y → InResidue (residue_of result) (x *ℤ y) }
    ensures folds { (c : ℤ) → IsAlignment c → IsMultiple c f ⊎ IsMultiple c g → IsFoldResidue c (residue_of result) }
{
    Class::of(0, powers_product(power_in(f), power_in(g)))
}

// The product of two powers of two up to the 50th.
fn powers_product(p: i128, q: i128) -> i128
    requires p_low { pos 1 ≤ℤ p }
    requires p_high { p ≤ℤ pos (2 ^ 50) }
    requires q_low { pos 1 ≤ℤ q }
    requires q_high { q ≤ℤ pos (2 ^ 50) }
    ensures not_negative { pos 0 ≤ℤ result }
    ensures value { result ≡ p *ℤ q }
{
    p * q
}

// The greatest power of two up to the 50th that divides `n`.
fn power_in(n: i128) -> i128
    requires { pos 0 ≤ℤ n }
    ensures low { pos 1 ≤ℤ result }
    ensures high { result ≤ℤ pos (2 ^ 50) }
    ensures divides { IsMultiple result n }
    ensures folds { (c : ℤ) → IsAlignment c → IsMultiple c n → IsMultiple c result }
{
    greatest_divisor(n, GREATEST_POWER)
}

// A number that divides all numbers of the class: their greatest common divisor, but for one number
// that has no size.
fn factor(a: Class) -> i128
    ensures not_negative { pos 0 ≤ℤ result }
    ensures divides { (x : ℤ) → InResidue (residue_of a) x → IsMultiple result x }
    ensures folds { (c : ℤ) → IsAlignment c → IsFoldResidue c (residue_of a) → IsMultiple c result }
    ensures factor { IsFactor (residue_of a) result }
{
    if a.residue.modulus == 0 {
        return size(a.residue.rem);
    }
    greatest_divisor(a.residue.rem, a.residue.modulus)
}

// The number without its sign. The least `i128` has no size, and is a multiple of the greatest
// modulus.
fn size(n: i128) -> i128
    ensures not_negative { pos 0 ≤ℤ result }
    ensures divides { IsMultiple result n }
    ensures folds { (c : ℤ) → IsAlignment c → IsMultiple c n → IsMultiple c result }
    ensures size { IsSize n result }
{
    if n >= 0 {
        return n;
    }
    match n.checked_neg() {
        Some(size) => size,
        None => GREATEST_MODULUS,
    }
}
