// The numbers that are in two classes, by the Chinese remainder theorem.

ghost use Rattle.std.specs.Prelude.{◌≡◌, ℤ, pos, ◌^◌, ◌+ℤ◌, ◌-ℤ◌, ◌*ℤ◌, ◌≤ℤ◌, ◌<ℤ◌, IfSome, IfNone};
ghost use Rattle.num_api.specs.Residues.{InResidue, IsMultiple};
ghost use Rattle.residues.specs.Class.{residue_of};
ghost use Rattle.num_api.specs.Residues.{class_of};
ghost use Rattle.residues.specs.Classes.{IsClassOf, IsGreatestDivisor, IsCoprime, IsTurn, SharesBy, Meets, HaveCommon};

use super::Class;
use super::lattice::has;
use crate::numbers::{GREATEST_MODULUS, greatest_divisor, quotient, remainder};

// The numbers that are in both; `None` exactly where there is none. Where their modulus would pass
// the greatest one, it is the first class.
pub(super) fn met(a: Class, b: Class) -> Option<Class>
    ensures some { IfSome result (λ r. Meets (residue_of a) (residue_of b) (residue_of r)) }
    ensures common { IfSome result (λ _. HaveCommon (residue_of a) (residue_of b)) }
    ensures none { IfNone result ((n : ℤ) → InResidue (residue_of a) n → InResidue (residue_of b) n → ⊥) }
{
    if a.residue.modulus == 0 {
        return if has(b, a.residue.rem) { Some(a) } else { None };
    }
    if b.residue.modulus == 0 {
        return if has(a, b.residue.rem) { Some(b) } else { None };
    }
    steps_met(a, b)
}

// The numbers that are in both of two classes that are not one number.
fn steps_met(a: Class, b: Class) -> Option<Class>
    requires first { pos 1 ≤ℤ (residue_of a).modulus }
    requires second { pos 1 ≤ℤ (residue_of b).modulus }
    ensures some { IfSome result (λ r. Meets (residue_of a) (residue_of b) (residue_of r)) }
    ensures common { IfSome result (λ _. HaveCommon (residue_of a) (residue_of b)) }
    ensures none { IfNone result ((n : ℤ) → InResidue (residue_of a) n → InResidue (residue_of b) n → ⊥) }
{
    let common = greatest_divisor(a.residue.modulus, b.residue.modulus);
    if remainder(b.residue.rem - a.residue.rem, common) != 0 {
        return None;
    }
    Some(shared(a, b, common))
}

// The numbers that are in both of two classes which share some.
fn shared(a: Class, b: Class, common: i128) -> Class
    requires { SharesBy (residue_of a) (residue_of b) common }
    ensures { Meets (residue_of a) (residue_of b) (residue_of result) }
{
    match least_multiple(a, b, common) {
        Some(modulus) => Class::of(common_number(a, b, common), modulus),
        None => a,
    }
}

// The least common multiple of the moduli, where it may be a modulus.
fn least_multiple(a: Class, b: Class, common: i128) -> Option<i128>
    requires { SharesBy (residue_of a) (residue_of b) common }
    ensures some { IfSome result (λ m. (pos 0 ≤ℤ m) × (m ≤ℤ pos (2 ^ 100))
        × ((q : ℤ) → (q *ℤ common) ≡ (residue_of a).modulus → m ≡ (q *ℤ (residue_of b).modulus))) }
    ensures none { IfNone result ((q : ℤ) → (q *ℤ common) ≡ (residue_of a).modulus → pos (2 ^ 100) <ℤ (q *ℤ (residue_of b).modulus)) }
{
    match quotient(a.residue.modulus, common).checked_mul(b.residue.modulus) {
        Some(modulus) if modulus <= GREATEST_MODULUS => Some(modulus),
        _ => None,
    }
}

// A number that is in both.
fn common_number(a: Class, b: Class, common: i128) -> i128
    requires shares { SharesBy (residue_of a) (residue_of b) common }
    requires small { (q : ℤ) → (q *ℤ common) ≡ (residue_of a).modulus → (q *ℤ (residue_of b).modulus) ≤ℤ pos (2 ^ 100) }
    ensures first { InResidue (residue_of a) result }
    ensures second { InResidue (residue_of b) result }
{
    if b.residue.modulus <= a.residue.modulus {
        return number_in(a, b, common);
    }
    number_in(b, a, common)
}

// A number that is in both, of which the second has the smaller modulus.
fn number_in(a: Class, b: Class, common: i128) -> i128
    requires shares { SharesBy (residue_of a) (residue_of b) common }
    requires less { (residue_of b).modulus ≤ℤ (residue_of a).modulus }
    requires small { (q : ℤ) → (q *ℤ common) ≡ (residue_of a).modulus → (q *ℤ (residue_of b).modulus) ≤ℤ pos (2 ^ 100) }
    ensures first { InResidue (residue_of a) result }
    ensures second { InResidue (residue_of b) result }
{
    let step = quotient(a.residue.modulus, common);
    let period = quotient(b.residue.modulus, common);
    let rest = remainder(b.residue.rem - a.residue.rem, b.residue.modulus);
    let gap = quotient(rest, common);
    a.residue.rem + a.residue.modulus * turns(remainder(step, period), gap, period)
}

// How often `step` is to be added to 0 for a number that is `gap` up to a multiple of the modulus,
// with which the step has no divisor in common.
fn turns(step: i128, gap: i128, modulus: i128) -> i128
    requires step_low { pos 0 ≤ℤ step }
    requires step_high { step <ℤ modulus }
    requires gap_low { pos 0 ≤ℤ gap }
    requires gap_high { gap <ℤ modulus }
    requires small { modulus ≤ℤ pos (2 ^ 50) }
    requires coprime { IsCoprime step modulus }
    ensures { IsTurn step gap modulus result }
{
    if step == 0 {
        return 0;
    }
    let inner = turns(remainder(modulus, step), remainder(-gap, step), step);
    (modulus * inner + gap) / step
}
