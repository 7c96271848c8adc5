// Sums, differences and products of classes.

ghost use Rattle.std.specs.Prelude.{◌≡◌, ℤ, pos, ◌^◌, ◌+ℤ◌, ◌-ℤ◌, ◌*ℤ◌, ◌≤ℤ◌, ◌<ℤ◌};
ghost use Rattle.num_api.specs.Residues.{InResidue, IsMultiple, IsFoldResidue};
ghost use Rattle.num_api.specs.Fold.{IsAlignment};
ghost use Rattle.residues.specs.Class.{residue_of};
ghost use Rattle.num_api.specs.Residues.{class_of};
ghost use Rattle.residues.specs.Classes.{IsClassOf, IsCommonStep, IsByCommonStep};
ghost use Rattle.residues.specs.ClassBounds.{SumBounds};

use super::Class;
use crate::numbers::{GREATEST_MODULUS, greatest_divisor, remainder};

// The sums of the numbers of both.
pub(super) fn sum(a: Class, b: Class) -> Class
    ensures step { IsByCommonStep (residue_of a).modulus (residue_of b).modulus ((residue_of a).rem +ℤ (residue_of b).rem) (residue_of result) }
    ensures bounds { SumBounds (residue_of a) (residue_of b) ((residue_of a).rem +ℤ (residue_of b).rem) (residue_of result) }
{
    let step = common_step(a, b);
    match a.residue.rem.checked_add(b.residue.rem) {
        Some(rem) => Class::of(rem, step),
        None => wrapped_sum(a.residue.rem, b.residue.rem, positive_step(step)),
    }
}

// The differences of the numbers of both.
pub(super) fn difference(a: Class, b: Class) -> Class
    ensures step { IsByCommonStep (residue_of a).modulus (residue_of b).modulus ((residue_of a).rem -ℤ (residue_of b).rem) (residue_of result) }
    ensures bounds { SumBounds (residue_of a) (residue_of b) ((residue_of a).rem -ℤ (residue_of b).rem) (residue_of result) }
{
    let step = common_step(a, b);
    match a.residue.rem.checked_sub(b.residue.rem) {
        Some(rem) => Class::of(rem, step),
        None => wrapped_difference(a.residue.rem, b.residue.rem, positive_step(step)),
    }
}

// The greatest common divisor of the moduli.
pub(super) fn common_step(a: Class, b: Class) -> i128
    ensures step { IsCommonStep (residue_of a).modulus (residue_of b).modulus result }
    ensures greatest { (d : ℤ) → IsMultiple d (residue_of a).modulus → IsMultiple d (residue_of b).modulus → IsMultiple d result }
{
    greatest_divisor(a.residue.modulus, b.residue.modulus)
}

// The step, or the greatest modulus where it is 0.
fn positive_step(step: i128) -> i128
    requires low { pos 0 ≤ℤ step }
    requires high { step ≤ℤ pos (2 ^ 100) }
    ensures low { pos 1 ≤ℤ result }
    ensures high { result ≤ℤ pos (2 ^ 100) }
    ensures divides { IsMultiple result step }
    ensures same { pos 1 ≤ℤ step → result ≡ step }
    ensures folds { (c : ℤ) → IsAlignment c → IsMultiple c step → IsMultiple c result }
{
    if step == 0 {
        return GREATEST_MODULUS;
    }
    step
}

// The class of the sum of two numbers whose sum may be no `i128`.
fn wrapped_sum(x: i128, y: i128, modulus: i128) -> Class
    requires low { pos 1 ≤ℤ modulus }
    requires high { modulus ≤ℤ pos (2 ^ 100) }
    ensures { IsClassOf (x +ℤ y) modulus (residue_of result) }
{
    Class::of(remainder(x, modulus) + remainder(y, modulus), modulus)
}

// The class of the difference of two numbers whose difference may be no `i128`.
fn wrapped_difference(x: i128, y: i128, modulus: i128) -> Class
    requires low { pos 1 ≤ℤ modulus }
    requires high { modulus ≤ℤ pos (2 ^ 100) }
    ensures { IsClassOf (x -ℤ y) modulus (residue_of result) }
{
    Class::of(remainder(x, modulus) - remainder(y, modulus), modulus)
}
