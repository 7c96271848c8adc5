// What the operators on bits make of classes: numbers that are the same up to a multiple of a power of
// two have the same low bits.

ghost use Rattle.std.specs.Prelude.{◌≡◌, ℕ, ℤ, pos, ◌^◌, Some};
ghost use Rattle.num_api.specs.Residues.{class_of, InResidue, IsMultiple};
ghost use Rattle.num_api.specs.Value.{binary_value, bits_of_both};
ghost use Rattle.num_api.specs.declared.expr.NOp.TheVariants.{And};
ghost use Rattle.intervals.specs.Bits.{IsLogical};
ghost use Rattle.residues.specs.Class.{residue_of};
ghost use Rattle.residues.specs.Classes.{LiesIn};
ghost use Rattle.residues.specs.ClassBounds.{IsGreatestPower, AndBounds, ClassBounds};
ghost use Rattle.residues.specs.LowBits.{IsCommonPower};

use super::Class;
use super::arithmetic::sum;
use super::operators::at_numbers;
use crate::numbers::remainder;
use num_api::NOp;

// The greatest power of two, up to 2^100, that divides both numbers.
fn common_power(m: i128, n: i128) -> i128
    ensures power { IsCommonPower m n result }
    ensures greatest { IsGreatestPower m n result }
{
    let mut step = 1;
    for _bits in 0u32..100 {
        let next = step * 2;
        if remainder(m, next) != 0 || remainder(n, next) != 0 {
            return step;
        }
        step = next;
    }
    step
}

// The greatest power of two, up to 2^100, that divides each number of the class.
fn common_factor(a: Class) -> i128
    ensures power { IsCommonPower (residue_of a).rem (residue_of a).modulus result }
    ensures greatest { IsGreatestPower (residue_of a).rem (residue_of a).modulus result }
{
    common_power(a.residue.rem, a.residue.modulus)
}

// The low bits that the remainders give.
fn known_bits(op: NOp, a: Class, b: Class, step: i128) -> Class
    requires { IsCommonPower (residue_of a).modulus (residue_of b).modulus step }
    ensures bounds { IsLogical op → (j : ℕ) (n : ℤ) → IsMultiple (pos (2 ^ j)) step → binary_value op (residue_of a).rem (residue_of b).rem ≡ Some n
        → LiesIn (residue_of result) (class_of n (pos (2 ^ j))) }
    ensures holds { (x y n : ℤ) → IsLogical op → InResidue (residue_of a) x → InResidue (residue_of b) y → binary_value op x y
        ≡ Some n → InResidue (residue_of result) n }
{
    sum(
        at_numbers(op, a.residue.rem, b.residue.rem),
        Class::of(0, step),
    )
}

// What an operator on bits makes of the numbers of two classes.
pub(super) fn logical(op: NOp, a: Class, b: Class) -> Class
    ensures bounds { IsLogical op → ClassBounds op (residue_of a) (residue_of b) (residue_of result) }
    ensures holds { (x y n : ℤ) → IsLogical op → InResidue (residue_of a) x → InResidue (residue_of b) y → binary_value op x y
        ≡ Some n → InResidue (residue_of result) n }
{
    let step = common_power(a.residue.modulus, b.residue.modulus);
    match op {
        NOp::And => both(a, b, step),
        _ => known_bits(op, a, b, step),
    }
}

// The bits that both have: no low bit where each number of one class has none, and else the ones that
// the remainders give.
fn both(a: Class, b: Class, step: i128) -> Class
    requires power { IsCommonPower (residue_of a).modulus (residue_of b).modulus step }
    requires greatest { IsGreatestPower (residue_of a).modulus (residue_of b).modulus step }
    ensures bounds { AndBounds (residue_of a) (residue_of b) (residue_of result) }
    ensures holds { (x y n : ℤ) → InResidue (residue_of a) x → InResidue (residue_of b) y → binary_value And x y ≡ Some n → InResidue (residue_of result) n }
{
    let first = common_factor(a);
    let second = common_factor(b);
    if first > step && first >= second {
        Class::of(0, first)
    } else if second > step {
        Class::of(0, second)
    } else {
        known_bits(NOp::And, a, b, step)
    }
}
