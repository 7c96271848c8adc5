// What the operators make of classes.

ghost use Rattle.std.specs.Prelude.{◌≡◌, ℕ, ℤ, pos, ◌^◌, ◌<◌, Some, IfSome};
ghost use Rattle.num_api.specs.Fold.{IsAlignment};
ghost use Rattle.std.specs.Prelude.{IfNone};
ghost use Rattle.std.specs.Int.RustNames.{FitsSigned};
ghost use mir.Syntax.{w128};
ghost use Rattle.num_api.specs.Residues.{class_of, InResidue, IsFoldResidue};
ghost use Rattle.num_api.specs.Value.{unary_value, binary_value};
ghost use Rattle.num_api.specs.declared.expr.NOp.TheVariants.{Not, Add, Mul};
ghost use Rattle.residues.specs.Class.{residue_of};
ghost use Rattle.residues.specs.ClassBounds.{ClassBounds, NegationBounds, IsOther};

use super::Class;
use super::arithmetic::{difference, sum};
use super::bits::logical;
use super::lattice::has;
use super::products::{product, rest};
use crate::ends::number;
use intervals::Interval;
use num_api::{NOp, ValueDomain};

// What an operator of one operand makes of the numbers of a class.
pub(super) fn unary(op: NOp, a: Class) -> Class
    ensures bounds { NegationBounds op (residue_of a) (residue_of result) }
    ensures holds { (x n : ℤ) → InResidue (residue_of a) x → unary_value op x ≡ Some n → InResidue (residue_of result) n }
{
    match op {
        NOp::Neg => difference(Class::point(0), a),
        NOp::Not => denial(a),
        _ => Class::all(),
    }
}

// What an operator of two operands makes of the numbers of two classes: at two numbers the class of its
// value, where that is an `i128`.
pub(super) fn binary(op: NOp, a: Class, b: Class) -> Class
    ensures fold_sum { (c : ℤ) → IsAlignment c → op ≡ Add → IsFoldResidue c (residue_of a) → IsFoldResidue c (residue_of b)
        → IsFoldResidue c (residue_of result) }
    ensures fold_left { (c : ℤ) → IsAlignment c → op ≡ Mul → IsFoldResidue c (residue_of a) → IsFoldResidue c (residue_of result) }
    ensures fold_right { (c : ℤ) → IsAlignment c → op ≡ Mul → IsFoldResidue c (residue_of b) → IsFoldResidue c (residue_of result) }
    ensures holds { (x y n : ℤ) → InResidue (residue_of a) x → InResidue (residue_of b) y → binary_value op x y ≡ Some n → InResidue (residue_of result) n }
    ensures point { (x y n : ℤ) → residue_of a ≡ class_of x (pos 0) → residue_of b ≡ class_of y (pos 0) → binary_value op x y ≡ Some n → FitsSigned w128 n
        → residue_of result ≡ class_of n (pos 0) }
    ensures bounds { ClassBounds op (residue_of a) (residue_of b) (residue_of result) }
{
    match at_two_numbers(op, a, b) {
        Some(n) => Class::point(n),
        None => by_steps(op, a, b),
    }
}

// The operator's value at two numbers, where it is an `i128`.
fn at_two_numbers(op: NOp, a: Class, b: Class) -> Option<i128>
    ensures some { IfSome result (λ n. ((residue_of a).modulus ≡ pos 0) × ((residue_of b).modulus ≡ pos 0)
        × ((m : ℤ) → binary_value op (residue_of a).rem (residue_of b).rem ≡ Some m → m ≡ n)) }
    ensures none { IfNone result
        ((x y m : ℤ) → residue_of a ≡ class_of x (pos 0) → residue_of b ≡ class_of y (pos 0) → binary_value op x y ≡ Some m → FitsSigned w128 m
        → ⊥) }
{
    if a.residue.modulus == 0 && b.residue.modulus == 0 {
        number_at(op, a.residue.rem, b.residue.rem)
    } else {
        None
    }
}

// The operator's value, as intervals have it, where it is an `i128`.
fn number_at(op: NOp, x: i128, y: i128) -> Option<i128>
    ensures some { IfSome result (λ n. (m : ℤ) → binary_value op x y ≡ Some m → m ≡ n) }
    ensures none { IfNone result ((m : ℤ) → binary_value op x y ≡ Some m → FitsSigned w128 m → ⊥) }
{
    number(Interval::binary(op, &Interval::point(x), &Interval::point(y)).range())
}

// What an operator makes of the numbers of two classes by their steps.
fn by_steps(op: NOp, a: Class, b: Class) -> Class
    ensures fold_sum { (c : ℤ) → IsAlignment c → op ≡ Add → IsFoldResidue c (residue_of a) → IsFoldResidue c (residue_of b)
        → IsFoldResidue c (residue_of result) }
    ensures fold_left { (c : ℤ) → IsAlignment c → op ≡ Mul → IsFoldResidue c (residue_of a) → IsFoldResidue c (residue_of result) }
    ensures fold_right { (c : ℤ) → IsAlignment c → op ≡ Mul → IsFoldResidue c (residue_of b) → IsFoldResidue c (residue_of result) }
    ensures holds { (x y n : ℤ) → InResidue (residue_of a) x → InResidue (residue_of b) y → binary_value op x y ≡ Some n → InResidue (residue_of result) n }
    ensures bounds { ClassBounds op (residue_of a) (residue_of b) (residue_of result) }
{
    match op {
        NOp::Add => sum(a, b),
        NOp::Sub => difference(a, b),
        NOp::Mul => product(a, b),
        NOp::Shl => product(a, powers(b)),
        _ => other(op, a, b),
    }
}

// What `Not` makes of a class.
fn denial(a: Class) -> Class
    ensures { (x n : ℤ) → InResidue (residue_of a) x → unary_value Not x ≡ Some n → InResidue (residue_of result) n }
{
    if !has(a, 0) {
        return Class::point(0);
    }
    if a.residue.modulus == 0 {
        return Class::point(1);
    }
    Class::all()
}

// A class that holds the power of two of each number of the class that is not negative.
fn powers(a: Class) -> Class
    ensures one { (k : ℕ) → k < 127 → residue_of a ≡ class_of (pos k) (pos 0) → residue_of result ≡ class_of (pos (2 ^ k)) (pos 0) }
    ensures holds { (k : ℕ) → InResidue (residue_of a) (pos k) → InResidue (residue_of result) (pos (2 ^ k)) }
{
    if a.residue.modulus == 0 && a.residue.rem >= 0 && a.residue.rem < 127 {
        return Class::point(1 << a.residue.rem as u32);
    }
    Class::all()
}

// An operator that keeps no class of sums or products: that of its value at two numbers, the class
// of remainders or of low bits, or all numbers.
fn other(op: NOp, a: Class, b: Class) -> Class
    ensures bounds { IsOther op → ClassBounds op (residue_of a) (residue_of b) (residue_of result) }
    ensures holds { (x y n : ℤ) → InResidue (residue_of a) x → InResidue (residue_of b) y → binary_value op x y ≡ Some n → InResidue (residue_of result) n }
{
    if a.residue.modulus == 0 && b.residue.modulus == 0 {
        return at_numbers(op, a.residue.rem, b.residue.rem);
    }
    match op {
        NOp::Rem => rest(a, b),
        NOp::And | NOp::Or | NOp::Xor => logical(op, a, b),
        _ => Class::all(),
    }
}

// The class of the operator's value at two numbers, as intervals have it.
pub(super) fn at_numbers(op: NOp, x: i128, y: i128) -> Class
    ensures value { (n : ℤ) → binary_value op x y ≡ Some n → FitsSigned w128 n → residue_of result ≡ class_of n (pos 0) }
    ensures holds { (n : ℤ) → binary_value op x y ≡ Some n → InResidue (residue_of result) n }
{
    let value = Interval::binary(op, &Interval::point(x), &Interval::point(y));
    Class::new(value.residue())
}
