// Random expressions, and their values by trying.
#![tactic(auto, using(num_api::proofs::Trees::nexpr_trees))]

ghost use Rattle.std.specs.Prelude.{◌≡◌, ◌≤ℤ◌, ℤ, negsuc, pos, Some, IfSome, IfNone};
ghost use Rattle.std.specs.Int.RustNames.{FitsSigned};
ghost use mir.Syntax.{w128};
ghost use Rattle.num_api.specs.Exprs.{nexpr_tree};
ghost use Rattle.num_api.specs.Value.{unary_value, binary_value, value_of, AllFit};
ghost use Rattle.num_api.specs.declared.expr.NOp.TheVariants.{Rem};

use crate::boxes::number_of;
use crate::random::below;
use intervals::bitwise;
use num_api::{NExpr, NOp, Var};
use rand_pcg::Pcg32;
use std::alloc::{AllocError as NoMemory, Global};

/// How many variables there are.
pub const VARIABLES: u64 = 3;

/// A number from -8 to 7.
pub fn small(random: &mut Pcg32) -> i128
    ensures { (negsuc 7 ≤ℤ result) × (result ≤ℤ pos 7) }
{
    i128::from(below(random, 16)) - 8
}

fn binary(random: &mut Pcg32) -> NOp {
    match below(random, 16) {
        0..=2 => NOp::Add,
        3..=5 => NOp::Sub,
        6 | 7 => NOp::Mul,
        8 => NOp::Quot,
        9 => NOp::Rem,
        10 => NOp::And,
        11 => NOp::Or,
        12 => NOp::Shr,
        13 => NOp::Eq,
        14 => NOp::Lt,
        _ => NOp::Le,
    }
}

fn leaf(random: &mut Pcg32) -> NExpr {
    if below(random, 3) == 0 {
        NExpr::Const(small(random))
    } else {
        NExpr::Read(Var(u64::from(below(random, 3))))
    }
}

/// An expression of at most so many levels above its leaves.
pub fn expression(alloc: Global, random: &mut Pcg32, levels: u32) -> Result<NExpr, NoMemory> {
    if levels == 0 || below(random, 8) == 0 {
        return Ok(leaf(random));
    }
    if below(random, 8) == 0 {
        let op = if below(random, 2) == 0 {
            NOp::Neg
        } else {
            NOp::Not
        };
        let a = Box::new(alloc, expression(alloc, random, levels - 1)?)?;
        return Ok(NExpr::Unary(op, a));
    }
    let op = binary(random);
    let a = Box::new(alloc, expression(alloc, random, levels - 1)?)?;
    let b = Box::new(alloc, expression(alloc, random, levels - 1)?)?;
    Ok(NExpr::Binary(op, a, b))
}

/// A comparison of two expressions.
pub fn comparison(alloc: Global, random: &mut Pcg32) -> Result<NExpr, NoMemory> {
    let op = match below(random, 4) {
        0 => NOp::Eq,
        1 => NOp::Ne,
        2 => NOp::Lt,
        _ => NOp::Le,
    };
    let a = Box::new(alloc, expression(alloc, random, 2)?)?;
    let b = Box::new(alloc, expression(alloc, random, 1)?)?;
    Ok(NExpr::Binary(op, a, b))
}

// What an operator of one operand gives, where it gives an `i128`.
fn of_one(op: NOp, a: i128) -> Option<i128>
    ensures some { IfSome result (λ n. unary_value op a ≡ Some n) }
    ensures none { IfNone result ((n : ℤ) → unary_value op a ≡ Some n → FitsSigned w128 n → ⊥) }
{
    match op {
        NOp::Neg => a.checked_neg(),
        NOp::Not => Some(i128::from(a == 0)),
        _ => None,
    }
}

// The remainder of the quotient that is rounded toward 0, where the divisor is not 0.
fn rest(a: i128, b: i128) -> Option<i128>
    ensures some { IfSome result (λ n. binary_value Rem a b ≡ Some n) }
    ensures none { IfNone result ((n : ℤ) → binary_value Rem a b ≡ Some n → ⊥) }
{
    if b == 0 {
        None
    } else {
        Some(a.wrapping_rem(b))
    }
}

// What an operator of two operands gives, where it gives an `i128`.
fn of_two(op: NOp, a: i128, b: i128) -> Option<i128>
    ensures some { IfSome result (λ n. binary_value op a b ≡ Some n) }
    ensures none { IfNone result ((n : ℤ) → binary_value op a b ≡ Some n → FitsSigned w128 n → ⊥) }
{
    match op {
        NOp::Neg => None,
        NOp::Not => None,
        NOp::Add => a.checked_add(b),
        NOp::Sub => a.checked_sub(b),
        NOp::Mul => a.checked_mul(b),
        NOp::Quot => a.checked_div(b),
        NOp::Rem => rest(a, b),
        NOp::Shl => bitwise(NOp::Shl, a, b),
        NOp::Shr => bitwise(NOp::Shr, a, b),
        NOp::And => bitwise(NOp::And, a, b),
        NOp::Or => bitwise(NOp::Or, a, b),
        NOp::Xor => bitwise(NOp::Xor, a, b),
        NOp::Eq => Some(i128::from(a == b)),
        NOp::Ne => Some(i128::from(a != b)),
        NOp::Lt => Some(i128::from(a < b)),
        NOp::Le => Some(i128::from(a <= b)),
    }
}

/// The value of the expression at these numbers, where it and each of its parts have one that is an `i128`.
/// A variable past the last number is 0.
pub fn value(e: &NExpr, numbers: &[i128]) -> Option<i128>
    ensures some { IfSome result (λ n. value_of numbers.now (nexpr_tree e.now) ≡ Some n) }
    ensures none { IfNone result (AllFit numbers.now (nexpr_tree e.now) → ⊥) }
{
    match e {
        NExpr::Const(n) => Some(*n),
        NExpr::Read(x) => Some(number_of(numbers, x.0)),
        NExpr::Unary(op, a) => match value(a, numbers) {
            Some(a) => of_one(*op, a),
            None => None,
        },
        NExpr::Binary(op, a, b) => match (value(a, numbers), value(b, numbers)) {
            (Some(a), Some(b)) => of_two(*op, a, b),
            _ => None,
        },
    }
}
