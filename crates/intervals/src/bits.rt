//! The operators on bits at two numbers.

ghost use Rattle.std.specs.Prelude.{◌≡◌, ℤ, pos, ◌*ℤ◌, ◌^◌, ◌≤◌, IfSome, IfNone, Some};
ghost use Rattle.std.specs.Option.{SomeIff};
ghost use Rattle.std.specs.Int.RustNames.{FitsSigned};
ghost use Rattle.num_api.specs.Value.{binary_value, bits_of_both, bits_of_either, bits_of_one, shifted_left, shifted_right};
ghost use Rattle.intervals.specs.Operations.{IsBitwise};
ghost use mir.Syntax.{w128};

use num_api::NOp;

/// What `And`, `Or`, `Xor`, `Shl` or `Shr` gives at two numbers, where it gives an `i128`.
pub fn bitwise(op: NOp, x: i128, y: i128) -> Option<i128>
    requires { IsBitwise op }
    ensures some { IfSome result (λ n. binary_value op x y ≡ Some n) }
    ensures none { IfNone result ((n : ℤ) → binary_value op x y ≡ Some n → FitsSigned w128 n → ⊥) }
{
    match op {
        NOp::And => Some(both(x, y)),
        NOp::Or => Some(either(x, y)),
        NOp::Xor => Some(one(x, y)),
        NOp::Shl => shift_left(x, y),
        NOp::Shr => shift_right(x, y),
        _ => None,
    }
}

fn both(x: i128, y: i128) -> i128
    ensures { result ≡ bits_of_both x y }
{
    x & y
}

fn either(x: i128, y: i128) -> i128
    ensures { result ≡ bits_of_either x y }
{
    x | y
}

fn one(x: i128, y: i128) -> i128
    ensures { result ≡ bits_of_one x y }
{
    x ^ y
}

// The product by a power of two, where the amount is not negative and the product is an `i128`. By
// 2^128 and more only 0 has one.
pub fn shift_left(x: i128, amount: i128) -> Option<i128>
    ensures some { IfSome result (λ n. shifted_left x amount ≡ Some n) }
    ensures none { IfNone result ((n : ℤ) → shifted_left x amount ≡ Some n → FitsSigned w128 n → ⊥) }
{
    if amount < 0 {
        None
    } else {
        times_power(x, amount.min(128) as u32)
    }
}

// The product by 2^k, where it is an `i128`. It goes in two steps, since 2^128 is none.
fn times_power(x: i128, k: u32) -> Option<i128>
    requires { k ≤ 128 }
    ensures { SomeIff result (FitsSigned w128 (x *ℤ pos (2 ^ k))) (x *ℤ pos (2 ^ k)) }
{
    let half = k / 2;
    let partial = x.checked_mul(1 << half)?;
    partial.checked_mul(1 << (k - half))
}

// The quotient by a power of two, rounded down, where the amount is not negative. By 2^127 and more
// it is 0 or -1.
fn shift_right(x: i128, amount: i128) -> Option<i128>
    ensures some { IfSome result (λ n. shifted_right x amount ≡ Some n) }
    ensures none { IfNone result ((n : ℤ) → shifted_right x amount ≡ Some n → FitsSigned w128 n → ⊥) }
{
    if amount < 0 {
        None
    } else {
        Some(x >> amount.min(127) as u32)
    }
}
