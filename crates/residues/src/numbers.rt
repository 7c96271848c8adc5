// Whole numbers up to multiples of a modulus.

ghost use Rattle.std.specs.Prelude.{◌≡◌, ℤ, pos, ◌*ℤ◌, ◌≤ℤ◌, ◌<ℤ◌};
ghost use Rattle.num_api.specs.Residues.{InResidue, IsMultiple};
ghost use Rattle.num_api.specs.Residues.{class_of};
ghost use Rattle.residues.specs.Classes.{IsGreatestDivisor};
ghost use Rattle.std.specs.Int.{int_rem_euclid};

/// The greatest modulus of a class.
pub const GREATEST_MODULUS: i128 = 1 << 100;

// The number from 0 to `modulus - 1` that is `n` up to a multiple of the modulus.
pub fn remainder(n: i128, modulus: i128) -> i128
    requires { pos 1 ≤ℤ modulus }
    ensures value { result ≡ int_rem_euclid n modulus }
    ensures same { InResidue (class_of result modulus) n }
    ensures low { pos 0 ≤ℤ result }
    ensures high { result <ℤ modulus }
{
    if modulus == 1 {
        return 0;
    }
    n.rem_euclid(modulus)
}

// How often the divisor goes into a multiple of it.
pub fn quotient(n: i128, divisor: i128) -> i128
    requires positive { pos 1 ≤ℤ divisor }
    requires multiple { IsMultiple divisor n }
    ensures { (result *ℤ divisor) ≡ n }
{
    n / divisor
}

// The greatest common divisor; 0 of two zeros.
pub fn greatest_divisor(a: i128, b: i128) -> i128
    requires a_is_not_negative { pos 0 ≤ℤ a }
    requires b_is_not_negative { pos 0 ≤ℤ b }
    ensures { IsGreatestDivisor a b result }
{
    if b == 0 {
        a
    } else {
        greatest_divisor(b, remainder(a, b))
    }
}
