// Whole numbers up to multiples of a modulus.

ghost use Rattle.std.specs.Prelude.{◌≡◌, ℤ, pos, ◌-ℤ◌, ◌*ℤ◌, ◌≤ℤ◌, ◌<ℤ◌, ◌≤◌, IsTrue, false};
ghost use Rattle.std.specs.Int.{int_rem_euclid};
ghost use Rattle.c_syntax.specs.Admission.{IsNoMultiple};

// The number from 0 to `modulus - 1` that is `n` up to a multiple of the modulus.
pub fn remainder(n: i128, modulus: i128) -> i128
    requires { pos 1 ≤ℤ modulus }
    ensures value { result ≡ int_rem_euclid n modulus }
    ensures low { pos 0 ≤ℤ result }
    ensures high { result <ℤ modulus }
{
    if modulus == 1 {
        return 0;
    }
    n.rem_euclid(modulus)
}

// Whether two numbers differ by a multiple of the size.
pub fn are_alike(a: i128, b: i128, size: u64) -> bool
    requires { 1 ≤ size }
    ensures alike { IsTrue result → (k : ℤ) × ((a -ℤ b) ≡ (pos size *ℤ k)) }
    ensures unlike { result ≡ false → IsNoMultiple size (a -ℤ b) }
{
    let size = i128::from(size);
    remainder(a, size) == remainder(b, size)
}
