// Digits and the numbers that they give.

ghost use Rattle.std.specs.Prelude.{◌≡◌, ◌^◌, ◌<◌, ◌≤◌, length, MatchOption};
ghost use Rattle.c_lexer.specs.Spelling.{digit_value, digits_of, value_from};

/// The value of a hexadecimal digit, and 16 for any other byte.
#[tactic(auto, unfolding(crate::specs::Spelling::digit_value))]
fn digit_value(byte: u8) -> u8
    ensures { result ≡ digit_value byte }
{
    match byte {
        b'0'..=b'9' => byte - b'0',
        b'A'..=b'F' => byte - b'A' + 10,
        b'a'..=b'f' => byte - b'a' + 10,
        _ => 16,
    }
}

/// How many digits to this base stand at the front.
#[tactic(auto, using(crate::proofs::DigitLemmas::digit_in, crate::proofs::DigitLemmas::digit_out))]
pub fn digits_len(base: u8, bytes: &[u8]) -> usize
    ensures within { result ≤ length bytes.now }
    ensures is { result ≡ length (digits_of base bytes.now) }
{
    let mut len = 0;
    let mut rest = bytes;
    while let [first, more @ ..] = rest {
        if digit_value(*first) >= base {
            return len;
        }
        len += 1;
        rest = more;
    }
    len
}

/// The digits to this base at the front.
#[tactic(auto, using(crate::proofs::DigitLemmas::digits_taken))]
pub fn digits_of(base: u8, bytes: &[u8]) -> &[u8]
    ensures { result.now ≡ digits_of base bytes.now }
{
    &bytes[..digits_len(base, bytes)]
}

/// The number that the digits give, where it is below 2^64.
#[tactic(auto, using(crate::proofs::DigitLemmas::value_grows))]
pub fn value_of(base: u8, digits: &[u8]) -> Option<u64>
    requires { 0 < base }
    ensures { MatchOption result (2 ^ 64 ≤ value_from base 0 digits.now) (λ n. n ≡ value_from base 0 digits.now) }
{
    let mut value = 0u64;
    let mut rest = digits;
    while let [first, more @ ..] = rest {
        value = u64::from(base)
            .checked_mul(value)?
            .checked_add(u64::from(digit_value(*first)))?;
        rest = more;
    }
    Some(value)
}
