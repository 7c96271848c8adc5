// Whole numbers as bytes.
ghost use Rattle.std.specs.Prelude.{◌≡◌, ◌<◌, ◌≤◌, ◌+◌, ◌*◌, ◌^◌, pos, length, IfSome};
ghost use Rattle.std.specs.Int.{byte_len};
ghost use Rattle.c_syntax_written.specs.Integer.{std_width, HasNumber};
ghost use Rattle.block_mem.specs.Numbers.{bits_in, number_in, low_bytes, number_of};

use crate::types::Byte;
use c_syntax::IntType;

/// A type's size in bytes.
pub fn size_of(ty: IntType) -> usize
    ensures value { result ≡ byte_len (std_width ty) }
    ensures bound { result ≤ 8 }
{
    usize::from(ty.bytes())
}

/// How many numbers a type has.
fn count_of(ty: IntType) -> i128
    ensures { result ≡ pos (256 ^ byte_len (std_width ty)) }
{
    match size_of(ty) {
        1 => 0x100,
        2 => 0x1_0000,
        4 => 0x1_0000_0000,
        _ => 0x1_0000_0000_0000_0000,
    }
}

/// The bits of a number of a type, read as a number without sign.
pub fn bits_in(ty: IntType, number: i128) -> u64
    requires { HasNumber ty number }
    ensures { result ≡ bits_in ty number }
{
    if number < 0 {
        (count_of(ty) + number) as u64
    } else {
        number as u64
    }
}

/// The number of a type that has these bits.
pub fn number_in(ty: IntType, bits: u64) -> i128
    requires { bits < 256 ^ byte_len (std_width ty) }
    ensures number { result ≡ number_in ty bits }
    ensures fits { HasNumber ty result }
{
    let number = i128::from(bits);
    if ty.is_signed() && number >= count_of(ty) / 2 {
        number - count_of(ty)
    } else {
        number
    }
}

/// The eight bytes of a number, the lowest first.
pub fn low_bytes(number: u64) -> [Byte; 8]
    ensures { result ≡ low_bytes 8 number }
{
    let mut bytes = [Byte::Undef; 8];
    let mut rest = number;
    for place in 0..8 {
        bytes[place] = Byte::Num((rest % 256) as u8);
        rest /= 256;
    }
    bytes
}

/// The number that bytes hold, the lowest first; none where one of them is no number.
pub fn number_of(bytes: &[Byte]) -> Option<u64>
    requires { length bytes.now ≤ 8 }
    ensures value { result ≡ number_of bytes.now }
    ensures bound { IfSome result (λ number. number < 256 ^ length bytes.now) }
{
    let mut number: u64 = 0;
    let mut left = bytes.len();
    while left > 0 {
        left -= 1;
        match bytes[left] {
            Byte::Num(low) => number = u64::from(low) + 256 * number,
            _ => return None,
        }
    }
    Some(number)
}
