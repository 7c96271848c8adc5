// Conversions of integer types and numbers.

ghost use Rattle.std.specs.Prelude.{◌≡◌, ◌≤◌, ◌^◌, pos, true, false, nat_le, find};
ghost use Rattle.c_layout.specs.Conversion as conversion;
ghost use Rattle.c_layout.specs.Conversion.{balanced, common, literal_type_of, mixed, promoted, unsigned_of};
ghost use Rattle.c_syntax_written.specs.Integer as integer;
ghost use Rattle.c_syntax_written.specs.Integer.{wrapped};

use c_syntax::IntType;

/// The type that the integer promotions give.
pub fn promote(t: IntType) -> IntType
    ensures { result ≡ promoted t }
{
    match t {
        IntType::Char
        | IntType::SChar
        | IntType::UChar
        | IntType::Short
        | IntType::UShort
        | IntType::Int => IntType::Int,
        IntType::UInt | IntType::Long | IntType::ULong | IntType::LLong | IntType::ULLong => t,
    }
}

/// The type to which the usual arithmetic conversions bring operands of these two types.
pub fn balance(a: IntType, b: IntType) -> IntType
    ensures { result ≡ balanced a b }
{
    common_type(promote(a), promote(b))
}

/// The type of an integer constant of this value, or `None` where no type of its row has the
/// value. `unsigned` tells that it has a `u`, and `longs`, from 0 to 2, how many times an `l`.
pub fn literal_type(value: u64, decimal: bool, unsigned: bool, longs: u8) -> Option<IntType>
    requires { longs ≤ 2 }
    ensures { result ≡ literal_type_of value decimal unsigned longs }
{
    let from = usize::from(longs);
    if unsigned {
        let row = [IntType::UInt, IntType::ULong, IntType::ULLong];
        first_with(&row[from..], value)
    } else if decimal {
        let row = [IntType::Int, IntType::Long, IntType::LLong];
        first_with(&row[from..], value)
    } else {
        let row = [
            IntType::Int,
            IntType::UInt,
            IntType::Long,
            IntType::ULong,
            IntType::LLong,
            IntType::ULLong,
        ];
        first_with(&row[2 * from..], value)
    }
}

/// The number of the type that is `n` modulo 2 to the type's width.
pub fn wrap(t: IntType, n: i128) -> i128
    ensures { result ≡ wrapped t n }
{
    let count = count_of(t);
    let low = n.rem_euclid(count);
    if low > i128::from(t.greatest()) {
        low - count
    } else {
        low
    }
}

// The first type of the row that has the value.
fn first_with(row: &[IntType], value: u64) -> Option<IntType>
    ensures { result ≡ find (λ t. nat_le value (integer.greatest t)) row.now }
{
    row.iter().copied().find(|t| value <= t.greatest())
}

// What two promoted types come to.
fn common_type(a: IntType, b: IntType) -> IntType
    ensures { result ≡ common a b }
{
    match (a.is_signed(), b.is_signed()) {
        (true, false) => mixed_type(a, b),
        (false, true) => mixed_type(b, a),
        _ => if rank(a) < rank(b) { b } else { a },
    }
}

// What a signed and an unsigned promoted type come to.
fn mixed_type(signed: IntType, unsigned: IntType) -> IntType
    requires has_sign { integer.is_signed signed ≡ true }
    requires has_none { integer.is_signed unsigned ≡ false }
    ensures { result ≡ mixed signed unsigned }
{
    if rank(signed) <= rank(unsigned) {
        unsigned
    } else if signed.width() > unsigned.width() {
        signed
    } else {
        unsigned_type(signed)
    }
}

fn unsigned_type(t: IntType) -> IntType
    ensures { result ≡ unsigned_of t }
{
    match t {
        IntType::Char | IntType::SChar => IntType::UChar,
        IntType::Short => IntType::UShort,
        IntType::Int => IntType::UInt,
        IntType::Long => IntType::ULong,
        IntType::LLong => IntType::ULLong,
        IntType::UChar | IntType::UShort | IntType::UInt | IntType::ULong | IntType::ULLong => t,
    }
}

// The conversion rank.
fn rank(t: IntType) -> u8
    ensures { result ≡ conversion.rank t }
{
    match t {
        IntType::Char | IntType::SChar | IntType::UChar => 1,
        IntType::Short | IntType::UShort => 2,
        IntType::Int | IntType::UInt => 3,
        IntType::Long | IntType::ULong => 4,
        IntType::LLong | IntType::ULLong => 5,
    }
}

// How many numbers the type has.
fn count_of(t: IntType) -> i128
    ensures { result ≡ pos (2 ^ integer.width t) }
{
    match t {
        IntType::Char | IntType::SChar | IntType::UChar => 1 << 8,
        IntType::Short | IntType::UShort => 1 << 16,
        IntType::Int | IntType::UInt => 1 << 32,
        IntType::Long | IntType::ULong | IntType::LLong | IntType::ULLong => 1 << 64,
    }
}
