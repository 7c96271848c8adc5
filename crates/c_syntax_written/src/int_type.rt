// Integer types: the tables of their widths, signs and limits, which stand here once.

ghost use Rattle.std.specs.Prelude.{◌≡◌, ◌≤◌, pos};
ghost use Rattle.c_syntax_written.specs.Integer as integer;

/// The integer types of this profile: char is signed and has 8 bits, short 16, int 32, long and
/// long long 64.
#[derive(Clone, Copy, Debug, PartialEq, Eq)]
pub enum IntType {
    /// `char`, which has -128 to 127.
    Char,
    /// `signed char`
    SChar,
    /// `unsigned char`
    UChar,
    /// `short`
    Short,
    /// `unsigned short`
    UShort,
    /// `int`
    Int,
    /// `unsigned`
    UInt,
    /// `long`
    Long,
    /// `unsigned long`
    ULong,
    /// `long long`
    LLong,
    /// `unsigned long long`
    ULLong,
}

impl IntType {
    /// The width in bits (this profile): 8, 16, 32 or 64.
    pub fn width(self) -> u8
        ensures { result ≡ integer.width self }
    {
        match self {
            IntType::Char | IntType::SChar | IntType::UChar => 8,
            IntType::Short | IntType::UShort => 16,
            IntType::Int | IntType::UInt => 32,
            IntType::Long | IntType::ULong | IntType::LLong | IntType::ULLong => 64,
        }
    }

    /// The size in bytes (this profile): 1, 2, 4 or 8.
    pub fn bytes(self) -> u8
        ensures value { result ≡ integer.bytes self }
        ensures few { result ≤ 8 }
    {
        match self {
            IntType::Char | IntType::SChar | IntType::UChar => 1,
            IntType::Short | IntType::UShort => 2,
            IntType::Int | IntType::UInt => 4,
            IntType::Long | IntType::ULong | IntType::LLong | IntType::ULLong => 8,
        }
    }

    /// Whether the type has negative numbers. `char` has (this profile).
    pub fn is_signed(self) -> bool
        ensures { result ≡ integer.is_signed self }
    {
        match self {
            IntType::Char
            | IntType::SChar
            | IntType::Short
            | IntType::Int
            | IntType::Long
            | IntType::LLong => true,
            IntType::UChar | IntType::UShort | IntType::UInt | IntType::ULong | IntType::ULLong =>
                false,
        }
    }

    /// The least number of the type, as -128 for `char` and 0 for a type without sign.
    pub fn least(self) -> i128
        ensures { result ≡ integer.least self }
    {
        match self {
            IntType::Char | IntType::SChar => -0x80,
            IntType::Short => -0x8000,
            IntType::Int => -0x8000_0000,
            IntType::Long | IntType::LLong => -0x8000_0000_0000_0000,
            IntType::UChar | IntType::UShort | IntType::UInt | IntType::ULong | IntType::ULLong =>
                0,
        }
    }

    /// The greatest number of the type, as 127 for `char`.
    pub fn greatest(self) -> u64
        ensures { result ≡ integer.greatest self }
    {
        match self {
            IntType::Char | IntType::SChar => 0x7f,
            IntType::UChar => 0xff,
            IntType::Short => 0x7fff,
            IntType::UShort => 0xffff,
            IntType::Int => 0x7fff_ffff,
            IntType::UInt => 0xffff_ffff,
            IntType::Long | IntType::LLong => 0x7fff_ffff_ffff_ffff,
            IntType::ULong | IntType::ULLong => 0xffff_ffff_ffff_ffff,
        }
    }

    /// The least and the greatest number of the type.
    pub fn limits(self) -> (i128, i128)
        ensures least { result.0 ≡ integer.least self }
        ensures greatest { result.1 ≡ pos (integer.greatest self) }
    {
        (self.least(), i128::from(self.greatest()))
    }
}
