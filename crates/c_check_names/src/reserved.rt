// Names that need no declaration.

ghost use Rattle.std.specs.Prelude.{◌≡◌};
ghost use Rattle.c_typing.specs.Names as names;

use c_syntax::IntType;

/// The type of the input that is read by this name.
pub fn input_type(name: &[u8]) -> Option<IntType>
    ensures { result ≡ names.input_type name.now }
{
    if b"__any_char".as_slice() == name {
        Some(IntType::Char)
    } else if b"__any_uchar".as_slice() == name {
        Some(IntType::UChar)
    } else if b"__any_short".as_slice() == name {
        Some(IntType::Short)
    } else if b"__any_ushort".as_slice() == name {
        Some(IntType::UShort)
    } else if b"__any_int".as_slice() == name {
        Some(IntType::Int)
    } else if b"__any_uint".as_slice() == name {
        Some(IntType::UInt)
    } else if b"__any_long".as_slice() == name {
        Some(IntType::Long)
    } else if b"__any_ulong".as_slice() == name {
        Some(IntType::ULong)
    } else {
        None
    }
}

/// Whether the name needs no declaration: an input's, `__assume` or `__assert`.
pub fn is_reserved(name: &[u8]) -> bool
    ensures { result ≡ names.is_reserved name.now }
{
    input_type(name).is_some() || b"__assume".as_slice() == name || b"__assert".as_slice() == name
}
