// Cells and stretches of one object.

ghost use Rattle.std.specs.Prelude.{◌≡◌, ◌≤◌, IfOk};
ghost use Rattle.std.specs.Int.{byte_len};
ghost use Rattle.c_syntax_written.specs.Integer.{std_width};

use crate::SharedSet;
use c_syntax::IntType;
use std::alloc::AllocError as NoMemory;

/// The bytes of a scalar, whole: nothing, a number or a pointer. The variable of its number is that of its place and
/// size. A cell at an offset of 2^16 or more says nothing.
#[derive(Drop)]
pub struct Entry {
    pub offset: u64,
    /// The type as which the bytes are read. A pointer has eight bytes, and its number is its offset.
    pub ty: IntType,
    /// The bytes may be without a value.
    pub undef: bool,
    /// The bytes may be a number. Null is the number 0.
    pub value: bool,
    /// What the bytes may point to.
    pub targets: SharedSet,
}

/// What each byte of a stretch is.
#[derive(Clone, Copy, PartialEq, Eq)]
pub enum FillByte {
    Undef,
    Num(u8),
}

/// Bytes of an object from one on and to below another, that are all one byte.
#[derive(Clone, Copy)]
pub struct Stretch {
    pub from: u64,
    pub to: u64,
    pub byte: FillByte,
}

impl Entry {
    /// The same cell.
    pub fn copy(&self) -> Result<Entry, NoMemory>
        ensures { IfOk result (λ e. e ≡ self.now) }
    {
        Ok(Entry {
            offset: self.offset,
            ty: self.ty,
            undef: self.undef,
            value: self.value,
            targets: self.targets.share()?,
        })
    }
}

/// How many bytes an integer type has.
pub fn size_in(ty: IntType) -> u64
    ensures value { result ≡ byte_len (std_width ty) }
    ensures some { 1 ≤ result }
    ensures few { result ≤ 8 }
{
    match ty {
        IntType::Char | IntType::SChar | IntType::UChar => 1,
        IntType::Short | IntType::UShort => 2,
        IntType::Int | IntType::UInt => 4,
        IntType::Long | IntType::ULong | IntType::LLong | IntType::ULLong => 8,
    }
}
