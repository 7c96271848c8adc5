// What memory holds, and what is loaded from it.

use c_syntax::IntType;

/// A place in memory: a block's number, and an offset in bytes, which may lie outside the block.
#[derive(Clone, Copy, Debug, PartialEq, Eq)]
pub struct Pointer {
    pub block: u64,
    pub offset: i64,
}

/// A byte of memory: without a value, a number, or a piece of a stored pointer. A pointer has the
/// pieces 0 to 7, in the order of its bytes.
#[derive(Clone, Copy, Debug, PartialEq, Eq)]
pub enum Byte {
    Undef,
    Num(u8),
    Frag(Pointer, u8),
}

/// A value: a number of an integer type, a pointer to a block, or the null pointer.
#[derive(Clone, Copy, Debug, PartialEq, Eq)]
pub enum Value {
    Int(IntType, i128),
    Ptr(Pointer),
    Null,
}

/// A type that a load or a store has: an integer type, or that of any pointer.
#[derive(Clone, Copy, Debug, PartialEq, Eq)]
pub enum Scalar {
    Int(IntType),
    Pointer,
}
