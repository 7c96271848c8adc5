// Operators of typed expressions. Each tells the types at which it works.

use crate::IntType;

/// An operator on two integers of one type, which is the type of its result.
#[derive(Clone, Copy, Debug, PartialEq, Eq)]
pub enum Arithmetic {
    /// `a * b`
    Multiply,
    /// `a / b`
    Divide,
    /// `a % b`
    Remainder,
    /// `a + b`
    Add,
    /// `a - b`
    Subtract,
    /// `a & b`
    BitAnd,
    /// `a ^ b`
    BitXor,
    /// `a | b`
    BitOr,
}

/// The way of a shift.
#[derive(Clone, Copy, Debug, PartialEq, Eq)]
pub enum Shift {
    /// `a << b`
    Left,
    /// `a >> b`
    Right,
}

/// An order or an equality.
#[derive(Clone, Copy, Debug, PartialEq, Eq)]
pub enum Comparison {
    /// `a < b`
    Less,
    /// `a > b`
    Greater,
    /// `a <= b`
    AtMost,
    /// `a >= b`
    AtLeast,
    /// `a == b`
    Equal,
    /// `a != b`
    Unequal,
}

/// An operator on one operand. An integer type is that of the operand and of the result. `Not`
/// takes an integer or a pointer and gives an int.
#[derive(Clone, Copy, PartialEq, Eq)]
pub enum TUnaryOp {
    /// `+a`
    Plus(IntType),
    /// `-a`
    Minus(IntType),
    /// `~a`
    Complement(IntType),
    /// `!a`
    Not,
}

/// An operator on two operands. `element` is the size in bytes of what the pointer points to.
#[derive(Clone, Copy, PartialEq, Eq)]
pub enum TBinaryOp {
    /// Both operands and the result have this type.
    Arithmetic(Arithmetic, IntType),
    /// The left operand and the result have this type. The right one has an integer type of its
    /// own.
    Shift(Shift, IntType),
    /// Both operands have this type, and the result is an int.
    CompareInts(Comparison, IntType),
    /// Both operands are pointers, and the result is an int.
    ComparePointers(Comparison),
    /// The left operand is the pointer.
    PointerPlusInt { element: u64 },
    /// The right operand is the pointer.
    IntPlusPointer { element: u64 },
    /// `p - 1`
    PointerMinusInt { element: u64 },
    /// How many elements lie between the two, as a long.
    PointerMinusPointer { element: u64 },
}

/// What a `++` or `--` moves its operand by: 1, added or taken away at this integer type, or one
/// element of so many bytes.
#[derive(Clone, Copy, PartialEq, Eq)]
pub enum Stride {
    /// `i++`, where `i` is an int.
    Int(IntType),
    /// `p++`, where `p` points to elements of so many bytes.
    Element(u64),
}

/// Whether a step stands before its operand, and gives the new value, or after it, and gives the
/// old one.
#[derive(Clone, Copy, PartialEq, Eq)]
pub enum StepTime {
    /// `++a`
    Before,
    /// `a++`
    After,
}

/// How the address of a place was written: `*p`, `a[i]` or `p->m`.
#[derive(Clone, Copy, PartialEq, Eq)]
pub enum DerefKind {
    /// `*p`
    Star,
    /// `a[i]`
    Index,
    /// `p->m`
    Arrow,
}

/// The size and the alignment in bytes of a struct that is copied.
#[derive(Clone, Copy, PartialEq, Eq)]
pub struct Extent {
    pub size: u64,
    pub align: u64,
}
