// What checks look at.

use c_syntax::{Spot, WrongKind};

/// What a load meets in the bytes that it reads.
#[derive(Clone, Copy, Debug)]
pub enum LoadMark {
    /// A byte without a value.
    Undef,
    /// A value of the load's type.
    HasValue,
    /// Bytes that are no value of the type.
    Broken,
}

/// How a call ended.
#[derive(Clone, Copy, Debug)]
pub enum CallEnd {
    Value,
    Nothing,
}

/// The operand of a check.
#[derive(Clone, Copy, Debug)]
pub enum Operand {
    /// An exact number.
    Number(i128),
    /// Where a pointer points.
    Point(Spot),
    /// Where two pointers point.
    Points(Spot, Spot),
    /// What a load meets.
    Mark(LoadMark),
    /// How a call ended.
    End(CallEnd),
}

/// What is found of a check.
#[derive(Clone, Copy)]
pub enum Judgement {
    Passes,
    /// The kind of the check, and the operand that fails it.
    Fails(WrongKind, Operand),
    /// There is nothing of the check's kind to look at.
    NoOperand,
}
