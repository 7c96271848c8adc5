// Why a program has no types.

ghost use Rattle.std.specs.Prelude.{◌≡◌};
ghost use Rattle.c_check_names.specs.declared.type_error.TypeError.TheVariants.{NoMemory};

use c_syntax::{CType, Construct, Names, Op, Pos};
use std::alloc::{AllocError, AllocFailed};

/// The first refusal of a program, or out of memory.
#[derive(Drop)]
pub enum TypeError {
    /// No row has these types of operands, at this operator. Types are printed by the tags of the structs so
    /// far, by their numbers.
    NoRule {
        pos: Pos,
        op: Op,
        left: CType,
        right: Option<CType>,
        tags: Names,
    },
    /// A name, a tag or a label that nothing declares.
    Undeclared(Pos),
    /// The place of the second declaration, and that of the first.
    Redeclared(Pos, Pos),
    /// An expression that is to be constant.
    NotConstant(Pos),
    /// An operand that is to be a place.
    NotLvalue(Pos),
    /// An object of so many bytes.
    ObjectTooLarge(Pos, u64),
    /// An object with which all objects together have so many bytes.
    TotalTooLarge(Pos, u64),
    /// A construct that is left out (this profile).
    Unsupported(Pos, Construct),
    NoMemory,
}

impl From<AllocError> for TypeError {
    ghost from_gives = { λ _ e. e ≡ NoMemory };

    fn from(_error: AllocError) -> Self {
        TypeError::NoMemory
    }
}

impl<T: Drop> From<AllocFailed<T>> for TypeError {
    ghost from_gives = { λ _ e. e ≡ NoMemory };

    fn from(_error: AllocFailed<T>) -> Self {
        TypeError::NoMemory
    }
}
