// Why a name, a tag or an object is refused.

use c_syntax_written::Pos;
use std::alloc::AllocError;

/// Why a name, a tag or an object is refused.
#[derive(Drop)]
pub enum NameError {
    /// Memory ran out.
    NoMemory,
    /// What is named here is not declared.
    Undeclared(Pos),
    /// Its own place, and that of the first declaration.
    Redeclared(Pos, Pos),
    /// An object of so many bytes is larger than the profile allows.
    ObjectTooLarge(Pos, u64),
    /// With this object all objects together would have so many bytes, more than the profile allows.
    TotalTooLarge(Pos, u64),
}

impl From<AllocError> for NameError {
    ghost use Rattle.std.specs.Prelude.{◌≡◌};
    ghost use Rattle.c_check_names.specs.declared.error.NameError.TheVariants.{NoMemory};

    ghost from_gives = { λ _ error. error ≡ NoMemory };

    fn from(_: AllocError) -> NameError {
        NameError::NoMemory
    }
}
