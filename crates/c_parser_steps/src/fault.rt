// Why the descent stops.

ghost use Rattle.std.specs.Prelude.{◌≡◌};
ghost use Rattle.c_parser_steps.specs.declared.fault.Fault.TheVariants.{NoMemory};

use c_syntax_written::{Construct, Placed};
use std::alloc::{AllocError, AllocFailed};

/// Why there is no tree. The first of the tokens is refused, or the end where there is none.
#[derive(Drop)]
pub enum Fault<'a> {
    /// Memory ran out.
    NoMemory,
    /// No file goes on with this token.
    Syntax(&'a [Placed]),
    /// The token bears this construct.
    Unsupported(Construct, &'a [Placed]),
    /// With this token more than 200 forms are unfinished.
    TooDeep(&'a [Placed]),
}

/// What was read and the tokens behind it, or why there is none.
pub type Reading<'a, T> = Result<(T, &'a [Placed]), Fault<'a>>;

impl From<AllocError> for Fault<'_> {
    ghost from_gives = { λ _ e. e ≡ NoMemory };

    fn from(_error: AllocError) -> Self {
        Fault::NoMemory
    }
}

impl<T: Drop> From<AllocFailed<T>> for Fault<'_> {
    ghost from_gives = { λ _ e. e ≡ NoMemory };

    fn from(_error: AllocFailed<T>) -> Self {
        Fault::NoMemory
    }
}
