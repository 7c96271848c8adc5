// Why there is no answer.

ghost use Rattle.std.specs.Prelude.{◌≡◌};
ghost use Rattle.csharp_state.specs.declared.error.Unanswered.TheVariants as reasons;

use std::alloc::{AllocError, AllocFailed};

/// What comes next is nothing that the code holds: an exact number that is no `i128`, a pointer whose
/// offset is no `i64`, an operand that is not of its operator's type beside such a number, a value that
/// memory does not take at a store's type, or bytes that are looked at where they cannot be read.
#[derive(Clone, Copy)]
pub struct Unheld;

/// Why there is no answer.
#[derive(Clone, Copy, Debug)]
pub enum Unanswered {
    /// There was no memory.
    NoMemory,
    /// What comes next is nothing that the code holds.
    Unheld,
}

impl From<Unheld> for Unanswered {
    ghost from_gives = { λ _ e. e ≡ reasons.Unheld };

    fn from(_error: Unheld) -> Unanswered {
        Unanswered::Unheld
    }
}

impl From<AllocError> for Unanswered {
    ghost from_gives = { λ _ e. e ≡ reasons.NoMemory };

    fn from(_error: AllocError) -> Unanswered {
        Unanswered::NoMemory
    }
}

impl<T: Drop> From<AllocFailed<T>> for Unanswered {
    ghost from_gives = { λ _ e. e ≡ reasons.NoMemory };

    fn from(_error: AllocFailed<T>) -> Unanswered {
        Unanswered::NoMemory
    }
}
