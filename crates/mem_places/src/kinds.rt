// The checks that look at a place.

ghost use Rattle.std.specs.Prelude.{IsTrue, ◌↔◌};
ghost use Rattle.mem_api.specs.Named.{LooksAtPlace};

use c_syntax::WrongKind;

/// Whether the check is of a null pointer, of offsets, or of what is accessed.
pub fn looks_at_place(kind: WrongKind) -> bool
    ensures { IsTrue result ↔ LooksAtPlace kind }
{
    match kind {
        WrongKind::NullUse | WrongKind::Bounds | WrongKind::Access | WrongKind::Alignment => true,
        WrongKind::Overflow
        | WrongKind::DivideByZero
        | WrongKind::Quotient
        | WrongKind::ShiftAmount
        | WrongKind::ShiftResult
        | WrongKind::Indeterminate
        | WrongKind::Fragment
        | WrongKind::Dangling
        | WrongKind::ReadOnly
        | WrongKind::Unrelated
        | WrongKind::NoValue
        | WrongKind::AssertFailed => false,
    }
}
