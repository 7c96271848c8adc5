// Numbers that fail.

ghost use Rattle.std.specs.Prelude.{ℤ, List, MatchOption};
ghost use Rattle.c_syntax.specs.Types.{ObjectTree};
ghost use Rattle.c_syntax.specs.Operand.{Number};
ghost use Rattle.c_syntax.specs.Admission.{Fails};
ghost use Rattle.mem_shown.specs.Spans.{InSpan, IsSpan};
ghost use Rattle.mem_shown.specs.Decisions.{HasFields};

use crate::span::Span;
use c_syntax::{Check, WrongKind};

// The failing number of these that is nearest to the allowed ones.
pub fn failing_number(check: &Check, span: Span) -> Option<i128>
    requires fields { HasFields check.now }
    requires span { IsSpan span }
    ensures { MatchOption result ((objects : List ObjectTree) (n : ℤ) → InSpan span n → Fails objects check.now (Number n) → ⊥)
        (λ n. InSpan span n × ((objects : List ObjectTree) → Fails objects check.now (Number n))) }
{
    match check.kind {
        WrongKind::Overflow
        | WrongKind::Quotient
        | WrongKind::ShiftAmount
        | WrongKind::ShiftResult => span.outside(check.lo, check.hi),
        WrongKind::DivideByZero | WrongKind::AssertFailed => span.at(0),
        WrongKind::Indeterminate
        | WrongKind::Fragment
        | WrongKind::NullUse
        | WrongKind::Dangling
        | WrongKind::Bounds
        | WrongKind::Access
        | WrongKind::Alignment
        | WrongKind::ReadOnly
        | WrongKind::Unrelated
        | WrongKind::NoValue => None,
    }
}
