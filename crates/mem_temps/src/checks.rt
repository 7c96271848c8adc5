// What is shown of checks, and which checks pass.

ghost use Rattle.std.specs.Prelude.{◌≡◌};
ghost use Rattle.ext_int.specs.declared.Ext.TheVariants.{Fin};
ghost use Rattle.num_api.specs.Value.{truth};
ghost use Rattle.mem_temps.specs.Shows.{IsTruth, IsAllowed, ShowsOne, ShowsTwo, PassesOne, PassesTwo};

use crate::operators::is_zero;
use crate::shows::{shown_ends, shown_number, shown_set};
use c_syntax::{Check, Shown, WrongKind};
use ext_int::Ext;
use machine_nums::meet;
use num_api::{Range, may_be};
use std::alloc::Global;

// The truths of the numbers of a range: 0, 1 or both.
fn truth_range(r: Range) -> Range
    ensures { IsTruth r result }
{
    Range {
        lo: bit(!may_be(r, false)),
        hi: bit(may_be(r, true)),
    }
}

// 1 for true, and 0 for false.
fn bit(b: bool) -> Ext
    ensures { result ≡ Fin (truth b) }
{
    if b { Ext::Fin(1) } else { Ext::Fin(0) }
}

/// What is shown of a check of one expression, whose value and exact result are in these ranges.
pub fn shown_one(alloc: Global, kind: WrongKind, value: Range, exact: Range) -> Shown
    ensures { ShowsOne kind value exact result }
{
    match kind {
        WrongKind::Overflow | WrongKind::Quotient | WrongKind::ShiftResult => shown_number(exact),
        WrongKind::DivideByZero | WrongKind::ShiftAmount => shown_number(value),
        WrongKind::AssertFailed => shown_number(truth_range(value)),
        WrongKind::NoValue => shown_ends(value),
        WrongKind::Indeterminate | WrongKind::Fragment => Shown::Marks {
            undef: true,
            value: true,
            broken: true,
        },
        WrongKind::NullUse
        | WrongKind::Dangling
        | WrongKind::Bounds
        | WrongKind::Access
        | WrongKind::Alignment
        | WrongKind::ReadOnly
        | WrongKind::Unrelated => Shown::One(shown_set(alloc, value)),
    }
}

/// What is shown of a check of two pointers.
pub fn shown_two(alloc: Global, left: Range, right: Range) -> Shown
    ensures { ShowsTwo left right result }
{
    Shown::Pair(shown_set(alloc, left), shown_set(alloc, right))
}

// Whether some number of the range is allowed.
fn some_allowed(r: Range, check: &Check) -> bool
    ensures { IsAllowed r check.now.lo check.now.hi result }
{
    let allowed = Range {
        lo: Ext::Fin(check.lo),
        hi: Ext::Fin(check.hi),
    };
    meet(r, allowed).holds_some()
}

/// Whether a check of one expression may pass.
pub fn passes_one(kind: WrongKind, check: &Check, value: Range, exact: Range) -> bool
    ensures { PassesOne kind check.now value exact result }
{
    match kind {
        WrongKind::Overflow | WrongKind::Quotient | WrongKind::ShiftResult => {
            some_allowed(exact, check)
        }
        WrongKind::ShiftAmount => some_allowed(value, check),
        WrongKind::DivideByZero | WrongKind::AssertFailed | WrongKind::NoValue => {
            may_be(value, true)
        }
        WrongKind::NullUse => !is_zero(value),
        WrongKind::Indeterminate
        | WrongKind::Fragment
        | WrongKind::Dangling
        | WrongKind::Bounds
        | WrongKind::Access
        | WrongKind::Alignment
        | WrongKind::ReadOnly
        | WrongKind::Unrelated => true,
    }
}

/// Whether a check of two pointers may pass.
pub fn passes_two(kind: WrongKind, _check: &Check, left: Range, right: Range) -> bool
    ensures { PassesTwo kind _check.now left right result }
{
    match kind {
        WrongKind::NullUse => !is_zero(left) && !is_zero(right),
        _ => true,
    }
}
