// All that is shown of a check.

ghost use Rattle.std.specs.Prelude.{IfOk};
ghost use Rattle.c_syntax.specs.Admission.{IsProper};
ghost use Rattle.mem_shown.specs.Hulls.{AreFlags, AreOfOneForm};
ghost use Rattle.mem_narrowed.specs.Narrowed.{IsNarrowed, IsProperBounds, shown_numbers};

use crate::bounds::Bounds;
use crate::sets::{both, pointers_narrowed};
use c_syntax::Shown;
use std::alloc::{AllocError as NoMemory, Global};

// The marks of both loads, or the ends of both calls.
fn flags_narrowed(a: &Shown, b: &Shown) -> Shown
    requires { AreFlags a.now b.now }
    ensures { IsNarrowed a.now b.now result }
{
    match (a, b) {
        (
            Shown::Marks {
                undef,
                value,
                broken,
            },
            Shown::Marks {
                undef: other_undef,
                value: other_value,
                broken: other_broken,
            },
        ) => Shown::Marks {
            undef: both(*undef, *other_undef),
            value: both(*value, *other_value),
            broken: both(*broken, *other_broken),
        },
        (
            Shown::Ends { value, none },
            Shown::Ends {
                value: other_value,
                none: other_none,
            },
        ) => Shown::Ends {
            value: both(*value, *other_value),
            none: both(*none, *other_none),
        },
        _ => unreachable!(),
    }
}

// The numbers of both ranges and classes.
fn numbers_narrowed(a: Bounds, b: Bounds) -> Shown
    requires left { IsProperBounds a }
    requires right { IsProperBounds b }
    ensures { IsNarrowed (shown_numbers a) (shown_numbers b) result }
{
    a.narrowed(b).shown()
}

/// What is in both of two shown values of one form, and nothing that the first does not show. The objects that the second
/// names are taken to be objects of the program.
pub fn narrowed(alloc: Global, a: &Shown, b: &Shown) -> Result<Shown, NoMemory>
    requires form { AreOfOneForm a.now b.now }
    requires left { IsProper a.now }
    requires right { IsProper b.now }
    ensures { IfOk result (λ w. IsNarrowed a.now b.now w) }
{
    match (a, b) {
        (
            Shown::Number {
                lo,
                hi,
                modulus,
                rem,
            },
            Shown::Number {
                lo: low,
                hi: high,
                modulus: step,
                rem: rest,
            },
        ) => {
            let left = Bounds::new(*lo, *hi, *modulus, *rem);
            let right = Bounds::new(*low, *high, *step, *rest);
            Ok(numbers_narrowed(left, right))
        }
        (Shown::One(left), Shown::One(right)) => {
            Ok(Shown::One(pointers_narrowed(alloc, left, right)?))
        }
        (Shown::Pair(left, right), Shown::Pair(other_left, other_right)) => Ok(Shown::Pair(
            pointers_narrowed(alloc, left, other_left)?,
            pointers_narrowed(alloc, right, other_right)?,
        )),
        _ => Ok(flags_narrowed(a, b)),
    }
}
