//! What is shown of a check: whether it holds an operand that fails, sets of pointers to show, and what holds two of them.
//!
//! A domain of memory shows a superset of the operands that a check may meet: a range and a class of whole numbers, one or two
//! sets of pointers, marks of a load, or ends of a call. For example, where a divisor lies in [-1, 8], `decide` answers `May`
//! with the number 0; where it is odd besides, it answers `Holds`, since 0 is not odd. `shows_some` tells whether any operand
//! is shown at all. `spot_pointer` of `&a[1]` shows object `a` at offset 4 and no other pointer; `any_pointer` shows each
//! pointer of the program. `shown_hull` of the multiples of 4 in [0, 8] and of the number 2 shows the even numbers in [0, 8].
//!
//! | What | Stated in `specs/`, by `c_syntax`'s definitions of what is shown and what fails | Promised by |
//! |---|---|---|
//! | whether a failing operand is shown, and which one | `Decisions` | `decide`, `shows_some` |
//! | which pointers a set shows | `Sets` | `no_pointer`, `any_pointer`, `null_pointer`, `spot_pointer` |
//! | what a hull has of both | `Hulls` | `pointers_hull`, `shown_hull` |
//!
//! `decide` takes no memory.
#![tactic(auto)]

ghost use Rattle.std.specs.Prelude.{length, map, MatchOption};
ghost use Rattle.c_syntax.specs.Types.{object_tree};
ghost use Rattle.c_syntax.specs.Operand.{Operand, operand_of};
ghost use Rattle.c_syntax.specs.Admission.{IsProper};
ghost use Rattle.mem_shown.specs.Decisions.{HasFields, NamesObjects, IsFailing, IsDecision};

mod bounds;
mod hulls;
mod mark;
mod number;
mod pair;
mod place;
mod remainder;
mod sets;
mod showing;
mod span;
mod spot;
mod wanted;

use c_syntax::{Check, Example, Object, Shown};
pub use hulls::{pointers_hull, shown_hull};
pub use sets::{any_pointer, no_pointer, null_pointer, spot_pointer};
pub use showing::shows_some;
use span::Span;

/// What is to be said of a check.
#[derive(Clone, Copy, PartialEq, Eq)]
pub enum Decision {
    /// No operand that is shown fails.
    Holds,
    /// This operand is shown, and fails.
    May(Example),
}

/// Whether an operand that is shown fails the check, and one that does. The objects are those of the program.
pub fn decide(check: &Check, shown: &Shown, objects: &[Object]) -> Decision
    requires fields { HasFields check.now }
    requires names { NamesObjects (length objects.now) shown.now }
    requires proper { IsProper shown.now }
    ensures { IsDecision (map object_tree objects.now) check.now shown.now result }
{
    match failing(check, shown, objects) {
        Some(example) => Decision::May(example),
        None => Decision::Holds,
    }
}

// An operand that is shown and fails the check, if there is one.
fn failing(check: &Check, shown: &Shown, objects: &[Object]) -> Option<Example>
    requires fields { HasFields check.now }
    requires names { NamesObjects (length objects.now) shown.now }
    requires proper { IsProper shown.now }
    ensures { MatchOption result ((x : Operand) → IsFailing (map object_tree objects.now) check.now shown.now x → ⊥)
        (λ e. IsFailing (map object_tree objects.now) check.now shown.now (operand_of e)) }
{
    match shown {
        Shown::Number {
            lo,
            hi,
            modulus,
            rem,
        } => {
            let n = number::failing_number(check, Span::of(*lo, *hi, *modulus, *rem))?;
            Some(Example::Number(n))
        }
        Shown::One(set) => {
            let spot = spot::failing_spot(check, set, objects)?;
            Some(Example::Point(spot))
        }
        Shown::Pair(left, right) => {
            let pair = pair::failing_pair(check, left, right, objects)?;
            Some(Example::Points(pair.left, pair.right))
        }
        Shown::Marks {
            undef,
            value: _,
            broken,
        } => mark::failing_mark(check.kind, *undef, *broken),
        Shown::Ends { value: _, none } => mark::failing_end(check.kind, *none),
    }
}
