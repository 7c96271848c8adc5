// Whether something is shown at all.

ghost use Rattle.std.specs.Prelude.{◌≡◌, ◌||◌, length, map, MatchBool};
ghost use Rattle.c_syntax.specs.Types.{object_tree};
ghost use Rattle.c_syntax.specs.Admission.{IsProper};
ghost use Rattle.mem_shown.specs.Decisions.{NamesObjects, ShowsSome};

use crate::span::Span;
use crate::spot::some_spot;
use c_syntax::{Object, Shown};

/// Whether some operand is shown. The objects are those of the program.
pub fn shows_some(shown: &Shown, objects: &[Object]) -> bool
    requires names { NamesObjects (length objects.now) shown.now }
    requires proper { IsProper shown.now }
    ensures { MatchBool result (ShowsSome (map object_tree objects.now) shown.now) (ShowsSome (map object_tree objects.now) shown.now → ⊥) }
{
    match shown {
        Shown::Number {
            lo,
            hi,
            modulus,
            rem,
        } => { Span::of(*lo, *hi, *modulus, *rem).nearest().is_some() }
        Shown::One(set) => some_spot(set, objects).is_some(),
        Shown::Pair(left, right) => some_spot(left, objects).is_some()
            && some_spot(right, objects).is_some(),
        Shown::Marks {
            undef,
            value,
            broken,
        } => any_mark(*undef, *value, *broken),
        Shown::Ends { value, none } => any_end(*value, *none),
    }
}

// Whether a mark of a load is shown.
fn any_mark(undef: bool, value: bool, broken: bool) -> bool
    ensures { result ≡ ((undef || value) || broken) }
{
    undef || value || broken
}

// Whether an end of a call is shown.
fn any_end(value: bool, none: bool) -> bool
    ensures { result ≡ (value || none) }
{
    value || none
}
