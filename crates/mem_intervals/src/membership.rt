// Whether an operand is one of those shown.
ghost use Rattle.std.specs.Prelude.{◌≡◌, ◌↔◌, ◌≤ℤ◌, ◌<ℤ◌, ℤ, pos, IfSome, IsTrue, List, length};
ghost use Rattle.c_syntax.specs.Types.{ObjectTree};
ghost use Rattle.c_syntax.specs.Admission.{IsBetween, IsInClass, HasObject, IsInShown, IsMarkIn, IsEndIn, IsSpotIn, IsProper, IsProperRange, IsProperSet};
ghost use Rattle.csharp_state.specs.Answers.{end_of, mark_of, operand_of};

use c_syntax::{Pointers, Shown, Spot};
use csharp_state::{CallEnd, LoadMark, Operand};

// Whether a number is at least the end, if there is one.
fn is_from(end: Option<i128>, n: i128) -> bool
    ensures { IsTrue result ↔ IfSome end (λ l. l ≤ℤ n) }
{
    match end {
        Some(end) => end <= n,
        None => true,
    }
}

// Whether a number is at most the end, if there is one.
fn is_to(end: Option<i128>, n: i128) -> bool
    ensures { IsTrue result ↔ IfSome end (λ h. n ≤ℤ h) }
{
    match end {
        Some(end) => n <= end,
        None => true,
    }
}

// Whether a number is between two ends, each of which may be missing.
fn is_between(lo: Option<i128>, hi: Option<i128>, n: i128) -> bool
    ensures { IsTrue result ↔ IsBetween lo hi n }
{
    is_from(lo, n) && is_to(hi, n)
}

// Whether a number is the remainder and some multiple of the modulus.
fn is_in_class(modulus: i128, rem: i128, n: i128) -> bool
    requires modulus { pos 0 ≤ℤ modulus }
    requires rem { pos 1 ≤ℤ modulus → (pos 0 ≤ℤ rem) × (rem <ℤ modulus) }
    ensures { IsTrue result ↔ IsInClass modulus rem n }
{
    if modulus == 0 {
        is_same(n, rem)
    } else {
        is_same(n.rem_euclid(modulus), rem)
    }
}

// Whether the two are one number.
fn is_same(a: i128, b: i128) -> bool
    ensures { IsTrue result ↔ (a ≡ b) }
{
    a == b
}

// Whether the set has this object, of so many.
fn has_object(set: &Pointers, count: u64, object: u64) -> bool
    ensures { (objects : List ObjectTree) → length objects ≡ count → IsTrue result ↔ HasObject objects set.now object }
{
    if set.any && object < count {
        return true;
    }
    set.names.as_slice().contains(&object)
}

// Whether a number is in a range and a class.
fn has_number(lo: Option<i128>, hi: Option<i128>, modulus: i128, rem: i128, n: i128) -> bool
    requires { IsProperRange lo hi modulus rem }
    ensures { IsTrue result ↔ (IsBetween lo hi n × IsInClass modulus rem n) }
{
    is_between(lo, hi, n) && is_in_class(modulus, rem, n)
}

// Whether the set has the spot, in a program with so many objects.
fn has_spot(set: &Pointers, count: u64, spot: Spot) -> bool
    requires { IsProperSet set.now }
    ensures { (objects : List ObjectTree) → length objects ≡ count → IsTrue result ↔ IsSpotIn objects set.now spot }
{
    match spot {
        Spot::Null => set.any || set.null,
        Spot::Dead => set.any || set.dead,
        Spot::At(object, offset) => {
            has_object(set, count, object)
                && has_number(set.lo, set.hi, set.modulus, set.rem, offset)
        }
    }
}

// Whether a mark of a load is one of those shown.
fn has_mark(undef: bool, value: bool, broken: bool, mark: LoadMark) -> bool
    ensures { IsTrue result ↔ IsMarkIn undef value broken (mark_of mark) }
{
    match mark {
        LoadMark::Undef => undef,
        LoadMark::HasValue => value,
        LoadMark::Broken => broken,
    }
}

// Whether an end of a call is one of those shown.
fn has_end(value: bool, none: bool, end: CallEnd) -> bool
    ensures { IsTrue result ↔ IsEndIn value none (end_of end) }
{
    match end {
        CallEnd::Value => value,
        CallEnd::Nothing => none,
    }
}

/// Whether the operand is one of those shown, in a program with so many objects.
pub fn is_shown(shown: &Shown, count: u64, operand: Operand) -> bool
    requires { IsProper shown.now }
    ensures { (objects : List ObjectTree) → length objects ≡ count → IsTrue result ↔ IsInShown objects (operand_of operand) shown.now }
{
    match shown {
        Shown::Number {
            lo,
            hi,
            modulus,
            rem,
        } => match operand {
            Operand::Number(n) => has_number(*lo, *hi, *modulus, *rem, n),
            _ => false,
        },
        Shown::One(set) => match operand {
            Operand::Point(spot) => has_spot(set, count, spot),
            _ => false,
        },
        Shown::Pair(left, right) => match operand {
            Operand::Points(first, second) => {
                has_spot(left, count, first) && has_spot(right, count, second)
            }
            _ => false,
        },
        Shown::Marks {
            undef,
            value,
            broken,
        } => match operand {
            Operand::Mark(mark) => has_mark(*undef, *value, *broken, mark),
            _ => false,
        },
        Shown::Ends { value, none } => match operand {
            Operand::End(end) => has_end(*value, *none, end),
            _ => false,
        },
    }
}
