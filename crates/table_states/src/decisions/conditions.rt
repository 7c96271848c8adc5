// The conditions under which a row may be asked.

ghost use Rattle.std.specs.Prelude.{◌≡◌, ℤ, pos, ◌≤ℤ◌, ◌<ℤ◌, ◌<◌, ◌^◌, All, IsTrue, Some};
ghost use Rattle.c_syntax.specs.Admission.{IsModerate, IsProperRange, IsProperSet, IsProper};
ghost use Rattle.mem_shown.specs.Decisions.{HasFields, NamesBelow, NamesObjects};
ghost use Rattle.mem_shown.specs.Hulls.{AreOfOneForm};
ghost use Rattle.mem_shown.specs.Sets.{IsModerate as MayBeShown};

use c_syntax::{Check, Pointers, Shown, WrongKind};

const MODERATE: i128 = 1 << 126;

const GREATEST_MODULUS: i128 = 1 << 100;

/// Whether the fields of the check are as its kind asks.
pub fn has_fields(check: &Check) -> bool
    ensures { IsTrue result → HasFields check.now }
{
    is_moderate(Some(check.lo))
        && is_moderate(Some(check.hi))
        && (check.kind != WrongKind::Alignment || check.align >= 1)
}

/// Whether what is shown is proper and names objects of the program alone.
pub fn is_shown(shown: &Shown, count: usize) -> bool
    ensures proper { IsTrue result → IsProper shown.now }
    ensures names { IsTrue result → NamesObjects count shown.now }
{
    match shown {
        Shown::Number {
            lo,
            hi,
            modulus,
            rem,
        } => is_range(*lo, *hi, *modulus, *rem),
        Shown::One(set) => is_set(set, count),
        Shown::Pair(left, right) => is_set(left, count) && is_set(right, count),
        Shown::Marks { .. } | Shown::Ends { .. } => true,
    }
}

/// Whether both are numbers, a set, two sets, marks or ends.
pub fn are_of_one_form(a: &Shown, b: &Shown) -> bool
    ensures { IsTrue result → AreOfOneForm a.now b.now }
{
    match (a, b) {
        (Shown::Number { .. }, Shown::Number { .. }) => true,
        (Shown::One(_), Shown::One(_)) => true,
        (Shown::Pair(_, _), Shown::Pair(_, _)) => true,
        (Shown::Marks { .. }, Shown::Marks { .. }) => true,
        (Shown::Ends { .. }, Shown::Ends { .. }) => true,
        _ => false,
    }
}

/// Whether an offset may be that of a pointer that is shown alone.
pub fn is_moderate_offset(offset: i128) -> bool
    ensures { IsTrue result → MayBeShown offset }
{
    -MODERATE <= offset && offset <= MODERATE
}

fn is_set(set: &Pointers, count: usize) -> bool
    ensures proper { IsTrue result → IsProperSet set.now }
    ensures names { IsTrue result → NamesBelow count set.now }
{
    is_range(set.lo, set.hi, set.modulus, set.rem) && are_below(set.names.as_slice(), count)
}

fn are_below(names: &[u64], count: usize) -> bool
    ensures { IsTrue result → All (λ o. o < count) names.now }
{
    names.iter().all(|name| *name < count as u64)
}

fn is_range(lo: Option<i128>, hi: Option<i128>, modulus: i128, rem: i128) -> bool
    ensures { IsTrue result → IsProperRange lo hi modulus rem }
{
    is_moderate(lo) && is_moderate(hi) && is_class(modulus, rem) && is_point(lo, hi, modulus, rem)
}

fn is_moderate(end: Option<i128>) -> bool
    ensures { IsTrue result → IsModerate end }
{
    match end {
        Some(n) => -MODERATE <= n && n <= MODERATE,
        None => true,
    }
}

// Whether the modulus and the remainder may stand together.
fn is_class(modulus: i128, rem: i128) -> bool
    ensures low { IsTrue result → pos 0 ≤ℤ modulus }
    ensures high { IsTrue result → modulus ≤ℤ pos (2 ^ 100) }
    ensures remainder { IsTrue result → pos 1 ≤ℤ modulus → (pos 0 ≤ℤ rem) × (rem <ℤ modulus) }
{
    0 <= modulus && modulus <= GREATEST_MODULUS && (modulus == 0 || (0 <= rem && rem < modulus))
}

// Whether a modulus of 0 stands with the ends of its one number.
fn is_point(lo: Option<i128>, hi: Option<i128>, modulus: i128, rem: i128) -> bool
    ensures { IsTrue result → modulus ≡ pos 0 → (lo ≡ Some rem) × (hi ≡ Some rem) }
{
    modulus != 0 || (is_number(lo, rem) && is_number(hi, rem))
}

fn is_number(end: Option<i128>, n: i128) -> bool
    ensures { IsTrue result → end ≡ Some n }
{
    match end {
        Some(m) => m == n,
        None => false,
    }
}
