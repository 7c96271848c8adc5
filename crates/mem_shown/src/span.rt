// Whole numbers of a range that are in a class.

ghost use Rattle.std.specs.Prelude.{◌≡◌, ◌↔◌, ◌⊎◌, ℤ, ◌-ℤ◌, ◌≤ℤ◌, ◌<ℤ◌, ◌≤◌, ◌^◌, ◌+◌, MatchOption, IfSome, IsTrue, None, Some};
ghost use Rattle.c_syntax.specs.Admission.{IsBetween, IsInClass, IsNoMultiple, IsProperRange, IsProperSet, IsModerate};
ghost use Rattle.mem_shown.specs.Spans.{InSpan, IsSpan, IsWithin, IsLeastFrom, IsGreatestTo, IsBeside};

use crate::remainder::{are_alike, remainder};
use c_syntax::Pointers;

// The numbers between two ends, each of which may be missing, that are `rem` up to a multiple of the modulus.
#[derive(Clone, Copy)]
pub struct Span {
    pub lo: Option<i128>,
    pub hi: Option<i128>,
    pub modulus: i128,
    pub rem: i128,
}

impl Span {
    // The numbers of a range and a class as they are shown. Under a modulus of 0 the ends say all.
    pub fn of(lo: Option<i128>, hi: Option<i128>, modulus: i128, rem: i128) -> Span
        requires { IsProperRange lo hi modulus rem }
        ensures span { IsSpan result }
        ensures inside { (n : ℤ) → IsBetween lo hi n → IsInClass modulus rem n → InSpan result n }
        ensures back { (n : ℤ) → InSpan result n → IsBetween lo hi n × IsInClass modulus rem n }
    {
        if modulus == 0 {
            Span {
                lo,
                hi,
                modulus: 1,
                rem: 0,
            }
        } else {
            Span {
                lo,
                hi,
                modulus,
                rem,
            }
        }
    }

    // The offsets of a set.
    pub fn of_set(set: &Pointers) -> Span
        requires { IsProperSet set.now }
        ensures span { IsSpan result }
        ensures inside { (n : ℤ) → IsBetween set.now.lo set.now.hi n → IsInClass set.now.modulus set.now.rem n → InSpan result n }
        ensures back { (n : ℤ) → InSpan result n → IsBetween set.now.lo set.now.hi n × IsInClass set.now.modulus set.now.rem n }
    {
        Span::of(set.lo, set.hi, set.modulus, set.rem)
    }

    // The least number from `n` up.
    pub fn least_from(self, n: i128) -> Option<i128>
        requires span { IsSpan self }
        requires within { IsWithin (2 ^ 126 + 1) n }
        ensures { MatchOption result ((m : ℤ) → InSpan self m → n ≤ℤ m → ⊥) (λ m. IsLeastFrom self n m) }
    {
        let found = self.next_member(start_from(self.lo, n));
        if is_below(found, self.hi) {
            Some(found)
        } else {
            None
        }
    }

    // The greatest number from `n` down.
    pub fn greatest_to(self, n: i128) -> Option<i128>
        requires span { IsSpan self }
        requires within { IsWithin (2 ^ 126 + 1) n }
        ensures { MatchOption result ((m : ℤ) → InSpan self m → m ≤ℤ n → ⊥) (λ m. IsGreatestTo self n m) }
    {
        let found = self.last_member(end_to(self.hi, n));
        if is_above(found, self.lo) {
            Some(found)
        } else {
            None
        }
    }

    // The number, where it is one of these.
    pub fn at(self, n: i128) -> Option<i128>
        requires span { IsSpan self }
        requires within { IsWithin (2 ^ 126 + 1) n }
        ensures { MatchOption result (InSpan self n → ⊥) (λ m. (m ≡ n) × InSpan self m) }
    {
        let found = self.least_from(n)?;
        if found == n { Some(found) } else { None }
    }

    // The number nearest to 0, from 0 up before from 0 down.
    pub fn nearest(self) -> Option<i128>
        requires { IsSpan self }
        ensures { MatchOption result ((m : ℤ) → InSpan self m → ⊥) (λ m. InSpan self m × IsWithin (2 ^ 126 + 2 ^ 101) m) }
    {
        match self.least_from(0) {
            Some(found) => Some(found),
            None => self.greatest_to(-1),
        }
    }

    // The number below `lo` or above `hi` that is nearest to these, above before below.
    pub fn outside(self, lo: i128, hi: i128) -> Option<i128>
        requires span { IsSpan self }
        requires lo { IsWithin (2 ^ 126) lo }
        requires hi { IsWithin (2 ^ 126) hi }
        ensures { MatchOption result ((m : ℤ) → InSpan self m → (m <ℤ lo) ⊎ (hi <ℤ m) → ⊥) (λ m. InSpan self m × ((m <ℤ lo) ⊎ (hi <ℤ m))) }
    {
        let below = self.greatest_to(lo - 1);
        let above = self.least_from(hi + 1);
        nearer(below, lo, hi, above)
    }

    // A number that differs from `n` by no multiple of the size: the one nearest to 0 from 0 up, else from 0 down.
    pub fn unlike(self, n: i128, size: u64) -> Option<i128>
        requires span { IsSpan self }
        requires size { 1 ≤ size }
        ensures { MatchOption result ((m : ℤ) → InSpan self m → IsNoMultiple size (m -ℤ n) → ⊥) (λ m. InSpan self m × IsNoMultiple size (m -ℤ n)) }
    {
        let found = self.nearest()?;
        if are_alike(found, n, size) {
            if are_alike(self.modulus, 0, size) {
                None
            } else {
                self.beside(found)
            }
        } else {
            Some(found)
        }
    }

    // The next number, else the one before.
    fn beside(self, n: i128) -> Option<i128>
        requires span { IsSpan self }
        requires inside { InSpan self n }
        requires within { IsWithin (2 ^ 126 + 2 ^ 101) n }
        ensures { MatchOption result ((m : ℤ) → InSpan self m → m ≡ n) (λ m. InSpan self m × IsBeside self n m) }
    {
        let above = n + self.modulus;
        let below = n - self.modulus;
        if is_below(above, self.hi) {
            Some(above)
        } else if is_above(below, self.lo) {
            Some(below)
        } else {
            None
        }
    }

    // The least number of the class from `n` up.
    fn next_member(self, n: i128) -> i128
        requires span { IsSpan self }
        requires within { IsWithin (2 ^ 126 + 1) n }
        ensures member { IsInClass self.modulus self.rem result }
        ensures above { n ≤ℤ result }
        ensures least { (m : ℤ) → IsInClass self.modulus self.rem m → n ≤ℤ m → result ≤ℤ m }
        ensures within { IsWithin (2 ^ 126 + 2 ^ 101) result }
    {
        n + remainder(self.rem - n, self.modulus)
    }

    // The greatest number of the class from `n` down.
    fn last_member(self, n: i128) -> i128
        requires span { IsSpan self }
        requires within { IsWithin (2 ^ 126 + 1) n }
        ensures member { IsInClass self.modulus self.rem result }
        ensures below { result ≤ℤ n }
        ensures greatest { (m : ℤ) → IsInClass self.modulus self.rem m → m ≤ℤ n → m ≤ℤ result }
        ensures within { IsWithin (2 ^ 126 + 2 ^ 101) result }
    {
        n - remainder(n - self.rem, self.modulus)
    }
}

// Of a number below the ends and one above them, either of which may be missing, the one nearer to them.
fn nearer(below: Option<i128>, lo: i128, hi: i128, above: Option<i128>) -> Option<i128>
    ensures { MatchOption result ((below ≡ None) × (above ≡ None)) (λ m. (below ≡ Some m) ⊎ (above ≡ Some m)) }
{
    match above {
        None => below,
        Some(over) => match below {
            None => above,
            Some(under) => if lo.abs_diff(under) < over.abs_diff(hi) {
                below
            } else {
                above
            },
        },
    }
}

// The least number that is not below `n` and not below the end.
fn start_from(lo: Option<i128>, n: i128) -> i128
    requires lo { IsModerate lo }
    requires within { IsWithin (2 ^ 126 + 1) n }
    ensures end { IfSome lo (λ l. l ≤ℤ result) }
    ensures from { n ≤ℤ result }
    ensures least { (m : ℤ) → IfSome lo (λ l. l ≤ℤ m) → n ≤ℤ m → result ≤ℤ m }
    ensures within { IsWithin (2 ^ 126 + 1) result }
{
    match lo {
        Some(lo) => lo.max(n),
        None => n,
    }
}

// The greatest number that is not above `n` and not above the end.
fn end_to(hi: Option<i128>, n: i128) -> i128
    requires hi { IsModerate hi }
    requires within { IsWithin (2 ^ 126 + 1) n }
    ensures end { IfSome hi (λ h. result ≤ℤ h) }
    ensures to { result ≤ℤ n }
    ensures greatest { (m : ℤ) → IfSome hi (λ h. m ≤ℤ h) → m ≤ℤ n → m ≤ℤ result }
    ensures within { IsWithin (2 ^ 126 + 1) result }
{
    match hi {
        Some(hi) => hi.min(n),
        None => n,
    }
}

// Whether the number is not above the end.
fn is_below(n: i128, hi: Option<i128>) -> bool
    ensures { IsTrue result ↔ IfSome hi (λ h. n ≤ℤ h) }
{
    match hi {
        Some(hi) => n <= hi,
        None => true,
    }
}

// Whether the number is not below the end.
fn is_above(n: i128, lo: Option<i128>) -> bool
    ensures { IsTrue result ↔ IfSome lo (λ l. l ≤ℤ n) }
{
    match lo {
        Some(lo) => lo <= n,
        None => true,
    }
}
