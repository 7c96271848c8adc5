//! An interval as a value domain.

ghost use Rattle.std.specs.Prelude.{◌≡◌, ℤ, ◌≤◌, ◌<◌, IsTrue, true, false, Some};
ghost use Rattle.std.specs.Int.RustNames.{FitsSigned};
ghost use mir.Syntax.{w128};
ghost use Rattle.num_api.specs.Ranges.{IsPoint, NoWider};
ghost use Rattle.num_api.specs.Spans.{Span, FitsSpan, IsNotByZero, range_of, unary_span, binary_span};
ghost use Rattle.num_api.specs.Value.{unary_value, binary_value};
ghost use Rattle.intervals.specs.Operations.{Decides, DecidesOne};
ghost use Rattle.intervals.specs.Bounds.{IsBounded};
ghost use Rattle.num_api.specs.Weight.{range_weight};
ghost use Rattle.num_api.specs.Told.{Keeps};
ghost use Rattle.intervals.specs.Interval.{Admits, least_end, greatest_end, ends_of, class_of};
ghost use Rattle.intervals.specs.Laws.{in_class_between, class_between_is_proper};
ghost use Rattle.intervals.specs.Order.{includes};
ghost use Rattle.intervals.specs.Widening.{widened};

use crate::Interval;
use crate::ends::is_range;
use crate::operators::{all_numbers, at_most, binary, number, unary};
use crate::widening::{lower, raise};
use num_api::{NOp, Ramp, Range, Residue, Steps, ValueDomain};

impl ValueDomain for Interval {
    ghost admits = { Admits };

    ghost known = { ends_of };

    ghost class = { class_of };

    ghost known_holds = { λ i n h. record { low = h.0; high = h.1 } };

    ghost known_some = { λ i claimed. i.holds };

    ghost class_holds = { λ i n h. in_class_between (least_end i) (greatest_end i) n h.0 h.1 };

    ghost class_proper = { λ i. class_between_is_proper (least_end i) (greatest_end i) };

    ghost holds = { includes };

    ghost weight = { λ steps i. range_weight steps (ends_of i) };

    ghost exact = { true };

    ghost folds = { false };

    fn top() -> Self {
        all_numbers()
    }

    fn within(r: Range) -> Option<Self> {
        if is_range(r.lo, r.hi) {
            Some(Interval { lo: r.lo, hi: r.hi })
        } else {
            None
        }
    }

    fn range(&self) -> Range {
        Range {
            lo: self.lo,
            hi: self.hi,
        }
    }

    fn residue(&self) -> Residue {
        match number(self) {
            Some(n) => Residue { rem: n, modulus: 0 },
            None => Residue { rem: 0, modulus: 1 },
        }
    }

    /// `Not` is 0, 1 or both just as the range decides it.
    fn unary(op: NOp, a: &Self) -> Self
        ensures holds { (x n : ℤ) → Admits a.now x → unary_value op x ≡ Some n → Admits result n }
        ensures point { (x n : ℤ) → IsTrue true → IsPoint (ends_of a.now) x → unary_value op x ≡ Some n → FitsSigned w128 n → IsPoint (ends_of result) n }
        ensures plain { (s r : Span) → IsTrue true → NoWider (ends_of a.now) (range_of s) → FitsSpan s → unary_span op s ≡ Some r → FitsSpan r
            → NoWider (ends_of result) (range_of r) }
        ensures decides { DecidesOne op a.now result }
    {
        unary(op, a)
    }

    /// Comparisons are 0, 1 or both just as the two ranges decide them. The operators on bits, shifts and
    /// remainders leave no more open than their operands' bounds do.
    fn binary(op: NOp, a: &Self, b: &Self) -> Self
        ensures holds { (x y n : ℤ) → Admits a.now x → Admits b.now y → binary_value op x y ≡ Some n → Admits result n }
        ensures point { (x y n : ℤ) → IsTrue true → IsPoint (ends_of a.now) x → IsPoint (ends_of b.now) y → binary_value op x y ≡ Some n → FitsSigned w128 n
            → IsPoint (ends_of result) n }
        ensures plain { (s t r : Span) → IsTrue true → IsNotByZero op (ends_of b.now) → NoWider (ends_of a.now) (range_of s) → FitsSpan s
            → NoWider (ends_of b.now) (range_of t) → FitsSpan t → binary_span op s t ≡ Some r → FitsSpan r → NoWider (ends_of result) (range_of r) }
        ensures decides { Decides op a.now b.now result }
        ensures bounds { IsBounded op a.now b.now result }
    {
        binary(op, a, b)
    }

    fn meet(&self, other: &Self) -> Option<Self> {
        self.part(other.lo, other.hi)
    }

    fn join(&self, other: &Self) -> Self {
        self.hull(*other)
    }

    // A lower end that moves goes to the next step below, an upper end to the next step above; past the
    // last step it is infinite.
    fn widen<U: Fn(i128) -> Option<i128>, S: Steps>(&self, next: &Self, ramp: &Ramp<U>) -> Self
        requires { Keeps U.pre U.post ramp.now S.list }
        ensures left { (n : ℤ) → Admits self.now n → Admits result n }
        ensures right { (n : ℤ) → Admits next.now n → Admits result n }
        ensures no_rise { range_weight S.list (ends_of result) ≤ range_weight S.list (ends_of self.now) }
        ensures falls { includes self.now next.now ≡ false → range_weight S.list (ends_of result) < range_weight S.list (ends_of self.now) }
        ensures ends { ends_of result ≡ widened S.list self.now next.now }
    {
        Interval {
            lo: lower::<U, S>(self.lo, next.lo, ramp),
            hi: raise::<U, S>(self.hi, next.hi, ramp),
        }
    }

    fn covers(&self, other: &Self) -> bool {
        at_most(self.lo, other.lo) && at_most(other.hi, self.hi)
    }
}
