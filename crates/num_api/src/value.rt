// Sets of whole numbers.

ghost use Rattle.std.specs.Prelude.{◌≡◌, ℕ, ℤ, pos, List, ◌≤◌, ◌<◌, IsTrue, true, false, Bool, IfSome, IfNone, Some};
ghost use Rattle.num_api.specs.Told.{Keeps};
ghost use Rattle.num_api.specs.Ranges.{InRange, IsPoint, NoWider, holds_some, hull};
ghost use Rattle.num_api.specs.Residues.{InResidue, IsResidue, IsFoldResidue, IsMultiple};
ghost use Rattle.num_api.specs.Value.{unary_value, binary_value};
ghost use Rattle.num_api.specs.Spans.{Span, FitsSpan, IsNotByZero, range_of, unary_span, binary_span};
ghost use Rattle.num_api.specs.Fold.{IsAlignment};
ghost use Rattle.std.specs.Int.RustNames.{FitsSigned};
ghost use Rattle.num_api.specs.declared.message.Range.{Range};
ghost use Rattle.num_api.specs.declared.message.Residue.{Residue};
ghost use Rattle.num_api.specs.declared.expr.NOp.TheVariants.{Add, Mul};
ghost use mir.Syntax.{w128};

use crate::{NOp, Ramp, Range, Residue, Steps};

/// A set of whole numbers.
pub trait ValueDomain: Copy {
    /// The numbers of the value.
    ghost admits: { Self → ℤ → Type 0 };

    /// The range that the value answers.
    ghost known: { Self → Range };

    /// The class that the value answers.
    ghost class: { Self → Residue };

    /// The range holds every number of the value.
    ghost known_holds: { (s : Self) (n : ℤ) → admits s n → InRange (known s) n };

    /// The class holds every number of the value.
    ghost class_holds: { (s : Self) (n : ℤ) → admits s n → InResidue (class s) n };

    /// The class has a proper modulus and remainder.
    ghost class_proper: { (s : Self) → IsResidue (class s) };

    /// Whether the first value is known to hold the second.
    ghost holds: { Self → Self → Bool };

    /// How far widening under a list of steps can still go.
    ghost weight: { List ℤ → Self → ℕ };

    /// Whether the laws on points and plain ranges are claimed.
    ghost exact: { Bool };

    /// The range holds some number, where those laws are claimed.
    ghost known_some: { (s : Self) → IsTrue exact → IsTrue (holds_some (known s)) };

    /// Whether the laws on classes of multiples are claimed.
    ghost folds: { Bool };

    /// All whole numbers.
    fn top() -> Self
        ensures { (n : ℤ) → admits result n };

    /// The numbers of a range; `None` only where there is none.
    fn within(r: Range) -> Option<Self>
        ensures some { IfSome result (λ v. (n : ℤ) → InRange r n → admits v n) }
        ensures none { IfNone result ((n : ℤ) → InRange r n → ⊥) }
        ensures plain { IfSome result (λ v. IsTrue exact → NoWider (known v) r) }
        ensures fold { IfSome result (λ v. (n : ℤ) → IsTrue folds → IsPoint r n → class v ≡ record { rem = n; modulus = pos 0 }) };

    /// A range that holds every number of the value.
    fn range(&self) -> Range
        ensures value { result ≡ known self.now }
        ensures holds { (n : ℤ) → admits self.now n → InRange result n };

    /// A class that holds every number of the value.
    fn residue(&self) -> Residue
        ensures value { result ≡ class self.now }
        ensures proper { IsResidue result }
        ensures holds { (n : ℤ) → admits self.now n → InResidue result n };

    /// What the operator makes of the value's numbers.
    fn unary(op: NOp, a: &Self) -> Self
        ensures holds { (x n : ℤ) → admits a.now x → unary_value op x ≡ Some n → admits result n }
        ensures point { (x n : ℤ) → IsTrue exact → IsPoint (known a.now) x → unary_value op x ≡ Some n → FitsSigned w128 n → IsPoint (known result) n }
        ensures plain { (s r : Span) → IsTrue exact → NoWider (known a.now) (range_of s) → FitsSpan s → unary_span op s ≡ Some r → FitsSpan r
            → NoWider (known result) (range_of r) };

    /// What the operator makes of a number of the first value and one of the second.
    fn binary(op: NOp, a: &Self, b: &Self) -> Self
        ensures holds { (x y n : ℤ) → admits a.now x → admits b.now y → binary_value op x y ≡ Some n → admits result n }
        ensures point { (x y n : ℤ) → IsTrue exact → IsPoint (known a.now) x → IsPoint (known b.now) y → binary_value op x y ≡ Some n → FitsSigned w128 n
            → IsPoint (known result) n }
        ensures plain { (s t r : Span) → IsTrue exact → IsNotByZero op (known b.now) → NoWider (known a.now) (range_of s) → FitsSpan s
            → NoWider (known b.now) (range_of t) → FitsSpan t → binary_span op s t ≡ Some r → FitsSpan r → NoWider (known result) (range_of r) }
        ensures fold_sum { (c : ℤ) → IsTrue folds → IsAlignment c → op ≡ Add → IsFoldResidue c (class a.now)
            → IsFoldResidue c (class b.now) → IsFoldResidue c (class result) }
        ensures fold_left { (c n : ℤ) → IsTrue folds → IsAlignment c → op ≡ Mul → IsMultiple c n → class a.now ≡ record { rem = n; modulus = pos 0 }
            → IsFoldResidue c (class result) }
        ensures fold_right { (c n : ℤ) → IsTrue folds → IsAlignment c → op ≡ Mul → IsMultiple c n → class b.now ≡ record { rem = n; modulus = pos 0 }
            → IsFoldResidue c (class result) };

    /// The numbers that are in both; `None` only where there is none.
    fn meet(&self, other: &Self) -> Option<Self>
        ensures some { IfSome result (λ v. (n : ℤ) → admits self.now n → admits other.now n → admits v n) }
        ensures none { IfNone result ((n : ℤ) → admits self.now n → admits other.now n → ⊥) }
        ensures plain { IfSome result (λ v. IsTrue exact → NoWider (known v) (known self.now) × NoWider (known v) (known other.now)) };

    /// At least the numbers of either.
    fn join(&self, other: &Self) -> Self
        ensures left { (n : ℤ) → admits self.now n → admits result n }
        ensures right { (n : ℤ) → admits other.now n → admits result n }
        ensures plain { IsTrue exact → NoWider (known result) (hull (known self.now) (known other.now)) };

    /// At least the numbers of either; an end that moves goes on to a step of the ramp, so that
    /// widening comes to an end.
    fn widen<U: Fn(i128) -> Option<i128>, S: Steps>(&self, next: &Self, ramp: &Ramp<U>) -> Self
        requires { Keeps U.pre U.post ramp.now S.list }
        ensures left { (n : ℤ) → admits self.now n → admits result n }
        ensures right { (n : ℤ) → admits next.now n → admits result n }
        ensures no_rise { weight S.list result ≤ weight S.list self.now }
        ensures falls { holds self.now next.now ≡ false → weight S.list result < weight S.list self.now };

    /// Whether the value is known to hold the other.
    fn covers(&self, other: &Self) -> bool
        ensures value { result ≡ holds self.now other.now }
        ensures included { IsTrue result → (n : ℤ) → admits other.now n → admits self.now n };
}

/// A value domain that keeps the laws on points, on plain ranges and on classes of multiples.
pub trait ExactValue: ValueDomain {
    ghost is_exact: { IsTrue Self.exact × IsTrue Self.folds };
}
