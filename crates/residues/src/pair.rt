// Pairs of a range domain and a class domain.

ghost use Rattle.std.specs.Prelude.{◌≡◌, ℤ, pos, ◌+◌, ◌&&◌, ◌⊎◌, IsTrue, false, Some, IfSome, IfNone};
ghost use Rattle.num_api.specs.Ranges.{InRange, IsPoint, NoWider, holds_some};
ghost use Rattle.num_api.specs.Value.{binary_value};
ghost use Rattle.num_api.specs.Residues.{class_of, InResidue, IsResidue, IsFoldResidue};
ghost use Rattle.residues.specs.Classes.{HaveCommon, AreApart};
ghost use Rattle.residues.specs.Pair.{IsEquality};
ghost use Rattle.residues.specs.Inward.{moved_range, HasSome, IsReduced};

use crate::Class;
use crate::ends::{inward, is_same, meets, number};
use intervals::Interval;
use num_api::{ExactValue, NOp, Ramp, Range, Residue, Steps, ValueDomain};

/// A value of two domains at once: it has the numbers that are in both. The first gives the bounds
/// and the second the class; each bound is moved inward to the nearest number of the class, and
/// stays where that is no `i128`. Widening alone widens each part by itself and moves no bound.
#[derive(Clone, Copy, PartialEq, Eq)]
pub struct Pair<V, W> {
    bounds: V,
    class: W,
}

// What a test for equality answers of two numbers that are not equal.
fn answer_apart(op: NOp) -> Option<i128>
    ensures some { IfSome result (λ n. (x y m : ℤ) → (x ≡ y → ⊥) → binary_value op x y ≡ Some m → m ≡ n) }
    ensures none { IfNone result (IsEquality op → ⊥) }
{
    match op {
        NOp::Eq => Some(0),
        NOp::Ne => Some(1),
        _ => None,
    }
}

// Whether no number is in both classes.
fn are_apart(a: Residue, b: Residue) -> bool
    requires first { IsResidue a }
    requires second { IsResidue b }
    ensures apart { IsTrue result → AreApart a b }
    ensures common { result ≡ false → HaveCommon a b }
{
    match Class::new(a).meet(&Class::new(b)) {
        Some(_) => false,
        None => true,
    }
}

// The operator's values, where a test for equality is decided by classes that share no number.
fn told_apart<V: ValueDomain>(op: NOp, values: V, a: Residue, b: Residue) -> V
    requires first { IsResidue a }
    requires second { IsResidue b }
    ensures holds { (x y n : ℤ) → InResidue a x → InResidue b y → binary_value op x y ≡ Some n → V.admits values n → V.admits result n }
    ensures plain { IsTrue V.exact → NoWider (V.known result) (V.known values) }
    ensures apart { (x y n : ℤ) → IsTrue V.exact → IsEquality op → AreApart a b → InResidue a x → InResidue b y → binary_value op x y ≡ Some n
        → V.admits values n → IsPoint (V.known result) n }
{
    let Some(n) = answer_apart(op) else {
        return values;
    };
    if are_apart(a, b) {
        at_number(values, n)
    } else {
        values
    }
}

// The number of the value, where it is known to have it.
fn at_number<V: ValueDomain>(value: V, n: i128) -> V
    ensures holds { V.admits value n → V.admits result n }
    ensures plain { IsTrue V.exact → NoWider (V.known result) (V.known value) }
    ensures point { IsTrue V.exact → V.admits value n → IsPoint (V.known result) n }
{
    let Some(point) = V::within(Range::point(n)) else {
        return value;
    };
    match value.meet(&point) {
        Some(both) => both,
        None => value,
    }
}

impl<V: ValueDomain, W: ValueDomain> Pair<V, W> {
    ghost use Rattle.residues.specs.Pair.{bounds_part, class_part, IsInBoth, range_of_pair, KeepsItsRange};

    /// The numbers that are in both, with the bounds moved inward; `None` only where there is none.
    pub fn new(v: V, w: W) -> Option<Pair<V, W>>
        ensures some { IfSome result (λ p. (n : ℤ) → V.admits v n → W.admits w n → IsInBoth V.admits W.admits p n) }
        ensures none { IfNone result ((n : ℤ) → V.admits v n → W.admits w n → ⊥) }
        ensures class { IfSome result (λ p. class_part p ≡ w) }
        ensures shares { IfSome result (λ p. HasSome (range_of_pair V.known W.class p) (W.class (class_part p))) }
        ensures plain { IfSome result (λ p. IsTrue V.exact → NoWider (range_of_pair V.known W.class p) (V.known v)) }
        ensures keeps { IfSome result (λ p. IsTrue V.exact → KeepsItsRange V.known W.class p) }
    {
        let loose = Pair {
            bounds: v,
            class: w,
        };
        loose.tightened()
    }

    // The same numbers, with the bounds moved inward; `None` only where there is none.
    fn tightened(&self) -> Option<Pair<V, W>>
        ensures proper { IsResidue (W.class (class_part self.now)) }
        ensures some { IfSome result (λ p. (n : ℤ) → IsInBoth V.admits W.admits self.now n → IsInBoth V.admits W.admits p n) }
        ensures none { IfNone result ((n : ℤ) → IsInBoth V.admits W.admits self.now n → ⊥) }
        ensures class { IfSome result (λ p. class_part p ≡ class_part self.now) }
        ensures shares { IfSome result (λ p. HasSome (range_of_pair V.known W.class p) (W.class (class_part p))) }
        ensures plain { IfSome result (λ p. IsTrue V.exact → NoWider (range_of_pair V.known W.class p) (V.known (bounds_part self.now))) }
        ensures bounds { IfSome result (λ p. IsTrue V.exact → NoWider (V.known (bounds_part p)) (V.known (bounds_part self.now))) }
        ensures keeps { IfSome result (λ p. IsTrue V.exact → KeepsItsRange V.known W.class p) }
        ensures loose { IfNone result (IsTrue V.exact → KeepsItsRange V.known W.class self.now) }
    {
        if !self.shares() {
            return None;
        }
        let tight = Pair {
            bounds: self.tight(),
            class: self.class,
        };
        if tight.shares() { Some(tight) } else { None }
    }

    // The same numbers, with the bounds moved inward where that leaves some.
    fn kept(&self) -> Self
        ensures holds { (n : ℤ) → IsInBoth V.admits W.admits self.now n → IsInBoth V.admits W.admits result n }
        ensures folds { (c : ℤ) → IsTrue W.folds → IsFoldResidue c (W.class (class_part self.now)) → IsFoldResidue c (W.class (class_part result)) }
        ensures plain { IsTrue V.exact → NoWider (range_of_pair V.known W.class result) (V.known (bounds_part self.now)) }
        ensures point { (x : ℤ) → IsTrue V.exact → IsPoint (V.known (bounds_part self.now)) x → IsPoint (range_of_pair V.known W.class result) x }
        ensures keeps { IsTrue V.exact → KeepsItsRange V.known W.class result }
    {
        if self.is_of_all() {
            return self.pointed();
        }
        match self.tightened() {
            Some(pair) => pair.pointed(),
            None => *self,
        }
    }

    // Whether the class holds all numbers, so that it moves no bound.
    fn is_of_all(&self) -> bool
        ensures { IsTrue result → (W.class (class_part self.now)).modulus ≡ pos 1 }
    {
        self.class.residue().modulus == 1
    }

    // The same numbers, with the class of a number where the range holds no other.
    fn pointed(&self) -> Self
        ensures holds { (n : ℤ) → IsInBoth V.admits W.admits self.now n → IsInBoth V.admits W.admits result n }
        ensures bounds { bounds_part result ≡ bounds_part self.now }
        ensures proper { IsResidue (W.class (class_part result)) }
        ensures class { (class_part result ≡ class_part self.now)
            ⊎ ((n : ℤ) × IsPoint (range_of_pair V.known W.class self.now) n × (IsTrue W.folds → W.class (class_part result) ≡ class_of n (pos 0))) }
        ensures keeps { KeepsItsRange V.known W.class self.now → KeepsItsRange V.known W.class result }
    {
        let Some(n) = number(self.ends()) else {
            return *self;
        };
        let Some(class) = W::within(Range::point(n)) else {
            return *self;
        };
        Pair {
            bounds: self.bounds,
            class,
        }
    }

    // The bounds, moved inward.
    fn ends(&self) -> Range
        ensures value { result ≡ range_of_pair V.known W.class self.now }
        ensures proper { IsResidue (W.class (class_part self.now)) }
        ensures holds { (n : ℤ) → IsInBoth V.admits W.admits self.now n → InRange result n }
        ensures reduced { IsReduced result (W.class (class_part self.now)) }
    {
        inward(self.class.residue(), self.bounds.range())
    }

    // Whether moving the bounds inward leaves a number.
    fn shares(&self) -> bool
        ensures value { result ≡ holds_some (moved_range (W.class (class_part self.now)) (V.known (bounds_part self.now))) }
        ensures proper { IsResidue (W.class (class_part self.now)) }
        ensures holds { (n : ℤ) → IsInBoth V.admits W.admits self.now n → IsTrue result }
    {
        meets(self.class.residue(), self.bounds.range())
    }

    // The first part, with its bounds moved inward.
    fn tight(&self) -> V
        ensures holds { (n : ℤ) → IsInBoth V.admits W.admits self.now n → V.admits result n }
        ensures exact { IsTrue V.exact → V.known result ≡ range_of_pair V.known W.class self.now }
    {
        if self.is_of_all() {
            return self.bounds;
        }
        let ends = self.ends();
        if is_same(ends, self.bounds.range()) {
            return self.bounds;
        }
        let Some(inside) = V::within(ends) else {
            return self.bounds;
        };
        if !is_same(inside.range(), ends) {
            return inside;
        }
        match inside.meet(&self.bounds) {
            Some(both) if is_same(both.range(), ends) => both,
            _ => inside,
        }
    }
}

impl<V: ValueDomain, W: ValueDomain> ValueDomain for Pair<V, W> {
    ghost use Rattle.residues.specs.Laws.{in_inward_range, inward_some};
    ghost use Rattle.residues.specs.Pair.{bounds_part, class_part, IsInBoth, range_of_pair, KeepsItsRange};
    ghost use Rattle.num_api.specs.Ranges.{hull};
    ghost use Rattle.num_api.specs.Residues.{IsMultiple};
    ghost use Rattle.num_api.specs.Fold.{IsAlignment};
    ghost use Rattle.num_api.specs.Spans.{Span, FitsSpan, IsNotByZero, range_of, unary_span, binary_span};
    ghost use Rattle.num_api.specs.Value.{unary_value};
    ghost use Rattle.num_api.specs.declared.expr.NOp.TheVariants.{Add, Mul};
    ghost use Rattle.std.specs.Int.RustNames.{FitsSigned};
    ghost use mir.Syntax.{w128};

    ghost admits = { IsInBoth V.admits W.admits };

    ghost known = { range_of_pair V.known W.class };

    ghost class = { λ p. W.class (class_part p) };

    ghost known_holds = { λ p n h. in_inward_range (W.class (class_part p)) (V.known (bounds_part p)) n (W.class_proper (class_part p))
        (V.known_holds (bounds_part p) n h.0) (W.class_holds (class_part p) n h.1) };

    ghost class_holds = { λ p n h. W.class_holds (class_part p) n h.1 };

    ghost class_proper = { λ p. W.class_proper (class_part p) };

    ghost holds = { λ p q. V.holds (bounds_part p) (bounds_part q) && W.holds (class_part p) (class_part q) };

    ghost weight = { λ steps p. V.weight steps (bounds_part p) + W.weight steps (class_part p) };

    ghost exact = { V.exact };

    ghost known_some = { λ p claimed. inward_some (W.class (class_part p)) (V.known (bounds_part p)) (V.known_some (bounds_part p) claimed) };

    ghost folds = { W.folds };

    fn top() -> Self {
        Pair {
            bounds: V::top(),
            class: W::top(),
        }
    }

    /// Of a value that is there, some number of the range is in the class.
    fn within(r: Range) -> Option<Self>
        ensures some { IfSome result (λ p. (n : ℤ) → InRange r n → IsInBoth V.admits W.admits p n) }
        ensures none { IfNone result ((n : ℤ) → InRange r n → ⊥) }
        ensures plain { IfSome result (λ p. IsTrue V.exact → NoWider (range_of_pair V.known W.class p) r) }
        ensures fold { IfSome result (λ p. (n : ℤ) → IsTrue W.folds → IsPoint r n → W.class (class_part p) ≡ record { rem = n; modulus = pos 0 }) }
        ensures shares { IfSome result (λ p. HasSome (range_of_pair V.known W.class p) (W.class (class_part p))) }
        ensures keeps { IfSome result (λ p. IsTrue V.exact → KeepsItsRange V.known W.class p) }
    {
        match (V::within(r), W::within(r)) {
            (Some(bounds), Some(class)) => Pair::new(bounds, class),
            _ => None,
        }
    }

    /// Each end that is a number is in the class, unless no `i128` of the range is.
    fn range(&self) -> Range
        ensures value { result ≡ range_of_pair V.known W.class self.now }
        ensures holds { (n : ℤ) → IsInBoth V.admits W.admits self.now n → InRange result n }
        ensures reduced { IsReduced result (W.class (class_part self.now)) }
    {
        self.ends()
    }

    fn residue(&self) -> Residue {
        self.class.residue()
    }

    /// The bounds that are kept are the range's.
    fn unary(op: NOp, a: &Self) -> Self
        ensures holds { (x n : ℤ) → IsInBoth V.admits W.admits a.now x → unary_value op x ≡ Some n → IsInBoth V.admits W.admits result n }
        ensures point { (x n : ℤ) → IsTrue V.exact → IsPoint (range_of_pair V.known W.class a.now) x → unary_value op x ≡ Some n → FitsSigned w128 n
            → IsPoint (range_of_pair V.known W.class result) n }
        ensures plain { (s r : Span) → IsTrue V.exact → NoWider (range_of_pair V.known W.class a.now) (range_of s) → FitsSpan s → unary_span op s ≡ Some r
            → FitsSpan r → NoWider (range_of_pair V.known W.class result) (range_of r) }
        ensures keeps { IsTrue V.exact → KeepsItsRange V.known W.class result }
    {
        let loose = Pair {
            bounds: V::unary(op, &a.tight()),
            class: W::unary(op, &a.class),
        };
        loose.kept()
    }

    /// A test for equality is decided where the classes share no number. The bounds that are kept are the range's.
    fn binary(op: NOp, a: &Self, b: &Self) -> Self
        ensures holds { (x y n : ℤ) → IsInBoth V.admits W.admits a.now x → IsInBoth V.admits W.admits b.now y → binary_value op x y ≡ Some n
            → IsInBoth V.admits W.admits result n }
        ensures point { (x y n : ℤ) → IsTrue V.exact → IsPoint (range_of_pair V.known W.class a.now) x → IsPoint (range_of_pair V.known W.class b.now) y
            → binary_value op x y ≡ Some n → FitsSigned w128 n → IsPoint (range_of_pair V.known W.class result) n }
        ensures plain { (s t r : Span) → IsTrue V.exact → IsNotByZero op (range_of_pair V.known W.class b.now)
            → NoWider (range_of_pair V.known W.class a.now) (range_of s) → FitsSpan s → NoWider (range_of_pair V.known W.class b.now) (range_of t) → FitsSpan t
            → binary_span op s t ≡ Some r → FitsSpan r → NoWider (range_of_pair V.known W.class result) (range_of r) }
        ensures fold_sum { (c : ℤ) → IsTrue W.folds → IsAlignment c → op ≡ Add → IsFoldResidue c (W.class (class_part a.now))
            → IsFoldResidue c (W.class (class_part b.now)) → IsFoldResidue c (W.class (class_part result)) }
        ensures fold_left { (c n : ℤ) → IsTrue W.folds → IsAlignment c → op ≡ Mul → IsMultiple c n
            → W.class (class_part a.now) ≡ record { rem = n; modulus = pos 0 } → IsFoldResidue c (W.class (class_part result)) }
        ensures fold_right { (c n : ℤ) → IsTrue W.folds → IsAlignment c → op ≡ Mul → IsMultiple c n
            → W.class (class_part b.now) ≡ record { rem = n; modulus = pos 0 } → IsFoldResidue c (W.class (class_part result)) }
        ensures apart { (x y n : ℤ) → IsTrue V.exact → IsEquality op → AreApart (W.class (class_part a.now)) (W.class (class_part b.now))
            → IsInBoth V.admits W.admits a.now x → IsInBoth V.admits W.admits b.now y → binary_value op x y ≡ Some n
            → IsPoint (range_of_pair V.known W.class result) n }
        ensures keeps { IsTrue V.exact → KeepsItsRange V.known W.class result }
    {
        let bounds = V::binary(op, &a.tight(), &b.tight());
        let loose = Pair {
            bounds: told_apart(op, bounds, a.class.residue(), b.class.residue()),
            class: W::binary(op, &a.class, &b.class),
        };
        loose.kept()
    }

    /// Of a value that is there, some number of the range is in the class.
    fn meet(&self, other: &Self) -> Option<Self>
        ensures some { IfSome result (λ p. (n : ℤ) → IsInBoth V.admits W.admits self.now n
            → IsInBoth V.admits W.admits other.now n → IsInBoth V.admits W.admits p n) }
        ensures none { IfNone result ((n : ℤ) → IsInBoth V.admits W.admits self.now n → IsInBoth V.admits W.admits other.now n → ⊥) }
        ensures plain { IfSome result (λ p. IsTrue V.exact → NoWider (range_of_pair V.known W.class p) (range_of_pair V.known W.class self.now)
            × NoWider (range_of_pair V.known W.class p) (range_of_pair V.known W.class other.now)) }
        ensures shares { IfSome result (λ p. HasSome (range_of_pair V.known W.class p) (W.class (class_part p))) }
        ensures keeps { IfSome result (λ p. IsTrue V.exact → KeepsItsRange V.known W.class p) }
    {
        match (
            self.tight().meet(&other.tight()),
            self.class.meet(&other.class),
        ) {
            (Some(bounds), Some(class)) => Pair::new(bounds, class),
            _ => None,
        }
    }

    /// The bounds that are kept are the range's.
    fn join(&self, other: &Self) -> Self
        ensures left { (n : ℤ) → IsInBoth V.admits W.admits self.now n → IsInBoth V.admits W.admits result n }
        ensures right { (n : ℤ) → IsInBoth V.admits W.admits other.now n → IsInBoth V.admits W.admits result n }
        ensures plain { IsTrue V.exact → NoWider (range_of_pair V.known W.class result)
            (hull (range_of_pair V.known W.class self.now) (range_of_pair V.known W.class other.now)) }
        ensures keeps { IsTrue V.exact → KeepsItsRange V.known W.class result }
    {
        let loose = Pair {
            bounds: self.tight().join(&other.tight()),
            class: self.class.join(&other.class),
        };
        loose.kept()
    }

    fn widen<U: Fn(i128) -> Option<i128>, S: Steps>(&self, next: &Self, ramp: &Ramp<U>) -> Self {
        Pair {
            bounds: self.bounds.widen::<U, S>(&next.bounds, ramp),
            class: self.class.widen::<U, S>(&next.class, ramp),
        }
    }

    fn covers(&self, other: &Self) -> bool {
        self.bounds.covers(&other.bounds) && self.class.covers(&other.class)
    }
}

/// An interval with a class keeps every law of value domains.
impl ExactValue for Pair<Interval, Class> {
    ghost use Rattle.std.specs.Prelude.{refl};

    ghost is_exact = { (refl, refl) };
}
