// Congruence classes.

ghost use Rattle.std.specs.Prelude.{◌≡◌, ℤ, pos, ◌^◌, ◌≤◌, ◌<◌, ◌≤ℤ◌, true, false};
ghost use Rattle.num_api.specs.Told.{Keeps};
ghost use Rattle.num_api.specs.Residues.{IsResidue};

mod arithmetic;
mod bits;
mod lattice;
mod meeting;
mod operators;
mod products;
mod ranges;

use crate::numbers::remainder;
use lattice::{holds_all, joined};
use meeting::met;
use num_api::{NOp, Ramp, Range, Residue, Steps, ValueDomain};
use operators::{binary, unary};
use ranges::{range, within};

/// A congruence class: the whole numbers that are one remainder up to a multiple of a modulus. A
/// modulus of 0 leaves one number; one of 1 or more is at most 2^100.
#[derive(Clone, Copy, PartialEq, Eq)]
pub struct Class {
    residue: Residue,
    ghost proper: { IsResidue residue },
}

impl Class {
    ghost use Rattle.residues.specs.Class.{residue_of};
    ghost use Rattle.num_api.specs.Residues.{class_of};
    ghost use Rattle.residues.specs.Classes.{IsClassOf};

    /// The class of a remainder and a modulus.
    pub fn new(r: Residue) -> Class
        requires { IsResidue r }
        ensures { residue_of result ≡ r }
    {
        Class { residue: r }
    }

    // The class of `n` alone.
    pub(crate) fn point(n: i128) -> Class
        ensures { residue_of result ≡ class_of n (pos 0) }
    {
        Class {
            residue: Residue { rem: n, modulus: 0 },
        }
    }

    // The class of all numbers.
    pub(crate) fn all() -> Class
        ensures { residue_of result ≡ class_of (pos 0) (pos 1) }
    {
        Class {
            residue: Residue { rem: 0, modulus: 1 },
        }
    }

    // The numbers that are `rem` up to a multiple of the modulus.
    pub(crate) fn of(rem: i128, modulus: i128) -> Class
        requires low { pos 0 ≤ℤ modulus }
        requires high { modulus ≤ℤ pos (2 ^ 100) }
        ensures { IsClassOf rem modulus (residue_of result) }
    {
        if modulus == 0 {
            return Class::point(rem);
        }
        Class {
            residue: Residue {
                rem: remainder(rem, modulus),
                modulus,
            },
        }
    }
}

impl ValueDomain for Class {
    ghost use Rattle.residues.specs.Class.{residue_of, range_of_class, holds_class, class_weight};
    ghost use Rattle.num_api.specs.Residues.{InResidue};
    ghost use Rattle.residues.specs.Classes.{IsJoin, LiesIn, Meets, HaveCommon};
    ghost use Rattle.residues.specs.Laws.{in_range_of_class};
    ghost use Rattle.num_api.specs.Fold.{IsAlignment};
    ghost use Rattle.num_api.specs.Residues.{class_of, IsFoldResidue, IsMultiple};
    ghost use Rattle.num_api.specs.Value.{unary_value, binary_value};
    ghost use Rattle.residues.specs.ClassBounds.{ClassBounds, NegationBounds};
    ghost use Rattle.num_api.specs.declared.expr.NOp.TheVariants.{Add, Mul};
    ghost use Rattle.std.specs.Prelude.{IsTrue, Some};
    ghost use Rattle.std.specs.Int.RustNames.{FitsSigned};
    ghost use mir.Syntax.{w128};
    ghost use Rattle.std.proofs.lemmas.Bool.{false≢true};
    ghost use Rattle.num_api.specs.declared.message.Residue.{Residue};
    ghost use Rattle.std.specs.Prelude.{IfSome, IfNone};

    ghost admits = { λ c n. InResidue (residue_of c) n };

    ghost known = { λ c. range_of_class (residue_of c) };

    ghost class = { residue_of };

    ghost known_holds = { λ c n h. in_range_of_class (residue_of c) n c.proper h };

    ghost class_holds = { λ c n h. h };

    ghost class_proper = { λ c. c.proper };

    ghost holds = { λ c d. holds_class (residue_of c) (residue_of d) };

    ghost weight = { λ steps c. class_weight (residue_of c) };

    ghost exact = { false };

    ghost known_some = { λ c claimed. absurd (false≢true claimed) };

    ghost folds = { true };

    fn top() -> Self {
        Class::all()
    }

    fn within(r: Range) -> Option<Self> {
        within(r)
    }

    fn range(&self) -> Range {
        range(*self)
    }

    fn residue(&self) -> Residue {
        self.residue
    }

    /// `Neg` keeps the step.
    fn unary(op: NOp, a: &Self) -> Self
        ensures holds { (x n : ℤ) → InResidue (residue_of a.now) x → unary_value op x ≡ Some n → InResidue (residue_of result) n }
        ensures bounds { NegationBounds op (residue_of a.now) (residue_of result) }
    {
        unary(op, *a)
    }

    /// At two numbers the class of the value, where that is an `i128`. Sums, differences, products, shifts by one
    /// amount and remainders keep each step that the operands give, the operators on bits the low bits.
    fn binary(op: NOp, a: &Self, b: &Self) -> Self
        ensures holds { (x y n : ℤ) → InResidue (residue_of a.now) x → InResidue (residue_of b.now) y → binary_value op x y
            ≡ Some n → InResidue (residue_of result) n }
        ensures fold_sum { (c : ℤ) → IsTrue true → IsAlignment c → op ≡ Add → IsFoldResidue c (residue_of a.now) → IsFoldResidue c (residue_of b.now)
            → IsFoldResidue c (residue_of result) }
        ensures fold_left { (c n : ℤ) → IsTrue true → IsAlignment c → op ≡ Mul → IsMultiple c n → residue_of a.now ≡ record { rem = n; modulus = pos 0 }
            → IsFoldResidue c (residue_of result) }
        ensures fold_right { (c n : ℤ) → IsTrue true → IsAlignment c → op ≡ Mul → IsMultiple c n → residue_of b.now ≡ record { rem = n; modulus = pos 0 }
            → IsFoldResidue c (residue_of result) }
        ensures numbers { (x y n : ℤ) → residue_of a.now ≡ class_of x (pos 0) → residue_of b.now ≡ class_of y (pos 0) → binary_value op x y ≡ Some n
            → FitsSigned w128 n
            → residue_of result ≡ class_of n (pos 0) }
        ensures bounds { ClassBounds op (residue_of a.now) (residue_of b.now) (residue_of result) }
    {
        binary(op, *a, *b)
    }

    /// Exactly the numbers that are in both, where a class of them has a modulus of at most 2^100,
    /// and else those of the first; `None` exactly where there is none.
    fn meet(&self, other: &Self) -> Option<Self>
        ensures some { IfSome result (λ c. (n : ℤ) → InResidue (residue_of self.now) n → InResidue (residue_of other.now) n → InResidue (residue_of c) n) }
        ensures none { IfNone result ((n : ℤ) → InResidue (residue_of self.now) n → InResidue (residue_of other.now) n → ⊥) }
        ensures meets { IfSome result (λ c. Meets (residue_of self.now) (residue_of other.now) (residue_of c)) }
        ensures common { IfSome result (λ _. HaveCommon (residue_of self.now) (residue_of other.now)) }
    {
        met(*self, *other)
    }

    /// The least class that holds both, where its modulus is at most 2^100, and else all numbers.
    fn join(&self, other: &Self) -> Self
        ensures left { (n : ℤ) → InResidue (residue_of self.now) n → InResidue (residue_of result) n }
        ensures right { (n : ℤ) → InResidue (residue_of other.now) n → InResidue (residue_of result) n }
        ensures least { (s : Residue) → IsJoin (residue_of self.now) (residue_of other.now) s → LiesIn (residue_of result) s }
    {
        joined(*self, *other)
    }

    /// The join: the least class that holds both, where its modulus is at most 2^100.
    fn widen<U: Fn(i128) -> Option<i128>, S: Steps>(&self, next: &Self, _ramp: &Ramp<U>) -> Self
        requires { Keeps U.pre U.post _ramp.now S.list }
        ensures left { (n : ℤ) → InResidue (residue_of self.now) n → InResidue (residue_of result) n }
        ensures right { (n : ℤ) → InResidue (residue_of next.now) n → InResidue (residue_of result) n }
        ensures no_rise { class_weight (residue_of result) ≤ class_weight (residue_of self.now) }
        ensures falls { holds_class (residue_of self.now) (residue_of next.now) ≡ false
            → class_weight (residue_of result) < class_weight (residue_of self.now) }
        ensures least { (s : Residue) → IsJoin (residue_of self.now) (residue_of next.now) s → LiesIn (residue_of result) s }
    {
        joined(*self, *next)
    }

    fn covers(&self, other: &Self) -> bool {
        holds_all(*self, *other)
    }
}
