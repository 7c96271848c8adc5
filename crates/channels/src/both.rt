// Two answers to one question.

ghost use Rattle.std.specs.Prelude.{◌≡◌, ℤ};
ghost use Rattle.num_api.specs.Ranges.{InRange, IsPoint, NoWider};
ghost use Rattle.num_api.specs.declared.message.Range.{Range};
ghost use Rattle.num_api.specs.Residues.{IsResidue};
ghost use Rattle.residues.specs.Classes.{Meets};
ghost use Rattle.channels.specs.Links.{IsOfSides, MeetsSome, NoWiderThanSome};

use ext_int::{max, min};
use num_api::{NExpr, Oracle, Range, Residue, ValueDomain, Var};
use residues::Class;

// The numbers that are in both ranges.
pub fn in_both(a: Range, b: Range) -> Range
    ensures holds { (n : ℤ) → InRange a n → InRange b n → InRange result n }
    ensures point { (n : ℤ) → IsPoint a n → InRange b n → IsPoint result n }
    ensures left { NoWider result a }
    ensures right { NoWider result b }
    ensures inside { (r : Range) → NoWider a r → NoWider result r }
{
    Range {
        lo: max(a.lo, b.lo),
        hi: min(a.hi, b.hi),
    }
}

// A class of the numbers that are in both; the first of the two where there is no such number.
pub fn in_both_classes(a: Residue, b: Residue) -> Residue
    requires first { IsResidue a }
    requires second { IsResidue b }
    ensures proper { IsResidue result }
    ensures meets { Meets a b result }
{
    match Class::new(a).meet(&Class::new(b)) {
        Some(class) => class.residue(),
        None => a,
    }
}

/// Two oracles at once: it admits the valuations that both admit.
#[derive(Drop)]
pub struct Both<'a, P, Q> {
    pub left: &'a P,
    pub right: &'a Q,
}

impl<P: Oracle, Q: Oracle> Oracle for Both<'_, P, Q> {
    ghost use Rattle.std.specs.Prelude.{false, refl};
    ghost use Rattle.num_api.specs.Ranges.{all_numbers};

    ghost admits = { λ s v. P.admits s.left.now v × Q.admits s.right.now v };

    ghost exact = { false };

    ghost known = { λ s x. all_numbers };

    ghost known_holds = { λ s v x a. record { low = tt; high = tt } };

    ghost known_some = { λ s x e. refl };

    ghost may_range = { λ s e r. NoWiderThanSome (P.may_range s.left.now e) r × NoWiderThanSome (Q.may_range s.right.now e) r };

    ghost may_residue = { λ s e r. MeetsSome (P.may_residue s.left.now e) (Q.may_residue s.right.now e) r };

    ghost may_be_same = { λ s x e. IsOfSides (P.may_be_same s.left.now x) (Q.may_be_same s.right.now x) e };

    fn range(&self, e: &NExpr) -> Range {
        in_both(self.left.range(e), self.right.range(e))
    }

    fn residue(&self, e: &NExpr) -> Residue {
        in_both_classes(self.left.residue(e), self.right.residue(e))
    }

    fn same(&self, x: Var) -> Option<&NExpr> {
        match self.left.same(x) {
            Some(e) => Some(e),
            None => self.right.same(x),
        }
    }
}
