// Classes and ranges.

ghost use Rattle.std.specs.Prelude.{◌≡◌, ℤ, pos, IfSome, IfNone};
ghost use Rattle.num_api.specs.Ranges.{InRange, IsPoint};
ghost use Rattle.num_api.specs.Residues.{InResidue};
ghost use Rattle.residues.specs.Class.{residue_of, range_of_class};
ghost use Rattle.num_api.specs.Residues.{class_of};

use super::Class;
use ext_int::Ext;
use num_api::Range;

// A class of the numbers of a range: of one number, or of all.
pub(super) fn within(r: Range) -> Option<Class>
    ensures some { IfSome result (λ v. (n : ℤ) → InRange r n → InResidue (residue_of v) n) }
    ensures none { IfNone result ((n : ℤ) → InRange r n → ⊥) }
    ensures fold { IfSome result (λ v. (n : ℤ) → IsPoint r n → residue_of v ≡ class_of n (pos 0)) }
{
    match (r.lo, r.hi) {
        (Ext::High, _) | (_, Ext::Low) => None,
        (Ext::Fin(lo), Ext::Fin(hi)) if hi < lo => None,
        (Ext::Fin(lo), Ext::Fin(hi)) if lo == hi => Some(Class::point(lo)),
        _ => Some(Class::all()),
    }
}

// The range of a class.
pub(super) fn range(a: Class) -> Range
    ensures value { result ≡ range_of_class (residue_of a) }
    ensures holds { (n : ℤ) → InResidue (residue_of a) n → InRange result n }
{
    if a.residue.modulus == 0 {
        return Range {
            lo: Ext::Fin(a.residue.rem),
            hi: Ext::Fin(a.residue.rem),
        };
    }
    Range {
        lo: Ext::Low,
        hi: Ext::High,
    }
}
