// How classes lie in each other, and the class that holds two.

ghost use Rattle.std.specs.Prelude.{◌≡◌, ℤ, pos, ◌^◌, ◌+ℤ◌, ◌-ℤ◌, ◌*ℤ◌, ◌≤ℤ◌, ◌<ℤ◌, IfNone, IfSome, Some};
ghost use Rattle.residues.specs.Class.{residue_of, is_member, divides, holds_class};
ghost use Rattle.residues.specs.Classes.{LiesIn, IsGap, IsJoin, IsFarApart};
ghost use Rattle.num_api.specs.declared.message.Residue.{Residue};

use super::Class;
use super::arithmetic::common_step;
use super::products::small_class;
use crate::numbers::remainder;

// Whether every number of the second class is in the first.
pub(super) fn holds_all(a: Class, b: Class) -> bool
    ensures { result ≡ holds_class (residue_of a) (residue_of b) }
{
    is_divisor(a.residue.modulus, b.residue.modulus) && has(a, b.residue.rem)
}

// Whether the number is in the class.
pub(super) fn has(a: Class, n: i128) -> bool
    ensures { result ≡ is_member (residue_of a) n }
{
    if a.residue.modulus == 0 {
        return n == a.residue.rem;
    }
    remainder(n, a.residue.modulus) == a.residue.rem
}

// Whether the first modulus divides the second.
fn is_divisor(m: i128, n: i128) -> bool
    requires { pos 0 ≤ℤ m }
    ensures { result ≡ divides m n }
{
    if m == 0 {
        return n == 0;
    }
    remainder(n, m) == 0
}

// The least class that holds both; all numbers where its modulus would pass the greatest one.
pub(super) fn joined(a: Class, b: Class) -> Class
    ensures left { LiesIn (residue_of a) (residue_of result) }
    ensures right { LiesIn (residue_of b) (residue_of result) }
    ensures least { (s : Residue) → IsJoin (residue_of a) (residue_of b) s → LiesIn (residue_of result) s }
{
    if a.residue.modulus == 1 {
        return a;
    }
    match exact_join(a, b) {
        Some(class) => class,
        None => Class::all(),
    }
}

// The least class that holds both, where it is one.
fn exact_join(a: Class, b: Class) -> Option<Class>
    ensures left { IfSome result (λ r. LiesIn (residue_of a) (residue_of r)) }
    ensures right { IfSome result (λ r. LiesIn (residue_of b) (residue_of r)) }
    ensures least { IfSome result (λ r. (s : Residue) → IsJoin (residue_of a) (residue_of b) s → LiesIn (residue_of r) s) }
    ensures none { IfNone result ((s : Residue) → IsJoin (residue_of a) (residue_of b) s → ⊥) }
{
    let step = common_step(a, b);
    let gap = gap(a.residue.rem, b.residue.rem, step)?;
    small_class(a.residue.rem, step, gap)
}

// A number that stands for the difference of two, up to multiples of the step; `None` where it is
// no `i128`.
fn gap(x: i128, y: i128, step: i128) -> Option<i128>
    requires low { pos 0 ≤ℤ step }
    requires high { step ≤ℤ pos (2 ^ 100) }
    ensures some { IfSome result (IsGap x y step) }
    ensures none { IfNone result ((step ≡ pos 0) × IsFarApart x y) }
{
    if step == 0 {
        return x.checked_sub(y)?.checked_abs();
    }
    Some(remainder(remainder(x, step) - remainder(y, step), step))
}
