// Ranges whose ends are moved inward to numbers of a class.

ghost use Rattle.std.specs.Prelude.{◌≡◌, ℤ, pos, ◌≤ℤ◌, IsTrue, IfSome, IfNone, false};
ghost use Rattle.num_api.specs.Ranges.{IsPoint, holds_some};
ghost use Rattle.num_api.specs.Residues.{IsResidue};
ghost use Rattle.residues.specs.Inward.{inward_low, inward_high, moved_range, inward_range};

use crate::numbers::remainder;
use ext_int::Ext;
use num_api::{Range, Residue};

// The range with both ends moved, where that leaves a number, and else the range as it is.
pub fn inward(c: Residue, r: Range) -> Range
    requires { IsResidue c }
    ensures { result ≡ inward_range c r }
{
    let moved = moved(c, r);
    if holds_number(moved) { moved } else { r }
}

// Whether some number of the range may be in the class: whether moving its ends leaves a number.
pub fn meets(c: Residue, r: Range) -> bool
    requires { IsResidue c }
    ensures { result ≡ holds_some (moved_range c r) }
{
    holds_number(moved(c, r))
}

// The range's number, where it holds no other.
pub fn number(r: Range) -> Option<i128>
    ensures some { IfSome result (λ n. IsPoint r n) }
    ensures none { IfNone result ((n : ℤ) → IsPoint r n → ⊥) }
{
    match (r.lo, r.hi) {
        (Ext::Fin(lo), Ext::Fin(hi)) if lo == hi => Some(lo),
        _ => None,
    }
}

// Whether two ranges have the same ends.
pub fn is_same(a: Range, b: Range) -> bool
    ensures same { IsTrue result → a ≡ b }
    ensures other { result ≡ false → a ≡ b → ⊥ }
{
    a == b
}

// The range with both ends moved.
fn moved(c: Residue, r: Range) -> Range
    requires { IsResidue c }
    ensures { result ≡ moved_range c r }
{
    if c.modulus == 1 {
        return r;
    }
    Range {
        lo: moved_low(c, r.lo),
        hi: moved_high(c, r.hi),
    }
}

// Whether the range holds a number.
fn holds_number(r: Range) -> bool
    ensures { result ≡ holds_some r }
{
    match (r.lo, r.hi) {
        (Ext::High, _) | (_, Ext::Low) => false,
        (Ext::Fin(lo), Ext::Fin(hi)) => lo <= hi,
        _ => true,
    }
}

// A lower end, moved up to the nearest number of the class that is an `i128`.
fn moved_low(c: Residue, lo: Ext) -> Ext
    requires { IsResidue c }
    ensures { result ≡ inward_low c lo }
{
    match lo {
        Ext::Low if c.modulus == 0 => Ext::Fin(c.rem),
        Ext::Fin(n) if c.modulus == 0 => Ext::Fin(n.max(c.rem)),
        Ext::Fin(n) => Ext::Fin(raised(c, n)),
        other => other,
    }
}

// An upper end, moved down to the nearest number of the class that is an `i128`.
fn moved_high(c: Residue, hi: Ext) -> Ext
    requires { IsResidue c }
    ensures { result ≡ inward_high c hi }
{
    match hi {
        Ext::High if c.modulus == 0 => Ext::Fin(c.rem),
        Ext::Fin(n) if c.modulus == 0 => Ext::Fin(n.min(c.rem)),
        Ext::Fin(n) => Ext::Fin(lowered(c, n)),
        other => other,
    }
}

// The least number of the class from `n` up, or `n` where that is no `i128`.
fn raised(c: Residue, n: i128) -> i128
    requires proper { IsResidue c }
    requires positive { pos 1 ≤ℤ c.modulus }
    ensures { Ext.Fin result ≡ inward_low c (Ext.Fin n) }
{
    let gap = remainder(c.rem - remainder(n, c.modulus), c.modulus);
    match n.checked_add(gap) {
        Some(member) => member,
        None => n,
    }
}

// The greatest number of the class from `n` down, or `n` where that is no `i128`.
fn lowered(c: Residue, n: i128) -> i128
    requires proper { IsResidue c }
    requires positive { pos 1 ≤ℤ c.modulus }
    ensures { Ext.Fin result ≡ inward_high c (Ext.Fin n) }
{
    let gap = remainder(remainder(n, c.modulus) - c.rem, c.modulus);
    match n.checked_sub(gap) {
        Some(member) => member,
        None => n,
    }
}
