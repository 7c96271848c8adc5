// Which bound of a pack is lowered by what a sum says.

ghost use Rattle.std.specs.Prelude.{◌≡◌, ℕ, ℤ, pos, List, ◌≤◌, ◌≤ℤ◌, ◌+ℤ◌, length};
ghost use Rattle.ext_int.specs.Ext.{Above};
ghost use Rattle.octagons_linear.specs.Forms.{signed_value, IsUpToZero};
ghost use Rattle.octagons_pack.specs.Packs.{picked, place_in};
ghost use Rattle.octagons_changes.specs.Lowerings.{index, IsMet, IsWithin, sum_lowering};

use ext_int::{Ext, add_high, neg_high};
use octagons_linear::{Linear, Signed};
use octagons_pack::place_of;

/// A bound that is to be lowered.
#[derive(Clone, Copy)]
pub(crate) enum Lowering {
    /// None.
    Nothing,
    /// There is no valuation.
    Impossible,
    /// The bound of `V(to) - V(from)`, by the indices of a pack.
    Entry { from: u32, to: u32, bound: Ext },
}

// The index of the variable at a place, or of its negation.
pub(crate) fn index_of(k: u8, negated: bool) -> u32
    ensures { result ≡ index k negated }
{
    let first = 2 * u32::from(k);
    if negated { first + 1 } else { first }
}

/// What it says of a pack that the sum of two variables, each with its sign, is at most a bound.
pub(crate) fn sum_lowering(pack: &[u64], s: Signed, t: Signed, most: Ext) -> Lowering
    requires { length pack.now ≤ 24 }
    ensures value { result ≡ sum_lowering s.negated (place_in s.var pack.now) t.negated (place_in t.var pack.now) most }
    ensures within { IsWithin (length pack.now) result }
    ensures met { (v : List ℤ) → Above most (signed_value v s +ℤ signed_value v t) → IsMet (picked v pack.now) result }
{
    match (place_of(pack, s.var), place_of(pack, t.var)) {
        (Some(k), Some(l)) => Lowering::Entry {
            from: index_of(l, !t.negated),
            to: index_of(k, s.negated),
            bound: most,
        },
        _ => Lowering::Nothing,
    }
}

/// What it says of a pack that a variable, with its sign, is at most a bound.
pub(crate) fn own_lowering(pack: &[u64], s: Signed, most: Ext) -> Lowering
    requires { length pack.now ≤ 24 }
    ensures within { IsWithin (length pack.now) result }
    ensures met { (v : List ℤ) → Above most (signed_value v s) → IsMet (picked v pack.now) result }
{
    sum_lowering(pack, s, s, add_high(most, most))
}

// What it says of a pack that a number is at most 0.
fn number_lowering(n: i128) -> Lowering
    ensures within { (vars : ℕ) → IsWithin vars result }
    ensures met { n ≤ℤ pos 0 → (a : List ℤ) → IsMet a result }
{
    if n <= 0 {
        Lowering::Nothing
    } else {
        Lowering::Impossible
    }
}

/// What it says of a pack that a sum is at most 0.
pub(crate) fn limit_lowering(pack: &[u64], l: Linear) -> Lowering
    requires { length pack.now ≤ 24 }
    ensures within { IsWithin (length pack.now) result }
    ensures met { (v : List ℤ) → IsUpToZero v l → IsMet (picked v pack.now) result }
{
    match l {
        Linear::Number(n) => number_lowering(n),
        Linear::One(s, n) => own_lowering(pack, s, neg_high(Ext::Fin(n))),
        Linear::Two(s, t, n) => sum_lowering(pack, s, t, neg_high(Ext::Fin(n))),
    }
}
