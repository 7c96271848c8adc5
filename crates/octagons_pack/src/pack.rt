// Lists of variables in the order of their use.

ghost use Rattle.std.specs.Prelude.{◌≡◌, ℕ, ◌<◌, ◌≤◌, length, IfOk, IfSome, IfNone};
ghost use Rattle.octagons_sources.specs.Seen.{place_at};
ghost use Rattle.octagons_pack.specs.Packs as packs;

use std::alloc::{AllocError as NoMemory, Global};

/// How many variables a pack has at most.
pub const PLACES: usize = 24;

/// The first place of a variable.
pub fn place_of(pack: &[u64], x: u64) -> Option<u8>
    requires { length pack.now ≤ 24 }
    ensures value { result ≡ packs.place_in x pack.now }
    ensures some { IfSome result (λ k. (k < length pack.now) × (packs.at pack.now k ≡ x)) }
    ensures none { IfNone result ((k : ℕ) → k < length pack.now → packs.at pack.now k ≡ x → ⊥) }
{
    for k in 0..pack.len() {
        if pack[k] == x {
            return Some(k as u8);
        }
    }
    None
}

/// The pack without a variable.
pub fn without(alloc: Global, pack: &[u64], x: u64) -> Result<Vec<u64>, NoMemory>
    ensures { IfOk result (λ p. p.items ≡ packs.without x pack.now) }
{
    pack.iter().copied().filter(|z| *z != x).collect(alloc)
}

/// The pack with a variable as the one that was used latest. Where it has 24 others the one that was
/// used longest ago goes.
pub fn brought(alloc: Global, pack: &[u64], x: u64) -> Result<Vec<u64>, NoMemory>
    ensures { IfOk result (λ p. p.items ≡ packs.brought x pack.now) }
{
    let mut others = without(alloc, pack, x)?;
    others.truncate(PLACES - 1);
    others.insert(0, x)?;
    Ok(others)
}

/// The variables that are in the other pack too.
pub fn common(alloc: Global, pack: &[u64], other: &[u64]) -> Result<Vec<u64>, NoMemory>
    requires { length other.now ≤ 24 }
    ensures { IfOk result (λ p. p.items ≡ packs.common pack.now other.now) }
{
    pack.iter()
        .copied()
        .filter(|z| place_of(other, *z).is_some())
        .collect(alloc)
}

/// Where each variable of a pack stands in another one, if it does.
pub fn places_in(own: &[u64], other: &[u64]) -> [Option<u8>; 24]
    requires own { length own.now ≤ 24 }
    requires other { length other.now ≤ 24 }
    ensures { (k : ℕ) → place_at result k ≡ place_at (packs.places_in own.now other.now) k }
{
    let mut places = [None; 24];
    for k in 0..own.len() {
        places[k] = place_of(other, own[k]);
    }
    places
}
