// Where the variables of a new pack have their bounds from.

ghost use Rattle.std.specs.Prelude.{◌≡◌, ℕ, ℤ, List, ◌<◌, ◌≤◌, length};
ghost use Rattle.ext_int.specs.Valuation.{value_at};
ghost use Rattle.octagons_sources.specs.Sources.{IsDrawn, AllDrawn};
ghost use Rattle.octagons_pack.specs.Packs.{picked};
ghost use Rattle.octagons_pack.specs.Changes.{Changes};

use crate::pack::place_of;
use octagons_sources::Source;

/// A variable and what it is set to, by the places of the old pack.
#[derive(Clone, Copy)]
pub struct Change {
    pub var: u64,
    pub source: Source,
}

// Where a variable has its bounds from.
fn source_of(old: &[u64], z: u64, change: Option<Change>) -> Source
    requires { length old.now ≤ 24 }
    ensures { (v w : List ℤ) → Changes change old.now v w → IsDrawn result (picked v old.now) (value_at w z) }
{
    match change {
        Some(set) => {
            if set.var == z {
                set.source
            } else {
                kept_source(old, z)
            }
        }
        None => kept_source(old, z),
    }
}

// Where a variable that keeps its number has its bounds from.
fn kept_source(old: &[u64], z: u64) -> Source
    requires { length old.now ≤ 24 }
    ensures { (v w : List ℤ) → value_at w z ≡ value_at v z → IsDrawn result (picked v old.now) (value_at w z) }
{
    match place_of(old, z) {
        Some(k) => Source::same(k),
        None => Source::any(),
    }
}

/// Where the variables of a new pack have their bounds from: a valuation in which that variable is set
/// is drawn from the one before.
pub fn sources(old: &[u64], pack: &[u64], change: Option<Change>) -> [Source; 24]
    requires old { length old.now ≤ 24 }
    requires few { length pack.now ≤ 24 }
    ensures { (v w : List ℤ) → Changes change old.now v w → AllDrawn result (length pack.now) (picked v old.now) (picked w pack.now) }
{
    let mut from = [Source::any(); 24];
    for k in 0..pack.len() {
        from[k] = source_of(old, pack[k], change);
    }
    from
}
