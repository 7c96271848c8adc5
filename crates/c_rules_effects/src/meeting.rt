// When two touches meet.
#![tactic(auto)]

ghost use Rattle.std.specs.Prelude.{◌≡◌, ◌⊎◌, MatchBool};
ghost use Rattle.c_rules_effects.specs.Meeting.{Begins, IsTaken, Meet};

use crate::touch::{Part, Touch};

/// Whether two touches may be of one byte, where this tells of each object whether its address is taken.
pub fn meet(taken: &[bool], a: &Touch, b: &Touch) -> bool
    ensures { MatchBool result (Meet taken.now a.now b.now) (Meet taken.now a.now b.now → ⊥) }
{
    match (a, b) {
        (Touch::Mem, Touch::Mem) => true,
        (Touch::Mem, Touch::Object(n, _)) => is_taken(taken, *n),
        (Touch::Object(n, _), Touch::Mem) => is_taken(taken, *n),
        (Touch::Object(m, path), Touch::Object(n, other)) => {
            m == n && along(path.as_slice(), other.as_slice())
        }
    }
}

fn is_taken(taken: &[bool], object: u64) -> bool
    ensures { MatchBool result (IsTaken taken.now object) (IsTaken taken.now object → ⊥) }
{
    match taken.get(object as usize) {
        Some(is_taken) => *is_taken,
        None => false,
    }
}

// Whether one of two paths goes on from the other.
fn along(path: &[Part], other: &[Part]) -> bool
    ensures { MatchBool result (Begins path.now other.now ⊎ Begins other.now path.now) (Begins path.now other.now ⊎ Begins other.now path.now → ⊥) }
{
    for at in 0..path.len().min(other.len()) {
        if path[at] != other[at] {
            return false;
        }
    }
    true
}
