// The places to which a reach leads.

ghost use Rattle.std.specs.Prelude.{◌≡◌, ◌*◌, ◌+◌, ◌-◌, ◌≤◌, ◌<◌, ℕ, IfSome};
ghost use Rattle.mem_cell_bytes.specs.Stands.{Has};

use mem_cell_loads::{Reach, place_at};

/// An object and a place in it.
#[derive(Clone, Copy)]
pub struct Spot {
    pub object: u64,
    pub at: u64,
}

/// The one place to which a reach leads.
pub fn only_spot(reach: &Reach) -> Option<Spot>
    ensures { IfSome result (λ p. (o i : ℕ) → Has reach.now.objects.items o → reach.now.first ≤ i → i < reach.now.end
        → (p.object ≡ o) × (p.at ≡ i * reach.now.step)) }
{
    if reach.objects.len() != 1 {
        return None;
    }
    if reach.end > reach.first && reach.end - reach.first > 1 {
        return None;
    }
    Some(Spot {
        object: reach.objects[0],
        at: place_at(reach.first, reach.step),
    })
}

/// How many bytes there are from the first place of a reach on, up to so many from its last place on.
pub fn bytes_in(reach: &Reach, size: u64) -> Option<u64>
    ensures { IfSome result (λ n. n ≡ reach.now.end * reach.now.step - reach.now.first * reach.now.step - reach.now.step + size) }
{
    let from = place_at(reach.first, reach.step);
    let to = place_at(reach.end, reach.step);
    to.saturating_sub(from)
        .saturating_sub(u64::from(reach.step))
        .checked_add(size)
}
