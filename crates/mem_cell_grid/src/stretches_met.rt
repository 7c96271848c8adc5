// Stretches that two sides know.

ghost use Rattle.std.specs.Prelude.{◌≡◌, ◌≤◌, IfOk, length};
ghost use Rattle.mem_cell_grid.specs.Meetings.{AreStretchesMet, IsPartMet, IsStretchMet};

use crate::flags::both;
use crate::lefts::push_some;
use mem_cell_bytes::Stretch;
use std::alloc::{AllocError as NoMemory, Global};

/// The stretches that both sides know, and whether the first side loses nothing.
#[derive(Drop)]
pub struct StretchMeeting {
    pub stretches: Vec<Stretch>,
    pub kept: bool,
}

// The first place from one on at which a stretch ends behind a byte.
fn seek(stretches: &[Stretch], from: usize, byte: u64) -> usize
    requires { from ≤ length stretches.now }
    ensures { result ≤ length stretches.now }
{
    let mut at = from;
    while at < stretches.len() && stretches[at].to <= byte {
        at += 1;
    }
    at
}

// Up to which byte a stretch was looked at, and whether all its bytes up to there are in others too.
#[derive(Clone, Copy)]
struct Seen {
    low: u64,
    kept: bool,
}

// Puts the bytes of a stretch that are in another too, from a byte on, behind those that were met.
fn meet_part(met: &mut Vec<Stretch>, f: Stretch, g: Stretch, seen: Seen) -> Result<Seen, NoMemory>
    ensures { IfOk result (λ s. IsPartMet f g seen.low seen.kept met.old.items met.new.items s.low s.kept) }
{
    let from = seen.low.max(g.from);
    let to = f.to.min(g.to);
    if g.byte != f.byte || to <= from {
        return Ok(seen);
    }
    let part = Stretch {
        from,
        to,
        byte: f.byte,
    };
    push_some(met, part)?;
    Ok(Seen {
        low: to,
        kept: both(seen.kept, from == seen.low),
    })
}

// Puts the bytes of a stretch that are in others too behind those that were met, and tells whether it loses none.
fn meet_stretch(met: &mut Vec<Stretch>, f: Stretch, others: &[Stretch]) -> Result<bool, NoMemory>
    ensures { IfOk result (λ kept. IsStretchMet others.now f met.old.items met.new.items kept) }
{
    let mut seen = Seen {
        low: f.from,
        kept: true,
    };
    for g in others {
        if f.to <= g.from {
            break;
        }
        seen = meet_part(met, f, *g, seen)?;
    }
    Ok(both(seen.kept, f.to <= seen.low))
}

/// The bytes that are in stretches of both lists, each in order.
pub fn meet_stretches(
    alloc: Global,
    stretches: &[Stretch],
    others: &[Stretch],
) -> Result<StretchMeeting, NoMemory>
    ensures { IfOk result (λ m. AreStretchesMet stretches.now others.now m.stretches.items m.kept) }
{
    let mut met = Vec::new(alloc);
    let mut kept = true;
    let mut at = 0;
    for f in stretches {
        at = seek(others, at, f.from);
        let keeps = meet_stretch(&mut met, *f, &others[at..])?;
        kept = both(kept, keeps);
    }
    Ok(StretchMeeting {
        stretches: met,
        kept,
    })
}
