// How far it is known what bytes of an object may be.
#![tactic(auto)]

ghost use Rattle.std.specs.Prelude.{◌≡◌, ◌∷◌, [], ℕ, IfSome, IsTrue};
ghost use Rattle.mem_cell_bytes.specs.declared.entry.FillByte.TheVariants as fills;
ghost use Rattle.mem_cell_bytes.specs.Contents.{contents};
ghost use Rattle.mem_cell_shows.specs.Reaches.{IsReach};

use mem_cell_bytes::{Entry, FillByte, Held, Stretch, size_in};

/// Bytes up to an end: whether one may be without a value, and whether one may be a piece of a pointer.
#[derive(Clone, Copy)]
pub struct Reach {
    pub end: u64,
    pub undef: bool,
    pub piece: bool,
}

// The bytes of a cell, where it has the one at a place.
fn of_cell(e: &Entry, at: u64) -> Option<Reach>
    ensures { IfSome result (IsReach (contents (e.now ∷ []) []) at) }
{
    if e.offset >= 65536 {
        return None;
    }
    if at < e.offset {
        return None;
    }
    Some(Reach {
        end: e.offset + size_in(e.ty),
        undef: e.undef,
        piece: !e.targets.is_none(),
    })
}

// Whether the byte of a stretch has no value.
fn is_undef(byte: FillByte) -> bool
    ensures { byte ≡ fills.Undef → IsTrue result }
{
    match byte {
        FillByte::Undef => true,
        FillByte::Num(_) => false,
    }
}

// The bytes of a stretch, where it has the one at a place.
fn of_stretch(f: Stretch, at: u64) -> Option<Reach>
    ensures { IfSome result (IsReach (contents [] (f ∷ [])) at) }
{
    if at < f.from {
        return None;
    }
    Some(Reach {
        end: f.to,
        undef: is_undef(f.byte),
        piece: false,
    })
}

// What is behind a place, in the cell that has it.
fn in_cells(cells: &[Entry], at: u64) -> Option<Reach>
    ensures { IfSome result (IsReach (contents cells.now []) at) }
{
    for e in cells {
        match of_cell(e, at) {
            Some(r) => {
                if at < r.end {
                    return Some(r);
                }
            }
            None => {}
        }
    }
    None
}

// What is behind a place, in the stretch that has it.
fn in_stretches(stretches: &[Stretch], at: u64) -> Option<Reach>
    ensures { IfSome result (IsReach (contents [] stretches.now) at) }
{
    for f in stretches {
        match of_stretch(*f, at) {
            Some(r) => {
                if at < r.end {
                    return Some(r);
                }
            }
            None => {}
        }
    }
    None
}

// What is behind a place.
fn behind(held: &Held, at: u64) -> Option<Reach>
    ensures { IfSome result (IsReach held.now at) }
{
    match in_stretches(held.stretches(), at) {
        Some(r) => Some(r),
        None => in_cells(held.cells(), at),
    }
}

// Whether one of them is set.
fn either(a: bool, b: bool) -> bool
    ensures left { IsTrue a → IsTrue result }
    ensures right { IsTrue b → IsTrue result }
{
    a || b
}

// One cell or stretch on.
fn go_on(held: &Held, r: Reach, to: u64) -> Reach
    ensures { (from : ℕ) → IsReach held.now from r → IsReach held.now from result }
{
    if r.end >= to {
        return r;
    }
    match behind(held, r.end) {
        Some(next) => Reach {
            end: next.end,
            undef: either(r.undef, next.undef),
            piece: either(r.piece, next.piece),
        },
        None => r,
    }
}

// So many cells or stretches on.
fn along(held: &Held, first: Reach, to: u64, count: usize) -> Reach
    ensures { (from : ℕ) → IsReach held.now from first → IsReach held.now from result }
{
    let mut r = first;
    for _n in 0..count {
        r = go_on(held, r, to);
    }
    r
}

/// How far it is known what the bytes from one on may be, up to another.
pub fn reached(held: &Held, from: u64, to: u64) -> Reach
    ensures { IsReach held.now from result }
{
    let none = Reach {
        end: from,
        undef: false,
        piece: false,
    };
    let first = along(held, none, to, held.cells().len());
    along(held, first, to, held.stretches().len())
}
