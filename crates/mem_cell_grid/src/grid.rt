// What is known of all objects.

ghost use Rattle.std.specs.Prelude.{◌≡◌, ◌∷◌, [], List, None, Some, IfOk, IfSome, OnOk, MatchOption, length, replicate, slice_get, slice_index_or, slice_set};
ghost use Rattle.mem_cell_bytes.specs.Contents.{contents, nothing};
ghost use Rattle.mem_cell_bytes.specs.Weights.{contents_weight};
ghost use Rattle.mem_cell_grid.specs.Meetings.{AreContentsMet, AreMet};
ghost use Rattle.mem_cell_bytes.specs.declared.entry.FillByte.TheVariants as fills;

use crate::cells_met::meet_cells;
use crate::ended::{all_killed, clear, put_at};
use crate::flags::both;
use crate::stretches_met::meet_stretches;
use mem_cell_bytes::{FillByte, Held, Stretch};
use std::alloc::{AllocError as NoMemory, Global};
use std::marker::Model;

/// What is known of each object of a program, by its number.
#[derive(Drop)]
pub struct Grid {
    objects: Vec<Held>,
}

impl Model for Grid {
    ghost use Rattle.std.specs.Prelude.{List};
    ghost use Rattle.mem_cell_bytes.specs.Contents.{Contents};

    ghost Value = { List Contents };

    ghost view = { λ g. g.objects.items };
}

/// What two grids both say, and whether the first says no more than the second.
#[derive(Drop)]
pub struct GridMeeting {
    pub grid: Grid,
    pub kept: bool,
}

/// Of an object of so many bytes it is known that none has a value.
pub fn blank(alloc: Global, size: u64) -> Result<Held, NoMemory>
    ensures { IfOk result (λ h. h ≡ contents [] (record { from = 0; to = size; byte = fills.Undef } ∷ [])) }
{
    let mut stretches = Vec::new(alloc);
    let all = Stretch {
        from: 0,
        to: size,
        byte: FillByte::Undef,
    };
    stretches.push(all)?;
    Held::of(alloc, Vec::new(alloc), stretches)
}

// What is known of one object on both sides, and whether the first loses nothing.
#[derive(Drop)]
struct HeldMeeting {
    held: Held,
    kept: bool,
}

// What both sides say of one object.
fn meet_held(alloc: Global, held: &Held, other: &Held) -> Result<HeldMeeting, NoMemory>
    ensures { IfOk result (λ m. AreContentsMet held.now other.now m.held m.kept) }
{
    let cells = meet_cells(alloc, held.cells(), other.cells())?;
    let stretches = meet_stretches(alloc, held.stretches(), other.stretches())?;
    if cells.kept && stretches.kept {
        return Ok(HeldMeeting {
            held: held.share()?,
            kept: true,
        });
    }
    Ok(HeldMeeting {
        held: Held::of(alloc, cells.cells, stretches.stretches)?,
        kept: false,
    })
}

// What stands at a place, or else this.
fn at_or<'a>(objects: &'a [Held], x: usize, none: &'a Held) -> &'a Held
    ensures { result.now ≡ slice_index_or objects.now x none.now }
{
    match objects.get(x) {
        Some(held) => held,
        None => none,
    }
}

// What two lists both say, and whether the first loses nothing.
#[derive(Drop)]
struct AllMeeting {
    objects: Vec<Held>,
    kept: bool,
}

// What both lists say of each object of the first.
fn meet_all(alloc: Global, objects: &[Held], others: &[Held]) -> Result<AllMeeting, NoMemory>
    ensures { IfOk result (λ m. AreMet contents_weight nothing AreContentsMet objects.now others.now m.objects.items m.kept) }
{
    let none = Held::nothing();
    let mut all = Vec::new(alloc);
    let mut kept = true;
    for (x, held) in objects.iter().enumerate() {
        let met = meet_held(alloc, held, at_or(others, x, &none))?;
        kept = both(kept, met.kept);
        all.push(met.held)?;
    }
    Ok(AllMeeting { objects: all, kept })
}

// The same once more.
fn shared_all(alloc: Global, objects: &[Held]) -> Result<Vec<Held>, NoMemory>
    ensures { IfOk result (λ all. all.items ≡ objects.now) }
{
    let mut all = Vec::new(alloc);
    for held in objects {
        all.push(held.share()?)?;
    }
    Ok(all)
}

// Of so many objects nothing is known.
fn nothings(alloc: Global, count: usize) -> Result<Vec<Held>, NoMemory>
    ensures { IfOk result (λ all. all.items ≡ replicate count nothing) }
{
    let mut all = Vec::new(alloc);
    for _x in 0..count {
        all.push(Held::nothing())?;
    }
    Ok(all)
}

impl Grid {
    ghost use Rattle.mem_cell_grid.specs.Endings.{AreEnded};

    /// Of so many objects nothing is known.
    pub fn nothing(alloc: Global, count: usize) -> Result<Grid, NoMemory>
        ensures { IfOk result (λ g. g ≡ replicate count nothing) }
    {
        Ok(Grid {
            objects: nothings(alloc, count)?,
        })
    }

    /// A grid that equals this one.
    pub fn copy(&self, alloc: Global) -> Result<Grid, NoMemory>
        ensures { IfOk result (λ g. g ≡ self.now) }
    {
        Ok(Grid {
            objects: shared_all(alloc, &self.objects)?,
        })
    }

    /// How many objects there are.
    pub fn len(&self) -> usize
        ensures { result ≡ length self.now }
    {
        self.objects.len()
    }

    /// What is known of an object, or `None` where there is no object of this number.
    pub fn get(&self, x: u64) -> Option<&Held>
        ensures { MatchOption result (slice_get self.now x ≡ None) (λ h. slice_get self.now x ≡ Some h.now) }
    {
        self.objects.get(x as usize)
    }

    /// Puts what is known of an object in the place of what was known of it. Where there is no object of this number, the
    /// grid stays as it is.
    pub fn put(&mut self, x: u64, held: Held)
        ensures { self.new ≡ slice_set self.old x held }
    {
        put_at(&mut self.objects, x, held);
    }

    /// What both grids say of each object of this one, and whether this one says no more than the other.
    pub fn meet(&self, alloc: Global, other: &Grid) -> Result<GridMeeting, NoMemory>
        ensures { IfOk result (λ m. AreMet contents_weight nothing AreContentsMet self.now other.now m.grid m.kept) }
    {
        let met = meet_all(alloc, &self.objects, &other.objects)?;
        Ok(GridMeeting {
            grid: Grid {
                objects: met.objects,
            },
            kept: met.kept,
        })
    }

    /// What is known once these objects have ended.
    pub fn ended(&self, alloc: Global, gone: &[u64]) -> Result<Grid, NoMemory>
        ensures { IfOk result (λ g. AreEnded gone.now self.now g) }
    {
        let mut left = all_killed(alloc, &self.objects, gone)?;
        clear(&mut left, gone);
        Ok(Grid { objects: left })
    }
}
