// Sets that have the states of two.

ghost use Rattle.std.specs.Prelude.{◌≡◌, ◌<◌, ◌&&◌, false, IfOk, IsTrue, List, OnOk};
ghost use Rattle.c_syntax.specs.Types.{ObjectTree};
ghost use Rattle.num_api.specs.Told.{Keeps};
ghost use Rattle.csharp.specs.States.{State};
ghost use Rattle.mem_cell_exprs.specs.Known.{StandsFor};
ghost use Rattle.mem_cell_domain.specs.Heavy.{known_weight};

use mem_cell_exprs::Known;
use num_api::{NumDomain, Ramp, Steps};
use std::alloc::AllocError as NoMemory;

// Whether both are so.
fn both(a: bool, b: bool) -> bool
    ensures { result ≡ (a && b) }
{
    a && b
}

/// A set that knows as much.
pub fn copy<D: NumDomain>(known: &Known<D>) -> Result<Known<D>, NoMemory>
    ensures { IfOk result (λ k. k ≡ known.now) }
{
    Ok(Known {
        alloc: known.alloc,
        types: known.types.share()?,
        nums: known.nums.copy()?,
        pointers: known.pointers.copy(known.alloc)?,
        grid: known.grid.copy(known.alloc)?,
    })
}

/// Has the states of either set.
pub fn join<D: NumDomain>(known: &mut Known<D>, other: &Known<D>) -> Result<(), NoMemory>
    ensures types { known.new.types ≡ known.old.types }
    ensures left { OnOk result ((objects : List ObjectTree) (s : State) → StandsFor D.admits objects known.old s → StandsFor D.admits objects known.new s) }
    ensures right { OnOk result ((objects : List ObjectTree) (s : State) → other.now.types ≡ known.old.types → StandsFor D.admits objects other.now s
        → StandsFor D.admits objects known.new s) }
{
    let pointers = known.pointers.meet(known.alloc, &other.pointers)?;
    let grid = known.grid.meet(known.alloc, &other.grid)?;
    known.nums.join(&other.nums)?;
    known.pointers = pointers.pointers;
    known.grid = grid.grid;
    Ok(())
}

/// Has the states of either set, so that widening comes to an end: true where the weight fell, and false where nothing
/// changed.
pub fn widen<D: NumDomain, U: Fn(i128) -> Option<i128>, S: Steps>(
    known: &mut Known<D>,
    next: &Known<D>,
    ramp: &Ramp<U>,
) -> Result<bool, NoMemory>
    requires { Keeps U.pre U.post ramp.now S.list }
    ensures types { known.new.types ≡ known.old.types }
    ensures left { OnOk result ((objects : List ObjectTree) (s : State) → StandsFor D.admits objects known.old s → StandsFor D.admits objects known.new s) }
    ensures right { OnOk result ((objects : List ObjectTree) (s : State) → next.now.types ≡ known.old.types → StandsFor D.admits objects next.now s
        → StandsFor D.admits objects known.new s) }
    ensures fell { IfOk result (λ falls. IsTrue falls → known_weight (D.weight S.list) known.new < known_weight (D.weight S.list) known.old) }
    ensures same { IfOk result (λ falls. falls ≡ false → known.new ≡ known.old) }
{
    let pointers = known.pointers.meet(known.alloc, &next.pointers)?;
    let grid = known.grid.meet(known.alloc, &next.grid)?;
    let rest = both(grid.kept, known.nums.covers(&next.nums));
    let covered = both(pointers.kept, rest);
    if covered {
        return Ok(false);
    }
    known.nums.widen::<U, S>(&next.nums, ramp)?;
    known.pointers = pointers.pointers;
    known.grid = grid.grid;
    Ok(true)
}

/// Whether it is known that each state of the other set is one of this.
pub fn covers<D: NumDomain>(known: &Known<D>, other: &Known<D>) -> Result<bool, NoMemory>
    ensures { IfOk result (λ covered. IsTrue covered → (objects : List ObjectTree) (s : State) → other.now.types ≡ known.now.types
        → StandsFor D.admits objects other.now s → StandsFor D.admits objects known.now s) }
{
    if !known.nums.covers(&other.nums) {
        return Ok(false);
    }
    let pointers = known.pointers.meet(known.alloc, &other.pointers)?;
    let grid = known.grid.meet(known.alloc, &other.grid)?;
    Ok(both(pointers.kept, grid.kept))
}
