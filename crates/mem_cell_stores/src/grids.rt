// What is known of objects once bytes are stored.

ghost use Rattle.std.specs.Prelude.{◌≡◌, ◌∷◌, [], IfOk, OnOk};
ghost use Rattle.mem_cell_stores.specs.Changes.{AreForgotten, AreNothing, IsCellPut};

use mem_cell_bytes::Entry;
use mem_cell_grid::{Grid, left, stored};
use std::alloc::{AllocError as NoMemory, Global};

/// Puts a cell into an object, in the place of what shares a byte with it.
pub fn put_cell(alloc: Global, grid: &mut Grid, object: u64, cell: Entry) -> Result<(), NoMemory>
    ensures { OnOk result (IsCellPut grid.old object cell grid.new) }
{
    let Some(held) = grid.get(object) else {
        return Ok(());
    };
    let held = stored(alloc, held, cell)?;
    grid.put(object, held);
    Ok(())
}

// Forgets what is known of so many bytes of an object.
fn forget_at(
    alloc: Global,
    grid: &mut Grid,
    object: u64,
    at: u64,
    count: u64,
) -> Result<(), NoMemory>
    ensures { OnOk result (AreForgotten (object ∷ []) at count grid.old grid.new) }
{
    let Some(held) = grid.get(object) else {
        return Ok(());
    };
    let held = left(alloc, held, at, count)?;
    grid.put(object, held);
    Ok(())
}

/// Forgets what is known of so many bytes of each of these objects.
pub fn forget_in(
    alloc: Global,
    grid: &mut Grid,
    objects: &[u64],
    at: u64,
    count: u64,
) -> Result<(), NoMemory>
    ensures { OnOk result (AreForgotten objects.now at count grid.old grid.new) }
{
    for object in objects {
        forget_at(alloc, grid, *object, at, count)?;
    }
    Ok(())
}

/// Of as many objects nothing is known.
pub fn nothing_in(alloc: Global, grid: &Grid) -> Result<Grid, NoMemory>
    ensures { IfOk result (λ g. AreNothing g) }
{
    Grid::nothing(alloc, grid.len())
}
