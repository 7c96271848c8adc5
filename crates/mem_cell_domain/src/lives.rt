// Objects that begin and end.

ghost use Rattle.std.specs.Prelude.{◌≡◌, ◌<◌, All, IfOk, IsTrue, List, OnOk, length, map};
ghost use Rattle.c_objects.specs.Opening.{size_of as size_of_object};
ghost use Rattle.c_syntax.specs.Types.{ObjectTree, object_tree};
ghost use Rattle.csharp.specs.States.{State};
ghost use Rattle.csharp.specs.Actions as acts;
ghost use Rattle.mem_cell_exprs.specs.Known.{StandsFor};
ghost use Rattle.mem_cell_domain.specs.Lives.{begun};

use c_syntax::Object;
use mem_cell_exprs::Known;
use mem_cell_grid::{Grid, blank};
use num_api::NumDomain;
use std::alloc::{AllocError as NoMemory, Global};

/// How many bytes an object has.
pub fn size_at(objects: &[Object], object: u64) -> u64
    ensures { result ≡ size_of_object (map object_tree objects.now) object }
{
    match objects.get(object as usize) {
        Some(object) => object.size,
        None => 0,
    }
}

// Of each of these objects it is known that no byte has a value.
fn blank_all(
    alloc: Global,
    grid: &mut Grid,
    objects: &[Object],
    names: &[u64],
) -> Result<(), NoMemory>
    ensures { OnOk result (grid.new ≡ begun (map object_tree objects.now) grid.old names.now) }
{
    for name in names {
        let held = blank(alloc, size_at(objects, *name))?;
        grid.put(*name, held);
    }
    Ok(())
}

/// These objects begin to live, with no value.
pub fn enter<D: NumDomain>(
    known: &mut Known<D>,
    objects: &[Object],
    names: &[u64],
) -> Result<(), NoMemory>
    ensures types { known.new.types ≡ known.old.types }
    ensures stands { OnOk result ((s : State) → All (λ x. x < length (map object_tree objects.now)) names.now → IsTrue (acts.are_free names.now s)
        → StandsFor D.admits (map object_tree objects.now) known.old s
        → StandsFor D.admits (map object_tree objects.now) known.new (acts.enter (map object_tree objects.now) names.now s)) }
{
    blank_all(known.alloc, &mut known.grid, objects, names)
}

/// These objects end; pointers to them are dead.
pub fn leave<D: NumDomain>(known: &mut Known<D>, names: &[u64]) -> Result<(), NoMemory>
    ensures types { known.new.types ≡ known.old.types }
    ensures stands { OnOk result ((objects : List ObjectTree) (s : State) → StandsFor D.admits objects known.old s
        → StandsFor D.admits objects known.new (acts.leave names.now s)) }
{
    let pointers = known.pointers.ended(known.alloc, names)?;
    let grid = known.grid.ended(known.alloc, names)?;
    known.pointers = pointers;
    known.grid = grid;
    Ok(())
}
