// Objects whose bytes lose their values.

ghost use Rattle.std.specs.Prelude.{◌≡◌, ◌≤◌, List, OnOk, Some};
ghost use Rattle.c_syntax.specs.Types.{ObjectTree};
ghost use Rattle.c_objects.specs.Opening.{size_of as size_of_object};
ghost use Rattle.csharp.specs.States.{State};
ghost use Rattle.csharp.specs.Actions as acts;
ghost use Rattle.mem_cell_exprs.specs.Known.{StandsFor};

use mem_cell_exprs::Known;
use mem_cell_grid::blank;
use num_api::NumDomain;
use std::alloc::AllocError as NoMemory;

/// Makes all bytes of a live object lose their values. It has so many bytes, or more.
pub fn undefine<D: NumDomain>(known: &mut Known<D>, object: u64, size: u64) -> Result<(), NoMemory>
    ensures types { known.new.types ≡ known.old.types }
    ensures stands { OnOk result ((objects : List ObjectTree) (s t : State) → size ≤ size_of_object objects object → StandsFor D.admits objects known.old s
        → acts.undefine object s ≡ Some t → StandsFor D.admits objects known.new t) }
{
    let held = blank(known.alloc, size)?;
    known.grid.put(object, held);
    Ok(())
}
