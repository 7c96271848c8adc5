// What is known of the first states of a program.

ghost use Rattle.std.specs.Prelude.{◌≡◌, ℤ, List, IfOk};
ghost use Rattle.csharp.specs.Trees.{CsProgramTree};
ghost use Rattle.csharp.specs.States.{first};
ghost use Rattle.csharp_typed_laws.specs.TypedStates.{IsTypedState};
ghost use Rattle.mem_cell_exprs.specs.Known.{StandsFor};
ghost use Rattle.mem_cell_domain.specs.Starts.{AreBytesOf};

use block_mem::Scalar;
use machine_nums::Machine;
use mem_cell_exprs::{Known, Types};
use mem_cell_grid::{Grid, Pointers};
use num_api::NumDomain;
use std::alloc::{AllocError as NoMemory, Global};

/// The types of temporaries are known, and these bytes of objects.
pub fn first_known<D: NumDomain>(
    alloc: Global,
    types: &[Scalar],
    grid: Grid,
) -> Result<Known<D>, NoMemory>
    ensures types { IfOk result (λ k. k.types ≡ types.now) }
    ensures stands { IfOk result (λ k. (q : CsProgramTree) (inputs : List ℤ) → types.now ≡ q.temps → IsTypedState q (first q inputs)
        → AreBytesOf grid (first q inputs).memory → StandsFor D.admits q.objects k (first q inputs)) }
{
    Ok(Known {
        alloc,
        types: Types::of(alloc, types)?,
        nums: Machine::top(alloc),
        pointers: Pointers::unknown(alloc, types.len())?,
        grid,
    })
}
