// Stores of which not all is known: what is forgotten.

ghost use Rattle.std.specs.Prelude.{◌≡◌, OnOk};
ghost use Rattle.block_mem.specs.declared.types.Scalar.{Scalar as ScalarType};
ghost use Rattle.block_mem.specs.Bytes.{size_of as size_of_scalar};
ghost use Rattle.csharp.specs.Trees.{CsExprTree};
ghost use Rattle.mem_cell_stores.specs.Changes.{LeadsTo, StoresFor};

use crate::grids::{forget_in, nothing_in};
use crate::spots::Spot;
use block_mem::Scalar;
use mem_cell_exprs::Known;
use mem_cell_loads::scalar_size;
use num_api::NumDomain;
use std::alloc::AllocError as NoMemory;

/// Forgets what is known of all objects.
pub fn forget_all<D: NumDomain>(known: &mut Known<D>) -> Result<(), NoMemory>
    ensures types { known.new.types ≡ known.old.types }
    ensures stands { OnOk result ((ty : ScalarType) (e f : CsExprTree) → StoresFor D.admits known.old ty e f known.new) }
{
    known.grid = nothing_in(known.alloc, &known.grid)?;
    Ok(())
}

/// Forgets what is known of the bytes of a value at a place.
pub fn forget_spot<D: NumDomain>(
    known: &mut Known<D>,
    spot: Spot,
    ty: Scalar,
) -> Result<(), NoMemory>
    ensures types { known.new.types ≡ known.old.types }
    ensures stands { OnOk result ((e f : CsExprTree) → LeadsTo D.admits known.old e (size_of_scalar ty) spot → StoresFor D.admits known.old ty e f known.new) }
{
    forget_in(
        known.alloc,
        &mut known.grid,
        &[spot.object],
        spot.at,
        scalar_size(ty),
    )
}
