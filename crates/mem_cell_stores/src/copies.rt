// Copies of bytes.

ghost use Rattle.std.specs.Prelude.{◌≡◌, ◌≤◌, ℕ, OnOk};
ghost use Rattle.csharp.specs.Trees.{CsExprTree, csexpr_tree};
ghost use Rattle.mem_cell_loads.specs.Places.{LeadsThere};
ghost use Rattle.mem_cell_stores.specs.Changes.{CopiesFor};

use crate::grids::{forget_in, nothing_in};
use crate::spots::bytes_in;
use block_mem::Scalar;
use c_syntax::IntType;
use csharp::CsExpr;
use mem_cell_exprs::Known;
use mem_cell_loads::{Reach, place_at, reach_of};
use num_api::NumDomain;
use std::alloc::AllocError as NoMemory;

// Forgets what is known of all objects.
fn forget_all<D: NumDomain>(known: &mut Known<D>) -> Result<(), NoMemory>
    ensures types { known.new.types ≡ known.old.types }
    ensures stands { OnOk result ((to from : CsExprTree) (size : ℕ) → CopiesFor D.admits known.old size to from known.new) }
{
    known.grid = nothing_in(known.alloc, &known.grid)?;
    Ok(())
}

// Forgets what a copy of so many bytes may write.
fn forget_reach<D: NumDomain>(
    known: &mut Known<D>,
    reach: &Reach,
    size: u64,
) -> Result<(), NoMemory>
    ensures types { known.new.types ≡ known.old.types }
    ensures stands { OnOk result ((to from : CsExprTree) → 1 ≤ size → LeadsThere D.admits known.old to 1 reach.now → CopiesFor D.admits known.old size to from known.new) }
{
    let Some(count) = bytes_in(reach, size) else {
        return forget_all(known);
    };
    let from = place_at(reach.first, reach.step);
    forget_in(
        known.alloc,
        &mut known.grid,
        reach.objects.as_slice(),
        from,
        count,
    )
}

/// Copies so many bytes to an address, as if all were read first. Nothing stays known of those that are written.
pub fn copy_bytes<D: NumDomain>(
    known: &mut Known<D>,
    to: &CsExpr,
    size: u64,
) -> Result<(), NoMemory>
    ensures types { known.new.types ≡ known.old.types }
    ensures stands { OnOk result ((from : CsExprTree) → CopiesFor D.admits known.old size (csexpr_tree to.now) from known.new) }
{
    if size == 0 {
        return forget_all(known);
    }
    match reach_of(known, to, Scalar::Int(IntType::Char))? {
        Some(reach) => forget_reach(known, &reach, size),
        None => forget_all(known),
    }
}
