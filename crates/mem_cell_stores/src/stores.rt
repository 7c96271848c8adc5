// Stores.

ghost use Rattle.std.specs.Prelude.{◌≡◌, IfSome, OnOk};
ghost use Rattle.block_mem.specs.Bytes.{size_of as size_of_scalar};
ghost use Rattle.csharp.specs.Trees.{CsExprTree, csexpr_tree};
ghost use Rattle.mem_cell_stores.specs.Changes.{IsCellFor, IsContentOf, LeadsTo, StoresFor};

use crate::forgotten::{forget_all, forget_spot};
use crate::grids::put_cell;
use crate::spots::{Spot, only_spot};
use crate::values::{cell_for, content_of};
use crate::weakened::store_weakly;
use block_mem::Scalar;
use csharp::CsExpr;
use mem_cell_bytes::Entry;
use mem_cell_exprs::Known;
use mem_cell_loads::{Content, cell_variable, put_number, reach_of};
use num_api::NumDomain;
use std::alloc::AllocError as NoMemory;

// Puts a value that is known into a cell of its own.
fn put_value<D: NumDomain>(
    known: &mut Known<D>,
    spot: Spot,
    ty: Scalar,
    content: &Content,
    cell: Entry,
) -> Result<(), NoMemory>
    ensures types { known.new.types ≡ known.old.types }
    ensures stands { OnOk result ((e f : CsExprTree) → LeadsTo D.admits known.old e (size_of_scalar ty) spot → IsContentOf D.admits known.old f ty content.now
        → IsCellFor spot.at ty content.now cell → StoresFor D.admits known.old ty e f known.new) }
{
    match cell_variable(spot.object, &cell) {
        Some(x) => {
            put_number(&mut known.nums, x, ty, content)?;
            put_cell(known.alloc, &mut known.grid, spot.object, cell)
        }
        None => forget_spot(known, spot, ty),
    }
}

// Puts a value at a place that is known.
fn store_at<D: NumDomain>(
    known: &mut Known<D>,
    spot: Spot,
    ty: Scalar,
    value: &CsExpr,
) -> Result<(), NoMemory>
    ensures types { known.new.types ≡ known.old.types }
    ensures stands { OnOk result ((e : CsExprTree) → LeadsTo D.admits known.old e (size_of_scalar ty) spot
        → StoresFor D.admits known.old ty e (csexpr_tree value.now) known.new) }
{
    let content = content_of(known, ty, value)?;
    match cell_for(spot.at, ty, &content)? {
        Some(cell) => put_value(known, spot, ty, &content, cell),
        None => forget_spot(known, spot, ty),
    }
}

/// Puts a value of this type at an address.
pub fn store<D: NumDomain>(
    known: &mut Known<D>,
    address: &CsExpr,
    ty: Scalar,
    value: &CsExpr,
) -> Result<(), NoMemory>
    ensures types { known.new.types ≡ known.old.types }
    ensures stands { OnOk result (StoresFor D.admits known.old ty (csexpr_tree address.now) (csexpr_tree value.now) known.new) }
{
    match reach_of(known, address, ty)? {
        Some(reach) => match only_spot(&reach) {
            Some(spot) => store_at(known, spot, ty, value),
            None => store_weakly(known, &reach, ty, value),
        },
        None => forget_all(known),
    }
}
