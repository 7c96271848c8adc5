// Stores at one of several places.

ghost use Rattle.std.specs.Prelude.{◌≡◌, ◌⊎◌, ℤ, List, IfOk, OnOk};
ghost use Rattle.ext_int.specs.Valuation.{value_at};
ghost use Rattle.num_api.specs.Ranges.{InRange};
ghost use Rattle.num_api.specs.Valuation.{SetTo};
ghost use Rattle.block_mem.specs.Bytes.{size_of as size_of_scalar};
ghost use Rattle.machine_nums.specs.Machines.{Admits};
ghost use Rattle.csharp.specs.Trees.{CsExprTree, csexpr_tree};
ghost use Rattle.mem_cell_bytes.specs.Stores.{IsChoice};
ghost use Rattle.mem_cell_loads.specs.Places.{LeadsThere};
ghost use Rattle.mem_cell_stores.specs.Changes.{StoresFor};
ghost use Rattle.mem_cell_stores.specs.Hits.{IsRangeOf};

use crate::forgotten::forget_all;
use crate::spots::bytes_in;
use crate::values::content_of;
use crate::weakly::{Bytes, weaken_in};
use block_mem::Scalar;
use c_syntax::IntType;
use csharp::CsExpr;
use ext_int::{max, min};
use machine_nums::{MExpr, Machine};
use mem_cell_exprs::Known;
use mem_cell_loads::{Content, Reach, number_range, place_at, scalar_size};
use num_api::{Message, NumDomain, Range, Var};
use std::alloc::AllocError as NoMemory;

// A range that holds all numbers of two.
fn hull(a: Range, b: Range) -> Range
    ensures first { (n : ℤ) → InRange a n → InRange result n }
    ensures second { (n : ℤ) → InRange b n → InRange result n }
{
    Range {
        lo: min(a.lo, b.lo),
        hi: max(a.hi, b.hi),
    }
}

// Lets a variable have its number, or one of a range.
fn weaken<D: NumDomain>(nums: &mut Machine<D>, x: Var, range: Range) -> Result<(), NoMemory>
    ensures { OnOk result ((v w : List ℤ) (n : ℤ) → Admits D.admits nums.old v → (InRange range n ⊎ (n ≡ value_at v x.0)) → SetTo x.0 n v w
        → Admits D.admits nums.new w) }
{
    let (old, _class) = nums.check_range(&MExpr::Read(x, IntType::Long))?;
    nums.forget(x)?;
    let told = Message::Between(x, hull(range, old));
    let _live = nums.accept(&told)?;
    Ok(())
}

// Lets one of these variables have a number of a range.
fn weaken_each<D: NumDomain>(
    nums: &mut Machine<D>,
    variables: &[u64],
    range: Range,
) -> Result<(), NoMemory>
    ensures { OnOk result ((v w : List ℤ) (n : ℤ) → Admits D.admits nums.old v → InRange range n → IsChoice variables.now n v w → Admits D.admits nums.new w) }
{
    for x in variables {
        weaken(nums, Var(*x), range)?;
    }
    Ok(())
}

// A range of the numbers of a value.
fn range_of<D: NumDomain>(known: &Known<D>, ty: Scalar, value: &CsExpr) -> Result<Range, NoMemory>
    ensures { IfOk result (λ r. IsRangeOf D.admits known.now (csexpr_tree value.now) ty r) }
{
    let Content {
        number,
        range,
        set: _set,
    } = content_of(known, ty, value)?;
    match number {
        Some(m) => number_range(known, m),
        None => Ok(range),
    }
}

/// Puts a value at one of several places.
pub fn store_weakly<D: NumDomain>(
    known: &mut Known<D>,
    reach: &Reach,
    ty: Scalar,
    value: &CsExpr,
) -> Result<(), NoMemory>
    ensures types { known.new.types ≡ known.old.types }
    ensures stands { OnOk result ((e : CsExprTree) → reach.now.step ≡ size_of_scalar ty → LeadsThere D.admits known.old e (size_of_scalar ty) reach.now
        → StoresFor D.admits known.old ty e (csexpr_tree value.now) known.new) }
{
    let Some(count) = bytes_in(reach, scalar_size(ty)) else {
        return forget_all(known);
    };
    if reach.step == 0 {
        return forget_all(known);
    }
    let content = content_of(known, ty, value)?;
    let range = range_of(known, ty, value)?;
    let bytes = Bytes {
        at: place_at(reach.first, reach.step),
        count,
        step: reach.step,
    };
    let objects = reach.objects.as_slice();
    let variables = weaken_in(known.alloc, &mut known.grid, objects, bytes, ty, &content)?;
    weaken_each(&mut known.nums, variables.as_slice(), range)
}
