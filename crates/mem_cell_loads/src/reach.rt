// Where a pointer may lead.

ghost use Rattle.std.specs.Prelude.{◌≡◌, ◌*◌, ◌<◌, ◌≤◌, ℕ, pos, true, IfOk, IfSome};
ghost use Rattle.ext_int.specs.Ext.{Above, Below};
ghost use Rattle.num_api.specs.Ranges.{InRange};
ghost use Rattle.pointsets.specs.Targets.{has_base};
ghost use Rattle.pointsets.specs.declared.Base.TheVariants.{Object};
ghost use Rattle.block_mem.specs.Bytes.{size_of as size_of_scalar};
ghost use Rattle.csharp.specs.Trees.{csexpr_tree};
ghost use Rattle.mem_cell_bytes.specs.Stands.{Has};
ghost use Rattle.mem_cell_loads.specs.Places.{LeadsThere};

use crate::numbers::number_range;
use block_mem::Scalar;
use c_syntax::IntType;
use csharp::CsExpr;
use ext_int::Ext;
use mem_cell_bytes::SharedSet;
use mem_cell_exprs::{Known, Place, pointer};
use num_api::{NumDomain, Range};
use std::alloc::{AllocError as NoMemory, Global};

/// Objects, and places in them: multiples of a step, from one on to below another.
#[derive(Drop)]
pub struct Reach {
    pub objects: Vec<u64>,
    pub first: u32,
    pub end: u32,
    pub step: u8,
}

/// So many steps from the start of an object.
pub fn place_at(index: u32, step: u8) -> u64
    ensures { result ≡ index * step }
{
    u64::from(index) * u64::from(step)
}

// An offset that is not above those from an end on; none where that is not small.
fn low_of(end: Ext) -> Option<u32>
    ensures { IfSome result (λ low. (n : ℕ) → Below end (pos n) → low ≤ n) }
{
    match end {
        Ext::Low | Ext::High => Some(0),
        Ext::Fin(n) => {
            if n <= 0 {
                return Some(0);
            }
            if n < 4_294_967_296 {
                return Some(n as u32);
            }
            None
        }
    }
}

// An offset that is not below those up to an end; none where that is not small.
fn high_of(end: Ext) -> Option<u32>
    ensures { IfSome result (λ high. (n : ℕ) → Above end (pos n) → n ≤ high) }
{
    match end {
        Ext::Low | Ext::High => None,
        Ext::Fin(n) => {
            if n < 0 {
                return Some(0);
            }
            if n < 4_294_967_296 {
                return Some(n as u32);
            }
            None
        }
    }
}

// Steps from one on to below another.
#[derive(Clone, Copy)]
struct Steps {
    first: u32,
    end: u32,
}

// The steps of a size whose offsets may lie in a range, where they are few.
fn steps_in(range: Range, step: u8) -> Option<Steps>
    requires { 1 ≤ step }
    ensures { IfSome result (λ steps. (i : ℕ) → InRange range (pos (i * step)) → (steps.first ≤ i) × (i < steps.end)) }
{
    let low = low_of(range.lo)?;
    let high = high_of(range.hi)?;
    let first = low / u32::from(step);
    let last = high / u32::from(step);
    if last < first {
        return Some(Steps { first, end: first });
    }
    if last - first >= 256 || last == u32::MAX {
        return None;
    }
    Some(Steps {
        first,
        end: last + 1,
    })
}

// The objects of a set, where it is not that of anything.
fn objects_of(alloc: Global, set: &SharedSet) -> Result<Option<Vec<u64>>, NoMemory>
    ensures { IfOk result (λ found. IfSome found (λ objects. (o : ℕ) → has_base set.now (Object o) ≡ true → Has objects.items o)) }
{
    let targets = set.to_targets(alloc);
    if targets.is_all() {
        return Ok(None);
    }
    Ok(Some(Vec::from_slice(alloc, targets.names())?))
}

// How far apart values of a type stand at least: they have as many bytes.
fn step_of(ty: Scalar) -> u8
    ensures value { result ≡ size_of_scalar ty }
    ensures some { 1 ≤ result }
{
    match ty {
        Scalar::Int(ty) => match ty {
            IntType::Char | IntType::SChar | IntType::UChar => 1,
            IntType::Short | IntType::UShort => 2,
            IntType::Int | IntType::UInt => 4,
            IntType::Long | IntType::ULong | IntType::LLong | IntType::ULLong => 8,
        },
        Scalar::Pointer => 8,
    }
}

/// Where an access of a value of a type leads, where it leads to few places.
pub fn reach_of<D: NumDomain>(
    known: &Known<D>,
    address: &CsExpr,
    ty: Scalar,
) -> Result<Option<Reach>, NoMemory>
    ensures leads { IfOk result (λ found. IfSome found (λ r. LeadsThere D.admits known.now (csexpr_tree address.now) (size_of_scalar ty) r)) }
    ensures step { IfOk result (λ found. IfSome found (λ r. r.step ≡ size_of_scalar ty)) }
{
    let Some(place) = pointer(known, address)? else {
        return Ok(None);
    };
    let Place { set, offset } = place;
    let Some(offset) = offset else {
        return Ok(None);
    };
    let Some(objects) = objects_of(known.alloc, &set)? else {
        return Ok(None);
    };
    let step = step_of(ty);
    match steps_in(number_range(known, offset)?, step) {
        Some(steps) => Ok(Some(Reach {
            objects,
            first: steps.first,
            end: steps.end,
            step,
        })),
        None => Ok(None),
    }
}
