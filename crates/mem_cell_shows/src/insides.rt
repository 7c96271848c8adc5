// Offsets that are inside of objects.
#![tactic(auto)]

ghost use Rattle.std.specs.Prelude.{◌≡◌, ◌≤◌, true, ℕ, map, option_map, IfOk, IfSome};
ghost use Rattle.c_syntax.specs.Types.{object_tree};
ghost use Rattle.pointsets.specs.Targets.{has_name};
ghost use Rattle.machine_nums.specs.MExprs.{mexpr_tree};
ghost use Rattle.csharp.specs.Trees.{csexpr_tree};
ghost use Rattle.mem_cell_shows.specs.Changes.{KeepsEach, KeepsShape};
ghost use Rattle.mem_cell_shows.specs.Insides.{HasRoom, IsOffsetTo, IsSmallAt};

use crate::betweens::keep_between;
use c_syntax::Object;
use csharp::CsExpr;
use ext_int::Live;
use machine_nums::MExpr;
use mem_cell_exprs::{Known, pointer};
use num_api::NumDomain;
use pointsets::Base;
use std::alloc::AllocError as NoMemory;

// How many bytes an object has.
fn size_at(objects: &[Object], object: u64) -> Option<u64>
    ensures { IfSome result (IsSmallAt (map object_tree objects.now) object) }
{
    if object >= objects.len() as u64 {
        return None;
    }
    Some(objects[object as usize].size)
}

// The greater one.
fn greater(a: u64, b: u64) -> u64
    ensures first { a ≤ result }
    ensures second { b ≤ result }
{
    if a < b { b } else { a }
}

// How many bytes these objects have at most.
fn most_size(objects: &[Object], names: &[u64]) -> Option<u64>
    ensures { IfSome result (λ most. (n : ℕ) → has_name names.now n ≡ true → IsSmallAt (map object_tree objects.now) n most) }
{
    let mut most = 0;
    for n in names {
        let size = size_at(objects, *n)?;
        most = greater(size, most);
    }
    Some(most)
}

// Keeps the states in which numbers are an offset from 0 up to another.
fn keep_offset<D: NumDomain>(
    known: &mut Known<D>,
    offset: Option<MExpr>,
    most: u64,
) -> Result<Live, NoMemory>
    ensures shape { KeepsShape known.old known.new }
    ensures stands { IfOk result (λ live. KeepsEach D.admits known.old known.new live (λ objects s st. IsOffsetTo (option_map mexpr_tree offset) most st.v)) }
{
    let Some(m) = offset else {
        return Ok(Live::Live);
    };
    keep_between(known, m, 0, i128::from(most))
}

/// Keeps the states in which an object that an expression points into has so many bytes from there on.
pub fn keep_inside<D: NumDomain>(
    known: &mut Known<D>,
    objects: &[Object],
    e: &CsExpr,
    count: u64,
) -> Result<Live, NoMemory>
    ensures shape { KeepsShape known.old known.new }
    ensures stands { IfOk result (λ live. KeepsEach D.admits known.old known.new live
        (λ os s st. (os ≡ map object_tree objects.now) × HasRoom (csexpr_tree e.now) count os s)) }
{
    let Some(place) = pointer(known, e)? else {
        return Ok(Live::Live);
    };
    let set = place.set.to_targets(known.alloc);
    if set.holds(Base::Dead) {
        return Ok(Live::Live);
    }
    let Some(most) = most_size(objects, set.names()) else {
        return Ok(Live::Live);
    };
    if most < count {
        return Ok(Live::Live);
    }
    keep_offset(known, place.offset, most - count)
}
