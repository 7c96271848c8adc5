// Pointers that are shown.
#![tactic(auto)]

ghost use Rattle.std.specs.Prelude.{◌≡◌, ◌<◌, ℕ, All, IfOk, IsTrue, option_map};
ghost use Rattle.pointsets.specs.Targets.{BaseSet};
ghost use Rattle.machine_nums.specs.MExprs.{mexpr_tree};
ghost use Rattle.machine_nums.specs.Machines.{Admits};
ghost use Rattle.csharp.specs.Trees.{csexpr_tree};
ghost use Rattle.mem_cell_shows.specs.Ends.{IsProperEnds};
ghost use Rattle.mem_cell_shows.specs.Shows.{HoldsOffsets, ShowsPointer, ShowsTargets, pointers_of};

use crate::ends::Ends;
use crate::values::value_ends;
use c_syntax::{Numbers, Pointers};
use csharp::CsExpr;
use machine_nums::MExpr;
use mem_cell_bytes::SharedSet;
use mem_cell_exprs::{Known, pointer};
use mem_shown::any_pointer;
use num_api::NumDomain;
use pointsets::{Base, Targets};
use std::alloc::{AllocError as NoMemory, Global};

// Whether all of these numbers are below another.
fn are_below(names: &[u64], count: u64) -> bool
    ensures { IsTrue result → All (λ o. o < count) names.now }
{
    names.iter().all(|o| *o < count)
}

// Any pointer at these offsets.
fn everywhere(alloc: Global, ends: Ends) -> Pointers
    requires { IsProperEnds ends }
    ensures { (count : ℕ) (set : BaseSet) → ShowsTargets count set ends result }
{
    Pointers {
        any: true,
        null: true,
        dead: true,
        names: Numbers::new(alloc),
        lo: ends.lo,
        hi: ends.hi,
        modulus: ends.modulus,
        rem: ends.rem,
    }
}

// The pointers to these objects, and the marks of a set.
fn of_names(targets: &Targets, names: Numbers, ends: Ends) -> Pointers
    ensures { result ≡ pointers_of targets.now names ends }
{
    Pointers {
        any: false,
        null: targets.holds(Base::Null),
        dead: targets.holds(Base::Dead),
        names,
        lo: ends.lo,
        hi: ends.hi,
        modulus: ends.modulus,
        rem: ends.rem,
    }
}

// The pointers of a set at these offsets. Where it names an object that is none of so many, each one of the program is
// shown.
fn shown_targets(
    alloc: Global,
    count: u64,
    set: &SharedSet,
    ends: Ends,
) -> Result<Pointers, NoMemory>
    requires { IsProperEnds ends }
    ensures { IfOk result (λ shown. ShowsTargets count set.now ends shown) }
{
    let targets = set.to_targets(alloc);
    if targets.is_all() {
        return Ok(everywhere(alloc, ends));
    }
    if !are_below(targets.names(), count) {
        return Ok(everywhere(alloc, ends));
    }
    let names = Vec::from_slice(alloc, targets.names())?;
    Ok(of_names(&targets, Numbers::from_vec(names), ends))
}

// The offsets of a pointer, where they are known.
fn offset_ends<D: NumDomain>(known: &Known<D>, offset: Option<MExpr>) -> Result<Ends, NoMemory>
    ensures { IfOk result (λ w. HoldsOffsets (Admits D.admits known.now.nums) (option_map mexpr_tree offset) w) }
{
    match offset {
        Some(m) => value_ends(known.alloc, &known.nums, m),
        None => Ok(Ends::all()),
    }
}

/// Where an expression may point. Of so many objects each may be named.
pub fn shown_pointer<D: NumDomain>(
    known: &Known<D>,
    count: u64,
    e: &CsExpr,
) -> Result<Pointers, NoMemory>
    ensures { IfOk result (λ shown. ShowsPointer D.admits known.now count (csexpr_tree e.now) shown) }
{
    match pointer(known, e)? {
        None => Ok(any_pointer(known.alloc)),
        Some(place) => {
            let ends = offset_ends(known, place.offset)?;
            shown_targets(known.alloc, count, &place.set, ends)
        }
    }
}
