// Marks of loads.
#![tactic(auto)]

ghost use Rattle.std.specs.Prelude.{◌≡◌, ◌≤◌, ◌+◌, ◌≤ℤ◌, ℤ, pos, Some, option_and_then, option_map, IfOk, IfSome};
ghost use Rattle.c_syntax.specs.Operand.{LoadMark};
ghost use Rattle.c_syntax.specs.Admission.{IsMarkIn};
ghost use Rattle.block_mem.specs.declared.types.Scalar.TheVariants.{Int, Pointer};
ghost use Rattle.c_values.specs.Accesses.{mark};
ghost use Rattle.machine_nums.specs.MExprs.{mexpr_tree};
ghost use Rattle.csharp.specs.Trees.{csexpr_tree};
ghost use Rattle.csharp.specs.States.{value_of};
ghost use Rattle.mem_cell_shows.specs.Ends.{LiesIn};
ghost use Rattle.mem_cell_shows.specs.Marked.{AreMarksIn, AreMarksWithin, IsPlaceIn};
ghost use Rattle.mem_cell_shows.specs.Checks.{ShowsMarks, marks_shown};

use crate::cuts::only_object;
use crate::ends::Ends;
use crate::reaches::reached;
use crate::values::value_ends;
use block_mem::Scalar;
use c_syntax::{IntType, Shown};
use csharp::CsExpr;
use machine_nums::MExpr;
use mem_cell_bytes::{Held, size_in};
use mem_cell_exprs::{Known, pointer};
use mem_cell_loads::reading_at;
use num_api::NumDomain;
use std::alloc::AllocError as NoMemory;

/// What a load may meet: a byte without a value, a value of its type, or neither.
#[derive(Clone, Copy)]
pub struct Marks {
    pub undef: bool,
    pub value: bool,
    pub broken: bool,
}

impl Marks {
    // Any mark.
    pub fn all() -> Marks
        ensures { (m : LoadMark) → IsMarkIn result.undef result.value result.broken m }
    {
        Marks {
            undef: true,
            value: true,
            broken: true,
        }
    }

    // These marks, as they are shown.
    pub fn shown(self) -> Shown
        ensures { result ≡ marks_shown self }
    {
        Shown::Marks {
            undef: self.undef,
            value: self.value,
            broken: self.broken,
        }
    }
}

// What a load of an integer may meet in bytes between two places.
fn part_marks(held: &Held, from: u64, to: u64) -> Marks
    ensures { AreMarksWithin held.now (λ k n. (from ≤ k) × (k + n ≤ to)) result }
{
    let r = reached(held, from, to);
    if r.end < to {
        return Marks::all();
    }
    Marks {
        undef: r.undef,
        value: true,
        broken: r.piece,
    }
}

// A place that is not above any of these numbers.
fn least_place(ends: Ends) -> Option<u64>
    ensures { IfSome result (λ k. (d : ℤ) → LiesIn ends d → pos k ≤ℤ d) }
{
    let Some(lo) = ends.lo else {
        return None;
    };
    if lo < 0 {
        return None;
    }
    if lo > 65536 {
        return None;
    }
    Some(lo as u64)
}

// A place that is not below any of these numbers.
fn last_place(ends: Ends) -> Option<u64>
    ensures last { IfSome result (λ k. (d : ℤ) → LiesIn ends d → d ≤ℤ pos k) }
    ensures few { IfSome result (λ k. k ≤ 65536) }
{
    let Some(hi) = ends.hi else {
        return None;
    };
    if hi < 0 {
        return None;
    }
    if hi > 65536 {
        return None;
    }
    Some(hi as u64)
}

// What a load of an integer of so many bytes may meet at one of these offsets.
fn marks_at(held: &Held, ends: Ends, size: u64) -> Marks
    requires { size ≤ 8 }
    ensures { AreMarksWithin held.now (IsPlaceIn ends size) result }
{
    let Some(from) = least_place(ends) else {
        return Marks::all();
    };
    let Some(last) = last_place(ends) else {
        return Marks::all();
    };
    part_marks(held, from, last + size)
}

// The one place that these numbers are.
fn only_place(ends: Ends) -> Option<u64>
    ensures { IfSome result (λ k. (d : ℤ) → LiesIn ends d → d ≡ pos k) }
{
    let from = least_place(ends)?;
    let last = last_place(ends)?;
    if from == last { Some(from) } else { None }
}

// What a load of an integer may meet in one object.
fn integer_marks<D: NumDomain>(
    known: &Known<D>,
    object: u64,
    place: MExpr,
    ty: IntType,
) -> Result<Marks, NoMemory>
    ensures { IfOk result (λ w. AreMarksIn D.admits known.now object (Some (mexpr_tree place)) (Int ty) w) }
{
    let Some(held) = known.grid.get(object) else {
        return Ok(Marks::all());
    };
    let ends = value_ends(known.alloc, &known.nums, place)?;
    Ok(marks_at(held, ends, size_in(ty)))
}

// What a load of a pointer may meet in one object.
fn pointer_marks<D: NumDomain>(
    known: &Known<D>,
    object: u64,
    place: MExpr,
) -> Result<Marks, NoMemory>
    ensures { IfOk result (λ w. AreMarksIn D.admits known.now object (Some (mexpr_tree place)) Pointer w) }
{
    let ends = value_ends(known.alloc, &known.nums, place)?;
    let Some(at) = only_place(ends) else {
        return Ok(Marks::all());
    };
    let read = reading_at(known, object, at, Scalar::Pointer)?;
    Ok(Marks {
        undef: read.marks.undef,
        value: read.marks.value,
        broken: read.marks.broken,
    })
}

// What a load may meet in one object.
fn object_marks<D: NumDomain>(
    known: &Known<D>,
    object: u64,
    offset: Option<MExpr>,
    ty: Scalar,
) -> Result<Marks, NoMemory>
    ensures { IfOk result (λ w. AreMarksIn D.admits known.now object (option_map mexpr_tree offset) ty w) }
{
    let Some(place) = offset else {
        return Ok(Marks::all());
    };
    match ty {
        Scalar::Int(t) => integer_marks(known, object, place, t),
        Scalar::Pointer => pointer_marks(known, object, place),
    }
}

// What a load of a scalar through a pointer may meet.
fn scalar_marks<D: NumDomain>(known: &Known<D>, ty: Scalar, e: &CsExpr) -> Result<Marks, NoMemory>
    ensures { IfOk result (λ w. ShowsMarks D.admits known.now (λ s. option_and_then (mark s.memory (Some ty)) (value_of (csexpr_tree e.now) s)) w) }
{
    let Some(place) = pointer(known, e)? else {
        return Ok(Marks::all());
    };
    let set = place.set.to_targets(known.alloc);
    let Some(object) = only_object(&set) else {
        return Ok(Marks::all());
    };
    object_marks(known, object, place.offset, ty)
}

/// What a load of a type through a pointer may meet in the states of a set.
pub fn load_marks<D: NumDomain>(
    known: &Known<D>,
    ty: Option<Scalar>,
    e: &CsExpr,
) -> Result<Marks, NoMemory>
    ensures { IfOk result (λ w. ShowsMarks D.admits known.now (λ s. option_and_then (mark s.memory ty) (value_of (csexpr_tree e.now) s)) w) }
{
    match ty {
        Some(ty) => scalar_marks(known, ty, e),
        None => Ok(Marks::all()),
    }
}
