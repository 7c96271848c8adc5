// Readings: what a load may find.

ghost use Rattle.std.specs.Prelude.{◌≡◌, ◌<◌, ℕ, ℤ, pos, [], false, true, List, IfOk, IfSome};
ghost use Rattle.ext_int.specs.Valuation.{value_at};
ghost use Rattle.num_api.specs.Ranges.{InRange};
ghost use Rattle.pointsets.specs.Targets.{Among};
ghost use Rattle.block_mem.specs.Bytes.{size_of as size_of_scalar};
ghost use Rattle.block_mem.specs.declared.types.Scalar.TheVariants as scalars;
ghost use Rattle.machine_nums.specs.Machines.{Admits};
ghost use Rattle.mem_cell_bytes.specs.Cells.{var_of};
ghost use Rattle.mem_cell_bytes.specs.Fills.{IsProperFill};
ghost use Rattle.mem_cell_bytes.specs.declared.entry.FillByte.TheVariants as fills;
ghost use Rattle.mem_cell_loads.specs.declared.found.Found.TheVariants as founds;
ghost use Rattle.mem_cell_loads.specs.Found.{AreMarksAt, IsFound, IsRangeAt, IsReadingAt, IsSetAt, loaded_targets};

use crate::found::{Found, cell_variable, find, scalar_size};
use crate::numbers::{number_of, number_range};
use block_mem::Scalar;
use c_syntax::IntType;
use ext_int::Ext;
use machine_nums::MExpr;
use mem_cell_bytes::{Entry, FillByte, SharedSet};
use mem_cell_exprs::Known;
use num_api::{NumDomain, Range};
use pointsets::{Base, Targets};
use std::alloc::{AllocError as NoMemory, Global};

/// What bytes may be that a load reads: without a value somewhere, a value of the type, or neither.
#[derive(Clone, Copy)]
pub struct Marks {
    pub undef: bool,
    pub value: bool,
    pub broken: bool,
}

/// What a load may find: numbers, which of pointers are their offsets; what a pointer may point to, where it is known; and
/// what its bytes may be.
#[derive(Drop)]
pub struct Reading {
    pub range: Range,
    pub set: Option<SharedSet>,
    pub marks: Marks,
}

// Whether a range has no number but 0.
fn is_zero(range: Range) -> bool
    ensures { result ≡ true → (n : ℤ) → InRange range n → n ≡ pos 0 }
{
    match (range.lo, range.hi) {
        (Ext::Fin(low), Ext::Fin(high)) => low == 0 && high == 0,
        _ => false,
    }
}

// Whether the number of a cell is known to be 0.
fn is_cell_zero<D: NumDomain>(known: &Known<D>, object: u64, e: &Entry) -> Result<bool, NoMemory>
    ensures { IfOk result (λ zero. zero ≡ true → (v : List ℤ) → Admits D.admits known.now.nums v → value_at v (var_of object e.now) ≡ pos 0) }
{
    let Some(x) = cell_variable(object, e) else {
        return Ok(false);
    };
    let (range, _class) = known.nums.check_range(&MExpr::Read(x, IntType::Long))?;
    Ok(is_zero(range))
}

// What bytes of a cell may be that are read as an integer.
fn int_marks(e: &Entry) -> Marks
    ensures undef { e.now.undef ≡ true → result.undef ≡ true }
    ensures value { e.now.value ≡ true → result.value ≡ true }
    ensures broken { result.broken ≡ false → e.now.targets ≡ Among [] false false }
{
    Marks {
        undef: e.undef,
        value: e.value,
        broken: !e.targets.is_none(),
    }
}

// What the bytes of a cell may be that are read as a pointer: a number is null where it is 0, and else no pointer.
fn pointer_marks(e: &Entry, zero: bool) -> Marks
    ensures undef { e.now.undef ≡ true → result.undef ≡ true }
    ensures value { result.value ≡ true }
    ensures broken { result.broken ≡ false → e.now.value ≡ true → zero ≡ true }
{
    Marks {
        undef: e.undef,
        value: true,
        broken: e.value && !zero,
    }
}

// What some bytes of a cell may be.
fn cell_marks<D: NumDomain>(
    known: &Known<D>,
    object: u64,
    at: u64,
    ty: Scalar,
    e: &Entry,
) -> Result<Marks, NoMemory>
    ensures { IfOk result (λ marks. IsFound known.now.grid object at (size_of_scalar ty) (founds.Cell e.now) → AreMarksAt D.admits known.now object at ty marks) }
{
    match ty {
        Scalar::Int(_) => Ok(int_marks(e)),
        Scalar::Pointer => {
            let zero = is_cell_zero(known, object, e)?;
            Ok(pointer_marks(e, zero))
        }
    }
}

// A byte has eight bits.
fn has_eight_bits(byte: u8) -> bool
    ensures value { result ≡ true }
    ensures bits { byte < 256 }
{
    byte <= u8::MAX
}

// A byte of a stretch has eight bits.
fn proper(x: FillByte) -> FillByte
    ensures same { result ≡ x }
    ensures bits { IsProperFill x }
{
    match x {
        FillByte::Undef => x,
        FillByte::Num(byte) => {
            let _bits = has_eight_bits(byte);
            x
        }
    }
}

// What equal bytes may be.
fn marks_of_fill(x: FillByte) -> Marks
    ensures undef { x ≡ fills.Undef → result.undef ≡ true }
    ensures value { (d : ℕ) → x ≡ fills.Num d → result.value ≡ true }
    ensures broken { (d : ℕ) → x ≡ fills.Num d → result.broken ≡ false → d ≡ 0 }
{
    match x {
        FillByte::Undef => Marks {
            undef: true,
            value: false,
            broken: false,
        },
        FillByte::Num(byte) => Marks {
            undef: false,
            value: true,
            broken: byte != 0,
        },
    }
}

// What equal bytes of an object may be.
fn fill_marks<D: NumDomain>(
    known: &Known<D>,
    object: u64,
    at: u64,
    ty: Scalar,
    x: FillByte,
) -> Marks
    ensures { IsFound known.now.grid object at (size_of_scalar ty) (founds.Fill x) → AreMarksAt D.admits known.now object at ty result }
{
    let _alloc = known.alloc;
    let _place = (object, at, ty);
    marks_of_fill(proper(x))
}

// What bytes may be of which so much is known.
fn marks_of<D: NumDomain>(
    known: &Known<D>,
    object: u64,
    at: u64,
    ty: Scalar,
    found: &Found,
) -> Result<Marks, NoMemory>
    ensures { IfOk result (λ marks. IsFound known.now.grid object at (size_of_scalar ty) found.now → AreMarksAt D.admits known.now object at ty marks) }
{
    match found {
        Found::Cell(e) => cell_marks(known, object, at, ty, e),
        Found::Fill(x) => Ok(fill_marks(known, object, at, ty, *x)),
        Found::Nothing => Ok(Marks {
            undef: true,
            value: true,
            broken: true,
        }),
    }
}

// What a pointer may point to that is read from a cell: null is the number 0.
fn cell_set(alloc: Global, e: &Entry) -> Result<SharedSet, NoMemory>
    ensures { IfOk result (λ s. s ≡ loaded_targets e.now) }
{
    if !e.value {
        return e.targets.share();
    }
    let mut set = e.targets.to_targets(alloc);
    set.with(Base::Null);
    SharedSet::of(alloc, set)
}

// The set of null.
fn null_set(alloc: Global) -> Result<SharedSet, NoMemory>
    ensures { IfOk result (λ s. s ≡ Among [] true false) }
{
    let mut set = Targets::new(alloc);
    set.with(Base::Null);
    SharedSet::of(alloc, set)
}

// What a pointer may point to that is read from equal bytes.
fn fill_set<D: NumDomain>(
    known: &Known<D>,
    object: u64,
    at: u64,
    x: FillByte,
) -> Result<SharedSet, NoMemory>
    ensures { IfOk result (λ s. IsFound known.now.grid object at 8 (founds.Fill x) → IsSetAt D.admits known.now object at scalars.Pointer s) }
{
    let _place = (object, at);
    let _proper = proper(x);
    null_set(known.alloc)
}

// What a pointer may point to that is read from bytes of which so much is known.
fn set_of<D: NumDomain>(
    known: &Known<D>,
    object: u64,
    at: u64,
    found: &Found,
) -> Result<Option<SharedSet>, NoMemory>
    ensures { IfOk result (λ set. IfSome set (λ s. IsFound known.now.grid object at 8 found.now → IsSetAt D.admits known.now object at scalars.Pointer s)) }
{
    match found {
        Found::Cell(e) => Ok(Some(cell_set(known.alloc, e)?)),
        Found::Fill(x) => Ok(Some(fill_set(known, object, at, *x)?)),
        Found::Nothing => Ok(None),
    }
}

// What a value may point to that is read from bytes of which so much is known.
fn set_at<D: NumDomain>(
    known: &Known<D>,
    object: u64,
    at: u64,
    ty: Scalar,
    found: &Found,
) -> Result<Option<SharedSet>, NoMemory>
    ensures { IfOk result (λ set. IfSome set (λ s. IsFound known.now.grid object at (size_of_scalar ty) found.now → IsSetAt D.admits known.now object at ty s)) }
{
    match ty {
        Scalar::Int(_) => Ok(None),
        Scalar::Pointer => set_of(known, object, at, found),
    }
}

// A range of the numbers that a load gives of what is known of its bytes.
fn range_of<D: NumDomain>(
    known: &Known<D>,
    object: u64,
    at: u64,
    ty: Scalar,
    found: &Found,
) -> Result<Range, NoMemory>
    ensures { IfOk result (λ r. IsFound known.now.grid object at (size_of_scalar ty) found.now → IsRangeAt D.admits known.now object at ty r) }
{
    match number_of(known, object, at, ty, found)? {
        Some(m) => number_range(known, m),
        None => Ok(Range::all()),
    }
}

/// What a load may find at a place of an object.
pub fn reading_at<D: NumDomain>(
    known: &Known<D>,
    object: u64,
    at: u64,
    ty: Scalar,
) -> Result<Reading, NoMemory>
    ensures { IfOk result (λ r. IsReadingAt D.admits known.now object at ty r) }
{
    let found = find(&known.grid, object, at, scalar_size(ty))?;
    let range = range_of(known, object, at, ty, &found)?;
    let set = set_at(known, object, at, ty, &found)?;
    let marks = marks_of(known, object, at, ty, &found)?;
    Ok(Reading { range, set, marks })
}
