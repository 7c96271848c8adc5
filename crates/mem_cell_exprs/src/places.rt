// Pointers: what they may point to, and their offset.
#![tactic(auto, using(csharp::proofs::CodeTrees::the_code_trees, machine_nums::proofs::Trees::mexpr_trees))]

ghost use Rattle.std.specs.Prelude.{◌≡◌, ℤ, pos, List, [], false, IfOk, IfSome, IsTrue, Some, option_map};
ghost use Rattle.c_syntax_written.specs.declared.int_type.IntType.TheVariants as ints;
ghost use Rattle.c_syntax_written.specs.Integer.{HasNumber};
ghost use Rattle.machine_nums.specs.MExprs.{mexpr_tree};
ghost use Rattle.machine_nums.specs.Machine.{exact_value};
ghost use Rattle.machine_nums.specs.Machines.{Admits};
ghost use Rattle.csharp.specs.Trees.{csexpr_tree};
ghost use Rattle.csharp.specs.Trees as code;
ghost use Rattle.machine_nums.specs.MExprs as numbers;
ghost use Rattle.pointsets.specs.Targets.{Among, with_base};
ghost use Rattle.num_api.specs.Value.{binary_value};
ghost use Rattle.mem_cell_exprs.specs.Known.{IsMoved, IsMovedPlace, IsPlaceFor, moved_by};

use crate::Known;
use crate::numbers::{number, temp_variable};
use c_syntax::{IntType, TBinaryOp};
use csharp::CsExpr;
use machine_nums::{MExpr, Machine, lies_in};
use mem_cell_bytes::SharedSet;
use num_api::{NOp, NumDomain};
use pointsets::{Base, Targets};
use std::alloc::{AllocError as NoMemory, Global};

/// What a pointer may point to, and its offset, where it is known: 0 for null.
#[derive(Drop)]
pub struct Place {
    pub set: SharedSet,
    pub offset: Option<MExpr>,
}

// The set of one base.
fn only(alloc: Global, b: Base) -> Result<SharedSet, NoMemory>
    ensures { IfOk result (λ s. s ≡ with_base (Among [] false false) b) }
{
    let mut set = Targets::new(alloc);
    set.with(b);
    SharedSet::of(alloc, set)
}

// A base at offset 0.
fn at_start(alloc: Global, b: Base) -> Result<Place, NoMemory>
    ensures set { IfOk result (λ p. p.set ≡ with_base (Among [] false false) b) }
    ensures offset { IfOk result (λ p. option_map mexpr_tree p.offset ≡ Some (numbers.Const ints.Long (pos 0))) }
{
    Ok(Place {
        set: only(alloc, b)?,
        offset: Some(MExpr::Const(IntType::Long, 0)),
    })
}

/// Whether the exact result of an expression is known to be a long.
pub fn is_long<D: NumDomain>(nums: &Machine<D>, m: &MExpr) -> Result<bool, NoMemory>
    ensures { IfOk result (λ yes. IsTrue yes → (v : List ℤ) (n : ℤ) → Admits D.admits nums.now v → exact_value v (mexpr_tree m.now) ≡ Some n → HasNumber ints.Long n) }
{
    let (range, _class) = nums.check_range(m)?;
    Ok(lies_in(range, IntType::Long))
}

// The operator that moves an offset, forward or back.
fn way_of(back: bool) -> NOp
    ensures { (k by : ℤ) → binary_value result k by ≡ Some (moved_by back k by) }
{
    if back { NOp::Sub } else { NOp::Add }
}

// An offset that is moved by so many elements, forward or back, where no step of the sum can wrap.
fn moved_offset<D: NumDomain>(
    known: &Known<D>,
    offset: MExpr,
    element: u64,
    index: MExpr,
    back: bool,
) -> Result<Option<MExpr>, NoMemory>
    ensures { IfOk result (λ found. IfSome found (λ m. IsMoved (Admits D.admits known.now.nums) element back (mexpr_tree offset) (mexpr_tree index) (mexpr_tree m))) }
{
    if element > IntType::Long.greatest() {
        return Ok(None);
    }
    let size = Box::new(
        known.alloc,
        MExpr::Const(IntType::Long, i128::from(element)),
    )?;
    let index = Box::new(known.alloc, index)?;
    let bytes = MExpr::Binary(NOp::Mul, IntType::Long, size, index);
    if !is_long(&known.nums, &bytes)? {
        return Ok(None);
    }
    let way = way_of(back);
    let from = Box::new(known.alloc, offset)?;
    let by = Box::new(known.alloc, bytes)?;
    let sum = MExpr::Binary(way, IntType::Long, from, by);
    if !is_long(&known.nums, &sum)? {
        return Ok(None);
    }
    Ok(Some(sum))
}

// A pointer that is moved by so many elements, forward or back. Null stays null, so the offset of a pointer that may be
// null is not known.
fn moved<D: NumDomain>(
    known: &Known<D>,
    from: Place,
    element: u64,
    index: &CsExpr,
    back: bool,
) -> Result<Place, NoMemory>
    ensures set { IfOk result (λ p. p.set ≡ from.set) }
    ensures offset { IfOk result (λ p. IsMovedPlace (Admits D.admits known.now.nums) known.now.types (csexpr_tree index.now) element back from.set
        (option_map mexpr_tree from.offset) (option_map mexpr_tree p.offset)) }
{
    let set = from.set;
    if set.holds(Base::Null) {
        return Ok(Place { set, offset: None });
    }
    let Some(by) = number(known.alloc, known.types.as_slice(), index)? else {
        return Ok(Place { set, offset: None });
    };
    match from.offset {
        Some(offset) => {
            let to = moved_offset(known, offset, element, by, back)?;
            Ok(Place { set, offset: to })
        }
        None => Ok(Place { set, offset: None }),
    }
}

// What a temporary may point to, where it is known.
fn temporary<D: NumDomain>(known: &Known<D>, temp: u64) -> Result<Option<Place>, NoMemory>
    ensures { IfOk result (λ found. IfSome found (λ p. IsPlaceFor D.admits known.now (code.Temp temp) p.set (option_map mexpr_tree p.offset))) }
{
    let types = known.types.as_slice();
    if temp >= types.len() as u64 {
        return Ok(None);
    }
    let Some(set) = known.pointers.get(temp) else {
        return Ok(None);
    };
    let set = set.share()?;
    let offset = MExpr::Read(temp_variable(types, temp), IntType::Long);
    if is_long(&known.nums, &offset)? {
        return Ok(Some(Place {
            set,
            offset: Some(offset),
        }));
    }
    Ok(Some(Place { set, offset: None }))
}

/// What an expression may point to, and its offset, where it is known; `None` where nothing is known of it.
pub fn pointer<D: NumDomain>(known: &Known<D>, e: &CsExpr) -> Result<Option<Place>, NoMemory>
    ensures { IfOk result (λ found. IfSome found (λ p. IsPlaceFor D.admits known.now (csexpr_tree e.now) p.set (option_map mexpr_tree p.offset))) }
{
    match e {
        CsExpr::Null => Ok(Some(at_start(known.alloc, Base::Null)?)),
        CsExpr::Address { object } => Ok(Some(at_start(known.alloc, Base::Object(*object))?)),
        CsExpr::Temp { temp } => temporary(known, *temp),
        CsExpr::Binary { op, left, right } => match op {
            TBinaryOp::PointerPlusInt { element } => match pointer(known, left)? {
                Some(from) => Ok(Some(moved(known, from, *element, right, false)?)),
                None => Ok(None),
            },
            TBinaryOp::IntPlusPointer { element } => match pointer(known, right)? {
                Some(from) => Ok(Some(moved(known, from, *element, left, false)?)),
                None => Ok(None),
            },
            TBinaryOp::PointerMinusInt { element } => match pointer(known, left)? {
                Some(from) => Ok(Some(moved(known, from, *element, right, true)?)),
                None => Ok(None),
            },
            TBinaryOp::Arithmetic(_, _)
            | TBinaryOp::Shift(_, _)
            | TBinaryOp::CompareInts(_, _)
            | TBinaryOp::ComparePointers(_)
            | TBinaryOp::PointerMinusPointer { .. } => Ok(None),
        },
        CsExpr::Const { .. } | CsExpr::Unary { .. } | CsExpr::Convert { .. } => Ok(None),
    }
}
