// What shows one operand alone.
ghost use Rattle.std.specs.Prelude.{◌≡◌, ◌↔◌, IfOk, IsTrue, Some};
ghost use Rattle.c_syntax.specs.Admission.{IsModerate, IsProper};
ghost use Rattle.csharp_state.specs.Answers.{end_of, mark_of, operand_of};
ghost use Rattle.mem_intervals.specs.AloneOr.{alone_of, end_alone, mark_alone, nowhere, set_alone, IsAloneOr, IsShowable, IsShowableSpot};

use crate::membership::is_shown;
use c_syntax::{Numbers, Pointers, Shown, Spot};
use csharp_state::{CallEnd, LoadMark, Operand};
use std::alloc::{AllocError as NoMemory, Global};

// The greatest size of a number that is shown.
const MODERATE: i128 = 1 << 126;

// Whether a number may be shown.
fn is_moderate(n: i128) -> bool
    ensures { IsTrue result ↔ IsModerate (Some n) }
{
    -MODERATE <= n && n <= MODERATE
}

fn is_showable_spot(spot: Spot) -> bool
    ensures { IsTrue result ↔ IsShowableSpot spot }
{
    match spot {
        Spot::At(_, offset) => is_moderate(offset),
        Spot::Null | Spot::Dead => true,
    }
}

// Whether the numbers of an operand may be shown.
fn is_showable(operand: Operand) -> bool
    ensures { IsTrue result ↔ IsShowable (operand_of operand) }
{
    match operand {
        Operand::Number(n) => is_moderate(n),
        Operand::Point(spot) => is_showable_spot(spot),
        Operand::Points(first, second) => is_showable_spot(first) && is_showable_spot(second),
        Operand::Mark(_) | Operand::End(_) => true,
    }
}

// The set of one spot.
fn set_of(alloc: Global, spot: Spot) -> Result<Pointers, NoMemory>
    ensures { IfOk result (λ set. set ≡ set_alone spot) }
{
    match spot {
        Spot::Null => Ok(nowhere(alloc, true, false)),
        Spot::Dead => Ok(nowhere(alloc, false, true)),
        Spot::At(object, offset) => {
            let names = vec![in alloc; object; 1]?;
            Ok(Pointers {
                any: false,
                null: false,
                dead: false,
                names: Numbers::from_vec(names),
                lo: Some(offset),
                hi: Some(offset),
                modulus: 0,
                rem: offset,
            })
        }
    }
}

// Null pointers, or those to objects that have ended.
fn nowhere(alloc: Global, null: bool, dead: bool) -> Pointers
    ensures { result ≡ nowhere null dead }
{
    Pointers {
        any: false,
        null,
        dead,
        names: Numbers::new(alloc),
        lo: None,
        hi: None,
        modulus: 1,
        rem: 0,
    }
}

fn mark(mark: LoadMark) -> Shown
    ensures { result ≡ mark_alone (mark_of mark) }
{
    match mark {
        LoadMark::Undef => marks(true, false, false),
        LoadMark::HasValue => marks(false, true, false),
        LoadMark::Broken => marks(false, false, true),
    }
}

fn marks(undef: bool, value: bool, broken: bool) -> Shown
    ensures { result ≡ Shown.Marks undef value broken }
{
    Shown::Marks {
        undef,
        value,
        broken,
    }
}

fn end(end: CallEnd) -> Shown
    ensures { result ≡ end_alone (end_of end) }
{
    match end {
        CallEnd::Value => Shown::Ends {
            value: true,
            none: false,
        },
        CallEnd::Nothing => Shown::Ends {
            value: false,
            none: true,
        },
    }
}

// What shows the operand and nothing else.
fn alone(alloc: Global, operand: Operand) -> Result<Shown, NoMemory>
    ensures { IfOk result (λ w. w ≡ alone_of (operand_of operand)) }
{
    match operand {
        Operand::Number(n) => Ok(Shown::Number {
            lo: Some(n),
            hi: Some(n),
            modulus: 0,
            rem: n,
        }),
        Operand::Point(spot) => Ok(Shown::One(set_of(alloc, spot)?)),
        Operand::Points(first, second) => {
            let first = set_of(alloc, first)?;
            let second = set_of(alloc, second)?;
            Ok(Shown::Pair(first, second))
        }
        Operand::Mark(load) => Ok(mark(load)),
        Operand::End(call) => Ok(end(call)),
    }
}

/// The operand alone, where it is one of those shown in a program with so many objects, and else what was shown. Where
/// its number is too large to be shown, which no typed run has, it gives up as if out of memory.
pub fn alone_or(
    alloc: Global,
    shown: Shown,
    count: u64,
    operand: Operand,
) -> Result<Shown, NoMemory>
    requires { IsProper shown }
    ensures { IfOk result (λ r. IsAloneOr count shown (operand_of operand) r) }
{
    if !is_shown(&shown, count, operand) {
        return Ok(shown);
    }
    if !is_showable(operand) {
        return Err(NoMemory);
    }
    alone(alloc, operand)
}
