// Whether an operand fails a check.
ghost use Rattle.std.specs.Prelude.{◌≡◌, ◌+ℤ◌, ◌-ℤ◌, ◌||◌, FitsSigned, int_lt, map, not, pos};
ghost use Rattle.std.specs.Int.{w64};
ghost use Rattle.c_syntax.specs.Types.{object_tree};
ghost use Rattle.c_syntax.specs.Failing as failing;
ghost use Rattle.c_values.specs.Typed.{IsNear};
ghost use Rattle.csharp_state.specs.Answers.{AreNear, operand_of};

use crate::sight::{CallEnd, LoadMark, Operand};
use c_syntax::{Check, Object, Spot, WrongKind};

/// Whether the operand fails the check.
pub fn fails(objects: &[Object], check: &Check, operand: Operand) -> bool
    requires { AreNear operand }
    ensures { result ≡ failing.fails (map object_tree objects.now) check.now (operand_of operand) }
{
    match check.kind {
        WrongKind::Overflow
        | WrongKind::Quotient
        | WrongKind::ShiftAmount
        | WrongKind::ShiftResult => is_outside(check.lo, check.hi, operand),
        WrongKind::DivideByZero | WrongKind::AssertFailed => is_zero(operand),
        WrongKind::Indeterminate => matches!(operand, Operand::Mark(LoadMark::Undef)),
        WrongKind::Fragment => matches!(operand, Operand::Mark(LoadMark::Broken)),
        WrongKind::NoValue => matches!(operand, Operand::End(CallEnd::Nothing)),
        WrongKind::NullUse => has_null(operand),
        WrongKind::Dangling => has_dead(operand),
        WrongKind::Bounds => is_out_of_bounds(objects, operand),
        WrongKind::Access => is_outside_access(objects, check.size, operand),
        WrongKind::Alignment => is_askew(objects, check.align, operand),
        WrongKind::ReadOnly => is_read_only(objects, operand),
        WrongKind::Unrelated => is_unrelated(objects, check.size, operand),
    }
}

fn is_outside(lo: i128, hi: i128, operand: Operand) -> bool
    ensures { result ≡ failing.is_number_outside lo hi (operand_of operand) }
{
    match operand {
        Operand::Number(n) => n < lo || hi < n,
        _ => false,
    }
}

fn is_zero(operand: Operand) -> bool
    ensures { result ≡ failing.is_zero (operand_of operand) }
{
    match operand {
        Operand::Number(n) => n == 0,
        _ => false,
    }
}

fn has_null(operand: Operand) -> bool
    ensures { result ≡ failing.any_spot failing.is_null_spot (operand_of operand) }
{
    match operand {
        Operand::Point(spot) => is_null(spot),
        Operand::Points(left, right) => is_null(left) || is_null(right),
        _ => false,
    }
}

fn has_dead(operand: Operand) -> bool
    ensures { result ≡ failing.any_spot failing.is_dead_spot (operand_of operand) }
{
    match operand {
        Operand::Point(spot) => is_dead(spot),
        Operand::Points(left, right) => is_dead(left) || is_dead(right),
        _ => false,
    }
}

fn is_null(spot: Spot) -> bool
    ensures { result ≡ failing.is_null_spot spot }
{
    matches!(spot, Spot::Null)
}

fn is_dead(spot: Spot) -> bool
    ensures { result ≡ failing.is_dead_spot spot }
{
    matches!(spot, Spot::Dead)
}

// The offset is below 0 or above the object's size.
fn is_out_of_bounds(objects: &[Object], operand: Operand) -> bool
    ensures { result ≡ failing.is_at (map object_tree objects.now) (λ object d. failing.is_outside (pos 0) (pos object.size) d) (operand_of operand) }
{
    match operand {
        Operand::Point(Spot::At(object, offset)) => match objects.get(object as usize) {
            Some(object) => offset < 0 || i128::from(object.size) < offset,
            None => false,
        },
        _ => false,
    }
}

// Some of so many bytes lie outside of the object.
fn is_outside_access(objects: &[Object], size: u64, operand: Operand) -> bool
    ensures { result ≡ failing.is_at (map object_tree objects.now)
        (λ object d. int_lt d (pos 0) || int_lt (pos object.size) (d +ℤ pos size)) (operand_of operand) }
{
    match operand {
        Operand::Point(Spot::At(object, offset)) => match objects.get(object as usize) {
            Some(object) => { offset < 0 || i128::from(object.size) - i128::from(size) < offset }
            None => false,
        },
        _ => false,
    }
}

// The offset is no multiple of the alignment.
fn is_askew(objects: &[Object], align: u64, operand: Operand) -> bool
    ensures { result ≡ failing.is_at (map object_tree objects.now) (λ object d. not (failing.is_multiple align d)) (operand_of operand) }
{
    match operand {
        Operand::Point(Spot::At(object, offset)) => match objects.get(object as usize) {
            Some(_) => !is_multiple(align, offset),
            None => false,
        },
        _ => false,
    }
}

fn is_read_only(objects: &[Object], operand: Operand) -> bool
    ensures { result ≡ failing.is_at (map object_tree objects.now) (λ object d. object.read_only) (operand_of operand) }
{
    match operand {
        Operand::Point(Spot::At(object, _)) => match objects.get(object as usize) {
            Some(object) => object.read_only,
            None => false,
        },
        _ => false,
    }
}

// The number is a multiple of the size; of 0 only 0 is.
fn is_multiple(size: u64, n: i128) -> bool
    ensures { result ≡ failing.is_multiple size n }
{
    if size == 0 {
        n == 0
    } else {
        n.unsigned_abs() % u128::from(size) == 0
    }
}

// Two offsets of pointers lie a multiple of the size apart.
fn is_stride(size: u64, offset: i128, place: i128) -> bool
    requires offset { FitsSigned w64 offset }
    requires place { FitsSigned w64 place }
    ensures { result ≡ failing.is_multiple size (offset -ℤ place) }
{
    let apart = offset - place;
    is_multiple(size, apart)
}

// Two objects, or two offsets, that a comparison or a difference must not have.
fn is_unrelated(objects: &[Object], size: u64, operand: Operand) -> bool
    requires { AreNear operand }
    ensures { result ≡ failing.is_unrelated (map object_tree objects.now) size (operand_of operand) }
{
    match operand {
        Operand::Points(Spot::At(object, offset), Spot::At(other, place)) => {
            if size == 0 {
                object != other
                    && (is_end(objects, object, offset) || is_end(objects, other, place))
            } else {
                object != other || !is_stride(size, offset, place)
            }
        }
        _ => false,
    }
}

// The offset is one past the end of the object.
fn is_end(objects: &[Object], object: u64, offset: i128) -> bool
    ensures { result ≡ failing.is_end_of (map object_tree objects.now) object offset }
{
    match objects.get(object as usize) {
        Some(object) => offset == i128::from(object.size),
        None => false,
    }
}
